//! Putting writes onto a machine by their steps.
ghost use Rattle.std.specs.Prelude.{◌≡◌, map};
ghost use Rattle.pci_plan.specs.Comparing.{moment};
ghost use Rattle.pci_plan.specs.Writes.{write_value};
ghost use Rattle.pci_plan.specs.Applying.{IsApplied};
ghost use Rattle.pci_plan.specs.Steps.{all_shown};

use super::apply_fault::ApplyFault;
use super::moving::Move;
use super::write::Write;
use crate::run::run;
use pci_machine::port::ConfigPort;
use std::alloc::Allocator;

/// Puts the writes of a plan, or of settling, onto the machine behind a port, by their steps. `compares` is what `start_of`
/// makes of the blocks that they start from.
///
/// # Errors
///
/// They are those of `apply` of `pci_plan`, whose contract holds here too.
pub fn apply_by_steps<P: ConfigPort, A: Allocator>(
    port: &mut P,
    moving: &Move<'_, A>,
    compares: &[Write],
) -> Result<(), ApplyFault>
    // made by the caller, so that nothing is allocated here
    requires { map write_value compares.now ≡ all_shown moving.now.start.dump }
    ensures { IsApplied moving.now (moment (P.targets port.old) (P.failures port.old))
        (moment (P.targets port.new) (P.failures port.new)) result }
{
    // Read for what it says of each move.
    let _start = moving.start();
    run(port, compares, moving.writes())
}
