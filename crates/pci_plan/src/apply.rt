//! Putting writes onto a machine that may fail.
ghost use Rattle.pci_plan.specs.Comparing.{moment};
ghost use Rattle.pci_plan.specs.Applying.{IsApplied};

use super::apply_fault::ApplyFault;
use super::compare::compare;
use super::make::make;
use super::moving::Move;
use pci_machine::port::ConfigPort;
use std::alloc::Allocator;

/// Puts the writes of a plan, or of settling, onto the machine behind a port.
///
/// It reads Command and every address register of every function, the lowest slot first, Command before the address
/// registers by rising offset, and compares them with what the writes start from. Then it makes the writes in order and
/// reads each one back. It takes no memory.
///
/// # Errors
///
/// 80 `Changed`: a register isn't as the writes start from; nothing was written. 81 `Port`: an access failed, or a function
/// isn't there; exactly the first `done` writes were made. 82 `Stuck`: the last of the first `done` writes reads back
/// otherwise; no more were made. The writes before the last one read back as they were written.
///
/// From a sound start, over functions that have just the writable bits that header and probe give them, a sound system is
/// left whatever is answered.
pub fn apply<P: ConfigPort, A: Allocator>(
    port: &mut P,
    moving: &Move<'_, A>,
) -> Result<(), ApplyFault>
    ensures { IsApplied moving.now (moment (P.targets port.old) (P.failures port.old))
        (moment (P.targets port.new) (P.failures port.new)) result }
{
    compare(port, moving.start().dump().blocks())?;
    make(port, moving.writes())
}
