//! Faults of functions by themselves, one function after another.
ghost use Rattle.std.specs.Prelude.{◌≡◌, map, OnOk, IfOk};
ghost use Rattle.std.specs.List.{Contains};
ghost use Rattle.pci_spec.specs.Text.{IsDump, slots_of};
ghost use Rattle.pci_spec.specs.System.{Function, function_of, system_of};
ghost use Rattle.pci_spec.specs.Fault as faults;
ghost use Rattle.pci_function.specs.Fault.{fault_of};
ghost use Rattle.pci_faults.specs.Lists.{AreJust};
ghost use Rattle.pci_faults.specs.OwnLines.{HasNoneBefore, IsBeforeAt, IsOwnLine, IsOwnOf};
ghost use Rattle.pci_faults.specs.Phases.{own_phase_number, IsAdding};

use super::found::add_told;
use super::identity::identity_faults;
use super::profile::profile_faults;
use super::registers::decoding_faults;
use pci_base::memory::OutOfMemory;
use pci_dump::block::Block;
use pci_function::fault::Fault;
use std::alloc::Allocator;

/// The phases whose faults are those of one function by itself.
#[derive(Clone, Copy, Debug, PartialEq, Eq)]
pub enum OwnPhase {
    /// Its identity and its probe: 20, 21 and 31.
    Identity,
    /// Its registers and its capabilities list: 22 to 29.
    Decoding,
    /// Its profile: 51 to 56.
    Profile,
}

/// Puts what a function has of a phase behind a list's faults.
fn add_function<A: Allocator>(
    found: &mut Vec<Fault, A>,
    phase: OwnPhase,
    block: &Block,
    probe: &Block,
) -> Result<(), OutOfMemory>
    requires { HasNoneBefore (own_phase_number phase) (function_of block.now probe.now) }
    ensures { OnOk result (IsAdding (own_phase_number phase) (function_of block.now probe.now)
        (map fault_of found.old.items) (map fault_of found.new.items)) }
{
    let slot = block.slot;
    match phase {
        OwnPhase::Identity => {
            let faults = identity_faults(slot, &block.image, &probe.image);
            add_told(found, faults.as_slice())
        }
        OwnPhase::Decoding => {
            let faults = decoding_faults(slot, &block.image, &probe.image);
            add_told(found, faults.as_slice())
        }
        OwnPhase::Profile => {
            let faults = profile_faults(slot, &block.image);
            add_told(found, faults.as_slice())
        }
    }
}

/// What the functions of a dump and its probe have of a phase, where none has one of an earlier phase.
pub fn function_faults<A: Allocator>(
    alloc: A,
    phase: OwnPhase,
    dump: &[Block],
    probe: &[Block],
) -> Result<Vec<Fault, A>, OutOfMemory>
    // the functions of both stand at the same places
    requires dump { IsDump dump.now }
    requires probe { IsDump probe.now }
    requires same { slots_of dump.now ≡ slots_of probe.now }
    // a fault of an earlier phase leaves nothing to be decoded
    requires none { (f : Function) → Contains (system_of dump.now probe.now) f
        → HasNoneBefore (own_phase_number phase) f }
    ensures { IfOk result (λ found. AreJust (IsBeforeAt (system_of dump.now probe.now))
        (IsOwnOf (IsOwnLine (own_phase_number phase)) (system_of dump.now probe.now))
        (map fault_of found.items)) }
{
    let mut found = Vec::new(alloc);
    for i in 0..dump.len() {
        add_function(&mut found, phase, &dump[i], &probe[i])?;
    }
    Ok(found)
}
