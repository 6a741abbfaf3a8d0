//! A dump and its probe: the same functions, each of a known kind, and read backs in address
//! registers alone.
ghost use Rattle.std.specs.Prelude.{◌≡◌, ◌≤◌, ℕ, List, IfSome, IfNone, IfErr, OnOk};
ghost use Rattle.pci_spec.specs.Slot.{IsRising};
ghost use Rattle.pci_spec.specs.Text.{slots_of};
ghost use Rattle.pci_spec.specs.Fault.{IsInOne, IsThere};
ghost use Rattle.pci_spec.specs.Order.{phase_of, IsFirstThere};
ghost use Rattle.pci_function.specs.Fault.{fault_of};
ghost use Rattle.pci_tree.specs.Pair.{IsNoneBelow, IsPair};

use pci_base::slot::Slot;
use pci_dump::block::Block;
use pci_dump::dump::Dump;
use pci_function::fault::{Fault, PairFault};
use pci_function::profile::identity_fault;
use std::alloc::Allocator;

/// The least slot that one of two lists of blocks has and the other doesn't: the smaller of the two
/// slots at the first place where they differ, or the one that one list alone has there. None where
/// both have the same slots.
pub fn first_difference(dump: &[Block], probe: &[Block]) -> Option<Slot>
    // where both rise, the first place at which they differ has the least such slot
    requires dump { IsRising (slots_of dump.now) }
    requires probe { IsRising (slots_of probe.now) }
    // then the functions of both are paired by their index
    ensures none { IfNone result (slots_of dump.now ≡ slots_of probe.now) }
    ensures some { IfSome result (IsInOne dump.now probe.now) }
    ensures least { IfSome result (IsNoneBelow dump.now probe.now) }
{
    let shared = dump.len().min(probe.len());
    for i in 0..shared {
        let ours = &dump[i];
        let theirs = &probe[i];
        if ours.slot.number() < theirs.slot.number() {
            return Some(ours.slot);
        }
        if theirs.slot.number() < ours.slot.number() {
            return Some(theirs.slot);
        }
    }
    if shared < dump.len() {
        let next = &dump[shared];
        return Some(next.slot);
    }
    if shared < probe.len() {
        let next = &probe[shared];
        return Some(next.slot);
    }
    None
}

/// Whether a dump and a probe are a pair.
///
/// Errors, in the order in which they are looked for: 30 `SlotsDiffer`; then by function 20
/// `NoVendor`, 21 `HeaderKind` and 31 `StrayProbe` with the first such offset.
pub fn pair<A: Allocator, B: Allocator>(dump: &Dump<A>, probe: &Dump<B>) -> Result<(), PairFault>
    // whatever the roots are: a pair is looked at before any bus is
    ensures ok { OnOk result ((roots : List ℕ) → IsPair roots dump.now probe.now) }
    // 30, 20, 21 or 31: no register was decoded yet
    ensures kind { IfErr result (λ fault. phase_of (fault_of fault) ≤ 1) }
    ensures there { IfErr result
        (λ fault. (roots : List ℕ) → IsThere roots dump.now probe.now (fault_of fault)) }
    ensures first { IfErr result
        (λ fault. (roots : List ℕ) → IsFirstThere roots dump.now probe.now (fault_of fault)) }
{
    let blocks = dump.blocks();
    let probes = probe.blocks();
    match first_difference(blocks, probes) {
        Some(slot) => return Err(Fault::SlotsDiffer(slot)),
        None => {}
    }
    for i in 0..blocks.len() {
        let block = &blocks[i];
        let read_backs = &probes[i];
        match identity_fault(block.slot, &block.image, &read_backs.image) {
            Some(fault) => return Err(fault),
            None => {}
        }
    }
    Ok(())
}
