//! The least slot that only one of dump and sizes lists.
ghost use Rattle.std.specs.Prelude.{◌≡◌, IfNone};
ghost use Rattle.pci_spec.specs.Text.{IsDump, slots_of};
ghost use Rattle.pci_spec.specs.SizesText.{IsSizes, sized_slots};
ghost use Rattle.pci_spec.specs.ProbeOf.{least_slot, lone_slots};

use super::sizes::SizesBlock;
use pci_base::slot::Slot;
use pci_dump::block::Block;

/// The least slot that only one of two lists of blocks has: the smaller of the two slots at the
/// first place where they differ, or the one that one list alone has there.
pub fn lone_slot(dump: &[Block], sizes: &[SizesBlock]) -> Option<Slot>
    // where both rise, the first place at which they differ has the least such slot
    requires dump { IsDump dump.now }
    requires sizes { IsSizes sizes.now }
    // then a function and what is told of it have the same index
    ensures same { IfNone result (slots_of dump.now ≡ sized_slots sizes.now) }
    ensures least { result ≡ least_slot (lone_slots (slots_of dump.now) (sized_slots sizes.now)) }
{
    for i in 0..dump.len() {
        let ours = &dump[i];
        if i == sizes.len() {
            return Some(ours.slot);
        }
        let theirs = &sizes[i];
        if ours.slot.number() < theirs.slot.number() {
            return Some(ours.slot);
        }
        if theirs.slot.number() < ours.slot.number() {
            return Some(theirs.slot);
        }
    }
    if dump.len() < sizes.len() {
        let next = &sizes[dump.len()];
        return Some(next.slot);
    }
    None
}
