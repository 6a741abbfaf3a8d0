//! The records of a bus, which stand in a row, as records rise by slot.
ghost use Rattle.std.specs.Prelude.{◌≡◌, ◌↔◌, ◌<◌, ◌≤◌, IsTrue, MatchOption, length};
ghost use Rattle.std.specs.List.{All, AllWithin, Contains};
ghost use Rattle.pci_spec.specs.Slot.{IsSlot, slot_number};
ghost use Rattle.pci_tree.specs.Ways.{slots_of};
ghost use Rattle.pci_tree.specs.Outline.{RiseBySlot, IsBusPart};

use pci_base::slot::Slot;
use pci_function::record::Record;

/// The index of the first record on this bus or a higher one.
pub fn first_from(records: &[Record], bus: u16) -> usize
    // found by halving, so buses have to rise
    requires rising { RiseBySlot records.now }
    // a device number above 31 would make a slot's number one of the next bus
    requires slots { All (λ r. IsSlot r.slot) records.now }
    ensures bound { result ≤ length records.now }
    ensures before { AllWithin (λ r. r.slot.bus < bus) records.now 0 result }
    ensures after { AllWithin (λ r. bus ≤ r.slot.bus) records.now result (length records.now) }
{
    records.partition_point(|function| u16::from(function.slot.bus()) < bus)
}

/// The records of a bus.
pub fn on_bus(records: &[Record], bus: u8) -> &[Record]
    // the records of a bus then stand in a row, whose ends are found by halving
    requires rising { RiseBySlot records.now }
    // a device number above 31 would make a slot's number one of the next bus
    requires slots { All (λ r. IsSlot r.slot) records.now }
    ensures { IsBusPart records.now bus result.now }
{
    let first = first_from(records, bus as u16);
    let end = first_from(records, bus as u16 + 1);
    &records[first..end]
}

/// The index of the first record whose slot isn't below another.
fn first_not_below(records: &[Record], slot: Slot) -> usize
    requires { RiseBySlot records.now }
    ensures bound { result ≤ length records.now }
    ensures before { AllWithin (λ r. slot_number r.slot < slot_number slot) records.now 0 result }
    ensures after { AllWithin (λ r. slot_number slot ≤ slot_number r.slot) records.now result
        (length records.now) }
{
    let number = slot.number();
    records.partition_point(|function| function.slot.number() < number)
}

/// The record of the function at a slot.
pub fn record_at(records: &[Record], slot: Slot) -> Option<&Record>
    // found by halving
    requires { RiseBySlot records.now }
    ensures { MatchOption result (Contains (slots_of records.now) slot → ⊥)
        (λ r. Contains records.now r.now × (r.now.slot ≡ slot)) }
{
    let index = first_not_below(records, slot);
    if index == records.len() {
        return None;
    }
    let record = &records[index];
    if record.slot == slot {
        Some(record)
    } else {
        None
    }
}

/// Whether a function of some records has the slot.
pub fn has_slot(records: &[Record], slot: Slot) -> bool
    // it is found by halving
    requires { RiseBySlot records.now }
    ensures { IsTrue result ↔ Contains (slots_of records.now) slot }
{
    record_at(records, slot).is_some()
}
