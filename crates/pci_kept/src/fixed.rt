//! Slots of functions whose registers may not be written, as flags by slot number.
ghost use Rattle.std.specs.Prelude.{◌≡◌, ◌||◌, IfOk, false, length, slice_index_or};
ghost use Rattle.std.specs.List.{list_any};
ghost use Rattle.pci_spec.specs.Slot.{Slot as SlotValue, IsSlot, same_slot, slot_number};
ghost use Rattle.pci_kept.specs.Flags.{AreFlags};

use pci_base::memory::OutOfMemory;
use pci_base::slot::Slot;
use std::alloc::Allocator;

/// How many slots there are: their numbers have 16 bits.
const SLOTS: usize = 65536;

/// Sets the flags of some slots.
fn flag_all(flags: &mut [bool], slots: &[Slot])
    requires { length flags.old ≡ 65536 }
    ensures { (slot : SlotValue) → IsSlot slot → slice_index_or flags.new (slot_number slot) false
        ≡ (slice_index_or flags.old (slot_number slot) false || list_any (same_slot slot) slots.now) }
{
    for slot in slots {
        flags[usize::from(slot.number())] = true;
    }
}

/// A flag for each slot number: whether the slot is one of some.
pub fn flags_of<A: Allocator>(alloc: A, slots: &[Slot]) -> Result<Vec<bool, A>, OutOfMemory>
    ensures { IfOk result (λ flags. AreFlags slots.now flags.items) }
{
    let mut flags = vec![in alloc; false; SLOTS]?;
    flag_all(flags.as_mut_slice(), slots);
    Ok(flags)
}
