//! Lists of slots among the words.
ghost use Rattle.std.specs.Prelude.{◌≡◌, ◌↔◌, List, Some, IsTrue, IfErr, IfOk, IfSome, IsSomeAnd};
ghost use Rattle.pci_spec.specs.Slot.{Slot as SlotValue};
ghost use Rattle.pciplan_lists.specs.SlotWords.{IsSlotWord, AreSlots, IsSlotList, IsSlotListWord};

use crate::part::first_of;
use pci_base::memory::OutOfMemory;
use pci_base::slot::Slot;
use pci_dump::slot_text::slot_of;
use std::alloc::Allocator;

/// How many bytes the word of a slot has.
const SLOT_LEN: usize = 7;

/// The slot of a word `bb:dd.f`, in lower-case hex digits. There is none of any other word.
pub fn slot_of_word(word: &str) -> Option<Slot>
    ensures word { IfSome result (λ slot. IsSlotWord word.now slot) }
    ensures only { (slot : SlotValue) → IsSlotWord word.now slot → result ≡ Some slot }
{
    let bytes = word.as_bytes();
    if bytes.len() != SLOT_LEN {
        return None;
    }
    slot_of(bytes)
}

/// Whether a word is of slots that are joined by commas, each above the one before it. It is looked at before memory is
/// asked for.
fn is_slot_list(word: &str) -> bool
    ensures { IsTrue result ↔ IsSlotList word.now }
{
    let mut last = None;
    let mut left = Some(word);
    'parts: while let Some(text) = left {
        let (first, more) = first_of(text);
        let Some(slot) = slot_of_word(first) else {
            return false;
        };
        if !slot.may_follow(last) {
            return false;
        }
        last = Some(slot);
        left = more;
    }
    true
}

/// Slots that are joined by commas, in their order.
fn joined_slots<A: Allocator>(alloc: A, word: &str) -> Result<Option<Vec<Slot, A>>, OutOfMemory>
    ensures word { IfOk result (λ found. IfSome found (λ slots. AreSlots word.now slots.items)) }
    ensures only { (slots : List SlotValue) → AreSlots word.now slots
        → IfOk result (λ found. IsSomeAnd found (λ v. v.items ≡ slots)) }
{
    let mut slots = Vec::new(alloc);
    let mut left = Some(word);
    'parts: while let Some(text) = left {
        let (first, more) = first_of(text);
        let Some(slot) = slot_of_word(first) else {
            return Ok(None);
        };
        slots.push(slot)?;
        left = more;
    }
    Ok(Some(slots))
}

/// The slots of a list such as `00:02.0,01:00.0`: joined by commas, each above the one before it. There are none of any
/// other word.
///
/// Errors: 2 `OutOfMemory` where a growth was refused. It comes only of a word that is such a list.
pub fn slots_of_word<A: Allocator>(
    alloc: A,
    word: &str,
) -> Result<Option<Vec<Slot, A>>, OutOfMemory>
    ensures word { IfOk result (λ found. IfSome found (λ slots. IsSlotListWord word.now slots.items)) }
    ensures only { (slots : List SlotValue) → IsSlotListWord word.now slots
        → IfOk result (λ found. IsSomeAnd found (λ v. v.items ≡ slots)) }
    // so a word that is no list is answered whatever memory is there
    ensures memory { IfErr result (λ _. IsSlotList word.now) }
{
    if is_slot_list(word) {
        joined_slots(alloc, word)
    } else {
        Ok(None)
    }
}
