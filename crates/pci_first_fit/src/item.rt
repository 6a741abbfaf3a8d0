//! What is to be placed on a bus, and the order in which it gets its place.
ghost use Rattle.std.specs.Prelude.{◌≡◌, ℕ, ◌<◌, OnOk, map};
ghost use Rattle.std.specs.List.{AllPairs};
ghost use Rattle.std.specs.List.Sorted.{IsPermutation};
ghost use Rattle.settle_spec.specs.PlacingLaws.{HasLowerRank};
ghost use Rattle.settle_spec.specs.Items.{PlacingItem as ItemValue, in_turn};
ghost use Rattle.pci_first_fit.specs.Turns.{IsLargerItem, IsItemInTurn, IsValued};

use crate::extent::Extent;
use pci_base::memory::OutOfMemory;
use std::alloc::Allocator;
use std::cmp::Reverse;

/// What an item is of its function.
#[derive(Clone, Copy, Debug, PartialEq, Eq)]
pub enum Part {
    /// The BAR that this Base Address register starts, counted from 0.
    Bar(u8),
    Rom,
    /// The window of a bridge in the class that is placed.
    Window,
}

/// A BAR, a ROM or a new window that is to be placed.
#[derive(Clone, Copy, Debug)]
pub struct Item {
    /// Which of the functions, in slot order.
    pub function: usize,
    pub part: Part,
    pub extent: Extent,
}

/// Sorts items by falling size; those of one size stay in their order.
fn sort_by_size<A: Allocator + Copy>(items: &mut Vec<Item, A>) -> Result<(), OutOfMemory>
    ensures permutation { IsPermutation items.old.items items.new.items }
    ensures sorted { OnOk result ((number : Item → ℕ)
        → AllPairs (λ i j. number i < number j) items.old.items
        → AllPairs (IsLargerItem number) items.new.items) }
{
    match items.sort_by_key(|item| Reverse(item.extent.size)) {
        Ok(()) => Ok(()),
        Err(_) => Err(OutOfMemory),
    }
}

/// Sorts items by falling alignment; those of one alignment stay in their order.
fn sort_by_alignment<A: Allocator + Copy>(items: &mut Vec<Item, A>) -> Result<(), OutOfMemory>
    ensures permutation { IsPermutation items.old.items items.new.items }
    ensures sorted { OnOk result ((number : Item → ℕ) → AllPairs (IsLargerItem number) items.old.items
        → AllPairs (IsItemInTurn number) items.new.items) }
{
    match items.sort_by_key(|item| Reverse(item.extent.alignment)) {
        Ok(()) => Ok(()),
        Err(_) => Err(OutOfMemory),
    }
}

/// Sorts items that stand in slot and register order into the order in which they are placed: by falling alignment,
/// then falling size, then slot and register.
pub fn sort_items<A: Allocator + Copy>(items: &mut Vec<Item, A>) -> Result<(), OutOfMemory>
    // nothing is lost or doubled, also where there was no memory to sort with
    ensures permutation { IsPermutation items.old.items items.new.items }
    // whatever items of the definitions they stand for, if those have their extents
    ensures turn { OnOk result ((value : Item → ItemValue) → IsValued value
        → AllPairs HasLowerRank (map value items.old.items)
        → map value items.new.items ≡ in_turn (map value items.old.items)) }
{
    sort_by_size(items)?;
    sort_by_alignment(items)
}
