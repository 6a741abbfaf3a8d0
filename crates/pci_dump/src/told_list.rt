//! The ranges of a text.
ghost use Rattle.std.specs.Prelude.{◌≡◌, ◌<◌, ◌≤◌, [], length};
ghost use Rattle.std.specs.List.{AllWithin};
ghost use Rattle.pci_spec.specs.Slot.{IsSlot, slot_number};
ghost use Rattle.judge_spec.specs.Told.{IsTold};

use super::told_range::ToldRange;
use pci_base::slot::Slot;
use std::alloc::{Allocator, Global};
use std::marker::Model;

/// Ranges in the order of their slots, at most 4,096 of them, each of which a line can tell of.
#[derive(Drop)]
pub struct ToldList<A: Allocator = Global> {
    ranges: Vec<ToldRange, A>,
}

impl<A: Allocator> Model for ToldList<A> {
    ghost use Rattle.std.specs.Prelude.{List};
    ghost use Rattle.judge_spec.specs.Told.{ToldRange as RangeValue, IsTold};

    ghost Value = { List RangeValue };

    ghost view = { λ l. l.ranges.items };

    ghost invariant = { λ l. IsTold l.ranges.items };
}

impl<A: Allocator> ToldList<A> {
    /// No ranges. None can be added, so `alloc` allocates nothing.
    pub fn empty(alloc: A) -> ToldList<A>
        ensures { result ≡ [] }
    {
        ToldList {
            ranges: Vec::new(alloc),
        }
    }

    /// These ranges, which stand in the order of their slots.
    pub fn of(ranges: Vec<ToldRange, A>) -> ToldList<A>
        requires { IsTold ranges.items }
        ensures { result ≡ ranges.items }
    {
        ToldList { ranges }
    }

    /// The ranges in order.
    pub fn as_slice(&self) -> &[ToldRange]
        ensures value { result.now ≡ self.now }
        // callers find those of a bus by halving, as slots don't fall
        ensures told { IsTold self.now }
    {
        self.ranges.as_slice()
    }
}

/// The index of the first told range of this slot or a higher one.
pub fn first_of_slot(ranges: &[ToldRange], slot: Slot) -> usize
    // they stand by slot, so it is found by halving
    requires { IsTold ranges.now }
    ensures bound { result ≤ length ranges.now }
    ensures before { AllWithin (λ r. slot_number r.slot < slot_number slot) ranges.now 0 result }
    ensures after { AllWithin (λ r. slot_number slot ≤ slot_number r.slot) ranges.now result (length ranges.now) }
    // so that slots with one number are one
    ensures lawful { IsSlot slot }
{
    let number = slot.number();
    ranges.partition_point(|range| range.slot.number() < number)
}
