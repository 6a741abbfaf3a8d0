//! Ranges that a text tells of: what functions answer beside their BARs and ROMs.
ghost use Rattle.std.specs.Prelude.{◌≡◌, []};
ghost use Rattle.judge_spec.specs.Told.{IsTold};
ghost use Rattle.pci_first_fit.specs.ToldProp.{IsTold-prop};

use pci_dump::told_list::ToldList;
use pci_dump::told_range::ToldRange;
use std::alloc::Allocator;

/// Ranges in the order of their slots, each of which a line of a text can tell of. They are answered whatever is settled, so
/// nothing is placed on them.
#[derive(Clone, Copy)]
pub struct ToldRanges<'a> {
    ranges: &'a [ToldRange],
    ghost lawful: { IsTold ranges.now } by { IsTold-prop ranges.now },
}

impl<'a> ToldRanges<'a> {
    /// Nothing is told.
    pub fn none() -> ToldRanges<'static>
        ensures { result.ranges.now ≡ [] }
    {
        ToldRanges { ranges: &[] }
    }

    /// The ranges of a text.
    pub fn of<A: Allocator>(list: &'a ToldList<A>) -> ToldRanges<'a>
        ensures { result.ranges.now ≡ list.now }
    {
        ToldRanges {
            ranges: list.as_slice(),
        }
    }

    /// The ranges in order.
    pub fn as_slice(&self) -> &'a [ToldRange]
        ensures value { result.now ≡ self.now.ranges.now }
        // those of a slot are found by halving, as slots don't fall
        ensures told { IsTold self.now.ranges.now }
    {
        self.ranges
    }
}
