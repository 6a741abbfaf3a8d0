//! The order in which parts are gone over: each comes after all that tell whether it stands.
ghost use Rattle.std.specs.Prelude.{◌≡◌, ◌<◌, ℕ, OnOk};
ghost use Rattle.std.specs.List.{AllPairs};
ghost use Rattle.std.specs.List.Sorted.{IsPermutation};
ghost use Rattle.pci_kept.specs.Order.{turn_of, span_of, IsLargerPart, IsSooner, IsPartInTurn};

use crate::region::Region;
use pci_base::memory::OutOfMemory;
use std::alloc::Allocator;
use std::cmp::Reverse;

/// Which parts of a bus have their turn first: those that lead to a told range that is on, then those that are fixed, and among
/// these those that are on.
fn turn_of(region: &Region) -> u8
    ensures { result ≡ turn_of region.now }
{
    match (region.leads, region.fixed, region.on) {
        (true, true, true) => 0,
        (true, true, false) => 1,
        (true, false, true) => 2,
        (true, false, false) => 3,
        (false, true, true) => 4,
        (false, true, false) => 5,
        (false, false, true) => 6,
        (false, false, false) => 7,
    }
}

/// The last address less the first.
fn span_of(region: &Region) -> u64
    ensures { result ≡ span_of region.now }
{
    region.range.last.saturating_sub(region.range.first)
}

/// Sorts parts by falling sizes; those of one size stay in their order.
fn sort_by_size<A: Allocator + Copy>(regions: &mut Vec<Region, A>) -> Result<(), OutOfMemory>
    ensures permutation { IsPermutation regions.old.items regions.new.items }
    ensures sorted { OnOk result ((number : Region → ℕ)
        → AllPairs (λ r t. number r < number t) regions.old.items
        → AllPairs (IsLargerPart number) regions.new.items) }
{
    match regions.sort_by_key(|region| Reverse(span_of(region))) {
        Ok(()) => Ok(()),
        Err(_) => Err(OutOfMemory),
    }
}

/// Sorts parts by whether they lead to told ranges, are fixed and on; those of one kind stay in their order.
fn sort_by_turn<A: Allocator + Copy>(regions: &mut Vec<Region, A>) -> Result<(), OutOfMemory>
    ensures permutation { IsPermutation regions.old.items regions.new.items }
    ensures sorted { OnOk result ((number : Region → ℕ) → AllPairs (IsLargerPart number) regions.old.items
        → AllPairs (IsSooner number) regions.new.items) }
{
    match regions.sort_by_key(|region| turn_of(region)) {
        Ok(()) => Ok(()),
        Err(_) => Err(OutOfMemory),
    }
}

/// Sorts parts by their buses; those of one bus stay in their order.
fn sort_by_level<A: Allocator + Copy>(regions: &mut Vec<Region, A>) -> Result<(), OutOfMemory>
    ensures permutation { IsPermutation regions.old.items regions.new.items }
    ensures sorted { OnOk result ((number : Region → ℕ) → AllPairs (IsSooner number) regions.old.items
        → AllPairs (IsPartInTurn number) regions.new.items) }
{
    match regions.sort_by_key(|region| region.level) {
        Ok(()) => Ok(()),
        Err(_) => Err(OutOfMemory),
    }
}

/// Sorts parts that stand by slot and register into the order in which they are gone over: by bus, the roots being one;
/// then what leads to a told range that is on, what is fixed, what is on and what is larger comes first.
pub fn sort_regions<A: Allocator + Copy>(regions: &mut Vec<Region, A>) -> Result<(), OutOfMemory>
    // nothing is lost or doubled, also where there was no memory to sort with
    ensures permutation { IsPermutation regions.old.items regions.new.items }
    // by any number that rises along them
    ensures sorted { OnOk result ((number : Region → ℕ)
        → AllPairs (λ r t. number r < number t) regions.old.items
        → AllPairs (IsPartInTurn number) regions.new.items) }
{
    sort_by_size(regions)?;
    sort_by_turn(regions)?;
    sort_by_level(regions)
}
