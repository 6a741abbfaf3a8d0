//! The first free place in ranges of addresses.
ghost use Rattle.std.specs.Prelude.{ℕ, ◌≡◌, ◌≤◌, ◌<◌, ◌+◌, ◌^◌, IfSome, IfNone, IsTrue, List, map, SomeIff};
ghost use Rattle.std.specs.List.Sorted.{IsPermutation};
ghost use Rattle.settle_spec.specs.FirstPlace.{is_spot, ends_by as place_ends_in, first_spot as spot_from, first_place_in, first_place as place_in_ranges};
ghost use Rattle.plan_spec.specs.Plan.{raised_to};
ghost use Rattle.plan_spec.specs.Place.{range_from};
ghost use Rattle.pci_base.specs.Ranges.{decoded_range_of};
ghost use Rattle.pci_first_fit.specs.Spots.{extent_value, IsExtent, FirstsRise, IsBetweenTaken, IsSpotAt, spot_place, place_if, IsSpotReached, IsStart};

use crate::extent::Extent;
use pci_base::range::Range;
use std::alloc::Allocator;

/// A free place, and where it belongs in the list of what is taken.
#[derive(Clone, Copy, Debug, PartialEq, Eq)]
pub struct Spot {
    pub at: u64,
    /// How many of the ranges that are taken lie below it.
    pub index: usize,
}

/// How far a search along ranges has come: those before have no place, and in this one none is below the spot.
#[derive(Clone, Copy, Debug, PartialEq, Eq)]
pub struct Start {
    /// Which of the ranges.
    pub range: usize,
    pub spot: Spot,
}

impl Spot {
    /// No place is below address 0.
    fn lowest() -> Spot
        ensures lowest { result.at ≡ 0 }
        ensures index { result.index ≡ 0 }
    {
        Spot { at: 0, index: 0 }
    }
}

impl Start {
    /// From where on nothing has been searched yet.
    pub fn first() -> Start
        ensures { (ranges taken : List Range) → (extent : Extent)
            → IsStart ranges taken extent result }
    {
        Start {
            range: 0,
            spot: Spot::lowest(),
        }
    }
}

/// The least multiple of an alignment from an address on; None where it is above all addresses of 64 bits.
pub fn raised(from: u64, alignment: u64) -> Option<u64>
    // there is no multiple of 0
    requires some { 0 < alignment }
    ensures { SomeIff result (raised_to alignment from < 2 ^ 64) (raised_to alignment from) }
{
    let over = from % alignment;
    if over == 0 {
        Some(from)
    } else {
        from.checked_add(alignment - over)
    }
}

/// The least multiple of an alignment behind a range; None where it is above all addresses of 64 bits.
fn behind(range: Range, alignment: u64) -> Option<u64>
    requires some { 0 < alignment }
    ensures { SomeIff result (raised_to alignment (range.last + 1) < 2 ^ 64)
        (raised_to alignment (range.last + 1)) }
{
    raised(range.last.checked_add(1)?, alignment)
}

/// The first free place from an address on, of which `from` says that it isn't below it; None where it would end
/// above all addresses of 64 bits.
fn next_spot(taken: &[Range], low: u64, from: Spot, extent: Extent) -> Option<Spot>
    requires extent { IsExtent extent }
    requires order { FirstsRise taken.now }
    requires reached { IsSpotReached taken.now low extent from }
    ensures found { IfSome result (IsSpotAt taken.now low extent) }
    ensures none { IfNone result ((b : ℕ)
        → IsTrue (is_spot low (map decoded_range_of taken.now) (extent_value extent) b)
        → 2 ^ 64 ≤ (range_from b extent.size).last) }
{
    let mut at = raised(low.max(from.at), extent.alignment)?;
    for index in from.index..taken.len() {
        let range = taken[index];
        if extent.last_from(at)? < range.first {
            return Some(Spot { at, index });
        }
        if at <= range.last {
            at = behind(range, extent.alignment)?;
        }
    }
    extent.last_from(at)?;
    Some(Spot {
        at,
        index: taken.len(),
    })
}

/// The first free place from an address on; None where it would end above all addresses of 64 bits.
pub fn first_spot(taken: &[Range], low: u64, extent: Extent) -> Option<Spot>
    // without an address it has no last one, and of 0 there is no multiple
    requires extent { IsExtent extent }
    // what is free lies between two that follow one another
    requires order { FirstsRise taken.now }
    ensures found { IfSome result (IsSpotAt taken.now low extent) }
    ensures none { IfNone result ((b : ℕ)
        → IsTrue (is_spot low (map decoded_range_of taken.now) (extent_value extent) b)
        → 2 ^ 64 ≤ (range_from b extent.size).last) }
    ensures place { SomeIff (spot_place result)
        ((range_from (spot_from low (map decoded_range_of taken.now) (extent_value extent)) extent.size).last < 2 ^ 64)
        (spot_from low (map decoded_range_of taken.now) (extent_value extent)) }
{
    next_spot(taken, low, Spot::lowest(), extent)
}

/// Whether an extent from `at` on ends in a range, and by the highest address that it may have.
fn ends_in(range: Range, extent: Extent, at: u64) -> bool
    requires some { 0 < extent.size }
    requires ends { (range_from at extent.size).last < 2 ^ 64 }
    ensures { result ≡ place_ends_in (decoded_range_of range) (extent_value extent) at }
{
    let last = at + (extent.size - 1);
    last <= range.last && last <= extent.highest
}

/// The first place in a range, of which `from` says that it isn't below it.
fn spot_in(range: Range, taken: &[Range], from: Spot, extent: Extent) -> Option<Spot>
    requires extent { IsExtent extent }
    requires order { FirstsRise taken.now }
    requires reached { IsSpotReached taken.now range.first extent from }
    ensures place { spot_place result ≡ first_place_in (decoded_range_of range)
        (map decoded_range_of taken.now) (extent_value extent) }
    ensures spot { IfSome result (IsSpotAt taken.now range.first extent) }
{
    let spot = next_spot(taken, range.first, from, extent)?;
    if ends_in(range, extent, spot.at) {
        Some(spot)
    } else {
        None
    }
}

/// The first place in a range.
pub fn place_in(range: Range, taken: &[Range], extent: Extent) -> Option<u64>
    // without an address it has no last one, and of 0 there is no multiple
    requires extent { IsExtent extent }
    // what is free lies between two that follow one another
    requires order { FirstsRise taken.now }
    ensures place { result ≡ first_place_in (decoded_range_of range) (map decoded_range_of taken.now) (extent_value extent) }
    // so its last address can be told
    ensures ends { IfSome result (λ at. (range_from at extent.size).last < 2 ^ 64) }
{
    let spot = spot_in(range, taken, Spot::lowest(), extent)?;
    Some(spot.at)
}

/// Whether a range has a place from `start` on; `start` goes to the first one of the first range that has any.
pub fn first_place(ranges: &[Range], taken: &[Range], extent: Extent, start: &mut Start) -> bool
    // without an address it has no last one, and of 0 there is no multiple
    requires extent { IsExtent extent }
    // what is free lies between two that follow one another
    requires order { FirstsRise taken.now }
    // no place lies before it, so the search can begin there
    requires start { IsStart ranges.now taken.now extent start.old }
    ensures place { place_if result start.new.spot.at
        ≡ place_in_ranges (map decoded_range_of ranges.now)
        (map decoded_range_of taken.now) (extent_value extent) }
    ensures between { IsTrue result → IsBetweenTaken taken.now extent start.new.spot }
    // no place is before it, so that the next search can go on there
    ensures start { IsStart ranges.now taken.now extent start.new }
{
    let mut from = start.spot;
    for index in start.range..ranges.len() {
        if let Some(spot) = spot_in(ranges[index], taken, from, extent) {
            *start = Start { range: index, spot };
            return true;
        }
        from = Spot::lowest();
    }
    false
}

/// Sorts what is taken by rising first addresses, so that free places can be looked for along it.
pub fn sort_by_first<A: Allocator>(taken: &mut Vec<Range, A>)
    ensures permutation { IsPermutation taken.old.items taken.new.items }
    ensures order { FirstsRise taken.new.items }
{
    taken.sort_unstable_by_key(|range| range.first);
}
