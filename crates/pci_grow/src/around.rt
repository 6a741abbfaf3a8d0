//! The places of what has none behind a window, around it: the first one from its first address on, or else the last one
//! before it.
ghost use Rattle.std.specs.Prelude.{◌≡◌, ◌<◌, ◌≤◌, ◌++◌, None, IfSome, IfNone, IfOk, List, length, map};
ghost use Rattle.std.specs.List.{All, AllWithin};
ghost use Rattle.pci_spec.specs.Decoded.{Range as DecodedRange};
ghost use Rattle.settle_spec.specs.FirstPlace.{first_place_in};
ghost use Rattle.settle_spec.specs.Items.{PlacingItem as ItemValue, place_each};
ghost use Rattle.settle_spec.specs.Growth.{place_around};
ghost use Rattle.pci_base.specs.Ranges.{decoded_range_of};
ghost use Rattle.pci_first_fit.specs.Spots.{extent_value, IsExtent, FirstsRise, IsBetweenTaken, spot_place};
ghost use Rattle.pci_first_fit.specs.Lines.{AreLineRows};
ghost use Rattle.pci_first_fit.specs.Placings.{placing_of};
ghost use Rattle.pci_first_fit.specs.Turns.{HasExtent};
ghost use Rattle.pci_grow.specs.LastPlaces.{LastsRise};
ghost use Rattle.pci_grow.specs.Grounds.{ground_value, IsBehindItem};
ghost use Rattle.pci_grow.specs.Arounds.{onward, backward, last_place_of, find_around, IsSearch, IsBelowLateSearch, AreRisingAtBothEnds, IsPutAt, HaveExtents, HaveBehind, AreEndingAll};

use crate::ground::{Ground, can_hold, taken_for};
use crate::last_place::{LateSpot, last_place, last_start};
use pci_base::memory::OutOfMemory;
use pci_base::range::Range;
use pci_first_fit::extent::Extent;
use pci_first_fit::item::Item;
use pci_first_fit::spot::{Spot, Start, first_place};
use std::alloc::Allocator;

/// A window and how far it can grow.
#[derive(Clone, Copy, Debug)]
pub struct Around {
    pub window: Range,
    pub reach: Range,
}

impl Around {
    /// From the window's first address to the end of the reach.
    fn onward(&self) -> Range
        ensures { result ≡ onward self.now }
    {
        Range {
            first: self.window.first,
            last: self.reach.last,
        }
    }

    /// The part of the reach before the window; None where it begins with it.
    fn backward(&self) -> Option<Range>
        ensures { result ≡ backward self.now }
    {
        if self.reach.first < self.window.first {
            Some(Range {
                first: self.reach.first,
                last: self.window.first - 1,
            })
        } else {
            None
        }
    }
}

/// How far the searches for an extent have come. What one of them didn't find free isn't free for the next one.
#[derive(Clone, Copy, Debug)]
struct Search {
    extent: Extent,
    /// From where on first places are looked for; None where there is none any more.
    first: Option<Start>,
    /// The same of last places.
    last: Option<LateSpot>,
}

impl Search {
    /// Nothing was looked for.
    fn begin(around: &Around, extent: Extent) -> Search
        requires { IsExtent extent }
        ensures extent { result.extent ≡ extent }
        ensures search { (taken : List Range) → IsSearch around.now taken result }
    {
        let last = match around.backward() {
            Some(range) => last_start(range, extent),
            None => None,
        };
        Search {
            extent,
            first: Some(Start::first()),
            last,
        }
    }

    /// The first place from a window's first address on.
    fn first_from(&mut self, around: &Around, taken: &[Range]) -> Option<Spot>
        requires order { FirstsRise taken.now }
        requires search { IsSearch around.now taken.now self.old }
        ensures extent { self.new.extent ≡ self.old.extent }
        ensures place { spot_place result ≡ first_place_in (decoded_range_of (onward around.now))
            (map decoded_range_of taken.now) (extent_value self.old.extent) }
        ensures between { IfSome result (IsBetweenTaken taken.now self.old.extent) }
        ensures search { IsSearch around.now taken.now self.new }
        ensures index { IfSome result (IsBelowLateSearch taken.now self.new) }
        ensures none { result ≡ None → self.new.first ≡ None }
    {
        let mut start = self.first?;
        if first_place(&[around.onward()], taken, self.extent, &mut start) {
            self.first = Some(start);
            return Some(start.spot);
        }
        self.first = None;
        None
    }

    /// The last place before a window, where there is no first one.
    fn last_before(&mut self, around: &Around, taken: &[Range]) -> Option<Spot>
        requires order { LastsRise taken.now }
        requires search { IsSearch around.now taken.now self.old }
        requires none { self.old.first ≡ None }
        ensures extent { self.new.extent ≡ self.old.extent }
        ensures place { spot_place result ≡ last_place_of (backward around.now) taken.now self.old.extent }
        ensures between { IfSome result (IsBetweenTaken taken.now self.old.extent) }
        ensures search { IfSome result (λ _. IsSearch around.now taken.now self.new) }
        ensures index { IfSome result (IsBelowLateSearch taken.now self.new) }
    {
        let range = around.backward()?;
        let from = self.last?;
        let late = last_place(range, taken, from, self.extent)?;
        self.last = Some(late);
        Some(Spot {
            at: late.at,
            index: taken.len() - late.above,
        })
    }
}

/// The search for an extent: the last one, if that was for such an extent.
fn search_for(last: Option<Search>, around: &Around, extent: Extent) -> Search
    requires { IsExtent extent }
    ensures extent { result.extent ≡ extent }
    ensures search { (taken : List Range) → IfSome last (IsSearch around.now taken)
        → IsSearch around.now taken result }
{
    match last {
        Some(search) if search.extent == extent => search,
        _ => Search::begin(around, extent),
    }
}

/// The next place around a window.
fn next_spot(search: &mut Search, around: &Around, taken: &[Range]) -> Option<Spot>
    requires firsts { FirstsRise taken.now }
    requires lasts { LastsRise taken.now }
    requires search { IsSearch around.now taken.now search.old }
    ensures place { spot_place result ≡ place_around (decoded_range_of around.now.window)
        (decoded_range_of around.now.reach) (map decoded_range_of taken.now)
        (extent_value search.old.extent) }
    ensures between { IfSome result (IsBetweenTaken taken.now search.old.extent) }
    ensures extent { search.new.extent ≡ search.old.extent }
    ensures search { IfSome result (λ _. IsSearch around.now taken.now search.new) }
    // so the search goes on there once the place is taken
    ensures index { IfSome result (IsBelowLateSearch taken.now search.new) }
{
    match search.first_from(around, taken) {
        Some(spot) => Some(spot),
        None => search.last_before(around, taken),
    }
}

/// Takes the next place around a window, if there is any.
fn take_next<A: Allocator>(
    search: &mut Search,
    around: &Around,
    taken: &mut Vec<Range, A>,
) -> Result<Option<u64>, OutOfMemory>
    requires listed { AreRisingAtBothEnds taken.old.items }
    requires search { IsSearch around.now taken.old.items search.old }
    ensures place { IfOk result (λ place. place
        ≡ place_around (decoded_range_of around.now.window) (decoded_range_of around.now.reach)
        (map decoded_range_of taken.old.items) (extent_value search.old.extent)) }
    ensures taken { IfOk result (λ place. IfSome place
        (IsPutAt taken.old.items taken.new.items search.old.extent)) }
    ensures listed { AreRisingAtBothEnds taken.new.items }
    ensures search { IfOk result (λ place. IfSome place
        (λ _. IsSearch around.now taken.new.items search.new)) }
{
    let extent = search.extent;
    let Some(spot) = next_spot(search, around, taken.as_slice()) else {
        return Ok(None);
    };
    let first = spot.at;
    let last = first + (extent.size - 1);
    taken.insert(spot.index, Range { first, last })?;
    Ok(Some(first))
}

/// The index of the first range that doesn't begin before an address.
fn first_from(taken: &[Range], at: u64) -> usize
    requires { FirstsRise taken.now }
    ensures bound { result ≤ length taken.now }
    ensures before { AllWithin (λ r. r.first < at) taken.now 0 result }
    ensures after { AllWithin (λ r. at ≤ r.first) taken.now result (length taken.now) }
{
    taken.partition_point(|range| range.first < at)
}

/// Takes the next place around a window for an item, off what told ranges hold behind it.
fn take_off<A: Allocator + Copy>(
    alloc: A,
    ground: &Ground,
    taken: &mut Vec<Range, A>,
    item: &Item,
) -> Result<Option<u64>, OutOfMemory>
    requires rows { AreLineRows ground.now.lines.now }
    requires item { HasExtent item.now }
    requires listed { AreRisingAtBothEnds taken.old.items }
    ensures place { IfOk result (λ place. (held : List DecodedRange)
        → IsBehindItem (ground_value ground.now) item.now held
        → place ≡ place_around (decoded_range_of ground.now.around.window)
        (decoded_range_of ground.now.around.reach) (held ++ map decoded_range_of taken.old.items)
        (extent_value item.now.extent)) }
    ensures taken { IfOk result (λ place. IfSome place
        (IsPutAt taken.old.items taken.new.items item.now.extent)) }
    ensures listed { AreRisingAtBothEnds taken.new.items }
{
    let all = taken_for(alloc, ground, taken.as_slice(), item)?;
    let mut search = Search::begin(&ground.around, item.extent);
    let Some(spot) = next_spot(&mut search, &ground.around, all.as_slice()) else {
        return Ok(None);
    };
    let first = spot.at;
    let last = first + (item.extent.size - 1);
    let index = first_from(taken.as_slice(), first);
    taken.insert(index, Range { first, last })?;
    Ok(Some(first))
}

/// Takes the next place around a window for an item.
fn take_one<A: Allocator + Copy>(
    alloc: A,
    ground: &Ground,
    taken: &mut Vec<Range, A>,
    item: &Item,
    last: &mut Option<Search>,
) -> Result<Option<u64>, OutOfMemory>
    requires rows { AreLineRows ground.now.lines.now }
    requires item { HasExtent item.now }
    requires listed { AreRisingAtBothEnds taken.old.items }
    requires search { IfSome last.old (IsSearch ground.now.around taken.old.items) }
    ensures place { IfOk result (λ place. (held : List DecodedRange)
        → IsBehindItem (ground_value ground.now) item.now held
        → place ≡ place_around (decoded_range_of ground.now.around.window)
        (decoded_range_of ground.now.around.reach) (held ++ map decoded_range_of taken.old.items)
        (extent_value item.now.extent)) }
    ensures taken { IfOk result (λ place. IfSome place
        (IsPutAt taken.old.items taken.new.items item.now.extent)) }
    ensures listed { AreRisingAtBothEnds taken.new.items }
    ensures search { IfOk result (λ place. IfSome place
        (λ _. IfSome last.new (IsSearch ground.now.around taken.new.items))) }
{
    if can_hold(ground, item) {
        *last = None;
        return take_off(alloc, ground, taken, item);
    }
    let mut search = search_for(*last, &ground.around, item.extent);
    let place = take_next(&mut search, &ground.around, taken)?;
    *last = Some(search);
    Ok(place)
}

/// Gives each item its place around a window, what is taken and those before it being taken, and what told ranges hold behind
/// it. The answer is None where all have one, else the index of the first that has none.
pub fn places_around<A: Allocator + Copy>(
    alloc: A,
    ground: &Ground,
    taken: &mut Vec<Range, A>,
    items: &[Item],
    places: &mut [u64],
) -> Result<Option<usize>, OutOfMemory>
    // those of a level are found by halving
    requires rows { AreLineRows ground.now.lines.now }
    // without an address it has no last one, and of 0 there is no multiple
    requires items { All HasExtent items.now }
    // what is free lies between two that follow one another
    requires listed { AreRisingAtBothEnds taken.old.items }
    // an item's place stands at its index
    requires count { length places.old ≡ length items.now }
    ensures placing { IfOk result (λ lack. (values : List ItemValue) → (behind : ItemValue → List DecodedRange)
        → HaveExtents values items.now → HaveBehind (ground_value ground.now) behind values items.now
        → place_each (find_around behind ground.now.around) (map decoded_range_of taken.old.items) values
        ≡ placing_of values places.new lack) }
    ensures within { IfOk result (λ lack. IfSome lack (λ k. k < length items.now)) }
    // so the last address of each can be told
    ensures ends { IfOk result (λ lack. IfNone lack (AreEndingAll items.now places.new (length items.now))) }
{
    let mut last = None;
    for index in 0..items.len() {
        let place = take_one(alloc, ground, taken, &items[index], &mut last)?;
        let Some(at) = place else {
            return Ok(Some(index));
        };
        places[index] = at;
    }
    Ok(None)
}
