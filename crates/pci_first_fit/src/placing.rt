//! Extents get their places one after another, each place being taken for those that follow: a place that is told, or the
//! first one in a list of ranges.
//!
//! They come by falling alignment and size, so those of one extent come one after another: what one of them didn't
//! find free isn't free for the next, and its search goes on where the last one in its list was placed.
ghost use Rattle.std.specs.Prelude.{◌≡◌, ℕ, ◌≤◌, ◌<◌, ◌^◌, ◌++◌, [], IfOk, OnOk, IfSome, IfNone, List, Option, length, map, slice_index_or};
ghost use Rattle.std.specs.List.{All};
ghost use Rattle.pci_spec.specs.Decoded.{Range as DecodedRange};
ghost use Rattle.plan_spec.specs.Place.{range_from};
ghost use Rattle.settle_spec.specs.FirstPlace.{first_place as place_in_ranges};
ghost use Rattle.settle_spec.specs.Items.{PlacingItem, place_each};
ghost use Rattle.pci_base.specs.Ranges.{decoded_range_of};
ghost use Rattle.pci_first_fit.specs.Spots.{extent_value, IsExtent, FirstsRise, AreRisingRanges, IsTakenBy, IsTakenAt, IsStart, place_if};
ghost use Rattle.pci_first_fit.specs.Placings.{HasListAt, place_by_list, wanted_place, AreWanted, AreEnding, IsCursor, AreCursors, IsWantedReady, placing_of};

use crate::extent::Extent;
use crate::near::add_near;
use crate::spot::{Start, first_place, sort_by_first};
use pci_base::memory::OutOfMemory;
use pci_base::range::Range;
use std::alloc::Allocator;

/// With up to so many ranges of a list each line is compared, before what is left is sorted with what is taken.
const FEW_RANGES: usize = 4;

/// An extent that is to be placed.
#[derive(Clone, Copy, Debug, PartialEq, Eq)]
pub struct Wanted {
    pub extent: Extent,
    /// Which of the lists of ranges it can have.
    pub list: usize,
    /// Its place, where that is told: no list is searched for it then.
    pub at: Option<u64>,
}

/// Where extents are looked for.
#[derive(Drop)]
pub struct Search<'a, B: Allocator, C: Allocator> {
    /// Lists of ranges, of which each extent names one by index.
    pub lists: &'a [Vec<Range, B>],
    /// What the place of each extent has to be off beside what is taken, by the extent's index: nothing past the end.
    pub behind: &'a [Vec<Range, C>],
}

/// Where in a list the last extent was placed.
#[derive(Clone, Copy, Debug)]
struct Cursor {
    extent: Extent,
    start: Start,
}

impl Cursor {
    /// Nothing was placed yet.
    fn first() -> Cursor
        ensures { (ranges taken : List Range) → IsCursor ranges taken result }
    {
        Cursor {
            extent: Extent {
                size: 1,
                alignment: 1,
                highest: 0,
            },
            start: Start::first(),
        }
    }

    /// From where on the list is searched for an extent.
    fn start_for(&self, extent: Extent) -> Start
        ensures { (ranges taken : List Range) → IsCursor ranges taken self.now
            → IsStart ranges taken extent result }
    {
        if self.extent == extent {
            self.start
        } else {
            Start::first()
        }
    }
}

/// Whether a range has a place for an extent from `start` on; `start` goes to the first one of the first range that has
/// any, which is taken from then on.
pub fn place_next<A: Allocator>(
    ranges: &[Range],
    taken: &mut Vec<Range, A>,
    extent: Extent,
    start: &mut Start,
) -> Result<bool, OutOfMemory>
    // without an address it has no last one, and of 0 there is no multiple
    requires extent { IsExtent extent }
    // what is free lies between two that follow one another
    requires listed { AreRisingRanges taken.old.items }
    // no place lies before it, so the search can begin there
    requires start { IsStart ranges.now taken.old.items extent start.old }
    ensures place { IfOk result (λ found. place_if found start.new.spot.at
        ≡ place_in_ranges (map decoded_range_of ranges.now)
        (map decoded_range_of taken.old.items) (extent_value extent)) }
    ensures taken { IfOk result (IsTakenBy taken.old.items taken.new.items extent start.new.spot) }
    ensures listed { AreRisingRanges taken.new.items }
    ensures start { IfOk result (λ found. IsStart ranges.now taken.new.items extent start.new) }
{
    if !first_place(ranges, taken.as_slice(), extent, start) {
        return Ok(false);
    }
    let first = start.spot.at;
    let last = first + (extent.size - 1);
    taken.insert(start.spot.index, Range { first, last })?;
    Ok(true)
}

/// As many cursors as there are lists.
fn cursors_for<A: Allocator>(alloc: A, lists: usize) -> Result<Vec<Cursor, A>, OutOfMemory>
    ensures count { IfOk result (λ cursors. length cursors.items ≡ lists) }
    ensures cursors { IfOk result (λ cursors. (ranges taken : List Range)
        → All (IsCursor ranges taken) cursors.items) }
{
    let mut cursors = Vec::new(alloc);
    for _ in 0..lists {
        cursors.push(Cursor::first())?;
    }
    Ok(cursors)
}

/// Every list is searched from its beginning again.
fn restart(cursors: &mut [Cursor])
    ensures count { length cursors.new ≡ length cursors.old }
    ensures cursors { (ranges taken : List Range) → All (IsCursor ranges taken) cursors.new }
{
    for index in 0..cursors.len() {
        cursors[index] = Cursor::first();
    }
}

/// The index of the first range that begins at an address or above it.
fn first_from(taken: &[Range], at: u64) -> usize
    requires { FirstsRise taken.now }
    ensures bound { result ≤ length taken.now }
    ensures before { (k : ℕ) → (d : Range) → k < result → (slice_index_or taken.now k d).first < at }
    ensures after { (k : ℕ) → (d : Range) → result ≤ k → k < length taken.now
        → at ≤ (slice_index_or taken.now k d).first }
{
    taken.partition_point(|range| range.first < at)
}

/// Takes the addresses of an extent from an address on.
fn take_at<A: Allocator>(
    taken: &mut Vec<Range, A>,
    extent: Extent,
    at: u64,
) -> Result<(), OutOfMemory>
    requires extent { IsExtent extent }
    requires ends { (range_from at extent.size).last < 2 ^ 64 }
    requires listed { AreRisingRanges taken.old.items }
    ensures taken { OnOk result (IsTakenAt taken.old.items taken.new.items extent at) }
    ensures listed { AreRisingRanges taken.new.items }
{
    let last = at + (extent.size - 1);
    let index = first_from(taken.as_slice(), at);
    taken.insert(index, Range { first: at, last })?;
    Ok(())
}

/// Gives an extent its first place in its list of ranges, which is taken from then on; None where it has none.
fn place_first<A: Allocator, B: Allocator>(
    lists: &[Vec<Range, B>],
    taken: &mut Vec<Range, A>,
    cursors: &mut [Cursor],
    wanted: &Wanted,
) -> Result<Option<u64>, OutOfMemory>
    requires wanted { HasListAt (length lists.now) wanted.now }
    requires listed { AreRisingRanges taken.old.items }
    requires cursors { AreCursors (map (λ list. list.items) lists.now) taken.old.items cursors.old }
    ensures place { IfOk result (λ place. place ≡ place_by_list (map (λ list. list.items) lists.now)
        (map decoded_range_of taken.old.items) wanted.now) }
    ensures taken { IfOk result (λ place. IfSome place
        (IsTakenAt taken.old.items taken.new.items wanted.now.extent)) }
    ensures listed { AreRisingRanges taken.new.items }
    ensures cursors { IfOk result (λ place. IfSome place
        (λ _. AreCursors (map (λ list. list.items) lists.now) taken.new.items cursors.new)) }
{
    let extent = wanted.extent;
    let mut start = cursors[wanted.list].start_for(extent);
    if !place_next(&lists[wanted.list], taken, extent, &mut start)? {
        return Ok(None);
    }
    cursors[wanted.list] = Cursor { extent, start };
    Ok(Some(start.spot.at))
}

/// Gives an extent the place that is told for it, or else its first place in its list of ranges, and takes it.
fn place_wanted<A: Allocator, B: Allocator>(
    lists: &[Vec<Range, B>],
    taken: &mut Vec<Range, A>,
    cursors: &mut [Cursor],
    wanted: &Wanted,
) -> Result<Option<u64>, OutOfMemory>
    requires wanted { HasListAt (length lists.now) wanted.now }
    requires listed { AreRisingRanges taken.old.items }
    requires cursors { AreCursors (map (λ list. list.items) lists.now) taken.old.items cursors.old }
    ensures place { IfOk result (λ place. place ≡ wanted_place (map (λ list. list.items) lists.now)
        (map decoded_range_of taken.old.items) wanted.now) }
    ensures taken { IfOk result (λ place. IfSome place
        (IsTakenAt taken.old.items taken.new.items wanted.now.extent)) }
    ensures listed { AreRisingRanges taken.new.items }
    ensures cursors { IfOk result (λ place. IfSome place
        (λ _. AreCursors (map (λ list. list.items) lists.now) taken.new.items cursors.new)) }
{
    match wanted.at {
        Some(at) => {
            take_at(taken, wanted.extent, at)?;
            // what is told may be taken where a search has been
            restart(cursors);
            Ok(Some(at))
        }
        None => place_first(lists, taken, cursors, wanted),
    }
}

/// The first place of an extent in some ranges, off what is behind it and off what is taken.
fn first_off<A: Allocator>(
    alloc: A,
    ranges: &[Range],
    behind: &[Range],
    taken: &[Range],
    extent: Extent,
) -> Result<Option<u64>, OutOfMemory>
    requires { IsExtent extent }
    ensures place { IfOk result (λ place. place ≡ place_in_ranges (map decoded_range_of ranges.now)
        (map decoded_range_of behind.now ++ map decoded_range_of taken.now) (extent_value extent)) }
    ensures ends { IfOk result (λ place. IfSome place
        (λ at. (range_from at extent.size).last < 2 ^ 64)) }
{
    let mut all = Vec::new(alloc);
    all.extend_from_slice(behind)?;
    all.extend_from_slice(taken)?;
    sort_by_first(&mut all);
    let mut start = Start::first();
    if !first_place(ranges, all.as_slice(), extent, &mut start) {
        return Ok(None);
    }
    Ok(Some(start.spot.at))
}

/// What the place of the extent of an index has to be off beside what is taken.
fn behind_at<C: Allocator>(behind: &[Vec<Range, C>], index: usize) -> &[Range]
    ensures { result.now ≡ slice_index_or (map (λ list. list.items) behind.now) index [] }
{
    match behind.get(index) {
        Some(list) => list.as_slice(),
        None => &[],
    }
}

/// What is wanted for an extent that has something behind it: the place that is told, or the first one that is off that and
/// off what is taken. None where it has none.
fn wanted_beside<A: Allocator, B: Allocator>(
    alloc: A,
    lists: &[Vec<Range, B>],
    behind: &[Range],
    taken: &[Range],
    wanted: &Wanted,
) -> Result<Option<Wanted>, OutOfMemory>
    requires { HasListAt (length lists.now) wanted.now }
    ensures { IfOk result (IsWantedReady (length lists.now) (map (λ list. list.items) lists.now)
        (map decoded_range_of behind.now) (map decoded_range_of taken.now) wanted.now) }
{
    let extent = wanted.extent;
    let list = wanted.list;
    if behind.is_empty() || wanted.at.is_some() {
        return Ok(Some(*wanted));
    }
    match first_off(alloc, &lists[list], behind, taken, extent)? {
        Some(at) => Ok(Some(Wanted {
            extent,
            list,
            at: Some(at),
        })),
        None => Ok(None),
    }
}

/// The same, where a list has few ranges: what is behind it and shares no address with one of them is left out.
fn wanted_near<A: Allocator + Copy, B: Allocator>(
    alloc: A,
    lists: &[Vec<Range, B>],
    behind: &[Range],
    taken: &[Range],
    wanted: &Wanted,
) -> Result<Option<Wanted>, OutOfMemory>
    requires { HasListAt (length lists.now) wanted.now }
    ensures { IfOk result (IsWantedReady (length lists.now) (map (λ list. list.items) lists.now)
        (map decoded_range_of behind.now) (map decoded_range_of taken.now) wanted.now) }
{
    let extent = wanted.extent;
    let list = wanted.list;
    if behind.is_empty() || wanted.at.is_some() {
        return Ok(Some(*wanted));
    }
    let ranges = lists[list].as_slice();
    // the rest keeps no place in these ranges from being free
    let mut near = Vec::new(alloc);
    add_near(&mut near, ranges, behind)?;
    if near.is_empty() {
        return Ok(Some(*wanted));
    }
    match first_off(alloc, ranges, near.as_slice(), taken, extent)? {
        Some(at) => Ok(Some(Wanted {
            extent,
            list,
            at: Some(at),
        })),
        None => Ok(None),
    }
}

/// The same, in the less expensive of two ways.
fn wanted_off<A: Allocator + Copy, B: Allocator>(
    alloc: A,
    lists: &[Vec<Range, B>],
    behind: &[Range],
    taken: &[Range],
    wanted: &Wanted,
) -> Result<Option<Wanted>, OutOfMemory>
    requires { HasListAt (length lists.now) wanted.now }
    ensures { IfOk result (IsWantedReady (length lists.now) (map (λ list. list.items) lists.now)
        (map decoded_range_of behind.now) (map decoded_range_of taken.now) wanted.now) }
{
    if lists[wanted.list].len() <= FEW_RANGES {
        wanted_near(alloc, lists, behind, taken, wanted)
    } else {
        wanted_beside(alloc, lists, behind, taken, wanted)
    }
}

/// Gives each extent the place that is told for it, or else its first place in its list of ranges, what is taken, those
/// before it and what is behind it being taken. The answer is None where all have one, else the index of the first that has
/// none.
pub fn place_all<A: Allocator + Copy, B: Allocator, C: Allocator>(
    alloc: A,
    within: &Search<B, C>,
    taken: &mut Vec<Range, A>,
    wanted: &[Wanted],
    places: &mut [u64],
) -> Result<Option<usize>, OutOfMemory>
    // each names its list by index
    requires wanted { All (HasListAt (length within.now.lists.now)) wanted.now }
    // what is free lies between two that follow one another
    requires listed { AreRisingRanges taken.old.items }
    // an extent's place stands at its index
    requires count { length places.old ≡ length wanted.now }
    ensures placing { IfOk result (λ lack. (find : PlacingItem → List DecodedRange → Option ℕ) (items : List PlacingItem)
        → AreWanted (map (λ list. list.items) within.now.lists.now)
        (map (λ list. list.items) within.now.behind.now) find items wanted.now
        → place_each find (map decoded_range_of taken.old.items) items
        ≡ placing_of items places.new lack) }
    // by it the caller names the part that has no place
    ensures within { IfOk result (λ lack. IfSome lack (λ k. k < length wanted.now)) }
    // so the last address of each can be told
    ensures ends { IfOk result (λ lack. IfNone lack
        (AreEnding wanted.now places.new (length wanted.now))) }
    ensures listed { AreRisingRanges taken.new.items }
{
    let lists = within.lists;
    let mut table = cursors_for(alloc, lists.len())?;
    let cursors = table.as_mut_slice();
    for (index, wanted) in wanted.iter().enumerate() {
        let behind = behind_at(within.behind, index);
        let Some(ready) = wanted_off(alloc, lists, behind, taken.as_slice(), wanted)? else {
            return Ok(Some(index));
        };
        let Some(at) = place_wanted(lists, taken, cursors, &ready)? else {
            return Ok(Some(index));
        };
        places[index] = at;
    }
    Ok(None)
}
