//! What is there, row by row: of a bus and a space, all roots being one bus, by rising first addresses.
ghost use Rattle.std.specs.Prelude.{◌≡◌, ◌<◌, ◌≤◌, ◌+◌, ℕ, true, false, IsTrue, OnOk, OnErr, length, slice_index_or};
ghost use Rattle.std.specs.List.{list_all};
ghost use Rattle.settle_spec.specs.FirstPlace.{ranges_are_apart};
ghost use Rattle.settle_spec.specs.Wishes.{gained};
ghost use Rattle.pci_base.specs.Ranges.{decoded_range_of};
ghost use Rattle.pci_base.specs.Space.{space_of};
ghost use Rattle.pci_tree.specs.Roots.{buses_of};
ghost use Rattle.pci_grow.specs.RoomRows.{bus_level, row_number, IsEndedIn, IsAddedTo};
ghost use Rattle.pci_grow.specs.LastPlaces.{LastsRise};
ghost use Rattle.pci_first_fit.specs.Spots.{FirstsRise};

use pci_base::memory::OutOfMemory;
use pci_base::range::Range;
use pci_base::space::Space;
use pci_first_fit::list::is_root;
use pci_tree::roots::Roots;
use std::alloc::Allocator;

/// How many rows there are: one for each space on the roots, and on each of 256 buses.
pub const ROWS: usize = 514;

/// 0 for a root, else one more than the bus number: all roots are one bus.
pub fn level(roots: &Roots, bus: u8) -> u16
    ensures level { result ≡ bus_level (buses_of roots.now) bus }
    ensures small { result < 257 }
{
    if is_root(roots, bus) {
        0
    } else {
        u16::from(bus) + 1
    }
}

/// The row of what is on a bus in a space.
pub fn row(roots: &Roots, bus: u8, space: Space) -> usize
    ensures row { result ≡ row_number (bus_level (buses_of roots.now) bus) (space_of space) }
    ensures small { result < 514 }
{
    let level = level(roots, bus) as usize;
    match space {
        Space::Io => 2 * level,
        Space::Mem => 2 * level + 1,
    }
}

/// Whether a range has none of the addresses that a window gains by ending later.
fn is_off(range: Range, window: Range, last: u64) -> bool
    ensures { result ≡ ranges_are_apart (gained (decoded_range_of window) last) (decoded_range_of range) }
{
    last < range.first || range.last <= window.last
}

/// The index of the first range that begins above an address.
fn first_above(row: &[Range], last: u64) -> usize
    requires { FirstsRise row.now }
    ensures bound { result ≤ length row.now }
    ensures before { (k : ℕ) → (d : Range) → k < result → (slice_index_or row.now k d).first ≤ last }
    ensures after { (k : ℕ) → (d : Range) → result ≤ k → k < length row.now
        → last < (slice_index_or row.now k d).first }
{
    row.partition_point(|range| range.first <= last)
}

/// Whether nothing in a row has an address that a window gains by ending later, where last addresses rise too: then the last
/// of those that begin by that end has the highest one.
fn is_free_where_lasts_rise(row: &[Range], window: Range, last: u64) -> bool
    requires order { FirstsRise row.now }
    requires rising { LastsRise row.now }
    ensures { result ≡ list_all
        (λ range. ranges_are_apart (gained (decoded_range_of window) last) (decoded_range_of range)) row.now }
{
    let index = first_above(row, last);
    if index == 0 {
        return true;
    }
    row[index - 1].last <= window.last
}

/// Whether nothing in a row has an address that a window gains by ending later. `rising` says that last addresses are known
/// to rise.
pub fn is_free_to(row: &[Range], rising: bool, window: Range, last: u64) -> bool
    requires order { FirstsRise row.now }
    requires rising { IsTrue rising → LastsRise row.now }
    ensures { result ≡ list_all
        (λ range. ranges_are_apart (gained (decoded_range_of window) last) (decoded_range_of range)) row.now }
{
    if rising {
        return is_free_where_lasts_rise(row, window, last);
    }
    row.iter().all(|range| is_off(*range, window, last))
}

/// Whether a range of a row may end at an address, so that last addresses still rise.
fn may_end_at(row: &[Range], index: usize, last: u64) -> bool
    requires { index < length row.now }
    ensures own { (d : Range) → IsTrue result → (slice_index_or row.now index d).last ≤ last }
    ensures next { (d : Range) → IsTrue result → index + 1 < length row.now
        → last ≤ (slice_index_or row.now (index + 1) d).last }
{
    if last < row[index].last {
        return false;
    }
    if index + 1 < row.len() {
        last <= row[index + 1].last
    } else {
        true
    }
}

/// Lets a range of a row end later. The answer says whether last addresses still rise, if they did.
pub fn end_later(row: &mut [Range], window: Range, last: u64) -> bool
    ensures ended { IsEndedIn row.old row.new window last }
    // it begins where it did
    ensures order { FirstsRise row.old → FirstsRise row.new }
    ensures rising { LastsRise row.old → IsTrue result → LastsRise row.new }
    ensures count { length row.new ≡ length row.old }
{
    // one search finds it, if it is the only range that begins there
    let index = row.partition_point(|range| range.first < window.first);
    if index < row.len() {
        if row[index] == window {
            let rising = may_end_at(row, index, last);
            row[index].last = last;
            return rising;
        }
    }
    for index in 0..row.len() {
        if row[index] == window {
            let rising = may_end_at(row, index, last);
            row[index].last = last;
            return rising;
        }
    }
    true
}

/// The index of the first range that begins at an address or above it.
fn first_from(row: &[Range], at: u64) -> usize
    requires { FirstsRise row.now }
    ensures bound { result ≤ length row.now }
    ensures before { (k : ℕ) → (d : Range) → k < result → (slice_index_or row.now k d).first < at }
    ensures after { (k : ℕ) → (d : Range) → result ≤ k → k < length row.now
        → at ≤ (slice_index_or row.now k d).first }
{
    row.partition_point(|range| range.first < at)
}

/// Puts a range into a row.
pub fn add<A: Allocator>(row: &mut Vec<Range, A>, range: Range) -> Result<(), OutOfMemory>
    requires { FirstsRise row.old.items }
    ensures added { OnOk result (IsAddedTo row.old.items row.new.items range) }
    ensures order { FirstsRise row.new.items }
    // without memory for it the row stays
    ensures same { OnErr result (row.new.items ≡ row.old.items) }
{
    let index = first_from(row.as_slice(), range.first);
    row.insert(index, range)?;
    Ok(())
}

/// Whether last addresses rise in a row.
pub fn lasts_rise(row: &[Range]) -> bool
    ensures { IsTrue result → LastsRise row.now }
{
    for index in 1..row.len() {
        if row[index].last < row[index - 1].last {
            return false;
        }
    }
    true
}

/// Clears the flag of a row in which last addresses may fall now.
pub fn note<A: Allocator>(flags: &mut Vec<bool, A>, row: usize, rising: bool)
    ensures count { length flags.new.items ≡ length flags.old.items }
    ensures own { slice_index_or flags.new.items row false ≡ true → rising ≡ true }
    // no flag is set
    ensures others { (n : ℕ) → slice_index_or flags.new.items n false ≡ true
        → slice_index_or flags.old.items n false ≡ true }
{
    if !rising {
        if row < flags.len() {
            flags[row] = false;
        }
    }
}
