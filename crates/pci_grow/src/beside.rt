//! The parts that stand beside each other: of a bus and a space, by rising addresses.
ghost use Rattle.std.specs.Prelude.{◌≡◌, ◌<◌, ◌≤◌, ℕ, IfOk, IfSome, IfNone, OnOk, length};
ghost use Rattle.std.specs.List.{AllPairs, AllWithin, filter};
ghost use Rattle.std.specs.List.Sorted.{IsPermutation, IsNonDecreasingBy};
ghost use Rattle.pci_base.specs.Space.{space_of};
ghost use Rattle.pci_kept.specs.Held.{is_region_kept};
ghost use Rattle.pci_grow.specs.Rows.{region_row_number, IsLower, IsInRowOrder, AreRowsOfStanding, IsRangeBeforeInRow, IsRangeBehindInRow, AreAllInLowerRows, AreAllInHigherRows};
ghost use Rattle.pci_grow.specs.RoomRows.{row_number};

use pci_base::memory::OutOfMemory;
use pci_base::range::Range;
use pci_base::space::Space;
use pci_first_fit::bus::kept_by;
use pci_first_fit::kept::Kept;
use pci_kept::region::Region;
use std::alloc::Allocator;

/// Sorts parts by rising first addresses; those of one first address stay in their order.
fn sort_by_address<A: Allocator + Copy>(regions: &mut Vec<Region, A>) -> Result<(), OutOfMemory>
    ensures permutation { IsPermutation regions.old.items regions.new.items }
    ensures sorted { OnOk result ((number : Region → ℕ)
        → AllPairs (λ r t. number r < number t) regions.old.items
        → AllPairs (IsLower number) regions.new.items) }
{
    match regions.sort_by_key(|region| region.range.first) {
        Ok(()) => Ok(()),
        Err(_) => Err(OutOfMemory),
    }
}

/// The row of what is on a bus, in a space. It rises with the bus, all roots being one, and then from I/O to memory.
pub fn row(level: u16, space: Space) -> u32
    ensures { result ≡ row_number level (space_of space) }
{
    match space {
        Space::Io => 2 * u32::from(level),
        Space::Mem => 2 * u32::from(level) + 1,
    }
}

/// The row of a part.
pub fn row_of(region: &Region) -> u32
    ensures { result ≡ region_row_number region.now }
{
    row(region.level, region.space)
}

/// Sorts parts by their rows; those of one row stay in their order.
fn sort_by_row<A: Allocator + Copy>(regions: &mut Vec<Region, A>) -> Result<(), OutOfMemory>
    ensures permutation { IsPermutation regions.old.items regions.new.items }
    ensures sorted { OnOk result ((number : Region → ℕ) → AllPairs (IsLower number) regions.old.items
        → AllPairs (IsInRowOrder number) regions.new.items) }
    // so rows are found by halves
    ensures rows { OnOk result (IsNonDecreasingBy region_row_number regions.new.items) }
{
    match regions.sort_by_key(|region| row_of(region)) {
        Ok(()) => Ok(()),
        Err(_) => Err(OutOfMemory),
    }
}

/// The parts that a table tells to stand.
fn standing_parts<A: Allocator>(
    alloc: A,
    regions: &[Region],
    standing: &[Kept],
) -> Result<Vec<Region, A>, OutOfMemory>
    ensures { IfOk result (λ parts. parts.items ≡ filter (is_region_kept standing.now) regions.now) }
{
    let mut parts = Vec::new(alloc);
    for region in regions {
        if kept_by(standing, region.function).keeps(region.part) {
            parts.push(*region)?;
        }
    }
    Ok(parts)
}

/// The parts that a table tells to stand, row by row, and in a row by rising addresses.
pub fn standing_in_rows<A: Allocator + Copy>(
    alloc: A,
    regions: &[Region],
    standing: &[Kept],
) -> Result<Vec<Region, A>, OutOfMemory>
    ensures rows { IfOk result (λ rows. AreRowsOfStanding regions.now standing.now rows.items) }
    // so rows are found by halves
    ensures order { IfOk result (λ rows. IsNonDecreasingBy region_row_number rows.items) }
{
    let mut rows = standing_parts(alloc, regions, standing)?;
    sort_by_address(&mut rows)?;
    sort_by_row(&mut rows)?;
    Ok(rows)
}

/// The index of the first part of a row or a later one.
pub fn first_from(rows: &[Region], row: u32) -> usize
    requires { IsNonDecreasingBy region_row_number rows.now }
    ensures bound { result ≤ length rows.now }
    ensures before { AllWithin (λ r. region_row_number r < row) rows.now 0 result }
    ensures after { AllWithin (λ r. row ≤ region_row_number r) rows.now result (length rows.now) }
{
    rows.partition_point(|region| row_of(region) < row)
}

/// The part before one in its row.
pub fn before(rows: &[Region], index: usize) -> Option<Range>
    requires index { index < length rows.now }
    // those of a row follow one another
    requires order { IsNonDecreasingBy region_row_number rows.now }
    ensures some { IfSome result (IsRangeBeforeInRow rows.now index) }
    ensures none { IfNone result (AreAllInLowerRows rows.now index) }
{
    if index == 0 {
        return None;
    }
    let other = &rows[index - 1];
    if row_of(other) == row_of(&rows[index]) {
        Some(other.range)
    } else {
        None
    }
}

/// The part behind one in its row.
pub fn behind(rows: &[Region], index: usize) -> Option<Range>
    requires index { index < length rows.now }
    // those of a row follow one another
    requires order { IsNonDecreasingBy region_row_number rows.now }
    ensures some { IfSome result (IsRangeBehindInRow rows.now index) }
    ensures none { IfNone result (AreAllInHigherRows rows.now index) }
{
    if index + 1 >= rows.len() {
        return None;
    }
    let other = &rows[index + 1];
    if row_of(other) == row_of(&rows[index]) {
        Some(other.range)
    } else {
        None
    }
}
