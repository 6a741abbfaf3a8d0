//! Lines that keep parts off: those that share an address with a part on their bus, in their space. One that is off keeps only
//! parts off that don't come before it, and a held one nothing of its own slot.
ghost use Rattle.std.specs.Prelude.{◌≡◌, ◌≤◌, ◌||◌, OnOk, IfOk, [], length};
ghost use Rattle.std.specs.List.{AllPairs};
ghost use Rattle.std.specs.List.Sorted.{IsPermutation};
ghost use Rattle.pci_spec.specs.System.{System};
ghost use Rattle.settle_spec.specs.Lists.{Request};
ghost use Rattle.settle_spec.specs.Stands.{is_kept_off};
ghost use Rattle.judge_spec.specs.Told.{IsTold};
ghost use Rattle.judge_spec.specs.ToldRegion.{told_extent};
ghost use Rattle.pci_base.specs.Ranges.{decoded_range_of};
ghost use Rattle.pci_base.specs.Space.{space_of};
ghost use Rattle.pci_kept.specs.Boards.{IsKnownPart};
ghost use Rattle.pci_kept.specs.Known.{region_value};
ghost use Rattle.pci_kept.specs.Rows.{AreRows};
ghost use Rattle.pci_kept.specs.ToldLines.{AreToldLines, unnamed};
ghost use Rattle.pci_kept.specs.LineRows.{row_key, line_owner, is_kept_line, AreRowsOfKeptLines, AreSearched, AreOffRows};

use crate::leads::Told;
use crate::region::Region;
use crate::rows::{Row, Rows, keep_off};
use crate::told_line::{ToldLine, extent};
use pci_base::memory::OutOfMemory;
use pci_base::slot::Slot;
use pci_base::space::Space;
use pci_dump::told_range::ToldRange;
use std::alloc::Allocator;

/// No slot has this number.
pub const NOBODY: u32 = 65536;

/// Lines that keep parts off.
#[derive(Clone, Copy)]
pub struct Off<'a> {
    /// Those that are on.
    pub on: Rows<'a>,
    /// All of them.
    pub all: Rows<'a>,
}

/// The number of a level and a space.
pub fn row_key(level: u16, space: Space) -> u32
    ensures { result ≡ row_key level (space_of space) }
{
    let level = 2 * u32::from(level);
    match space {
        Space::Io => level,
        Space::Mem => level + 1,
    }
}

/// The row of a line on a level.
pub fn row_of(level: u16, range: &ToldRange) -> Row
    ensures key { result.key ≡ row_key level range.now.space }
    ensures owner { result.owner ≡ line_owner (unnamed range.now) }
    ensures range { decoded_range_of result.range ≡ told_extent range.now }
{
    let owner = if range.is_held() {
        u32::from(range.slot.number())
    } else {
        NOBODY
    };
    Row {
        key: row_key(level, range.space),
        owner,
        range: extent(range),
    }
}

/// Whether a line is one of those that are on, or of all.
fn is_taken(all: bool, line: ToldLine) -> bool
    ensures { result ≡ (all || line.on) }
{
    all || line.on
}

/// Adds the rows of lines that are on, or of all.
fn add_rows<A: Allocator>(rows: &mut Vec<Row, A>, told: &Told, all: bool) -> Result<(), OutOfMemory>
    requires count { length told.now.lines.now ≡ length told.now.ranges.now }
    ensures { OnOk result ((q : Request) → (s : System) → q.told.ranges ≡ told.now.ranges.now
        → AreToldLines q s told.now.lines.now → rows.old.items ≡ []
        → AreRowsOfKeptLines q (is_kept_line q s all) rows.new.items) }
{
    for index in 0..told.ranges.len() {
        let line = told.lines[index];
        if is_taken(all, line) {
            rows.push(row_of(line.level, &told.ranges[index]))?;
        }
    }
    Ok(())
}

/// Sorts rows by rising first addresses.
fn sort_by_first<A: Allocator + Copy>(rows: &mut Vec<Row, A>) -> Result<(), OutOfMemory>
    ensures permutation { IsPermutation rows.old.items rows.new.items }
    ensures sorted { OnOk result (AllPairs (λ r t. r.range.first ≤ t.range.first) rows.new.items) }
{
    match rows.sort_by_key(|row| row.range.first) {
        Ok(()) => Ok(()),
        Err(_) => Err(OutOfMemory),
    }
}

/// Sorts rows by rising keys; those of one key stay in their order.
fn sort_by_key<A: Allocator + Copy>(rows: &mut Vec<Row, A>) -> Result<(), OutOfMemory>
    ensures permutation { IsPermutation rows.old.items rows.new.items }
    ensures sorted { OnOk result (AllPairs (λ r t. r.range.first ≤ t.range.first) rows.old.items
        → AreRows rows.new.items) }
{
    match rows.sort_by_key(|row| row.key) {
        Ok(()) => Ok(()),
        Err(_) => Err(OutOfMemory),
    }
}

/// Sorts rows by rising keys, and those of one key by rising first addresses.
pub fn sort_rows<A: Allocator + Copy>(rows: &mut Vec<Row, A>) -> Result<(), OutOfMemory>
    ensures permutation { IsPermutation rows.old.items rows.new.items }
    ensures sorted { OnOk result (AreRows rows.new.items) }
{
    sort_by_first(rows)?;
    sort_by_key(rows)
}

/// The rows of lines that are on, or of all, by rising keys and first addresses.
pub fn line_rows<A: Allocator + Copy>(
    alloc: A,
    told: &Told,
    all: bool,
) -> Result<Vec<Row, A>, OutOfMemory>
    requires count { length told.now.lines.now ≡ length told.now.ranges.now }
    ensures order { IfOk result (λ rows. AreRows rows.items) }
    ensures rows { IfOk result (λ rows. (q : Request) → (s : System)
        → q.told.ranges ≡ told.now.ranges.now → AreToldLines q s told.now.lines.now
        → AreRowsOfKeptLines q (is_kept_line q s all) rows.items) }
{
    let mut rows = Vec::new(alloc);
    add_rows(&mut rows, told, all)?;
    sort_rows(&mut rows)?;
    Ok(rows)
}

/// Whether a part comes before all lines that are off.
fn precedes_off(region: &Region) -> bool
    ensures { result ≡ (region.now.leads || region.now.fixed || region.now.on) }
{
    region.leads || region.fixed || region.on
}

/// Whether a line keeps off a part of the function at a slot.
pub fn is_kept_off(off: &Off, slot: Slot, region: &Region) -> bool
    requires on { AreSearched off.now.on }
    requires all { AreSearched off.now.all }
    ensures { (q : Request) → (s : System) → IsTold q.told.ranges → IsKnownPart q s region.now
        → AreOffRows q s off.now → (region_value s region.now).function.slot ≡ slot
        → result ≡ is_kept_off q s (region_value s region.now) }
{
    if off.all.rows.is_empty() {
        return false;
    }
    let key = row_key(region.level, region.space);
    let owner = u32::from(slot.number());
    if precedes_off(region) {
        return keep_off(&off.on, key, owner, region.range);
    }
    keep_off(&off.all, key, owner, region.range)
}
