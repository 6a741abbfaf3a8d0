//! Which told ranges stand where they are: on a root or in a window that stands, off held lines, and apart from what comes
//! before them.
ghost use Rattle.std.specs.Prelude.{ℕ, List, ◌≡◌, ◌+◌, ◌<◌, ◌++◌, IfOk, OnOk, length, map};
ghost use Rattle.std.specs.List.{All, filter};
ghost use Rattle.std.specs.List.Sorted.{IsPermutation};
ghost use Rattle.pci_spec.specs.System.{System};
ghost use Rattle.settle_spec.specs.Lists.{Request};
ghost use Rattle.judge_spec.specs.Told.{IsTold};
ghost use Rattle.judge_spec.specs.ToldRegion.{ToldRegion};
ghost use Rattle.settle_laws.specs.StandingTold.Passes.{AreRangesInOrder};
ghost use Rattle.pci_kept.specs.ApartRows.{AreApartRows};
ghost use Rattle.pci_kept.specs.RangePass.{ArePartRows, IsTurn, AreRangesPassed, region_at};
ghost use Rattle.settle_spec.specs.Lines.{is_marked_always, is_held_line};
ghost use Rattle.settle_spec.specs.Stands.{stands, is_range_in_place};
ghost use Rattle.pci_tree.specs.Ways.{IsBridgeToBus};
ghost use Rattle.pci_kept.specs.Boards.{IsTree};
ghost use Rattle.pci_kept.specs.Held.{is_region_kept};
ghost use Rattle.pci_kept.specs.LineRows.{nobody, AreRowsOfKeptLines, AreSearched};
ghost use Rattle.pci_kept.specs.Passing.{AreStanding};
ghost use Rattle.pci_kept.specs.Rows.{AreRows};
ghost use Rattle.pci_kept.specs.StandingRanges.{is_owned, part_row, is_free_of};
ghost use Rattle.pci_kept.specs.ToldLines.{unnamed, IsToldLineOf, AreToldLines};

use crate::apart::put_row;
use crate::bridges::are_on;
use crate::held::is_kept;
use crate::leads::Told;
use crate::off::{NOBODY, row_key, row_of, sort_rows};
use crate::place::is_held;
use crate::region::Region;
use crate::rows::{Row, Rows, keep_off};
use crate::told_line::{ToldLine, extent};
use pci_base::memory::OutOfMemory;
use pci_base::slot::BUSES;
use pci_dump::told_range::{Mark, ToldRange};
use pci_first_fit::kept::Kept;
use pci_function::record::Record;
use std::alloc::Allocator;

/// No row has this owner.
const ANYBODY: u32 = 65537;

/// What tells whether told ranges stand.
#[derive(Clone, Copy)]
pub struct Ground<'a> {
    pub records: &'a [Record],
    /// Which function leads to each bus.
    pub over: &'a [Option<usize>; BUSES],
    /// Which parts stand, by function.
    pub table: &'a [Kept],
    /// Held lines.
    pub held: Rows<'a>,
    /// Parts that stand.
    pub parts: Rows<'a>,
}

/// Whether a told range is answered whatever Command says.
fn is_always(range: &ToldRange) -> bool
    ensures { result ≡ is_marked_always range.now.mark }
{
    matches!(range.mark, Mark::Always)
}

/// Whether a told range is on a root, or in a window that stands; each bridge above one that is always answered enables its
/// space.
fn is_in_place(
    records: &[Record],
    over: &[Option<usize>; BUSES],
    table: &[Kept],
    range: &ToldRange,
    line: ToldLine,
) -> bool
    requires over { IsBridgeToBus records.now over.now }
    requires count { length table.now ≡ length records.now }
    ensures { (q : Request) → (s : System) → IsTree q s records.now → AreStanding q s table.now
        → IsToldLineOf q s range.now line → result ≡ is_range_in_place q s (stands q s) (unnamed range.now) }
{
    if line.level == 0 {
        return true;
    }
    let bus = range.slot.bus();
    let Some(index) = over[bus as usize] else {
        return false;
    };
    let Some(bridge) = &records[index].bridge else {
        return false;
    };
    if !is_held(&bridge.windows, line.class, extent(range)) {
        return false;
    }
    if !table[index].window(line.class) {
        return false;
    }
    if !is_always(range) {
        return true;
    }
    are_on(records, over, bus, range.space)
}

/// The rows of held lines, of rows of all lines.
pub fn held_rows<A: Allocator>(alloc: A, rows: &[Row]) -> Result<Vec<Row, A>, OutOfMemory>
    ensures { IfOk result (λ held. held.items ≡ filter is_owned rows.now) }
{
    let mut held = Vec::new(alloc);
    for row in rows {
        if row.owner != NOBODY {
            held.push(*row)?;
        }
    }
    Ok(held)
}

/// Adds the rows of parts that stand.
fn add_parts<A: Allocator>(
    rows: &mut Vec<Row, A>,
    regions: &[Region],
    table: &[Kept],
) -> Result<(), OutOfMemory>
    ensures { OnOk result (rows.new.items
        ≡ rows.old.items ++ map part_row (filter (is_region_kept table.now) regions.now)) }
{
    for region in regions {
        if is_kept(table, region) {
            rows.push(Row {
                key: row_key(region.level, region.space),
                owner: NOBODY,
                range: region.range,
            })?;
        }
    }
    Ok(())
}

/// The rows of parts that stand, by rising keys and first addresses.
pub fn part_rows<A: Allocator + Copy>(
    alloc: A,
    regions: &[Region],
    table: &[Kept],
) -> Result<Vec<Row, A>, OutOfMemory>
    ensures rows { IfOk result (λ rows. IsPermutation
        (map part_row (filter (is_region_kept table.now) regions.now)) rows.items) }
    ensures order { IfOk result (λ rows. AreRows rows.items) }
{
    let mut rows = Vec::new(alloc);
    add_parts(&mut rows, regions, table)?;
    sort_rows(&mut rows)?;
    Ok(rows)
}

/// Whether a told range is in its place, is no held one, and neither a held line nor a part that stands is in its way.
pub fn is_free(ground: &Ground, range: &ToldRange, line: ToldLine) -> bool
    requires over { IsBridgeToBus ground.now.records.now ground.now.over.now }
    requires count { length ground.now.table.now ≡ length ground.now.records.now }
    requires held { AreSearched ground.now.held }
    requires parts { AreSearched ground.now.parts }
    // no part is anybody's
    requires nobody { All (λ r. r.owner ≡ nobody) ground.now.parts.rows.now }
    ensures { (q : Request) → (s : System) → IsTree q s ground.now.records.now → IsTold q.told.ranges
        → AreStanding q s ground.now.table.now → AreRowsOfKeptLines q is_held_line ground.now.held.rows.now
        → IsToldLineOf q s range.now line
        → result ≡ is_free_of q s ground.now.parts.rows.now line.level range.now }
{
    if range.is_held() {
        return false;
    }
    if !is_in_place(ground.records, ground.over, ground.table, range, line) {
        return false;
    }
    let key = row_key(line.level, range.space);
    if keep_off(
        &ground.held,
        key,
        u32::from(range.slot.number()),
        extent(range),
    ) {
        return false;
    }
    !keep_off(&ground.parts, key, ANYBODY, extent(range))
}

/// Notes a told range that stands: it is free in its place, and none of its addresses is taken by one before it.
fn note_range<A: Allocator>(
    ground: &Ground,
    told: &Told,
    index: usize,
    taken: &mut Vec<Row, A>,
    flags: &mut [bool],
) -> Result<(), OutOfMemory>
    requires over { IsBridgeToBus ground.now.records.now ground.now.over.now }
    requires count { length ground.now.table.now ≡ length ground.now.records.now }
    requires held { AreSearched ground.now.held }
    requires parts { AreSearched ground.now.parts }
    requires nobody { All (λ r. r.owner ≡ nobody) ground.now.parts.rows.now }
    requires told { IsTold told.now.ranges.now }
    requires lines { length told.now.lines.now ≡ length told.now.ranges.now }
    requires index { index < length told.now.ranges.now }
    requires flags { length flags.old ≡ length told.now.ranges.now }
    requires apart { AreApartRows taken.old.items }
    ensures apart { AreApartRows taken.new.items }
    ensures passed { OnOk result ((q : Request) → (s : System) → (xs : List ToldRegion) → (count : ℕ)
        → IsTree q s ground.now.records.now → q.told.ranges ≡ told.now.ranges.now
        → AreStanding q s ground.now.table.now → AreRowsOfKeptLines q is_held_line ground.now.held.rows.now
        → ArePartRows q s ground.now.parts.rows.now → AreToldLines q s told.now.lines.now
        → AreRangesInOrder q s xs → IsTurn q xs count index
        → AreRangesPassed q s xs count taken.old.items flags.old
        → AreRangesPassed q s xs (count + 1) taken.new.items flags.new) }
{
    let range = &told.ranges[index];
    let line = told.lines[index];
    if !is_free(ground, range, line) {
        return Ok(());
    }
    if put_row(taken, row_of(line.level, range))? {
        flags[index] = true;
    }
    Ok(())
}

/// Notes told ranges that stand, in turn.
pub fn note_ranges<A: Allocator>(
    ground: &Ground,
    told: &Told,
    turns: &[usize],
    taken: &mut Vec<Row, A>,
    flags: &mut [bool],
) -> Result<(), OutOfMemory>
    requires over { IsBridgeToBus ground.now.records.now ground.now.over.now }
    requires count { length ground.now.table.now ≡ length ground.now.records.now }
    requires held { AreSearched ground.now.held }
    requires parts { AreSearched ground.now.parts }
    requires nobody { All (λ r. r.owner ≡ nobody) ground.now.parts.rows.now }
    requires told { IsTold told.now.ranges.now }
    requires lines { length told.now.lines.now ≡ length told.now.ranges.now }
    requires turns { All (λ index. index < length told.now.ranges.now) turns.now }
    requires flags { length flags.old ≡ length told.now.ranges.now }
    requires apart { AreApartRows taken.old.items }
    ensures passed { OnOk result ((q : Request) → (s : System)
        → IsTree q s ground.now.records.now → q.told.ranges ≡ told.now.ranges.now
        → AreStanding q s ground.now.table.now → AreRowsOfKeptLines q is_held_line ground.now.held.rows.now
        → ArePartRows q s ground.now.parts.rows.now → AreToldLines q s told.now.lines.now
        → AreRangesInOrder q s (map (region_at q) turns.now)
        → AreRangesPassed q s (map (region_at q) turns.now) 0 taken.old.items flags.old
        → AreRangesPassed q s (map (region_at q) turns.now) (length turns.now) taken.new.items flags.new) }
{
    for turn in turns {
        note_range(ground, told, *turn, taken, flags)?;
    }
    Ok(())
}
