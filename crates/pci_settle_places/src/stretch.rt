//! Told ranges beside one another, with the buses and the addresses of all of them: one look tells that none of them keeps a
//! place from being free.
ghost use Rattle.std.specs.Prelude.{◌≡◌, ◌++◌, ◌⊎◌, List, IfOk, OnOk, IsFalse, map};
ghost use Rattle.std.specs.List.{All, filter};
ghost use Rattle.pci_base.specs.Ranges.{decoded_range_of};
ghost use Rattle.pci_first_fit.specs.Lines.{line_code_range};
ghost use Rattle.pci_settle_places.specs.Stretches.{IsCoveredBy, AreStretches, is_row_behind, IsElsewhere, IsFar, AreSought};

use pci_base::memory::OutOfMemory;
use pci_base::range::Range;
use pci_base::space::Space;
use pci_first_fit::lines::Line;
use pci_first_fit::list::are_apart;
use pci_function::record::Bridge;
use std::alloc::Allocator;

/// The most rows of a stretch.
const MOST_ROWS: usize = 64;

/// Some rows beside one another.
#[derive(Clone, Copy, Debug)]
pub struct Stretch<'a> {
    pub rows: &'a [Line],
    pub lowest_bus: u8,
    pub highest_bus: u8,
    /// From their least first address up to their greatest last one.
    pub range: Range,
}

/// What is behind a bridge in a space, near to ranges in which a place is looked for.
#[derive(Clone, Copy)]
pub struct Sought<'a> {
    pub bridge: &'a Bridge,
    pub space: Space,
    pub ranges: &'a [Range],
}

/// A stretch that covers one row more.
fn with_row<'a>(stretch: &Stretch<'a>, row: &Line) -> Stretch<'a>
    ensures rows { result.rows ≡ stretch.now.rows }
    ensures own { IsCoveredBy result row.now }
    ensures others { (l : Line) → IsCoveredBy stretch.now l → IsCoveredBy result l }
{
    Stretch {
        rows: stretch.rows,
        lowest_bus: stretch.lowest_bus.min(row.bus),
        highest_bus: stretch.highest_bus.max(row.bus),
        range: Range {
            first: stretch.range.first.min(row.range.first),
            last: stretch.range.last.max(row.range.last),
        },
    }
}

/// The stretch of some rows.
fn stretch_of(rows: &[Line]) -> Stretch<'_>
    ensures rows { result.rows.now ≡ rows.now }
    ensures covered { All (IsCoveredBy result) rows.now }
{
    let mut stretch = Stretch {
        rows,
        lowest_bus: u8::MAX,
        highest_bus: 0,
        range: Range {
            first: u64::MAX,
            last: 0,
        },
    };
    for row in rows {
        stretch = with_row(&stretch, row);
    }
    stretch
}

/// The stretches of all rows.
pub fn stretches<'a, A: Allocator>(
    alloc: A,
    lines: &'a [Line],
) -> Result<Vec<Stretch<'a>, A>, OutOfMemory>
    ensures { IfOk result (λ all. AreStretches lines.now all.items) }
{
    let mut all = Vec::new(alloc);
    let mut rest = lines;
    while !rest.is_empty() {
        let (rows, others) = rest.split_at(rest.len().min(MOST_ROWS));
        all.push(stretch_of(rows))?;
        rest = others;
    }
    Ok(all)
}

/// Whether some row of a stretch can be behind the bridge and near.
fn can_be_sought(sought: &Sought, stretch: &Stretch) -> bool
    ensures { IsFalse result → (l : Line) → IsCoveredBy stretch.now l
        → IsElsewhere sought.now l ⊎ IsFar sought.now.ranges.now (decoded_range_of l.range) }
{
    stretch.lowest_bus <= sought.bridge.subordinate
        && sought.bridge.secondary <= stretch.highest_bus
        && sought
            .ranges
            .iter()
            .any(|range| !are_apart(stretch.range, *range))
}

/// Whether a row is behind the bridge, in the space.
fn is_behind(sought: &Sought, row: &Line) -> bool
    ensures { result ≡ is_row_behind sought.now row.now }
{
    sought.bridge.secondary <= row.bus
        && row.bus <= sought.bridge.subordinate
        && row.space == sought.space
}

/// Adds what those of some rows hold that are behind the bridge.
fn add_rows<A: Allocator>(
    out: &mut Vec<Range, A>,
    rows: &[Line],
    sought: &Sought,
) -> Result<(), OutOfMemory>
    ensures { OnOk result (out.new.items
        ≡ out.old.items ++ map line_code_range (filter (is_row_behind sought.now) rows.now)) }
{
    for row in rows {
        if is_behind(sought, row) {
            out.push(row.range)?;
        }
    }
    Ok(())
}

/// What rows hold behind a bridge, but for rows that share no address with the ranges in which a place is looked for: these
/// may be left out.
pub fn sought_rows<A: Allocator>(
    alloc: A,
    stretches: &[Stretch],
    sought: &Sought,
) -> Result<Vec<Range, A>, OutOfMemory>
    ensures { IfOk result (λ found. (lines : List Line) → AreStretches lines stretches.now
        → AreSought sought.now lines found.items) }
{
    let mut found = Vec::new(alloc);
    for stretch in stretches {
        if can_be_sought(sought, stretch) {
            add_rows(&mut found, stretch.rows, sought)?;
        }
    }
    Ok(found)
}
