//! The told ranges that stand where they are, by index of the text.
ghost use Rattle.std.specs.Prelude.{◌≡◌, ◌++◌, OnOk, IfOk, length};
ghost use Rattle.std.specs.Bool.{beq};
ghost use Rattle.std.specs.List.{All};
ghost use Rattle.pci_spec.specs.System.{System};
ghost use Rattle.settle_spec.specs.Lists.{Request};
ghost use Rattle.settle_spec.specs.Lines.{is_held_line};
ghost use Rattle.judge_spec.specs.Told.{IsTold};
ghost use Rattle.pci_tree.specs.Ways.{IsBridgeToBus};
ghost use Rattle.pci_place.specs.Above.{system_in};
ghost use Rattle.pci_first_fit.specs.Slots.{demand_value};
ghost use Rattle.pci_kept.specs.Boards.{IsTree};
ghost use Rattle.pci_kept.specs.Known.{asked_by_rules};
ghost use Rattle.pci_kept.specs.LineRows.{nobody, AreRowsOfKeptLines, AreSearched};
ghost use Rattle.pci_kept.specs.Passing.{AreStanding};
ghost use Rattle.pci_kept.specs.RangePass.{ArePartRows, AreStandingRanges, turns_of, all_turns};
ghost use Rattle.pci_kept.specs.ToldLines.{AreToldLines};

use crate::collect::regions;
use crate::leads::Told;
use crate::off::line_rows;
use crate::place::bridges_over;
use crate::ranges::{Ground, held_rows, note_ranges, part_rows};
use crate::rows::{Rows, reaches};
use crate::rules::Rules;
use crate::told_line::{ToldLine, told_lines};
use pci_base::memory::OutOfMemory;
use pci_first_fit::kept::Kept;
use pci_first_fit::list::Lists;
use pci_tree::admitted::Admitted;
use std::alloc::Allocator;

/// Whether a line is one of those that are on, or of those that are off.
fn is_in_turn(line: ToldLine, on: bool) -> bool
    ensures { result ≡ beq line.on on }
{
    line.on == on
}

/// Adds the indexes of lines that are on, or of those that are off.
fn add_turns<A: Allocator>(
    turns: &mut Vec<usize, A>,
    lines: &[ToldLine],
    on: bool,
) -> Result<(), OutOfMemory>
    ensures { OnOk result (turns.new.items ≡ turns.old.items ++ turns_of on lines.now) }
{
    for index in 0..lines.len() {
        let line = lines[index];
        if is_in_turn(line, on) {
            turns.push(index)?;
        }
    }
    Ok(())
}

/// The indexes of lines in turn: those that are on, and then those that are off.
fn turns<A: Allocator>(alloc: A, lines: &[ToldLine]) -> Result<Vec<usize, A>, OutOfMemory>
    ensures { IfOk result (λ turns. turns.items ≡ all_turns lines.now) }
{
    let mut turns = Vec::new(alloc);
    add_turns(&mut turns, lines, true)?;
    add_turns(&mut turns, lines, false)?;
    Ok(turns)
}

/// Of each told range whether it stands, by its index: all are gone over in turn.
fn flags_in_turn<A: Allocator + Copy>(
    alloc: A,
    ground: &Ground,
    told: &Told,
) -> Result<Vec<bool, A>, OutOfMemory>
    requires over { IsBridgeToBus ground.now.records.now ground.now.over.now }
    requires count { length ground.now.table.now ≡ length ground.now.records.now }
    requires held { AreSearched ground.now.held }
    requires parts { AreSearched ground.now.parts }
    requires nobody { All (λ r. r.owner ≡ nobody) ground.now.parts.rows.now }
    requires told { IsTold told.now.ranges.now }
    requires lines { length told.now.lines.now ≡ length told.now.ranges.now }
    ensures count { IfOk result (λ flags. length flags.items ≡ length told.now.ranges.now) }
    ensures flags { IfOk result (λ flags. (q : Request) → (s : System)
        → IsTree q s ground.now.records.now → q.told.ranges ≡ told.now.ranges.now
        → AreStanding q s ground.now.table.now → AreRowsOfKeptLines q is_held_line ground.now.held.rows.now
        → ArePartRows q s ground.now.parts.rows.now → AreToldLines q s told.now.lines.now
        → AreStandingRanges q s flags.items) }
{
    let turns = turns(alloc, told.lines)?;
    let mut taken = Vec::new(alloc);
    let mut flags = vec![in alloc; false; told.ranges.len()]?;
    note_ranges(
        ground,
        told,
        turns.as_slice(),
        &mut taken,
        flags.as_mut_slice(),
    )?;
    Ok(flags)
}

/// Of each told range whether it stands, by its index in the text; `table` tells which parts stand.
pub fn standing_ranges<A: Allocator + Copy, B: Allocator>(
    alloc: A,
    admitted: &Admitted<B>,
    lists: &Lists,
    rules: &Rules,
    table: &[Kept],
) -> Result<Vec<bool, A>, OutOfMemory>
    requires { AreStanding (asked_by_rules admitted.now.roots (demand_value lists.now) rules.now)
        (system_in admitted.now) table.now }
    ensures count { IfOk result (λ flags. length flags.items ≡ length lists.now.told.ranges.now) }
    ensures flags { IfOk result (λ flags. AreStandingRanges
        (asked_by_rules admitted.now.roots (demand_value lists.now) rules.now) (system_in admitted.now)
        flags.items) }
{
    let ranges = lists.told.as_slice();
    if ranges.is_empty() {
        return Ok(Vec::new(alloc));
    }
    let outline = admitted.outline();
    let records = outline.records();
    let over = bridges_over(records);
    let lines = told_lines(alloc, records, &over, &outline.roots(), ranges)?;
    let told = Told {
        ranges,
        lines: lines.as_slice(),
    };
    let all = line_rows(alloc, &told, true)?;
    let held = held_rows(alloc, all.as_slice())?;
    let held_reaches = reaches(alloc, held.as_slice())?;
    let regions = regions(alloc, admitted, lists, rules)?;
    let parts = part_rows(alloc, regions.as_slice(), table)?;
    let part_reaches = reaches(alloc, parts.as_slice())?;
    let ground = Ground {
        records,
        over: &over,
        table,
        held: Rows {
            rows: held.as_slice(),
            reaches: held_reaches.as_slice(),
        },
        parts: Rows {
            rows: parts.as_slice(),
            reaches: part_reaches.as_slice(),
        },
    };
    flags_in_turn(alloc, &ground, &told)
}
