//! One pass over all parts of a system, each after what tells whether it stands.
ghost use Rattle.std.specs.Prelude.{◌≡◌, ◌+◌, ◌<◌, OnOk, IfOk, length};
ghost use Rattle.std.specs.List.{All};
ghost use Rattle.pci_spec.specs.System.{System};
ghost use Rattle.judge_spec.specs.Told.{IsTold};
ghost use Rattle.settle_spec.specs.Lists.{Request};
ghost use Rattle.pci_tree.specs.Ways.{IsBridgeToBus};
ghost use Rattle.pci_place.specs.Above.{system_in};
ghost use Rattle.pci_first_fit.specs.Lists.{lists_value};
ghost use Rattle.pci_first_fit.specs.Slots.{demand_value};
ghost use Rattle.pci_kept.specs.Boards.{IsBoard};
ghost use Rattle.pci_kept.specs.Known.{asked_by_rules};
ghost use Rattle.pci_kept.specs.Taken.{AreApartInOrder, taken_with};
ghost use Rattle.pci_kept.specs.ToldLines.{AreToldLines};
ghost use Rattle.pci_kept.specs.LineRows.{AreSearched, AreOffRows};
ghost use Rattle.pci_kept.specs.Passing.{CanBeNoted, AreOrdered, AreFirstPassed, AreStanding};

use crate::collect::regions;
use crate::leads::{Reachable, Told, note_leads, reachable_indexes};
use crate::off::{Off, is_kept_off, line_rows};
use crate::order::sort_regions;
use crate::place::{bridges_over, is_in_place};
use crate::region::Region;
use crate::rows::{Rows, reaches};
use crate::rules::Rules;
use crate::taken::Taken;
use crate::told_line::told_lines;
use pci_base::memory::OutOfMemory;
use pci_base::slot::BUSES;
use pci_first_fit::kept::{Kept, nothing_kept};
use pci_first_fit::list::Lists;
use pci_function::record::Record;
use pci_tree::admitted::Admitted;
use std::alloc::Allocator;

/// What tells whether parts stand: the functions of a system, and the ranges that are asked for.
#[derive(Clone, Copy)]
struct Board<'a, 'l> {
    records: &'a [Record],
    /// Which function leads to each bus.
    over: &'a [Option<usize>; BUSES],
    lists: Lists<'l>,
    /// Lines that keep parts off.
    off: Off<'a>,
}

/// Notes a part that stands: it can stand, no line keeps it off, it is where it can, and none of its addresses is taken by one
/// before it.
fn note_one<A: Allocator + Copy>(
    board: &Board,
    regions: &[Region],
    index: usize,
    taken: &mut Taken<A>,
    table: &mut [Kept],
) -> Result<(), OutOfMemory>
    requires over { IsBridgeToBus board.now.records.now board.now.over.now }
    requires count { length table.old ≡ length board.now.records.now }
    requires on { AreSearched board.now.off.on }
    requires all { AreSearched board.now.off.all }
    requires ready { All (CanBeNoted (length board.now.records.now)) regions.now }
    requires index { index < length regions.now }
    requires io { AreApartInOrder taken.old.io.items }
    requires mem { AreApartInOrder taken.old.mem.items }
    ensures io { AreApartInOrder taken.new.io.items }
    ensures mem { AreApartInOrder taken.new.mem.items }
    ensures passed { OnOk result ((q : Request) → (s : System)
        → IsBoard q s board.now.records.now (lists_value board.now.lists) → IsTold q.told.ranges
        → AreOffRows q s board.now.off → AreOrdered q s regions.now
        → AreFirstPassed q s regions.now index
        (taken_with taken.old.level taken.old.io.items taken.old.mem.items) table.old
        → AreFirstPassed q s regions.now (index + 1)
        (taken_with taken.new.level taken.new.io.items taken.new.mem.items) table.new) }
{
    let region = &regions[index];
    taken.go_to(region.level);
    if !region.can_stand {
        return Ok(());
    }
    let lists = &board.lists;
    let slot = board.records[region.function].slot;
    if is_kept_off(&board.off, slot, region) {
        return Ok(());
    }
    if is_in_place(board.records, board.over, lists, region, table)
        && taken.take(region.space, region.range)?
    {
        table[region.function].note(region.part);
    }
    Ok(())
}

/// Notes all parts that stand, in the order in which one tells of another.
fn note_all<A: Allocator + Copy>(
    board: &Board,
    regions: &[Region],
    taken: &mut Taken<A>,
    table: &mut [Kept],
) -> Result<(), OutOfMemory>
    requires over { IsBridgeToBus board.now.records.now board.now.over.now }
    requires count { length table.old ≡ length board.now.records.now }
    requires on { AreSearched board.now.off.on }
    requires all { AreSearched board.now.off.all }
    requires ready { All (CanBeNoted (length board.now.records.now)) regions.now }
    requires io { AreApartInOrder taken.old.io.items }
    requires mem { AreApartInOrder taken.old.mem.items }
    ensures passed { OnOk result ((q : Request) → (s : System)
        → IsBoard q s board.now.records.now (lists_value board.now.lists) → IsTold q.told.ranges
        → AreOffRows q s board.now.off → AreOrdered q s regions.now
        → AreFirstPassed q s regions.now 0
        (taken_with taken.old.level taken.old.io.items taken.old.mem.items) table.old
        → AreFirstPassed q s regions.now (length regions.now)
        (taken_with taken.new.level taken.new.io.items taken.new.mem.items) table.new) }
{
    for index in 0..regions.len() {
        note_one(board, regions, index, taken, table)?;
    }
    Ok(())
}

/// All parts of a system, each after those that tell whether it stands.
fn ordered_regions<A: Allocator + Copy, B: Allocator>(
    alloc: A,
    admitted: &Admitted<B>,
    lists: &Lists,
    rules: &Rules,
    told: &Told,
) -> Result<Vec<Region, A>, OutOfMemory>
    requires told { IsTold told.now.ranges.now }
    requires count { length told.now.lines.now ≡ length told.now.ranges.now }
    ensures ordered { IfOk result (λ regions. told.now.ranges.now ≡ lists.now.told.ranges.now
        → AreToldLines (asked_by_rules admitted.now.roots (demand_value lists.now) rules.now)
        (system_in admitted.now) told.now.lines.now
        → AreOrdered (asked_by_rules admitted.now.roots (demand_value lists.now) rules.now)
        (system_in admitted.now) regions.items) }
    // each part names a function that has an entry
    ensures ready { IfOk result (λ regions. told.now.ranges.now ≡ lists.now.told.ranges.now
        → AreToldLines (asked_by_rules admitted.now.roots (demand_value lists.now) rules.now)
        (system_in admitted.now) told.now.lines.now
        → All (CanBeNoted (length (system_in admitted.now))) regions.items) }
{
    let records = admitted.outline().records();
    let mut regions = regions(alloc, admitted, lists, rules)?;
    let indexes = reachable_indexes(alloc, told.ranges)?;
    let reachable = Reachable {
        told: *told,
        indexes: indexes.as_slice(),
    };
    note_leads(records, &reachable, rules.anew, regions.as_mut_slice());
    sort_regions(&mut regions)?;
    Ok(regions)
}

/// Which parts of each function stand where they are, in slot order: BARs but those of I/O that are left, open windows and
/// ROMs that are on. Where all is placed anew, only what leads to a told range stands.
pub fn standing<A: Allocator + Copy, B: Allocator>(
    alloc: A,
    admitted: &Admitted<B>,
    lists: &Lists,
    rules: &Rules,
) -> Result<Vec<Kept, A>, OutOfMemory>
    ensures { IfOk result (λ table. AreStanding
        (asked_by_rules admitted.now.roots (demand_value lists.now) rules.now) (system_in admitted.now)
        table.items) }
{
    let outline = admitted.outline();
    let records = outline.records();
    let over = bridges_over(records);
    let ranges = lists.told.as_slice();
    let lines = told_lines(alloc, records, &over, &outline.roots(), ranges)?;
    let told = Told {
        ranges,
        lines: lines.as_slice(),
    };
    let regions = ordered_regions(alloc, admitted, lists, rules, &told)?;
    let on = line_rows(alloc, &told, false)?;
    let on_reaches = reaches(alloc, on.as_slice())?;
    let all = line_rows(alloc, &told, true)?;
    let all_reaches = reaches(alloc, all.as_slice())?;
    let off = Off {
        on: Rows {
            rows: on.as_slice(),
            reaches: on_reaches.as_slice(),
        },
        all: Rows {
            rows: all.as_slice(),
            reaches: all_reaches.as_slice(),
        },
    };
    let mut table = nothing_kept(alloc, records.len())?;
    let mut taken = Taken::none(alloc);
    let board = Board {
        records,
        over: &over,
        lists: *lists,
        off,
    };
    note_all(&board, regions.as_slice(), &mut taken, table.as_mut_slice())?;
    Ok(table)
}
