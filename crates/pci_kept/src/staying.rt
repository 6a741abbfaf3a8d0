//! Which parts stay: those that hold, below windows that stay.
ghost use Rattle.std.specs.Prelude.{◌≡◌, ◌+◌, ◌<◌, Bool, IfOk, IfErr, length};
ghost use Rattle.std.specs.List.{All};
ghost use Rattle.pci_spec.specs.System.{System};
ghost use Rattle.settle_spec.specs.Lists.{Request};
ghost use Rattle.settle_spec.specs.Parts.{FunctionPart};
ghost use Rattle.pci_tree.specs.Ways.{IsBridgeToBus};
ghost use Rattle.pci_place.specs.Above.{AreAboves, system_in};
ghost use Rattle.pci_first_fit.specs.Buses.{classing_value};
ghost use Rattle.pci_first_fit.specs.Lists.{lists_value};
ghost use Rattle.pci_first_fit.specs.Slots.{demand_value};
ghost use Rattle.pci_kept.specs.Boards.{IsBoard};
ghost use Rattle.pci_kept.specs.Known.{asked_by_rules, AreParts};
ghost use Rattle.pci_kept.specs.Passing.{CanBeNoted};
ghost use Rattle.pci_kept.specs.Windows.{AreAllLawful};
ghost use Rattle.pci_kept.specs.Holding.{IsKnowing, AreNoted};
ghost use Rattle.pci_kept.specs.Staying.{HoldsWhereStands, IsStayedTo, AreStayingBy, AreStaying, IsTooLargeFor, IsTooLargeInIo, asked_in_io};

use super::collect::regions;
use super::open_windows::open_windows;
use super::pass::standing;
use super::place::{bridges_over, is_in_place};
use super::region::Region;
use super::rules::Rules;
use crate::holding::{Behind, hold_all};
use crate::windows::{TooLarge, all_windows, io_windows, unknown_beside};
use pci_base::memory::{OutOfMemory, Refused};
use pci_base::slot::BUSES;
use pci_base::window_kind::ByKind;
use pci_first_fit::extent::Extent;
use pci_first_fit::kept::Kept;
use pci_first_fit::lines::lines;
use pci_first_fit::list::Lists;
use pci_first_fit::listing::Classing;
use pci_first_fit::own::Terms;
use pci_function::record::Record;
use pci_place::above::aboves;
use pci_tree::admitted::Admitted;
use std::alloc::Allocator;

/// The functions of a board, and their parts.
#[derive(Clone, Copy)]
pub struct Board<'a> {
    pub records: &'a [Record],
    /// The bridge over each bus, by its place among the records; None on a root.
    pub over: &'a [Option<usize>; BUSES],
    /// The parts of all functions, by rising slots.
    pub regions: &'a [Region],
}

/// Notes of a part of which a test holds whether it stays: it is on a root, or the window over it stays.
fn stay_one(board: &Board, lists: &Lists, index: usize, table: &mut [Kept])
    requires over { IsBridgeToBus board.now.records.now board.now.over.now }
    requires count { length table.old ≡ length board.now.records.now }
    requires ready { All (CanBeNoted (length board.now.records.now)) board.now.regions.now }
    requires index { index < length board.now.regions.now }
    ensures { (q : Request) → (s : System) → (holds : FunctionPart → Bool)
        → IsBoard q s board.now.records.now (lists_value lists.now)
        → AreParts q s board.now.regions.now → HoldsWhereStands q s holds
        → IsStayedTo q s holds board.now.regions.now index table.old
        → IsStayedTo q s holds board.now.regions.now (index + 1) table.new }
{
    let region = &board.regions[index];
    if !is_in_place(board.records, board.over, lists, region, table) {
        table[region.function].clear(region.part);
    }
}

/// Notes in a table of parts of which a test holds which of them stay by it. The parts come by rising slots, so a window comes
/// before what is in it.
pub fn stay_all(board: &Board, lists: &Lists, table: &mut [Kept])
    // the bridge to a bus is found by one look into this table
    requires over { IsBridgeToBus board.now.records.now board.now.over.now }
    // a function's entry stands where its record does
    requires count { length table.old ≡ length board.now.records.now }
    // each part names a function that the table has
    requires ready { All (CanBeNoted (length board.now.records.now)) board.now.regions.now }
    ensures { (q : Request) → (s : System) → (holds : FunctionPart → Bool)
        → IsBoard q s board.now.records.now (lists_value lists.now)
        → AreParts q s board.now.regions.now → HoldsWhereStands q s holds
        → AreNoted s holds table.old → AreStayingBy q s holds table.new }
{
    for index in 0..board.regions.len() {
        stay_one(board, lists, index, table);
    }
}

/// Which parts of each function stay, by the open windows over each bus and the new ones of each class.
fn stay_by<'b, A: Allocator + Copy, B: Allocator>(
    alloc: A,
    classing: &'b Classing<B>,
    lists: &Lists,
    rules: &Rules,
    windows: &'b ByKind<[Option<Extent>; BUSES]>,
) -> Result<Vec<Kept, A>, OutOfMemory>
    requires above { AreAboves (system_in classing.now.admitted.now) classing.now.aboves.now }
    requires lawful { AreAllLawful windows.now }
    ensures { IfOk result (λ table. IsKnowing (classing_value classing.now) windows.now
        (asked_by_rules classing.now.admitted.now.roots (demand_value lists.now) rules.now)
        → AreStaying (asked_by_rules classing.now.admitted.now.roots (demand_value lists.now) rules.now)
        (system_in classing.now.admitted.now) table.items) }
{
    let admitted = classing.admitted;
    let records = admitted.outline().records();
    let roots = admitted.outline().roots();
    let lines = lines(alloc, lists.told, &roots)?;
    let regions = regions(alloc, admitted, lists, rules)?;
    let mut table = standing(alloc, admitted, lists, rules)?;
    let regions = regions.as_slice();
    let lines = lines.as_slice();
    let entries = table.as_mut_slice();
    let behind = Behind {
        classing,
        windows,
        regions,
        lines,
    };
    hold_all(alloc, &behind, entries)?;
    let board = Board {
        records,
        over: &bridges_over(records),
        regions,
    };
    stay_all(&board, lists, entries);
    Ok(table)
}

/// Which parts of each function stay where they are, in slot order: they stand, a window has room for what is behind it,
/// and so does each window above.
///
/// A bridge is named whose new window would have 2^64 addresses or more, where an open window has all addresses of 64 bits:
/// no other one has room for it.
pub fn staying<A: Allocator + Copy, B: Allocator>(
    alloc: A,
    admitted: &Admitted<B>,
    lists: &Lists,
    rules: &Rules,
) -> Result<Vec<Kept, A>, Refused<TooLarge>>
    ensures stay { IfOk result (λ table. AreStaying
        (asked_by_rules admitted.now.roots (demand_value lists.now) rules.now) (system_in admitted.now)
        table.items) }
    ensures fault { IfErr result (IsTooLargeFor
        (asked_by_rules admitted.now.roots (demand_value lists.now) rules.now) (system_in admitted.now)) }
{
    let aboves = aboves(admitted);
    let records = admitted.outline().records();
    let opened = open_windows(records, rules.anew);
    let classing = Classing {
        admitted,
        aboves: &aboves,
        terms: Terms::of(lists),
        overs: &opened,
    };
    let windows = all_windows(alloc, &classing)?;
    if let Some(window) = unknown_beside(windows.large, records) {
        return Err(Refused::Fault(window));
    }
    let table = stay_by(alloc, &classing, lists, rules, &windows.tables)?;
    Ok(table)
}

/// The same in the list of I/O alone, where no part in memory stands: how large new windows of memory are makes no difference.
///
/// A bridge is named whose new window of I/O would have 2^64 addresses or more.
pub fn staying_in_io<A: Allocator + Copy, B: Allocator>(
    alloc: A,
    admitted: &Admitted<B>,
    lists: &Lists,
    rules: &Rules,
) -> Result<Vec<Kept, A>, Refused<TooLarge>>
    ensures stay { IfOk result (λ table. AreStaying
        (asked_in_io admitted.now.roots (demand_value lists.now) rules.now) (system_in admitted.now)
        table.items) }
    ensures fault { IfErr result (IsTooLargeInIo
        (asked_in_io admitted.now.roots (demand_value lists.now) rules.now)
        (system_in admitted.now)) }
{
    let lists = lists.io_alone();
    let aboves = aboves(admitted);
    let opened = open_windows(admitted.outline().records(), rules.anew);
    let classing = Classing {
        admitted,
        aboves: &aboves,
        terms: Terms::of(&lists),
        overs: &opened,
    };
    let windows = io_windows(alloc, &classing)?;
    let table = stay_by(alloc, &classing, &lists, rules, &windows)?;
    Ok(table)
}
