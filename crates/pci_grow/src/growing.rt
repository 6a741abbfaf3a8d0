//! What stays where windows grow, from the roots down, and with which addresses.
ghost use Rattle.std.specs.Prelude.{◌≡◌, IfOk, IfErr, OnOk, length};
ghost use Rattle.std.specs.List.{All};
ghost use Rattle.pci_spec.specs.Bus.{IsNested};
ghost use Rattle.pci_spec.specs.Sound.{IsInProfile};
ghost use Rattle.pci_spec.specs.System.{System, IsSystem};
ghost use Rattle.settle_spec.specs.Lists.{Request};
ghost use Rattle.settle_spec.specs.Growth.{takes_growth, has_grown};
ghost use Rattle.settle_spec.specs.Kept.{is_kept, growing as growing_kept};
ghost use Rattle.pci_tree.specs.Ways.{IsBridgeToBus};
ghost use Rattle.pci_place.specs.Above.{AreAboves, system_in};
ghost use Rattle.pci_first_fit.specs.Buses.{classing_value};
ghost use Rattle.pci_first_fit.specs.Keeping.{TellsKept};
ghost use Rattle.pci_first_fit.specs.Lists.{lists_value};
ghost use Rattle.pci_first_fit.specs.Slots.{demand_value};
ghost use Rattle.pci_kept.specs.Boards.{IsBoard};
ghost use Rattle.pci_kept.specs.Known.{asked_by_rules, AreParts};
ghost use Rattle.pci_kept.specs.Passing.{CanBeNoted};
ghost use Rattle.pci_kept.specs.Holding.{AreHolding};
ghost use Rattle.pci_kept.specs.Staying.{AreStayingBy};
ghost use Rattle.pci_kept.specs.Windows.{AreAllLawful};
ghost use Rattle.pci_grow.specs.Growing.{AreComing, CanGrow, grown_value, AreGrown};
ghost use Rattle.pci_grow.specs.Reaching.{reaching_value, IsTooLargeAround};

use crate::begin::begin;
use crate::coming::Setting;
use crate::finding::find_there;
use crate::marks::{keep_marked, leave_marked, marks};
use crate::reaching::{Reaching, all_reaches, unknown_around};
use crate::there::There;
use pci_base::memory::{OutOfMemory, Refused};
use pci_base::slot::BUSES;
use pci_base::window_kind::ByKind;
use pci_first_fit::extent::Extent;
use pci_first_fit::kept::Kept;
use pci_first_fit::list::Lists;
use pci_first_fit::listing::Classing;
use pci_first_fit::over::{Left, OpenWindows};
use pci_first_fit::own::Terms;
use pci_first_fit::place::Places;
use pci_first_fit::table::WindowRanges;
use pci_kept::holding::{Behind, hold_all};
use pci_kept::open_windows::open_windows;
use pci_kept::place::bridges_over;
use pci_kept::rules::Rules;
use pci_kept::staying::{Board, stay_all};
use pci_kept::windows::{TooLarge, all_windows};
use pci_place::above::aboves;
use pci_tree::admitted::Admitted;
use std::alloc::Allocator;

/// What keeps its place where windows grow, by function in slot order.
#[derive(Drop)]
pub struct Grown<A: Allocator> {
    /// What stays.
    pub stays: Vec<Kept, A>,
    /// What each window that grows comes to.
    pub coming: Vec<WindowRanges, A>,
    /// The places of what is placed around windows that take.
    pub places: Vec<Places, A>,
}

impl<A: Allocator> Grown<A> {
    /// What is left, by the open windows over each bus.
    pub fn left<'a>(&'a self, over: &'a [OpenWindows]) -> Left<'a>
        ensures over { result.over.now ≡ over.now }
        ensures grown { result.grown.now ≡ self.now.coming.items }
        ensures tells { (q : Request) → (s : System) → IsSystem s → IsNested q.roots s
            → IsInProfile q.roots s → AreGrown q s (grown_value self.now)
            → TellsKept q s (growing_kept q s) result }
    {
        Left {
            over,
            kept: self.stays.as_slice(),
            grown: self.coming.as_slice(),
            places: self.places.as_slice(),
        }
    }
}

/// Leaves of what windows that take come to that of the windows that grow, as each window of the class above them takes too; and
/// notes in a table of what has room behind it what stays where they grow.
fn stay_grown<A: Allocator>(
    alloc: A,
    board: &Board,
    lists: &Lists,
    coming: &mut [WindowRanges],
    table: &mut [Kept],
) -> Result<(), OutOfMemory>
    // the bridge to a bus is found by one look into this table
    requires over { IsBridgeToBus board.now.records.now board.now.over.now }
    // a function's entries stand where its record does
    requires coming { length coming.old ≡ length board.now.records.now }
    requires count { length table.old ≡ length board.now.records.now }
    // each part names a function that the tables have
    requires ready { All (CanBeNoted (length board.now.records.now)) board.now.regions.now }
    ensures stays { OnOk result ((q : Request) → (s : System)
        → IsBoard q s board.now.records.now (lists_value lists.now)
        → AreParts q s board.now.regions.now → AreHolding q s table.old → AreComing q s (takes_growth q s) coming.old
        → AreStayingBy q s (is_kept q s) table.new) }
    ensures grown { OnOk result ((q : Request) → (s : System)
        → IsBoard q s board.now.records.now (lists_value lists.now)
        → AreParts q s board.now.regions.now → AreComing q s (takes_growth q s) coming.old
        → AreComing q s (has_grown q s) coming.new) }
{
    let mut marks = marks(alloc, coming)?;
    let marks = marks.as_mut_slice();
    stay_all(board, lists, marks);
    keep_marked(table, marks);
    stay_all(board, lists, table);
    leave_marked(coming, marks);
    Ok(())
}

/// What keeps its place where windows grow, by what stands and how far its windows can grow.
fn growing_by<'b, A: Allocator + Copy, B: Allocator>(
    alloc: A,
    classing: &'b Classing<B>,
    lists: &Lists,
    windows: &'b ByKind<[Option<Extent>; BUSES]>,
    reaching: Reaching<A>,
) -> Result<Grown<A>, OutOfMemory>
    // which windows lead to a BAR decides its class
    requires above { AreAboves (system_in classing.now.admitted.now) classing.now.aboves.now }
    // places are looked for by sizes and alignments
    requires lawful { AreAllLawful windows.now }
    // so what is there lies in order, whatever windows take
    requires ready { (q : Request) × CanGrow q (classing_value classing.now) (lists_value lists.now)
        windows.now (reaching_value reaching) }
    ensures { IfOk result (λ grown. (q : Request)
        → CanGrow q (classing_value classing.now) (lists_value lists.now) windows.now
        (reaching_value reaching)
        → AreGrown q (system_in classing.now.admitted.now) (grown_value grown)) }
{
    let Reaching {
        regions,
        mut kept,
        rows,
        reaches,
        lines,
    } = reaching;
    let records = classing.admitted.outline().records();
    let regions = regions.as_slice();
    let entries = kept.as_mut_slice();
    let behind = Behind {
        classing,
        windows,
        regions,
        lines: lines.as_slice(),
    };
    hold_all(alloc, &behind, entries)?;
    let setting = Setting {
        classing,
        windows,
        rows: rows.as_slice(),
        reaches: reaches.as_slice(),
        lines: lines.as_slice(),
    };
    let mut there = begin(alloc, entries)?;
    find_there(alloc, &setting, &mut there)?;
    let There {
        kept: _,
        grown: mut coming,
        places,
    } = there;
    let board = Board {
        records,
        over: &bridges_over(records),
        regions,
    };
    stay_grown(alloc, &board, lists, coming.as_mut_slice(), entries)?;
    Ok(Grown {
        stays: kept,
        coming,
        places,
    })
}

/// What keeps its place where windows grow, and with which addresses.
///
/// A bridge is named whose new window would have 2^64 addresses or more, where a window that stands can grow to all addresses
/// of 64 bits: no other one has room for it.
pub fn growing<A: Allocator + Copy, B: Allocator>(
    alloc: A,
    admitted: &Admitted<B>,
    lists: &Lists,
    rules: &Rules,
) -> Result<Grown<A>, Refused<TooLarge>>
    ensures grown { IfOk result (λ grown. AreGrown
        (asked_by_rules admitted.now.roots (demand_value lists.now) rules.now) (system_in admitted.now)
        (grown_value grown)) }
    ensures fault { IfErr result (IsTooLargeAround
        (asked_by_rules admitted.now.roots (demand_value lists.now) rules.now) (system_in admitted.now)) }
{
    let aboves = aboves(admitted);
    let opened = open_windows(admitted.outline().records(), rules.anew);
    let classing = Classing {
        admitted,
        aboves: &aboves,
        terms: Terms::of(lists),
        overs: &opened,
    };
    let windows = all_windows(alloc, &classing)?;
    let reaching = all_reaches(alloc, admitted, lists, rules)?;
    if let Some(window) = unknown_around(windows.large, reaching.reaches.as_slice()) {
        return Err(Refused::Fault(window));
    }
    let grown = growing_by(alloc, &classing, lists, &windows.tables, reaching)?;
    Ok(grown)
}
