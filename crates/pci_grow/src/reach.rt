//! How far a window that stands can grow: over the pages beside it that nothing else on its bus has.
ghost use Rattle.std.specs.Prelude.{◌≡◌, ℕ, ◌+◌, ◌≤◌, ◌<◌, IsTrue, IfSome, List, length, map, slice_index_or};
ghost use Rattle.std.specs.Option.{option_map};
ghost use Rattle.pci_spec.specs.Decoded.{Range as DecodedRange};
ghost use Rattle.pci_spec.specs.Window.{page_size};
ghost use Rattle.pci_spec.specs.System.{System, Function, is_bridge};
ghost use Rattle.plan_spec.specs.Plan.{raised_to};
ghost use Rattle.settle_spec.specs.Lists.{Request};
ghost use Rattle.settle_spec.specs.Items.{highest_in as highest_of_window};
ghost use Rattle.settle_spec.specs.Reach.{cut_to_halves, whole_pages as pages_of, reach, reach_in, room_around};
ghost use Rattle.pci_base.specs.Ranges.{decoded_range_of};
ghost use Rattle.pci_base.specs.WindowKinds.{kind_value};
ghost use Rattle.pci_base.specs.declared.window_kind.WindowKind.{WindowKind as CodeKind};
ghost use Rattle.pci_grow.specs.Rooms.{first_behind};
ghost use Rattle.pci_first_fit.specs.Tables.{told};
ghost use Rattle.pci_tree.specs.Ways.{IsBridgeToBus};
ghost use Rattle.pci_place.specs.Items.{function_in};
ghost use Rattle.pci_place.specs.Records.{IsRecordInSystem};
ghost use Rattle.pci_first_fit.specs.Lists.{lists_value};
ghost use Rattle.pci_first_fit.specs.declared.kept.Part.TheVariants.{Window};
ghost use Rattle.pci_kept.specs.declared.region.Region.{Region as CodeRegion};
ghost use Rattle.pci_kept.specs.Boards.{IsBoard, IsKnown};
ghost use Rattle.pci_grow.specs.Reaches.{IsWindowAmong, given_value, AreToldOver, StandsInRows, IsToldAbove, AreFirstReaches, TellsSameOutside, AreWindowReaches};

use crate::among::{Among, with_neighbours};
use crate::halves::{cut_to_halves, whole_pages};
use crate::room::{between, no_higher, room_on_root};
use pci_base::range::Range;
use pci_base::slot::BUSES;
use pci_base::window_kind::WindowKind;
use pci_dump::told_range::ToldRange;
use pci_first_fit::kept::Part;
use pci_first_fit::lines::Line;
use pci_first_fit::list::Lists;
use pci_first_fit::new_window::highest_in;
use pci_first_fit::table::{WindowRanges, tell, told_of};
use pci_function::record::Record;
use pci_kept::region::Region;

/// The whole pages of what is free around a window, up to which it can grow.
fn pages_around(class: WindowKind, window: Range, free: Range) -> Range
    // the first whole page begins no later than the window, which is of whole pages itself
    requires { raised_to (page_size (kind_value class)) free.first ≤ window.first }
    ensures { decoded_range_of result ≡ cut_to_halves (kind_value class) (decoded_range_of window)
        (pages_of (page_size (kind_value class)) (decoded_range_of free)) }
{
    match whole_pages(class, free) {
        Some(pages) => cut_to_halves(class, window, pages),
        None => window,
    }
}

/// How far a window can grow in a room, up to the highest address that it can hold.
pub fn reach_in(class: WindowKind, among: &Among, highest: u64, room: Range) -> Range
    // what ends before a window isn't at the end of 64 bits
    requires apart { IfSome among.now.before (λ other. other.last < among.now.window.first) }
    // the first whole page begins no later than the window, which is of whole pages itself
    requires page { raised_to (page_size (kind_value class))
        (first_behind room.first (option_map decoded_range_of among.now.before))
        ≤ among.now.window.first }
    ensures { (q : Request) → (s : System) → (b : Function)
        → IsWindowAmong q s (kind_value class) b highest among.now
        → decoded_range_of result ≡ reach_in q s (kind_value class) b (decoded_range_of room) }
{
    let low = no_higher(highest, room);
    let free = between(among.window, low, among.before, among.behind);
    pages_around(class, among.window, free)
}

/// The functions of a board and the ranges that are asked for.
#[derive(Clone, Copy)]
pub struct Board<'a, 'l> {
    pub records: &'a [Record],
    /// The bridge over each bus, by its place among the records; None on a root.
    pub over: &'a [Option<usize>; BUSES],
    pub lists: &'a Lists<'l>,
    /// The ranges that a text tells of, in its order.
    pub told: &'a [ToldRange],
    /// The same by rising levels.
    pub lines: &'a [Line],
}

/// What a window is in: a range of its root, or what the window above it can reach, as a table tells it.
fn room_around(
    board: &Board,
    region: &Region,
    class: WindowKind,
    reaches: &[WindowRanges],
) -> Option<Range>
    // the bridge to its bus is found by one look into this table
    requires over { IsBridgeToBus board.now.records.now board.now.over.now }
    ensures { (q : Request) → (s : System) → (reach : Function → DecodedRange)
        → IsBoard q s board.now.records.now (lists_value board.now.lists.now)
        → IsKnown q s region.now → region.now.part ≡ Window class
        → AreToldOver s (kind_value class) region.now.bus reach reaches.now
        → option_map decoded_range_of result
        ≡ room_around q s (kind_value class) reach (function_in s region.now.function) }
{
    if region.level == 0 {
        return room_on_root(board.lists, region.bus, class, region.range);
    }
    let over = board.over[region.bus as usize]?;
    told_of(reaches, over, class)
}

/// The highest address that the window of a class of a bridge can hold.
fn highest_of(function: &Record, class: WindowKind) -> u64
    ensures { (s : System) → (f : Function) → IsRecordInSystem s f function.now → IsTrue (is_bridge f)
        → result ≡ highest_of_window (kind_value class) f.probe }
{
    match &function.bridge {
        Some(bridge) => highest_in(class, &bridge.windows),
        None => u64::MAX,
    }
}

/// How far a window that stands can grow, where it is told of the window over it. That of a fixed bridge can't, and neither
/// can one with no room around it.
fn reach_of(
    board: &Board,
    rows: &[Region],
    index: usize,
    class: WindowKind,
    reaches: &[WindowRanges],
) -> Range
    // the bridge to its bus is found by one look into this table
    requires over { IsBridgeToBus board.now.records.now board.now.over.now }
    requires index { index < length rows.now }
    requires part { (d : Region) → (slice_index_or rows.now index d).part ≡ Window class }
    // so a window is in its room, and no address of its reach is past 64 bits
    requires told { (q : Request) × (s : System) × IsToldAbove q s board.now.records.now
        (given_value board.now) rows.now index class reaches.now }
    ensures { (q : Request) → (s : System) → (d : Region) → IsToldAbove q s board.now.records.now
        (given_value board.now) rows.now index class reaches.now
        → decoded_range_of result ≡ reach q s (kind_value class)
        (function_in s (slice_index_or rows.now index d).function) }
{
    let region = &rows[index];
    let Some(room) = room_around(board, region, class, reaches) else {
        return region.range;
    };
    if region.fixed {
        return region.range;
    }
    let record = &board.records[region.function];
    let among = with_neighbours(rows, index);
    let among = among.beside_lines(board.told, board.lines, region, record.slot);
    reach_in(class, &among, highest_of(record, class), room)
}

/// Tells the reach of one part of the rows, where it is a window.
fn tell_reach(board: &Board, rows: &[Region], index: usize, reaches: &mut [WindowRanges])
    // the bridge to its bus is found by one look into this table
    requires over { IsBridgeToBus board.now.records.now board.now.over.now }
    // a function's entry stands where its record does
    requires count { length reaches.old ≡ length board.now.records.now }
    requires index { index < length rows.now }
    // the windows before it are told, and the one over it is among them
    requires told { (q : Request) × (s : System) × StandsInRows q s board.now.records.now
        (given_value board.now) rows.now
        × AreFirstReaches q s rows.now index reaches.old }
    ensures count { length reaches.new ≡ length reaches.old }
    ensures told { (q : Request) → (s : System) → StandsInRows q s board.now.records.now
        (given_value board.now) rows.now
        → AreFirstReaches q s rows.now index reaches.old
        → AreFirstReaches q s rows.now (index + 1) reaches.new }
    ensures others { (k : ℕ) → (class : CodeKind)
        → ((d : CodeRegion) → (slice_index_or rows.now index d).function ≡ k
        → (slice_index_or rows.now index d).part ≡ Window class → ⊥)
        → told reaches.new k class ≡ told reaches.old k class }
{
    let region = &rows[index];
    if let Part::Window(class) = region.part {
        let reach = reach_of(board, rows, index, class, reaches);
        tell(reaches, region.function, class, Some(reach));
    }
}

/// Tells the reach of each window that stands. A bridge stands on a lower bus than what is behind it, so as rows rise the
/// window over a window comes first.
pub fn find_reaches(board: &Board, rows: &[Region], reaches: &mut [WindowRanges])
    // the bridge to a bus is found by one look into this table
    requires over { IsBridgeToBus board.now.records.now board.now.over.now }
    // a function's entry stands where its record does
    requires count { length reaches.old ≡ length board.now.records.now }
    // each window is in its room, so no address of a reach is past 64 bits
    requires rows { (q : Request) × (s : System) × StandsInRows q s board.now.records.now
        (given_value board.now) rows.now }
    ensures count { length reaches.new ≡ length reaches.old }
    ensures reaches { (q : Request) → (s : System) → StandsInRows q s board.now.records.now
        (given_value board.now) rows.now → AreWindowReaches q s reaches.new }
    // nothing is told of a window that isn't in the rows
    ensures others { TellsSameOutside rows.now (length rows.now) reaches.old reaches.new }
{
    for index in 0..rows.len() {
        tell_reach(board, rows, index, reaches);
    }
}
