//! An open window ends later, and so does each window above it that ended before.
ghost use Rattle.std.specs.Prelude.{◌≡◌, ◌<◌, ◌&&◌, not, nat_le, length};
ghost use Rattle.std.specs.List.{list_all};
ghost use Rattle.pci_spec.specs.System.{System, window_space};
ghost use Rattle.settle_spec.specs.FirstPlace.{ranges_are_apart};
ghost use Rattle.settle_spec.specs.Lists.{Request};
ghost use Rattle.settle_spec.specs.Kept.{Kept};
ghost use Rattle.settle_spec.specs.Wishes.{gained, is_off_lines, ending_within};
ghost use Rattle.pci_base.specs.Ranges.{decoded_range_of};
ghost use Rattle.pci_base.specs.WindowKinds.{kind_value};
ghost use Rattle.pci_tree.specs.Roots.{buses_of};
ghost use Rattle.pci_tree.specs.Ways.{IsBridgeToBus};
ghost use Rattle.pci_grow.specs.RoomRows.{bus_level, row_number, row_at};
ghost use Rattle.pci_grow.specs.Board.{room_value, IsAsked, IsWindow, AreFacts, bridge_of_window, window_class, AreRising, IsRoom, IsRoomOfKept};
ghost use Rattle.pci_first_fit.specs.Lines.{AreLineRows};
ghost use Rattle.pci_first_fit.specs.Spots.{FirstsRise};
ghost use Rattle.pci_grow.specs.Endings.{IsEndedAs, IsAroundWindow, IsAroundIn};

use crate::board::{Board, BridgeWindow, Facts};
use crate::half::end_over;
use crate::row::{is_free_to, level, row};
use crate::spare_room::Room;
use pci_base::range::Range;
use pci_base::space::Space;
use pci_base::window_kind::WindowKind;
use pci_first_fit::lines::is_off_lines;
use pci_first_fit::list::is_root;
use std::alloc::Allocator;

/// What is around a window.
#[derive(Clone, Copy, Debug, PartialEq, Eq)]
pub enum Around {
    /// Nothing that can hold it.
    Nothing,
    /// A range of its root, which holds it.
    Lists,
    /// The window of its class of the bridge at this index.
    Window(usize),
}

/// The row of the windows of a class on a bus.
pub fn window_row(board: &Board, bus: u8, class: WindowKind) -> usize
    ensures row { result ≡ row_number (bus_level (buses_of board.now.roots.now) bus) (window_space (kind_value class)) }
    ensures small { result < 514 }
{
    row(board.roots, bus, Space::of(class))
}

/// Whether a bridge can show a window that ends there, and nothing in its row has an address that it gains.
fn can_end_at<A: Allocator>(
    room: &Room<A>,
    facts: &Facts,
    row: usize,
    window: Range,
    last: u64,
) -> bool
    requires row { row < length (room_value room.now).rows }
    requires order { FirstsRise (row_at (room_value room.now).rows row) }
    requires rising { AreRising (room_value room.now) }
    ensures { result ≡ (not facts.now.fixed && (nat_le last facts.now.highest && list_all
        (λ range. ranges_are_apart (gained (decoded_range_of window) last) (decoded_range_of range))
        (row_at (room_value room.now).rows row))) }
{
    !facts.fixed
        && (last <= facts.highest && is_free_to(room.row(row), room.lasts_rise(row), window, last))
}

/// Whether no line keeps a window off what it gains by ending later.
fn gains_no_line(board: &Board, window: BridgeWindow, range: Range, last: u64) -> bool
    requires lines { AreLineRows board.now.lines.now }
    requires window { window.bridge < length board.now.records.now }
    requires later { range.last < last }
    ensures { (q : Request) → (s : System) → IsAsked q s board.now → IsWindow s window
        → result ≡ is_off_lines q s (window_class window) (bridge_of_window s window) (gained (decoded_range_of range) last) }
{
    let slot = board.records[window.bridge].slot;
    let level = level(board.roots, slot.bus());
    let first = range.last + 1;
    is_off_lines(
        board.lines,
        level,
        slot,
        Space::of(window.class),
        Range { first, last },
    )
}

/// What is around a window with these addresses.
fn what_is_around(board: &Board, facts: &Facts, class: WindowKind, window: Range) -> Around
    // the bridge over a bus is one of the functions
    requires over { IsBridgeToBus board.now.records.now board.now.over.now }
    ensures within { IsAroundIn (length board.now.records.now) result }
    ensures around { (q : Request) → (s : System) → IsAsked q s board.now → (w : BridgeWindow) → w.class ≡ class
        → IsWindow s w → AreFacts q (window_class w) (bridge_of_window s w) facts.now
        → IsAroundWindow q s w (decoded_range_of window) result }
{
    if is_root(board.roots, facts.bus) {
        if board.lists.hold(facts.bus, Space::of(class), window) {
            Around::Lists
        } else {
            Around::Nothing
        }
    } else {
        match board.bridge_over(facts.bus) {
            Some(bridge) => Around::Window(bridge),
            None => Around::Nothing,
        }
    }
}

/// Lets an open window end at an address or behind it, and so each window above it that ends before, where at most `depth`
/// buses are above one another. The answer is whether all of them can; nothing changes where one can't.
pub fn end_by<A: Allocator>(
    board: &Board,
    room: &mut Room<A>,
    window: BridgeWindow,
    last: u64,
    depth: usize,
) -> bool
    // the bridge over a bus is one of the functions
    requires over { IsBridgeToBus board.now.records.now board.now.over.now }
    // those of a level are found by halving
    requires lines { AreLineRows board.now.lines.now }
    // each function has its entry, and each bus its rows
    requires room { IsRoom (length board.now.records.now) (room_value room.old) }
    requires window { window.bridge < length board.now.records.now }
    ensures room { IsRoom (length board.now.records.now) (room_value room.new) }
    ensures ended { (q : Request) → (s : System) → (k : Kept) → IsRoomOfKept q s k board.now (room_value room.old)
        → IsWindow s window
        → IsEndedAs q s board.now (ending_within q s (window_class window) depth (bridge_of_window s window) last k)
        result (room_value room.old) (room_value room.new) }
{
    if depth == 0 {
        return false;
    }
    let Some(range) = room.range_of(board.windows, window) else {
        return false;
    };
    if last <= range.last {
        return true;
    }
    let Some(facts) = board.facts(window) else {
        return false;
    };
    let end = end_over(window.class, range, last);
    let row = window_row(board, facts.bus, window.class);
    if !gains_no_line(board, window, range, end) {
        return false;
    }
    if !can_end_at(room, &facts, row, range, end) {
        return false;
    }
    let first = range.first;
    match what_is_around(board, &facts, window.class, Range { first, last: end }) {
        Around::Nothing => false,
        Around::Lists => {
            room.end_later(window, row, range, end);
            true
        }
        Around::Window(bridge) => {
            let class = window.class;
            if !end_by(board, room, BridgeWindow { bridge, class }, end, depth - 1) {
                return false;
            }
            room.end_later(window, row, range, end);
            true
        }
    }
}
