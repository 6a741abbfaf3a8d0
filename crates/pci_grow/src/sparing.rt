//! Room for a spare behind a bridge: in an open window at the first place from its first address on, which may let it end
//! later; else in a window that is opened for it.
ghost use Rattle.std.specs.Prelude.{◌≡◌, ◌<◌, ◌^◌, IfOk, OnOk, IfSome, IsTrue, Some, [], ℕ, List, length, map};
ghost use Rattle.pci_spec.specs.Decoded.{Range as DecodedRange};
ghost use Rattle.pci_spec.specs.System.{System};
ghost use Rattle.plan_spec.specs.Place.{range_from};
ghost use Rattle.settle_spec.specs.Lists.{Request};
ghost use Rattle.settle_spec.specs.Kept.{Kept};
ghost use Rattle.settle_spec.specs.Lines.{lines_behind};
ghost use Rattle.settle_spec.specs.Stands.{window_part};
ghost use Rattle.settle_spec.specs.Wishes.{spared_within};
ghost use Rattle.pci_base.specs.Ranges.{decoded_range_of};
ghost use Rattle.pci_base.specs.WindowKinds.{kind_value};
ghost use Rattle.pci_tree.specs.Ways.{IsBridgeToBus};
ghost use Rattle.pci_grow.specs.RoomRows.{row_at, HasRanges};
ghost use Rattle.pci_first_fit.specs.Lines.{AreLineRows};
ghost use Rattle.pci_first_fit.specs.Spots.{extent_value, extent_range, IsExtent, FirstsRise};
ghost use Rattle.pci_grow.specs.Board.{room_value, told_then, IsAsked, IsWindow, AreFacts, bridge_of_window, window_class, IsRoom, IsRoomOfKept, IsWindowOpened};
ghost use Rattle.pci_grow.specs.Endings.{IsSparedAs, IsSpotBelow, IsTakenOn, IsSpotBeside, IsPlaceBeside, IsSparedOnRoot, IsSparedIn};

use crate::board::{Board, BridgeWindow, Facts};
use crate::ending::{end_by, window_row};
use crate::list::first_place;
use crate::row::level;
use crate::spare_room::Room;
use pci_base::memory::OutOfMemory;
use pci_base::range::Range;
use pci_base::space::Space;
use pci_base::window_kind::WindowKind;
use pci_first_fit::extent::Extent;
use pci_first_fit::lines::{add_lines_behind, add_lines_on};
use pci_first_fit::list::is_root;
use pci_first_fit::spot::{first_spot, sort_by_first};
use std::alloc::Allocator;

/// Buses rise on the way down, so no more of them are above one another.
pub const DEPTH: usize = 256;

/// A spare that is looked for.
#[derive(Clone, Copy)]
pub struct Sought<'a> {
    pub extent: Extent,
    /// What lines hold behind windows that are opened for it, which it is off.
    pub behind: &'a [Range],
}

/// The row of the space of a class on a bus.
#[derive(Clone, Copy)]
struct Row {
    bus: u8,
    class: WindowKind,
}

/// What lines hold behind a window.
fn held_behind<A: Allocator>(
    alloc: A,
    board: &Board,
    window: BridgeWindow,
) -> Result<Vec<Range, A>, OutOfMemory>
    requires lines { AreLineRows board.now.lines.now }
    requires window { window.bridge < length board.now.records.now }
    ensures { IfOk result (λ held. (q : Request) → (s : System) → IsAsked q s board.now → IsWindow s window
        → HasRanges held.items (lines_behind q (window_part (window_class window) (bridge_of_window s window)))) }
{
    let record = &board.records[window.bridge];
    let mut held = Vec::new(alloc);
    match &record.bridge {
        None => Ok(held),
        Some(bridge) => {
            let space = Space::of(window.class);
            add_lines_behind(&mut held, board.lines, bridge, space)?;
            Ok(held)
        }
    }
}

/// What is taken on a bus in the space of a class, with what is behind windows that are opened, by rising first addresses.
fn taken_beside<A: Allocator + Copy>(
    board: &Board,
    room: &Room<A>,
    bus: u8,
    class: WindowKind,
    behind: &[Range],
) -> Result<Vec<Range, A>, OutOfMemory>
    requires lines { AreLineRows board.now.lines.now }
    requires room { IsRoom (length board.now.records.now) (room_value room.now) }
    ensures order { IfOk result (λ taken. FirstsRise taken.items) }
    ensures taken { IfOk result (λ taken. IsTakenOn board.now (room_value room.now) bus (kind_value class)
        behind.now taken.items) }
{
    let mut taken = Vec::new(room.alloc);
    taken.extend_from_slice(behind)?;
    let level = level(board.roots, bus);
    add_lines_on(&mut taken, board.lines, level, Space::of(class))?;
    let row = window_row(board, bus, class);
    taken.extend_from_slice(room.row(row))?;
    sort_by_first(&mut taken);
    Ok(taken)
}

/// The first spot of an extent from an address on; None where it ends above the highest address that the extent may have.
fn spot_below(taken: &[Range], low: u64, extent: Extent) -> Option<u64>
    requires extent { IsExtent extent }
    requires order { FirstsRise taken.now }
    ensures spot { IsSpotBelow (map decoded_range_of taken.now) low extent result }
    ensures ends { IfSome result (λ at. (range_from at extent.size).last < 2 ^ 64) }
{
    let Some(spot) = first_spot(taken, low, extent) else {
        return None;
    };
    let last = spot.at + (extent.size - 1);
    if extent.highest < last {
        return None;
    }
    Some(spot.at)
}

/// Whether a row as it stands is all that is taken: nothing is told, and nothing is behind.
fn is_plain(board: &Board, sought: &Sought) -> bool
    ensures { IsTrue result → (board.now.lines.now ≡ []) × (sought.now.behind.now ≡ []) }
{
    board.lines.is_empty() && sought.behind.is_empty()
}

/// The first spot of a spare from an address on, off all that is taken in a row of a bus.
fn spot_beside<A: Allocator + Copy>(
    board: &Board,
    room: &Room<A>,
    on: Row,
    low: u64,
    sought: &Sought,
) -> Result<Option<u64>, OutOfMemory>
    requires lines { AreLineRows board.now.lines.now }
    requires room { IsRoom (length board.now.records.now) (room_value room.now) }
    requires extent { IsExtent sought.now.extent }
    ensures spot { IfOk result (IsSpotBeside board.now (room_value room.now) on.bus (kind_value on.class)
        sought.now.behind.now low sought.now.extent) }
    ensures ends { IfOk result (λ place. IfSome place (λ at. (range_from at sought.now.extent.size).last < 2 ^ 64)) }
{
    let extent = sought.extent;
    if is_plain(board, sought) {
        let row = window_row(board, on.bus, on.class);
        return Ok(spot_below(room.row(row), low, extent));
    }
    let taken = taken_beside(board, room, on.bus, on.class, sought.behind)?;
    Ok(spot_below(taken.as_slice(), low, extent))
}

/// The first place of a spare in the list of a class, off all that is taken in a row of a root.
fn place_beside<A: Allocator + Copy>(
    board: &Board,
    room: &Room<A>,
    on: Row,
    sought: &Sought,
) -> Result<Option<u64>, OutOfMemory>
    requires lines { AreLineRows board.now.lines.now }
    requires room { IsRoom (length board.now.records.now) (room_value room.now) }
    requires extent { IsExtent sought.now.extent }
    ensures place { IfOk result (IsPlaceBeside board.now (room_value room.now) on.bus (kind_value on.class)
        sought.now.behind.now sought.now.extent) }
    ensures ends { IfOk result (λ place. IfSome place (λ at. (range_from at sought.now.extent.size).last < 2 ^ 64)) }
{
    let extent = sought.extent;
    let list = board.lists.of(on.class);
    if is_plain(board, sought) {
        let row = window_row(board, on.bus, on.class);
        return Ok(first_place(list, on.bus, room.row(row), extent));
    }
    let taken = taken_beside(board, room, on.bus, on.class, sought.behind)?;
    Ok(first_place(list, on.bus, taken.as_slice(), extent))
}

/// Finds room for a spare in an open window, which may end later for it. The answer is its place.
fn spared_in<A: Allocator + Copy>(
    board: &Board,
    room: &mut Room<A>,
    window: BridgeWindow,
    range: Range,
    sought: &Sought,
) -> Result<Option<u64>, OutOfMemory>
    requires over { IsBridgeToBus board.now.records.now board.now.over.now }
    requires lines { AreLineRows board.now.lines.now }
    requires room { IsRoom (length board.now.records.now) (room_value room.old) }
    requires window { window.bridge < length board.now.records.now }
    requires extent { IsExtent sought.now.extent }
    ensures room { IsRoom (length board.now.records.now) (room_value room.new) }
    ensures ends { IfOk result (λ place. IfSome place (λ at. (range_from at sought.now.extent.size).last < 2 ^ 64)) }
    ensures spared { (q : Request) → (s : System) → (k : Kept) → (behind : List DecodedRange)
        → IsRoomOfKept q s k board.now (room_value room.old)
        → IsWindow s window → HasRanges sought.now.behind.now behind
        → told_then board.now.windows.now (room_value room.old) window ≡ Some range
        → IfOk result (λ place. IsSparedIn q s k board.now window range sought.now.extent behind place
        (room_value room.old) (room_value room.new)) }
{
    let Some(facts) = board.facts(window) else {
        return Ok(None);
    };
    let extent = sought.extent;
    let on = Row {
        bus: facts.behind,
        class: window.class,
    };
    let Some(at) = spot_beside(board, room, on, range.first, sought)? else {
        return Ok(None);
    };
    let last = at + (extent.size - 1);
    if !end_by(board, room, window, last, DEPTH) {
        return Ok(None);
    }
    Ok(Some(at))
}

/// Opens a window at the place of an extent.
fn open_at<A: Allocator>(
    room: &mut Room<A>,
    window: BridgeWindow,
    row: usize,
    at: u64,
    extent: Extent,
) -> Result<(), OutOfMemory>
    requires extent { IsExtent extent }
    requires ends { (range_from at extent.size).last < 2 ^ 64 }
    requires order { (row : ℕ) → FirstsRise (row_at (room_value room.old).rows row) }
    requires window { window.bridge < length (room_value room.old).wished }
    requires row { row < length (room_value room.old).rows }
    ensures opened { OnOk result (IsWindowOpened (room_value room.old) (room_value room.new) window row (extent_range extent at)) }
    ensures room { (functions : ℕ) → IsRoom functions (room_value room.old) → IsRoom functions (room_value room.new) }
{
    let last = at + (extent.size - 1);
    room.open(window, row, Range { first: at, last })
}

/// Opens a closed window of a bridge on a root for a spare, at its first place in the list of its class.
fn spared_on_root<A: Allocator + Copy>(
    board: &Board,
    room: &mut Room<A>,
    window: BridgeWindow,
    facts: &Facts,
    sought: &Sought,
) -> Result<Option<u64>, OutOfMemory>
    requires lines { AreLineRows board.now.lines.now }
    requires room { IsRoom (length board.now.records.now) (room_value room.old) }
    requires window { window.bridge < length board.now.records.now }
    requires extent { IsExtent sought.now.extent }
    ensures room { IsRoom (length board.now.records.now) (room_value room.new) }
    ensures ends { IfOk result (λ place. IfSome place (λ at. (range_from at sought.now.extent.size).last < 2 ^ 64)) }
    ensures spared { (q : Request) → (s : System) → (k : Kept) → (behind : List DecodedRange)
        → IsRoomOfKept q s k board.now (room_value room.old)
        → IsWindow s window → AreFacts q (window_class window) (bridge_of_window s window) facts.now
        → HasRanges sought.now.behind.now behind
        → IfOk result (λ place. IsSparedOnRoot q s k board.now window facts.now sought.now.extent behind place
        (room_value room.old) (room_value room.new)) }
{
    let row = window_row(board, facts.bus, window.class);
    let on = Row {
        bus: facts.bus,
        class: window.class,
    };
    let Some(at) = place_beside(board, room, on, sought)? else {
        return Ok(None);
    };
    open_at(room, window, row, at, sought.extent)?;
    Ok(Some(at))
}

/// Finds room for a spare behind a bridge in a window of a class, where at most `depth` buses are above one another. The
/// answer is its place; nothing changes where there is none.
pub fn spared<A: Allocator + Copy>(
    board: &Board,
    room: &mut Room<A>,
    window: BridgeWindow,
    sought: &Sought,
    depth: usize,
) -> Result<Option<u64>, OutOfMemory>
    // the bridge over a bus is one of the functions
    requires over { IsBridgeToBus board.now.records.now board.now.over.now }
    // those of a level are found by halving
    requires lines { AreLineRows board.now.lines.now }
    // each function has its entry, and each bus its rows
    requires room { IsRoom (length board.now.records.now) (room_value room.old) }
    requires window { window.bridge < length board.now.records.now }
    // without an address it has no last one, and of 0 there is no multiple
    requires extent { IsExtent sought.now.extent }
    ensures room { IsRoom (length board.now.records.now) (room_value room.new) }
    ensures ends { IfOk result (λ place. IfSome place (λ at. (range_from at sought.now.extent.size).last < 2 ^ 64)) }
    ensures spared { (q : Request) → (s : System) → (k : Kept) → (behind : List DecodedRange)
        → IsRoomOfKept q s k board.now (room_value room.old)
        → IsWindow s window → HasRanges sought.now.behind.now behind
        → IfOk result (λ place. IsSparedAs q s board.now
        (spared_within q s (window_class window) depth (bridge_of_window s window) (extent_value sought.now.extent) behind k)
        place (room_value room.old) (room_value room.new)) }
{
    if depth == 0 {
        return Ok(None);
    }
    if let Some(range) = room.range_of(board.windows, window) {
        return spared_in(board, room, window, range, sought);
    }
    let Some(facts) = board.facts(window) else {
        return Ok(None);
    };
    if !facts.there {
        return Ok(None);
    }
    if facts.fixed {
        return Ok(None);
    }
    let held = sought.extent.held_by(facts.highest);
    let behind = held_behind(room.alloc, board, window)?;
    let opened = Sought {
        extent: held,
        behind: behind.as_slice(),
    };
    if is_root(board.roots, facts.bus) {
        return spared_on_root(board, room, window, &facts, &opened);
    }
    let Some(bridge) = board.bridge_over(facts.bus) else {
        return Ok(None);
    };
    let class = window.class;
    let Some(at) = spared(
        board,
        room,
        BridgeWindow { bridge, class },
        &opened,
        depth - 1,
    )?
    else {
        return Ok(None);
    };
    let row = window_row(board, facts.bus, class);
    open_at(room, window, row, at, held)?;
    Ok(Some(at))
}
