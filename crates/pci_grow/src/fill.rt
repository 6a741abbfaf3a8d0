//! What is there before any wish, row by row.
ghost use Rattle.std.specs.Prelude.{◌≡◌, ◌<◌, ◌+◌, ℕ, true, false, IfOk, OnOk, [], length, map, slice_index_or};
ghost use Rattle.std.specs.List.{All};
ghost use Rattle.pci_spec.specs.Decoded.{Range as DecodedRange};
ghost use Rattle.pci_spec.specs.System.{System};
ghost use Rattle.settle_spec.specs.Lists.{Request};
ghost use Rattle.settle_spec.specs.Kept.{Kept};
ghost use Rattle.pci_tree.specs.Roots.{buses_of};
ghost use Rattle.pci_grow.specs.Board.{room_value, IsAsked, IsRoom, IsRoomOfKept};
ghost use Rattle.pci_grow.specs.RoomRows.{total, row_at};
ghost use Rattle.pci_grow.specs.LastPlaces.{LastsRise};
ghost use Rattle.pci_grow.specs.Located.{located_total, window_weight, function_weight, windows_total, ArePut, IsPushed, AreSorted, AreOwn, AreWindowsThen};

use crate::board::{Board, BridgeWindow};
use crate::row::{ROWS, lasts_rise, row};
use crate::spare_room::Room;
use pci_base::memory::OutOfMemory;
use pci_base::range::Range;
use pci_base::space::Space;
use pci_base::window_kind::WindowKind;
use pci_first_fit::spot::sort_by_first;
use pci_first_fit::table::{nothing_told, told_of};
use pci_tree::roots::Roots;
use std::alloc::Allocator;

/// A part of a function, by its bus and space, with its addresses.
#[derive(Clone, Copy, Debug)]
pub struct Located {
    pub bus: u8,
    pub space: Space,
    pub range: Range,
}

/// As many rows as there are, with nothing in them.
fn no_rows<A: Allocator + Copy>(alloc: A) -> Result<Vec<Vec<Range, A>, A>, OutOfMemory>
    ensures count { IfOk result (λ rows. length rows.items ≡ 514) }
    ensures none { IfOk result (λ rows. All (λ row. row.items ≡ []) rows.items) }
{
    let mut rows = Vec::new(alloc);
    for _ in 0..ROWS {
        rows.push(Vec::new(alloc))?;
    }
    Ok(rows)
}

/// Puts a range at the end of a row.
fn push<A: Allocator>(
    rows: &mut [Vec<Range, A>],
    row: usize,
    range: Range,
) -> Result<(), OutOfMemory>
    requires { row < length rows.old }
    ensures count { length rows.new ≡ length rows.old }
    ensures pushed { OnOk result (IsPushed (map (λ v. v.items) rows.old) (map (λ v. v.items) rows.new) row range) }
{
    rows[row].push(range)?;
    Ok(())
}

/// Puts parts into their rows.
fn put_all<A: Allocator>(
    rows: &mut [Vec<Range, A>],
    roots: &Roots,
    parts: &[Located],
) -> Result<(), OutOfMemory>
    requires { length rows.old ≡ 514 }
    ensures count { length rows.new ≡ length rows.old }
    ensures put { OnOk result (ArePut (buses_of roots.now) parts.now (map (λ v. v.items) rows.old) (map (λ v. v.items) rows.new)) }
{
    for part in parts {
        push(rows, row(roots, part.bus, part.space), part.range)?;
    }
    Ok(())
}

/// Sorts what is in each row by rising first addresses.
fn sort_rows<A: Allocator>(rows: &mut [Vec<Range, A>])
    ensures count { length rows.new ≡ length rows.old }
    ensures sorted { AreSorted (map (λ v. v.items) rows.old) (map (λ v. v.items) rows.new) }
{
    for index in 0..rows.len() {
        sort_by_first(&mut rows[index]);
    }
}

/// Adds a window, if it is open.
fn add_window<A: Allocator>(
    parts: &mut Vec<Located, A>,
    board: &Board,
    window: BridgeWindow,
) -> Result<(), OutOfMemory>
    requires { window.bridge < length board.now.records.now }
    ensures { OnOk result ((q : Request) → (s : System) → IsAsked q s board.now
        → (weight : DecodedRange → ℕ) → (n : ℕ)
        → located_total q.roots weight n parts.new.items ≡ located_total q.roots weight n parts.old.items
        + window_weight q.roots s board.now.windows.now weight n window) }
{
    if let Some(range) = told_of(board.windows, window.bridge, window.class) {
        let bus = board.records[window.bridge].slot.bus();
        let space = Space::of(window.class);
        parts.push(Located { bus, space, range })?;
    }
    Ok(())
}

/// Adds the open windows of a function.
fn add_windows<A: Allocator>(
    parts: &mut Vec<Located, A>,
    board: &Board,
    bridge: usize,
) -> Result<(), OutOfMemory>
    requires { bridge < length board.now.records.now }
    ensures { OnOk result ((q : Request) → (s : System) → IsAsked q s board.now
        → (weight : DecodedRange → ℕ) → (n : ℕ)
        → located_total q.roots weight n parts.new.items ≡ located_total q.roots weight n parts.old.items
        + function_weight q.roots s board.now.windows.now weight n bridge) }
{
    let class = WindowKind::Io;
    add_window(parts, board, BridgeWindow { bridge, class })?;
    let class = WindowKind::Memory;
    add_window(parts, board, BridgeWindow { bridge, class })?;
    let class = WindowKind::Prefetchable;
    add_window(parts, board, BridgeWindow { bridge, class })?;
    Ok(())
}

/// All open windows, as a board tells them.
fn windows_of<A: Allocator>(alloc: A, board: &Board) -> Result<Vec<Located, A>, OutOfMemory>
    ensures { IfOk result (λ parts. (q : Request) → (s : System) → IsAsked q s board.now
        → (weight : DecodedRange → ℕ) → (n : ℕ)
        → located_total q.roots weight n parts.items
        ≡ windows_total q.roots s board.now.windows.now weight n (length s)) }
{
    let mut parts = Vec::new(alloc);
    for bridge in 0..board.records.len() {
        add_windows(&mut parts, board, bridge)?;
    }
    Ok(parts)
}

/// In which rows last addresses rise.
fn rising_rows<A: Allocator + Copy>(
    alloc: A,
    rows: &[Vec<Range, A>],
) -> Result<Vec<bool, A>, OutOfMemory>
    ensures count { IfOk result (λ flags. length flags.items ≡ length rows.now) }
    ensures rising { IfOk result (λ flags. (n : ℕ) → slice_index_or flags.items n false ≡ true
        → LastsRise (row_at (map (λ v. v.items) rows.now) n)) }
{
    let mut flags = Vec::new(alloc);
    for row in rows {
        flags.push(lasts_rise(row.as_slice()))?;
    }
    Ok(flags)
}

/// What is there before any wish. `own` are the BARs and ROMs that have a place.
pub fn room_of<A: Allocator + Copy>(
    alloc: A,
    board: &Board,
    own: &[Located],
) -> Result<Room<A>, OutOfMemory>
    // each function has its entry, and each bus its rows
    ensures room { IfOk result (λ room. IsRoom (length board.now.records.now) (room_value room)) }
    // so wishes can be granted there
    ensures told { IfOk result (λ room. (q : Request) → (s : System) → (k : Kept) → IsAsked q s board.now
        → AreWindowsThen q s k board.now.windows.now → AreOwn q s k own.now
        → IsRoomOfKept q s k board.now (room_value room)) }
{
    let windows = windows_of(alloc, board)?;
    let mut rows = no_rows(alloc)?;
    put_all(rows.as_mut_slice(), board.roots, own)?;
    put_all(rows.as_mut_slice(), board.roots, windows.as_slice())?;
    sort_rows(rows.as_mut_slice());
    let wished = nothing_told(alloc, board.records.len())?;
    let rising = rising_rows(alloc, rows.as_slice())?;
    Ok(Room {
        alloc,
        wished,
        rows,
        rising,
    })
}
