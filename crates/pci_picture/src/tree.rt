//! The tree of buses.
ghost use Rattle.std.specs.Prelude.{◌≡◌, ◌++◌, [], ℕ, List, Some, None, IfOk, IfSome, OnOk};
ghost use Rattle.std.specs.List.{Contains};
ghost use Rattle.pci_picture.specs.Badges.{ShowBadges, badges_beside};
ghost use Rattle.pci_picture.specs.Ranks.{badge_word};
ghost use Rattle.pci_picture.specs.Canvases.{AddsToCanvas, DrawsBytes, WritesBytes};
ghost use Rattle.pci_picture.specs.Elements.{box_text};
ghost use Rattle.pci_picture.specs.Roots.{AreBusesAbove, listed_function, listed_functions};
ghost use Rattle.pci_picture.specs.Rows.{words_of_row};
ghost use Rattle.pci_picture.specs.Starts.{StandOnBus};
ghost use Rattle.pci_picture.specs.Trees.{class_of_row, class_of_tree_box, is_tree_root, tree_box_text};
ghost use Rattle.pci_picture.specs.Walks.{AreMarked, IsBusBegun, IsNextFunction, WritesBus, WritesRoot, WritesRow, WritesTree, left_of, place_of, unmarked_behind};

use super::badge::Badge;
use super::board::{Board, buses_above};
use super::canvas::{Canvas, Label, Shape};
use super::elements::Frame;
use super::function::Function;
use super::heights::LINE;
use super::memory::OutOfMemory;
use super::words::Words;
use std::alloc::Allocator;

/// The width of the tree.
pub const TREE: u64 = 400;

/// Where the tree begins from the left.
pub const LEFT: u64 = 16;

/// The step to the right for what is behind a bridge, and up to which depth there is one.
const STEP: u64 = 14;

const DEEPEST: u64 = 12;

/// What is left to be drawn of a bus: the functions from the index `next` up to `end`, and their depth in the tree.
#[derive(Clone, Copy)]
struct Rest {
    next: usize,
    end: usize,
    depth: u64,
}

/// Which functions are on a bus.
fn on_bus<A: Allocator + Copy>(board: &Board<'_, A>, bus: u8, depth: u64) -> Rest
    ensures on { StandOnBus board.now.functions.items bus result.next result.end }
    ensures deep { result.depth ≡ depth }
{
    let (next, end) = board.on_bus(bus);
    Rest { next, end, depth }
}

/// Appends the number of a fault in two digits, and whether it names the function as the bridge.
fn put_badge<A: Allocator + Copy>(words: &mut Words<A>, badge: Badge) -> Result<(), OutOfMemory>
    ensures { OnOk result (words.new.bytes.items ≡ words.old.bytes.items ++ badge_word badge) }
{
    words.put(&[b'0' + badge.number / 10 % 10, b'0' + badge.number % 10])?;
    if badge.is_bridge {
        words.put(b" bridge")?;
    }
    Ok(())
}

/// The numbers of the faults that the tree shows beside a function.
fn badges_of<A: Allocator + Copy>(
    alloc: A,
    board: &Board<'_, A>,
    function: &Function<'_>,
) -> Result<Words<A>, OutOfMemory>
    ensures { IfOk result (λ words. ShowBadges
        (badges_beside board.entry.now.faults function.entry.now.number) words.bytes.items) }
{
    let mut words = Words::new(alloc);
    let mut before = None;
    for badge in board.faults.beside(function.number) {
        if before == Some(badge.rank()) {
            continue;
        }
        if before.is_some() {
            words.put(b" ")?;
        }
        put_badge(&mut words, *badge)?;
        before = Some(badge.rank());
    }
    Ok(words)
}

/// The class of a function's box: `window` for a bridge, `bar` for a function that decodes, else `off`.
fn box_class(function: &Function<'_>) -> &'static [u8]
    ensures { result.now ≡ class_of_tree_box (listed_function function.entry.now) }
{
    match function.buses {
        Some(_) => b"window",
        None if function.is_on => b"bar",
        None => b"off",
    }
}

/// Draws the box of a function.
fn draw_function<A: Allocator + Copy>(
    canvas: &mut Canvas<A>,
    function: &Function<'_>,
    x: u64,
    y: u64,
) -> Result<(), OutOfMemory>
    ensures adds { OnOk result (AddsToCanvas [] canvas.old canvas.new) }
    ensures draws { OnOk result (DrawsBytes (box_text x y 8 9 (class_of_tree_box (listed_function function.entry.now)) []
        function.entry.now.slot.now) canvas.old canvas.new) }
    ensures writes { OnOk result (WritesBytes [] canvas.old canvas.new) }
{
    let at = Frame {
        x,
        y,
        width: 8,
        height: 9,
    };
    let shape = Shape {
        at,
        class: box_class(function),
        anchor: b"",
    };
    canvas.add_box(shape, function.slot)
}

/// The words beside a function: its slot, the buses behind it where it is a bridge, and its name.
fn words_of<A: Allocator + Copy>(
    alloc: A,
    board: &Board<'_, A>,
    function: &Function<'_>,
) -> Result<Words<A>, OutOfMemory>
    ensures { Contains board.entry.now.functions.items function.entry.now
        → IfOk result (λ words. words.bytes.items ≡ words_of_row (listed_function function.entry.now)) }
{
    let mut words = Words::of(alloc, function.slot)?;
    words.put(b" ")?;
    if function.buses.is_some() {
        words.put(b"to ")?;
        words.put_buses(function.buses)?;
        words.put(b", ")?;
    }
    words.put(board.name(function))?;
    Ok(words)
}

/// How the words of a row look, by what stands beside them and whether the function is on.
fn row_class(beside: &[u8], is_on: bool) -> &'static [u8]
    ensures { result.now ≡ class_of_row beside.now is_on }
{
    if !beside.is_empty() {
        b"alarm"
    } else if is_on {
        b""
    } else {
        b"quiet"
    }
}

/// Draws the row of a function: its box, its words, and at the right the numbers of its faults.
fn draw_row<A: Allocator + Copy>(
    alloc: A,
    canvas: &mut Canvas<A>,
    board: &Board<'_, A>,
    function: &Function<'_>,
    depth: u64,
    y: u64,
) -> Result<(), OutOfMemory>
    ensures adds { OnOk result (AddsToCanvas [] canvas.old canvas.new) }
    ensures draws { OnOk result (DrawsBytes (tree_box_text y (place_of function.entry.now depth)) canvas.old canvas.new) }
    ensures row { Contains board.entry.now.functions.items function.entry.now
        → OnOk result (WritesRow board.entry.now.faults.badges.items y (place_of function.entry.now depth) canvas.old canvas.new) }
{
    let x = LEFT + STEP * depth.min(DEEPEST);
    let badges = badges_of(alloc, board, function)?;
    let taken = (badges.bytes.len() as u64).saturating_mul(7);
    draw_function(canvas, function, x, y.saturating_add(2))?;
    let y = y.saturating_add(10);
    let label = Label {
        x: x + 14,
        y,
        class: row_class(badges.bytes.as_slice(), function.is_on),
    };
    let room = (LEFT + TREE - 36).saturating_sub(x).saturating_sub(taken);
    let mut words = words_of(alloc, board, function)?;
    canvas.add_cut(label, &mut words, room)?;
    let beside = Label {
        x: (LEFT + TREE - 16).saturating_sub(taken),
        y,
        class: b"alarm bold",
    };
    canvas.add_words(beside, badges.bytes.as_slice())
}

/// The first function that is left of a bus.
fn next_of<'b, 'a, A: Allocator + Copy>(
    board: &'b Board<'a, A>,
    rest: Rest,
) -> Option<&'b Function<'a>>
    ensures none { result ≡ None → left_of board.now.functions.items rest ≡ [] }
    ensures some { IfSome result (λ function. IsNextFunction board.now.functions.items rest function.now) }
{
    if rest.end <= rest.next {
        return None;
    }
    board.functions.get(rest.next)
}

/// Appends the functions behind a bridge to what is left, so that they are drawn next. A bus that was drawn already is
/// left out.
fn push_behind<A: Allocator + Copy>(
    rests: &mut Vec<Rest, A>,
    board: &Board<'_, A>,
    drawn: &mut [bool; 256],
    function: &Function<'_>,
    depth: u64,
) -> Result<(), OutOfMemory>
    ensures none { unmarked_behind drawn.old function.now ≡ None
        → OnOk result ((rests.new.items ≡ rests.old.items) × (drawn.new ≡ drawn.old)) }
    ensures some { (bus : ℕ) → unmarked_behind drawn.old function.now ≡ Some bus → OnOk result
        (IsBusBegun board.now.functions.items bus depth rests.old.items rests.new.items drawn.old drawn.new) }
{
    if let Some(buses) = function.buses {
        let behind = buses.secondary as usize;
        if !drawn[behind] {
            drawn[behind] = true;
            rests.push(on_bus(board, buses.secondary, depth.saturating_add(1)))?;
        }
    }
    Ok(())
}

/// Draws a root bus and what is behind its bridges. Each bus is drawn once. Its answer is where the next row stands.
fn draw_bus<A: Allocator + Copy>(
    alloc: A,
    canvas: &mut Canvas<A>,
    board: &Board<'_, A>,
    drawn: &mut [bool; 256],
    root: u8,
    top: u64,
) -> Result<u64, OutOfMemory>
    ensures adds { IfOk result (λ _. AddsToCanvas [] canvas.old canvas.new) }
    ensures rows { (before : List ℕ) → AreMarked drawn.old before → IfOk result (λ end.
        WritesBus (listed_functions board.entry.now.functions.items) board.entry.now.faults.badges.items before root top end
        drawn.new canvas.old canvas.new) }
{
    let mut y = top;
    let mut rests = Vec::new(alloc);
    rests.push(on_bus(board, root, 0))?;
    drawn[root as usize] = true;
    while let Some(rest) = rests.pop() {
        let Some(function) = next_of(board, rest) else {
            continue;
        };
        draw_row(alloc, canvas, board, function, rest.depth, y)?;
        y = y.saturating_add(LINE);
        rests.push(Rest {
            next: rest.next + 1,
            ..rest
        })?;
        push_behind(&mut rests, board, drawn, function, rest.depth)?;
    }
    Ok(y)
}

/// Whether a bus is a root: it has functions, no bus is above it, and it was not drawn yet.
fn is_root<A: Allocator + Copy>(
    board: &Board<'_, A>,
    above: &[Option<u8>; 256],
    drawn: &[bool; 256],
    bus: u8,
) -> bool
    ensures { AreBusesAbove (listed_functions board.now.functions.items) above.now → (before : List ℕ) → AreMarked drawn.now before
        → result ≡ is_tree_root (listed_functions board.now.functions.items) before bus }
{
    let (begin, end) = board.on_bus(bus);
    let index = bus as usize;
    begin < end && above[index].is_none() && !drawn[index]
}

/// Draws the heading of a root bus, and its rows below. Its answer is where the next root stands.
fn draw_root<A: Allocator + Copy>(
    alloc: A,
    canvas: &mut Canvas<A>,
    board: &Board<'_, A>,
    drawn: &mut [bool; 256],
    root: u8,
    y: u64,
) -> Result<u64, OutOfMemory>
    ensures adds { IfOk result (λ _. AddsToCanvas [] canvas.old canvas.new) }
    ensures rows { (before : List ℕ) → AreMarked drawn.old before → IfOk result (λ end.
        WritesRoot (listed_functions board.entry.now.functions.items) board.entry.now.faults.badges.items before root y end
        drawn.new canvas.old canvas.new) }
{
    let mut words = Words::of(alloc, b"bus ")?;
    words.put_hex(u64::from(root), 2)?;
    let label = Label {
        x: LEFT,
        y: y.saturating_add(11),
        class: b"bold",
    };
    canvas.add_heading(label, words.bytes.as_slice())?;
    let below = y.saturating_add(LINE + 2);
    let end = draw_bus(alloc, canvas, board, drawn, root, below)?;
    Ok(end.saturating_add(8))
}

/// Draws the functions, each bridge with what is behind it below it. Its answer is where the tree ends.
pub fn draw_tree<A: Allocator + Copy>(
    alloc: A,
    canvas: &mut Canvas<A>,
    board: &Board<'_, A>,
    top: u64,
) -> Result<u64, OutOfMemory>
    ensures adds { IfOk result (λ _. AddsToCanvas [] canvas.old canvas.new) }
    ensures tree { IfOk result (λ end. WritesTree (listed_functions board.entry.now.functions.items)
        board.entry.now.faults.badges.items top end canvas.old canvas.new) }
{
    let above = buses_above(board.functions.as_slice());
    let mut drawn = [false; 256];
    let mut y = top;
    for bus in 0..256u16 {
        if !is_root(board, &above, &drawn, bus as u8) {
            continue;
        }
        y = draw_root(alloc, canvas, board, &mut drawn, bus as u8, y)?;
    }
    Ok(y)
}
