//! The told ranges that are on a bus, and behind a bridge.
ghost use Rattle.std.specs.Prelude.{◌≡◌, ◌++◌, ◌≤◌, ◌<◌, ℕ, Bool, IfOk, OnOk, IsTrue, length, map, not};
ghost use Rattle.std.specs.List.{AllWithin, filter, list_all};
ghost use Rattle.std.specs.List.Sorted.{IsPermutation, IsNonDecreasingBy};
ghost use Rattle.pci_spec.specs.System.{Function, window_space};
ghost use Rattle.pci_spec.specs.Bus.{secondary, subordinate};
ghost use Rattle.pci_spec.specs.Window.{WindowKind};
ghost use Rattle.settle_spec.specs.Lists.{Request};
ghost use Rattle.judge_spec.specs.ToldRegion.{told_regions};
ghost use Rattle.settle_spec.specs.Lines.{keeps_off, lines_on, lines_behind};
ghost use Rattle.settle_spec.specs.Stands.{window_part};
ghost use Rattle.settle_spec.specs.Parts.{are_same_space};
ghost use Rattle.pci_base.specs.Ranges.{decoded_range_of};
ghost use Rattle.pci_base.specs.Space.{space_of};
ghost use Rattle.pci_tree.specs.Roots.{buses_of};
ghost use Rattle.pci_first_fit.specs.Lines.{level_of, row_of, told_row, line_level, line_code_range, is_on_levels, is_root_line, line_keeps_off, AreForwardRanges, AreLineRows, AreLines, AreAdded};

use crate::list::{are_apart, is_root};
use crate::told::ToldRanges;
use pci_base::memory::OutOfMemory;
use pci_base::range::Range;
use pci_base::slot::Slot;
use pci_base::space::Space;
use pci_dump::told_range::ToldRange;
use pci_function::record::Bridge;
use pci_tree::roots::Roots;
use std::alloc::Allocator;

/// A told range on its bus.
#[derive(Clone, Copy, Debug)]
pub struct Line {
    /// 0 where its bus is a root, else one more than the bus number: all roots are one bus.
    pub level: u16,
    pub bus: u8,
    pub slot: Slot,
    pub space: Space,
    pub range: Range,
    /// Whether it is a held range.
    pub held: bool,
    /// Which of the text's ranges it is, from 0 on.
    pub index: usize,
}

/// 0 for a root, else one more than the bus number.
fn level_of(roots: &Roots, bus: u8) -> u16
    ensures { result ≡ level_of (buses_of roots.now) bus }
{
    if is_root(roots, bus) {
        0
    } else {
        u16::from(bus) + 1
    }
}

/// The row of a told range.
fn line_of(roots: &Roots, index: usize, told: &ToldRange) -> Line
    ensures { row_of result ≡ told_row (buses_of roots.now) index told.now }
{
    let bus = told.slot.bus();
    Line {
        level: level_of(roots, bus),
        bus,
        slot: told.slot,
        space: told.space,
        range: Range {
            first: told.first,
            last: told.last,
        },
        held: told.is_held(),
        index,
    }
}

/// Sorts rows by rising levels.
fn sort_by_level<A: Allocator>(lines: &mut Vec<Line, A>)
    ensures permutation { IsPermutation lines.old.items lines.new.items }
    ensures order { IsNonDecreasingBy line_level lines.new.items }
{
    lines.sort_unstable_by_key(|line| line.level);
}

/// All told ranges by rising levels.
pub fn lines<A: Allocator>(
    alloc: A,
    told: ToldRanges,
    roots: &Roots,
) -> Result<Vec<Line, A>, OutOfMemory>
    ensures rows { IfOk result (λ lines. AreLineRows lines.items) }
    ensures lines { IfOk result (λ lines. AreLines (buses_of roots.now) told.entry.ranges.now lines.items) }
{
    let mut lines = Vec::new(alloc);
    for (index, range) in told.as_slice().iter().enumerate() {
        lines.push(line_of(roots, index, range))?;
    }
    sort_by_level(&mut lines);
    Ok(lines)
}

/// The index of the first row on a level or a higher one.
fn first_from(lines: &[Line], level: u32) -> usize
    requires { IsNonDecreasingBy line_level lines.now }
    ensures bound { result ≤ length lines.now }
    ensures before { AllWithin (λ l. l.level < level) lines.now 0 result }
    ensures after { AllWithin (λ l. level ≤ l.level) lines.now result (length lines.now) }
{
    lines.partition_point(|line| u32::from(line.level) < level)
}

/// The rows of levels from `low` to `high`, which stand beside one another.
fn rows_between(lines: &[Line], low: u16, high: u16) -> &[Line]
    // their ends are found by halving
    requires { IsNonDecreasingBy line_level lines.now }
    ensures { (p : Line → Bool)
        → ((l : Line) → IsTrue (p l) → (low ≤ l.level) × (l.level ≤ high))
        → filter p result.now ≡ filter p lines.now }
{
    let first = first_from(lines, low as u32);
    let end = first_from(lines, high as u32 + 1);
    if end < first {
        return &[];
    }
    &lines[first..end]
}

/// Whether a row is of a space.
fn is_in(line: &Line, space: Space) -> bool
    ensures { result ≡ are_same_space (space_of space) (space_of line.now.space) }
{
    match space {
        Space::Io => line.space == Space::Io,
        Space::Mem => line.space == Space::Mem,
    }
}

/// Adds what lines hold on levels from `low` to `high` in a space.
fn add_levels<A: Allocator>(
    out: &mut Vec<Range, A>,
    lines: &[Line],
    low: u16,
    high: u16,
    space: Space,
) -> Result<(), OutOfMemory>
    requires { IsNonDecreasingBy line_level lines.now }
    ensures { OnOk result (out.new.items
        ≡ out.old.items ++ map line_code_range (filter (is_on_levels low high (space_of space)) lines.now)) }
{
    for line in rows_between(lines, low, high) {
        if low <= line.level && line.level <= high && is_in(line, space) {
            out.push(line.range)?;
        }
    }
    Ok(())
}

/// Adds what lines hold in a space on the roots among buses from `first` to `last`.
fn add_roots<A: Allocator>(
    out: &mut Vec<Range, A>,
    lines: &[Line],
    first: u8,
    last: u8,
    space: Space,
) -> Result<(), OutOfMemory>
    requires { IsNonDecreasingBy line_level lines.now }
    ensures { OnOk result (out.new.items
        ≡ out.old.items ++ map line_code_range (filter (is_root_line first last (space_of space)) lines.now)) }
{
    for line in rows_between(lines, 0, 0) {
        if line.level == 0 && first <= line.bus && line.bus <= last && is_in(line, space) {
            out.push(line.range)?;
        }
    }
    Ok(())
}

/// Adds what lines hold on a level in a space.
pub fn add_lines_on<A: Allocator>(
    out: &mut Vec<Range, A>,
    lines: &[Line],
    level: u16,
    space: Space,
) -> Result<(), OutOfMemory>
    // those of a level are found by halving
    requires { AreLineRows lines.now }
    ensures added { OnOk result ((q : Request) (bus : ℕ)
        → AreLines q.roots q.told.ranges lines.now → level ≡ level_of q.roots bus
        → AreAdded out.old.items out.new.items (lines_on q (space_of space) bus)) }
    // so places can be looked for between them
    ensures forward { OnOk result (AreForwardRanges out.old.items → AreForwardRanges out.new.items) }
{
    add_levels(out, lines, level, level, space)?;
    Ok(())
}

/// Adds what lines hold behind a bridge in a space.
pub fn add_lines_behind<A: Allocator>(
    out: &mut Vec<Range, A>,
    lines: &[Line],
    bridge: &Bridge,
    space: Space,
) -> Result<(), OutOfMemory>
    // those of the levels behind it stand beside one another
    requires { AreLineRows lines.now }
    ensures added { OnOk result ((q : Request) (b : Function) (class : WindowKind)
        → AreLines q.roots q.told.ranges lines.now
        → secondary b ≡ bridge.now.secondary → subordinate b ≡ bridge.now.subordinate
        → window_space class ≡ space_of space
        → AreAdded out.old.items out.new.items (lines_behind q (window_part class b))) }
    // so places can be looked for between them
    ensures forward { OnOk result (AreForwardRanges out.old.items → AreForwardRanges out.new.items) }
{
    if lines.is_empty() {
        return Ok(());
    }
    let first = bridge.secondary;
    let last = bridge.subordinate;
    add_roots(out, lines, first, last, space)?;
    add_levels(out, lines, first as u16 + 1, last as u16 + 1, space)?;
    Ok(())
}

/// Whether a line keeps what a function has on its level and in a space off a range.
fn keeps_off(line: &Line, level: u16, slot: Slot, space: Space, range: Range) -> bool
    ensures { result ≡ line_keeps_off level slot (space_of space) (decoded_range_of range) line.now }
{
    line.level == level
        && is_in(line, space)
        && !(line.held && line.slot == slot)
        && !are_apart(line.range, range)
}

/// Whether no row keeps what a function has on its level and in a space off a range.
fn are_off(rows: &[Line], level: u16, slot: Slot, space: Space, range: Range) -> bool
    ensures { result ≡ list_all
        (λ l. not (line_keeps_off level slot (space_of space) (decoded_range_of range) l)) rows.now }
{
    rows.iter()
        .all(|line| !keeps_off(line, level, slot, space, range))
}

/// Whether no line keeps what a function has in a space on its bus off a range: a held line of its own slot doesn't.
pub fn is_off_lines(lines: &[Line], level: u16, slot: Slot, space: Space, range: Range) -> bool
    // those of a level are found by halving
    requires { AreLineRows lines.now }
    ensures { (q : Request) → AreLines q.roots q.told.ranges lines.now → level ≡ level_of q.roots slot.bus
        → result ≡ list_all (λ x. not (keeps_off q x slot (space_of space) (decoded_range_of range))) (told_regions q.told) }
{
    are_off(rows_between(lines, level, level), level, slot, space, range)
}
