//! A window among what is beside it on its bus: parts that stand there, and what told ranges hold where they can keep it off.
ghost use Rattle.std.specs.Prelude.{◌≡◌, ℕ, ◌<◌, ◌≤◌, Bool, IsTrue, IfSome, List, length, slice_index_or};
ghost use Rattle.std.specs.List.{AllWithin, filter};
ghost use Rattle.std.specs.Option.{option_map};
ghost use Rattle.std.specs.List.Sorted.{IsNonDecreasingBy};
ghost use Rattle.pci_spec.specs.Decoded.{Range as DecodedRange};
ghost use Rattle.judge_spec.specs.Told.{ToldRange as RangeValue};
ghost use Rattle.settle_spec.specs.Parts.{are_same_space};
ghost use Rattle.pci_base.specs.Ranges.{decoded_range_of};
ghost use Rattle.pci_base.specs.Space.{space_of};
ghost use Rattle.pci_first_fit.specs.Lines.{line_level};
ghost use Rattle.pci_grow.specs.Rooms.{IsNearestBelow, IsNearestAbove};
ghost use Rattle.pci_grow.specs.Rows.{region_row_number, AreApartInRows, AreOtherRangesOfRow};
ghost use Rattle.pci_grow.specs.OffLines.{ending_later, beginning_sooner, part_before, part_behind, pieces, line_keeps_slot_off, row_pieces, rows_beside, HaveRanges, IsAmongAlso};

use crate::beside::{before, behind};
use pci_base::range::Range;
use pci_base::slot::Slot;
use pci_base::space::Space;
use pci_dump::told_range::ToldRange;
use pci_first_fit::lines::Line;
use pci_kept::region::Region;

/// The one of two ranges that ends later.
fn ending_later(one: Option<Range>, other: Option<Range>) -> Option<Range>
    ensures value { option_map decoded_range_of result
        ≡ ending_later (option_map decoded_range_of one) (option_map decoded_range_of other) }
    ensures bound { (n : ℕ) → IfSome one (λ r. r.last < n) → IfSome other (λ r. r.last < n)
        → IfSome result (λ r. r.last < n) }
{
    match (one, other) {
        (None, other) => other,
        (Some(one), None) => Some(one),
        (Some(one), Some(other)) => {
            if one.last < other.last {
                Some(other)
            } else {
                Some(one)
            }
        }
    }
}

/// The one of two ranges that begins sooner.
fn beginning_sooner(one: Option<Range>, other: Option<Range>) -> Option<Range>
    ensures { option_map decoded_range_of result
        ≡ beginning_sooner (option_map decoded_range_of one) (option_map decoded_range_of other) }
{
    match (one, other) {
        (None, other) => other,
        (Some(one), None) => Some(one),
        (Some(one), Some(other)) => {
            if other.first < one.first {
                Some(other)
            } else {
                Some(one)
            }
        }
    }
}

/// What a range has before a window.
fn part_before(window: Range, range: Range) -> Option<Range>
    ensures value { option_map decoded_range_of result
        ≡ part_before (decoded_range_of window) (decoded_range_of range) }
    ensures bound { IfSome result (λ r. r.last < window.first) }
{
    if range.first < window.first {
        Some(Range {
            first: range.first,
            last: range.last.min(window.first - 1),
        })
    } else {
        None
    }
}

/// What a range has behind a window.
fn part_behind(window: Range, range: Range) -> Option<Range>
    ensures { option_map decoded_range_of result
        ≡ part_behind (decoded_range_of window) (decoded_range_of range) }
{
    if window.last < range.last {
        Some(Range {
            first: range.first.max(window.last + 1),
            last: range.last,
        })
    } else {
        None
    }
}

/// Whether two spaces are one.
fn is_same(space: Space, other: Space) -> bool
    ensures { result ≡ are_same_space (space_of space) (space_of other) }
{
    match space {
        Space::Io => other == Space::Io,
        Space::Mem => other == Space::Mem,
    }
}

/// Whether a told range can keep a part off: it is on the part's bus in its space, and no held range of its own slot.
fn keeps_off(told: &[ToldRange], line: &Line, region: &Region, slot: Slot) -> bool
    requires { line.now.index < length told.now }
    ensures { result
        ≡ line_keeps_slot_off told.now slot region.now.level (space_of region.now.space) line.now }
{
    let range = &told[line.index];
    line.level == region.level
        && is_same(region.space, line.space)
        && !(range.is_held() && range.slot == slot)
}

/// The index of the first told range on a level or a higher one.
fn first_from(lines: &[Line], level: u32) -> usize
    requires { IsNonDecreasingBy line_level lines.now }
    ensures bound { result ≤ length lines.now }
    ensures before { AllWithin (λ l. l.level < level) lines.now 0 result }
    ensures after { AllWithin (λ l. level ≤ l.level) lines.now result (length lines.now) }
{
    lines.partition_point(|line| u32::from(line.level) < level)
}

/// The told ranges on a level, which stand beside one another.
fn on_level(lines: &[Line], level: u16) -> &[Line]
    // their ends are found by halving
    requires { IsNonDecreasingBy line_level lines.now }
    ensures same { (p : Line → Bool) → ((l : Line) → IsTrue (p l) → l.level ≡ level)
        → filter p result.now ≡ filter p lines.now }
    ensures ranges { (told : List RangeValue) → HaveRanges told lines.now → HaveRanges told result.now }
{
    let first = first_from(lines, level as u32);
    let end = first_from(lines, level as u32 + 1);
    if end < first {
        return &[];
    }
    &lines[first..end]
}

/// A window and the nearest of what is beside it.
#[derive(Clone, Copy, Debug)]
pub struct Among {
    pub window: Range,
    pub before: Option<Range>,
    pub behind: Option<Range>,
}

impl Among {
    /// The same beside one more range.
    fn beside(self, range: Range) -> Among
        ensures { IsAmongAlso (decoded_range_of self.window) self result
            (pieces (decoded_range_of self.window) (decoded_range_of range)) }
    {
        Among {
            window: self.window,
            before: ending_later(part_before(self.window, range), self.before),
            behind: beginning_sooner(part_behind(self.window, range), self.behind),
        }
    }

    /// The same beside a told range, where that can keep the window off.
    fn beside_line(self, told: &[ToldRange], line: &Line, region: &Region, slot: Slot) -> Among
        requires { line.now.index < length told.now }
        ensures { (w : DecodedRange) → w ≡ decoded_range_of self.window → IsAmongAlso w self result
            (row_pieces told.now slot region.now.level (space_of region.now.space) w line.now) }
    {
        if keeps_off(told, line, region, slot) {
            return self.beside(line.range);
        }
        self
    }

    /// The same beside what told ranges hold that can keep the window off.
    pub fn beside_lines(
        self,
        told: &[ToldRange],
        lines: &[Line],
        region: &Region,
        slot: Slot,
    ) -> Among
        // those of a level are found by halving
        requires order { IsNonDecreasingBy line_level lines.now }
        requires ranges { HaveRanges told.now lines.now }
        ensures { IsAmongAlso (decoded_range_of self.window) self result
            (rows_beside told.now slot region.now.level (space_of region.now.space)
            (decoded_range_of self.window) lines.now) }
    {
        let mut among = self;
        for line in on_level(lines, region.level) {
            among = among.beside_line(told, line, region, slot);
        }
        among
    }
}

/// A part and those next to it in its row.
pub fn with_neighbours(rows: &[Region], index: usize) -> Among
    requires index { index < length rows.now }
    // those of a row follow one another
    requires order { IsNonDecreasingBy region_row_number rows.now }
    ensures window { (d : Region) → result.window ≡ (slice_index_or rows.now index d).range }
    // what ends before it isn't at the end of 64 bits
    ensures apart { AreApartInRows rows.now
        → IfSome result.before (λ other. other.last < result.window.first) }
    ensures below { (beside : List DecodedRange) → AreApartInRows rows.now
        → AreOtherRangesOfRow rows.now index beside
        → IsNearestBelow (decoded_range_of result.window) beside
        (option_map decoded_range_of result.before) }
    ensures above { (beside : List DecodedRange) → AreApartInRows rows.now
        → AreOtherRangesOfRow rows.now index beside
        → IsNearestAbove (decoded_range_of result.window) beside
        (option_map decoded_range_of result.behind) }
{
    Among {
        window: rows[index].range,
        before: before(rows, index),
        behind: behind(rows, index),
    }
}
