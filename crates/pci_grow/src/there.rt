//! What is there where windows grow: what holds as it stands, and windows that take with what they come to.
ghost use Rattle.std.specs.Prelude.{◌≡◌, ◌+◌, ◌<◌, ◌^◌, min, max, IfOk, length};
ghost use Rattle.std.specs.List.{All};
ghost use Rattle.std.specs.List.Sorted.{IsNonDecreasingBy};
ghost use Rattle.pci_base.specs.WindowKinds.{kind_value};
ghost use Rattle.pci_first_fit.specs.Turns.{HasExtent};
ghost use Rattle.pci_grow.specs.Arounds.{AreEndingAll};
ghost use Rattle.pci_grow.specs.Rows.{region_row_number};
ghost use Rattle.pci_grow.specs.There.{tables_of, grown_window_range, range_told, class_told, there_of, there_of_class, in_row, holding, placed_ranges, is_past, later_range_end};

use crate::beside::first_from;
use pci_base::memory::OutOfMemory;
use pci_base::range::Range;
use pci_base::window_kind::WindowKind;
use pci_first_fit::bus::kept_by;
use pci_first_fit::item::Item;
use pci_first_fit::kept::{Kept, Part};
use pci_first_fit::place::Places;
use pci_first_fit::table::{WindowRanges, told_of};
use pci_kept::region::Region;
use std::alloc::Allocator;

/// What is there, by function in slot order.
#[derive(Drop)]
pub struct There<A: Allocator> {
    pub kept: Vec<Kept, A>,
    /// What each window that takes comes to.
    pub grown: Vec<WindowRanges, A>,
    /// The places of what is placed around windows that take.
    pub places: Vec<Places, A>,
}

/// What a window has come to.
fn grown_of(grown: &[WindowRanges], region: &Region) -> Option<Range>
    ensures { result ≡ grown_window_range grown.now region.now.function region.now.part }
{
    match region.part {
        Part::Window(class) => told_of(grown, region.function, class),
        _ => None,
    }
}

impl<A: Allocator> There<A> {
    /// The addresses with which a part is there.
    pub fn range_of(&self, region: &Region) -> Option<Range>
        ensures { result ≡ range_told (tables_of self.now) region.now }
    {
        if let Some(grown) = grown_of(self.grown.as_slice(), region) {
            return Some(grown);
        }
        if kept_by(self.kept.as_slice(), region.function).keeps(region.part) {
            Some(region.range)
        } else {
            None
        }
    }

    /// The same of a part of a class.
    fn range_in(&self, class: WindowKind, region: &Region) -> Option<Range>
        ensures { result ≡ class_told (kind_value class) (tables_of self.now) region.now }
    {
        if region.class == class {
            self.range_of(region)
        } else {
            None
        }
    }
}

/// The parts of a row.
pub fn in_row(rows: &[Region], number: u32) -> &[Region]
    requires order { IsNonDecreasingBy region_row_number rows.now }
    // another row is behind it
    requires number { number + 1 < 2 ^ 32 }
    ensures { result.now ≡ in_row number rows.now }
{
    let first = first_from(rows, number);
    let end = first_from(rows, number + 1);
    &rows[first..end]
}

/// The addresses of what is there in a row.
pub fn there_in<A: Allocator>(
    alloc: A,
    row: &[Region],
    there: &There<A>,
) -> Result<Vec<Range, A>, OutOfMemory>
    ensures { IfOk result (λ taken. taken.items ≡ there_of (tables_of there.now) row.now) }
{
    let mut taken = Vec::new(alloc);
    for region in row {
        if let Some(range) = there.range_of(region) {
            taken.push(range)?;
        }
    }
    Ok(taken)
}

/// The least range that holds two.
fn around_both(one: Range, other: Range) -> Range
    ensures first { result.first ≡ min one.first other.first }
    ensures last { result.last ≡ max one.last other.last }
{
    Range {
        first: one.first.min(other.first),
        last: one.last.max(other.last),
    }
}

/// The least range that holds a window and what is there of its class in a row.
pub fn held_with<A: Allocator>(
    class: WindowKind,
    window: Range,
    row: &[Region],
    there: &There<A>,
) -> Range
    ensures { result ≡ holding window
        (there_of_class (kind_value class) (tables_of there.now) row.now) }
{
    let mut held = window;
    for region in row {
        if let Some(range) = there.range_in(class, region) {
            held = around_both(held, range);
        }
    }
    held
}

/// The least range that holds another and items at their places.
pub fn held_with_places(held: Range, items: &[Item], places: &[u64]) -> Range
    requires lawful { All HasExtent items.now }
    // an item's place stands at its index
    requires count { length places.now ≡ length items.now }
    // so the last address of each can be told
    requires ends { AreEndingAll items.now places.now (length items.now) }
    ensures { result ≡ holding held (placed_ranges items.now places.now) }
{
    let mut all = held;
    for index in 0..items.len() {
        let first = places[index];
        let last = first + (items[index].extent.size - 1);
        all = around_both(all, Range { first, last });
    }
    all
}

/// Whether a range begins behind an address, if there is one.
pub fn is_past(end: Option<u64>, range: Range) -> bool
    ensures { result ≡ is_past end range }
{
    match end {
        Some(end) => end < range.first,
        None => true,
    }
}

/// The later of the ends of two ranges, where there are any.
pub fn later(end: Option<u64>, range: Option<Range>) -> Option<u64>
    ensures { result ≡ later_range_end end range }
{
    match (end, range) {
        (end, None) => end,
        (None, Some(range)) => Some(range.last),
        (Some(end), Some(range)) => Some(end.max(range.last)),
    }
}
