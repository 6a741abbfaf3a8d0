//! The lines of a region, and of ranges in it.
ghost use Rattle.std.specs.Prelude.{◌≡◌, ◌≤◌, ◌++◌, OnOk};
ghost use Rattle.std.specs.String.{string_bytes};
ghost use Rattle.pci_spec.specs.Why.{extent_words, place_words, range_line};
ghost use Rattle.pci_base.specs.Ranges.{decoded_range_of};
ghost use Rattle.pci_base.specs.Space.{space_of};
ghost use Rattle.pci_why.specs.RegionLines.{bar_words, window_at, part_words, line_ended, isa_words_at, given_line_of};
ghost use Rattle.pci_spec.specs.Listing.{words};
ghost use Rattle.pci_claims.specs.Values.{code_given_value};
ghost use Rattle.pci_why.specs.Lines.{ended};

use super::isa::window_end;
use pci_base::offset::{IO_BASE, MEMORY_BASE};
use pci_base::range::Range;
use pci_base::slot::Slot;
use pci_base::space::Space;
use pci_claims::given::Given;
use pci_listing::amount::push_amount;
use pci_listing::hex_text::{push_byte, push_slot};
use pci_listing::listing::span::Span;
use pci_tree::region::{Part, Region};
use std::alloc::{AllocError, Allocator};

/// Where a region of a function stands.
#[derive(Clone, Copy, Debug, PartialEq, Eq)]
pub struct RegionPlace {
    pub slot: Slot,
    /// The byte offset of its register.
    pub reg: u8,
    pub space: Space,
}

/// What a BAR is of.
pub fn bar_name(space: Space, prefetch: bool) -> &'static str
    ensures { result.now ≡ bar_words (space_of space) prefetch }
{
    match (space, prefetch) {
        (Space::Io, _) => "bar io",
        (Space::Mem, false) => "bar mem",
        (Space::Mem, true) => "bar mem pref",
    }
}

/// What a window at a register is of.
fn window_name(reg: u8) -> &'static str
    ensures { result.now ≡ window_at reg }
{
    match reg {
        IO_BASE => "window io",
        MEMORY_BASE => "window mem",
        _ => "window mem pref",
    }
}

/// What a region of a space is.
fn part_name(region: &Region, space: Space) -> &'static str
    ensures { result.now ≡ part_words region.now (space_of space) }
{
    match region.part {
        Part::Bar => bar_name(space, region.prefetch),
        Part::Rom => "rom mem",
        Part::Window => window_name(region.reg),
    }
}

/// Appends a range with its number of addresses, and what ends the line.
pub fn push_extent<A: Allocator>(
    text: &mut String<A>,
    space: Space,
    range: Range,
    end: &'static str,
) -> Result<(), AllocError>
    // else it has no number of addresses to tell
    requires { range.first ≤ range.last }
    ensures { OnOk result (string_bytes text.new
        ≡ string_bytes text.old
        ++ ended (extent_words (space_of space) (decoded_range_of range)) end.now) }
{
    text.push_str(" ")?;
    let span = Span { space, range };
    span.push_to(text)?;
    text.push_str(" ")?;
    push_amount(text, range)?;
    text.push_str(end)
}

/// Appends a region by its slot, its register and what it is, with its addresses, and what ends the line.
pub fn push_place<A: Allocator>(
    text: &mut String<A>,
    place: RegionPlace,
    part: &'static str,
    range: Range,
    end: &'static str,
) -> Result<(), AllocError>
    // the line tells how many addresses the range has
    requires { range.first ≤ range.last }
    ensures { OnOk result (string_bytes text.new ≡ string_bytes text.old
        ++ ended (place_words place.slot place.reg part.now (space_of place.space) (decoded_range_of range))
        end.now) }
{
    text.push_str(" ")?;
    push_slot(text, place.slot)?;
    text.push_str(" ")?;
    push_byte(text, place.reg)?;
    text.push_str(" ")?;
    text.push_str(part)?;
    push_extent(text, place.space, range, end)
}

/// Appends the line of a range, as `missed 00000000e0100000-00000000e01fffff 1M`.
pub fn push_range_line<A: Allocator>(
    text: &mut String<A>,
    word: &'static str,
    space: Space,
    range: Range,
) -> Result<(), AllocError>
    // the line tells how many addresses the range has
    requires { range.first ≤ range.last }
    ensures { OnOk result (string_bytes text.new ≡ string_bytes text.old
        ++ range_line word.now (space_of space) (decoded_range_of range)) }
{
    text.push_str("  ")?;
    text.push_str(word)?;
    push_extent(text, space, range, "\n")
}

/// Appends the line of a region, and what ends it.
fn push_region_ended<A: Allocator>(
    text: &mut String<A>,
    word: &'static str,
    space: Space,
    region: &Region,
    end: &'static str,
) -> Result<(), AllocError>
    // the line tells how many addresses the region has
    requires { region.now.first ≤ region.now.last }
    ensures { OnOk result (string_bytes text.new ≡ string_bytes text.old
        ++ line_ended word.now (space_of space) region.now end.now) }
{
    let range = Range {
        first: region.first,
        last: region.last,
    };
    let place = RegionPlace {
        slot: region.slot,
        reg: region.reg,
        space,
    };
    text.push_str("  ")?;
    text.push_str(word)?;
    let part = part_name(region, space);
    push_place(text, place, part, range, end)
}

/// What ends the line of a region: ` isa` stands behind the I/O window of a bridge with ISA Enable.
fn region_end(given: &Given<'_>, space: Space, region: &Region) -> &'static str
    ensures { result.now ≡ words (isa_words_at (code_given_value given.now) (space_of space) region.now) }
{
    match region.part {
        Part::Bar | Part::Rom => "\n",
        Part::Window => window_end(given, space, region.slot),
    }
}

/// Appends the line of a region, as `second 00:04.0 1c window io 00001000-00001fff 4K isa`.
pub fn push_given_line<A: Allocator>(
    text: &mut String<A>,
    given: &Given<'_>,
    word: &'static str,
    space: Space,
    region: &Region,
) -> Result<(), AllocError>
    // the line tells how many addresses the region has
    requires { region.now.first ≤ region.now.last }
    ensures { OnOk result (string_bytes text.new ≡ string_bytes text.old
        ++ given_line_of (code_given_value given.now) word.now (space_of space) region.now) }
{
    let end = region_end(given, space, region);
    push_region_ended(text, word, space, region, end)
}
