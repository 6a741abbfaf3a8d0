//! The lines of told ranges.
ghost use Rattle.std.specs.Prelude.{◌≡◌, ◌<◌, ◌++◌, [], ◌∷◌, IsTrue, OnOk};
ghost use Rattle.std.specs.List.{All};
ghost use Rattle.std.specs.String.{string_bytes};
ghost use Rattle.pci_spec.specs.Listing.{words, inner_line};
ghost use Rattle.pci_spec.specs.Why.{space_words};
ghost use Rattle.judge_spec.specs.Told.{IsToldRange, is_name_byte};
ghost use Rattle.judge_spec.specs.ToldLine.{register_text};
ghost use Rattle.judge_spec.specs.ToldRegion.{mark_word, name_words, told_words};
ghost use Rattle.pci_base.specs.Space.{space_of};
ghost use Rattle.pci_dump.specs.ToldMarks.{mark_of};
ghost use Rattle.pci_why.specs.Lines.{spaced};

use super::judged::TOLD_FROM;
use super::region_line::push_extent;
use pci_base::range::Range;
use pci_base::space::Space;
use pci_dump::told_range::{Mark, ToldRange};
use pci_listing::hex_text::{end_line, push_byte, push_slot};
use std::alloc::{AllocError, Allocator};
use std::fmt::Write;

/// Appends a register, or `+` and the line of a told range.
fn push_register<A: Allocator>(text: &mut String<A>, register: u16) -> Result<(), AllocError>
    ensures { OnOk result (string_bytes text.new ≡ string_bytes text.old ++ register_text register) }
{
    if register < TOLD_FROM {
        push_byte(text, register as u8)
    } else {
        let line = register - 255;
        write!(text, "+{line}")
    }
}

/// What the mark of a range is called.
fn mark_name(mark: Mark) -> &'static str
    ensures { result.now ≡ mark_word (mark_of mark) }
{
    match mark {
        Mark::Command | Mark::Always => "told",
        Mark::Held => "held",
    }
}

/// The space of a range.
fn space_name(space: Space, prefetchable: bool) -> &'static str
    ensures { result.now ≡ space_words (space_of space) prefetchable }
{
    match (space, prefetchable) {
        (Space::Io, _) => "io",
        (Space::Mem, false) => "mem",
        (Space::Mem, true) => "mem pref",
    }
}

/// Appends a byte of ASCII.
fn push_ascii<A: Allocator>(text: &mut String<A>, byte: u8) -> Result<(), AllocError>
    // others are more than one byte in UTF-8
    requires { byte < 128 }
    ensures { OnOk result (string_bytes text.new ≡ string_bytes text.old ++ byte ∷ []) }
{
    text.push(char::from(byte))
}

/// Appends the bytes of a name.
fn push_bytes<A: Allocator>(text: &mut String<A>, bytes: &[u8]) -> Result<(), AllocError>
    requires { All (λ c. IsTrue (is_name_byte c)) bytes.now }
    ensures { OnOk result (string_bytes text.new ≡ string_bytes text.old ++ bytes.now) }
{
    for byte in bytes {
        push_ascii(text, *byte)?;
    }
    Ok(())
}

/// Appends a name behind a space, where there is one.
fn push_name<A: Allocator>(text: &mut String<A>, name: &[u8]) -> Result<(), AllocError>
    requires { All (λ c. IsTrue (is_name_byte c)) name.now }
    ensures { OnOk result
        (string_bytes text.new ≡ string_bytes text.old ++ spaced (name_words name.now)) }
{
    if name.is_empty() {
        return Ok(());
    }
    text.push_str(" ")?;
    push_bytes(text, name)
}

/// Appends a told range behind a space, and ends the line, as ` 01:00.0 +1 told mem 00000000e0000000-00000000e001ffff 128K vf0`.
pub fn push_told<A: Allocator>(
    text: &mut String<A>,
    register: u16,
    range: &ToldRange,
) -> Result<(), AllocError>
    // the line tells how many addresses the range has, and its name
    requires { IsToldRange range.now }
    ensures { OnOk result (string_bytes text.new ≡ string_bytes text.old
        ++ words (told_words record { register = register; told = range.now })) }
{
    text.push_str(" ")?;
    push_slot(text, range.slot)?;
    text.push_str(" ")?;
    push_register(text, register)?;
    text.push_str(" ")?;
    text.push_str(mark_name(range.mark))?;
    text.push_str(" ")?;
    text.push_str(space_name(range.space, range.prefetchable))?;
    let extent = Range {
        first: range.first,
        last: range.last,
    };
    push_extent(text, range.space, extent, "")?;
    push_name(text, range.name.as_slice())?;
    end_line(text)
}

/// Appends the line of a told range, as `needs 01:00.0 +1 told mem 00000000e0000000-00000000e001ffff 128K vf0`.
pub fn push_told_line<A: Allocator>(
    text: &mut String<A>,
    word: &'static str,
    register: u16,
    range: &ToldRange,
) -> Result<(), AllocError>
    // the line tells how many addresses the range has, and its name
    requires { IsToldRange range.now }
    ensures { OnOk result (string_bytes text.new ≡ string_bytes text.old
        ++ inner_line (word.now ∷ told_words record { register = register; told = range.now })) }
{
    text.push_str("  ")?;
    text.push_str(word)?;
    push_told(text, register, range)
}
