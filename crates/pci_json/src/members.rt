//! Members that several kinds of lines have.
ghost use Rattle.std.specs.Prelude.{◌≡◌, ◌<◌, ◌++◌, OnOk};
ghost use Rattle.json.specs.Tree.{json_tokens};
ghost use Rattle.pci_json.specs.Members.{with_members, with_items, digits_before_dash, digits_behind_dash, is_line, also_line_number, register_or_line, slot_register_members, flag_member, name_member, is_told, end_member, last_address, range_members, range_object, opening, range_objects};

use crate::lines::{behind, cut, is_word, split_at_first, split_word, value, word};
use crate::output::Output;
use std::alloc::{AllocError, Allocator};

/// Whether a region's name is the number of a line, behind a plus.
fn is_line(name: &str) -> bool
    ensures { result ≡ is_line name.now }
{
    !name.is_empty() && name.as_bytes()[0] == b'+'
}

/// The number of a line that stands behind a plus.
fn line_number(name: &str) -> u64
    ensures { result ≡ also_line_number name.now }
{
    value(split_at_first(name, b'+').1, 10)
}

/// The register of a region, or the line of a told range.
fn push_register_or_line<A: Allocator>(out: &mut Output<A>, name: &str) -> Result<(), AllocError>
    ensures { OnOk result (out.new ≡ with_members out.old (register_or_line name.now)) }
{
    if is_line(name) {
        return out.number("line", line_number(name));
    }
    out.hex("register", name)
}

/// The slot that is this word, and the register or the line behind it.
pub fn push_slot_and_register<A: Allocator>(
    out: &mut Output<A>,
    line: &str,
    n: usize,
) -> Result<(), AllocError>
    requires { n < 1000 }
    ensures { OnOk result (out.new ≡ with_members out.old (slot_register_members n line.now)) }
{
    let (slot, rest) = split_word(behind(line, n));
    out.text("slot", slot)?;
    push_register_or_line(out, word(rest, 0))
}

/// A member that is true, where this word of a line is its name.
pub fn push_flag<A: Allocator>(
    out: &mut Output<A>,
    line: &str,
    n: usize,
    name: &str,
) -> Result<(), AllocError>
    requires { n < 1000 }
    ensures { OnOk result (out.new ≡ with_members out.old (flag_member name.now n line.now)) }
{
    if is_word(line, n, name) {
        return out.boolean(name, true);
    }
    Ok(())
}

/// The name of a told range, where its line has this word.
fn push_name<A: Allocator>(out: &mut Output<A>, line: &str, n: usize) -> Result<(), AllocError>
    requires { n < 1000 }
    ensures { OnOk result (out.new ≡ with_members out.old (name_member n line.now)) }
{
    if is_word(line, n, "") {
        return Ok(());
    }
    out.text("name", word(line, n))
}

/// Whether this word is the part of a told range.
fn is_told(line: &str, n: usize) -> bool
    ensures { result ≡ is_told n line.now }
{
    is_word(line, n, "told") || is_word(line, n, "held")
}

/// What stands at the end of a region's line, of the places of its part and of its end.
pub fn push_end<A: Allocator>(
    out: &mut Output<A>,
    line: &str,
    part: usize,
    n: usize,
) -> Result<(), AllocError>
    requires { n < 1000 }
    ensures { OnOk result (out.new ≡ with_members out.old (end_member part n line.now)) }
{
    if is_told(line, part) {
        push_name(out, line, n)
    } else {
        push_flag(out, line, n, "isa")
    }
}

/// What stands before and behind the dash of a range.
pub fn ends_of(range: &str) -> (&str, &str)
    ensures first { result.0.now ≡ digits_before_dash range.now }
    ensures last { result.1.now ≡ digits_behind_dash range.now }
{
    split_at_first(range, b'-')
}

/// The last address of a range, of what stands before and behind its dash. An address alone is the last one, too.
fn last_address<'a>(first: &'a str, behind: &'a str) -> &'a str
    ensures { result.now ≡ last_address first.now behind.now }
{
    if behind.is_empty() { first } else { behind }
}

/// A range's first and last address, and how many they are.
pub fn push_range<A: Allocator>(out: &mut Output<A>, range: &str) -> Result<(), AllocError>
    ensures { OnOk result (out.new ≡ with_members out.old (range_members range.now)) }
{
    let (first, behind) = ends_of(range);
    let last = last_address(first, behind);
    let less = value(last, 16).saturating_sub(value(first, 16));
    out.hex("first", first)?;
    out.hex("last", last)?;
    out.count("size", less)
}

/// A range, as an object.
pub fn push_range_object<A: Allocator>(out: &mut Output<A>, range: &str) -> Result<(), AllocError>
    ensures { OnOk result (out.new ≡ out.old ++ json_tokens (range_object range.now)) }
{
    out.begin_object()?;
    push_range(out, range)?;
    out.end_object()
}

/// A range, or the word that stands in its place.
pub fn push_opening<A: Allocator>(out: &mut Output<A>, range: &str) -> Result<(), AllocError>
    ensures { OnOk result (out.new ≡ out.old ++ json_tokens (opening range.now)) }
{
    if ends_of(range).1.is_empty() {
        out.string(range)
    } else {
        push_range_object(out, range)
    }
}

/// The ranges that stand in a text with this byte between them.
pub fn push_ranges<A: Allocator>(out: &mut Output<A>, text: &str, end: u8) -> Result<(), AllocError>
    requires { end < 128 }
    ensures { OnOk result (out.new ≡ with_items out.old (range_objects end text.now)) }
{
    let mut rest = text;
    while !rest.is_empty() {
        let (range, more) = cut(rest, end);
        push_range_object(out, range)?;
        rest = more;
    }
    Ok(())
}
