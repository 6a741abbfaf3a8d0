//! The regions of a map.
ghost use Rattle.std.specs.Prelude.{◌≡◌, ◌<◌, ◌≤◌, ◌+◌, ◌^◌, ℕ, length, OnOk, IfOk};
ghost use Rattle.pci_json.specs.Lines.{lines_of_text};
ghost use Rattle.pci_json.specs.Members.{with_members, with_items};
ghost use Rattle.pci_json.specs.Listings.{free_members, end_place, sits_members, is_unclaimed_line, taking_members, outer_members, has_inside, inside_members, root_members};
ghost use Rattle.pci_json.specs.Documents.{place_on_line, place_objects, root_of, bus_objects, behind_heading, aside_of, is_heading};

use crate::lines::{behind, content, cut, depth_of, is_inner, is_word, split_word, word};
use crate::listing::push_kind;
use crate::members::{push_end, push_range};
use crate::output::Output;
use std::alloc::{AllocError, Allocator};

/// A free run.
fn push_free<A: Allocator>(out: &mut Output<A>, line: &str) -> Result<(), AllocError>
    ensures { OnOk result (out.new ≡ with_members out.old (free_members line.now)) }
{
    out.text("part", "free")?;
    push_range(out, word(line, 0))
}

/// Where the end of a region's line stands, of what stands there from the part on.
fn end_place(part: &str) -> usize
    ensures value { result ≡ end_place part.now }
    ensures small { result < 5 }
{
    if is_word(part, 1, "pref") { 4 } else { 3 }
}

/// The members of a region, but what is inside it, of its line and what stands there from the part on.
fn push_sits<A: Allocator>(out: &mut Output<A>, line: &str, part: &str) -> Result<(), AllocError>
    ensures { OnOk result (out.new ≡ with_members out.old (sits_members line.now part.now)) }
{
    let (name, rest) = split_word(part);
    out.text("part", name)?;
    push_kind(out, rest)?;
    push_range(out, word(line, 0))?;
    push_end(out, part, 0, end_place(part))
}

/// Whether a line is of a bridge that takes what no region of its bus claims.
fn is_taking(line: &str) -> bool
    ensures { result ≡ is_unclaimed_line line.now }
{
    is_word(line, 0, "unclaimed")
}

/// The members of such a bridge, but what it takes.
fn push_taking<A: Allocator>(out: &mut Output<A>, line: &str) -> Result<(), AllocError>
    ensures { OnOk result (out.new ≡ with_members out.old (taking_members line.now)) }
{
    out.text("part", "unclaimed")?;
    out.text("slot", word(line, 1))
}

/// The members of a line of a map, but what is inside it.
fn push_place<A: Allocator>(out: &mut Output<A>, line: &str) -> Result<(), AllocError>
    ensures { OnOk result (out.new ≡ with_members out.old (outer_members line.now)) }
{
    if is_taking(line) {
        return push_taking(out, line);
    }
    let part = behind(line, 2);
    if is_word(part, 0, "free") {
        push_free(out, line)
    } else {
        push_sits(out, line, part)
    }
}

/// The regions at this depth, up to the first line above it, and the text from that line on.
#[cycle(places)]
pub fn push_places<'a, A: Allocator>(
    out: &mut Output<A>,
    text: &'a str,
    depth: usize,
) -> Result<&'a str, AllocError>
    ensures written { OnOk result (out.new
        ≡ with_items out.old (place_objects depth (lines_of_text text.now))) }
    // what was passed over stands at this depth or deeper
    ensures rest { IfOk result (λ rest. (above : ℕ) → above < depth
        → place_objects above (lines_of_text rest.now) ≡ place_objects above (lines_of_text text.now)) }
    ensures shorter { IfOk result (λ rest. length rest.now ≤ length text.now) }
{
    let mut rest = text;
    while !rest.is_empty() {
        let (line, more) = cut(rest, b'\n');
        if depth_of(line) < depth {
            return Ok(rest);
        }
        rest = push_here(out, line, more, depth)?;
    }
    Ok(rest)
}

/// The region of a line, if it stands at this depth, with what is inside, and the text behind that.
#[cycle(places)]
fn push_here<'a, A: Allocator>(
    out: &mut Output<A>,
    line: &str,
    text: &'a str,
    depth: usize,
) -> Result<&'a str, AllocError>
    ensures written { OnOk result (out.new ≡ with_items out.old (place_on_line depth line.now (place_objects (depth + 1) (lines_of_text text.now)))) }
    ensures rest { IfOk result (λ rest. (above : ℕ) → above ≤ depth
        → place_objects above (lines_of_text rest.now) ≡ place_objects above (lines_of_text text.now)) }
    ensures shorter { IfOk result (λ rest. length rest.now ≤ length text.now) }
{
    if depth_of(line) != depth {
        return Ok(text);
    }
    let line = content(line);
    out.begin_object()?;
    push_place(out, line)?;
    let rest = push_inside(out, line, text, depth)?;
    out.end_object()?;
    Ok(rest)
}

/// Whether a line is of a window, or of a bridge that takes what stands below it.
fn has_inside(line: &str) -> bool
    ensures { result ≡ has_inside line.now }
{
    is_taking(line) || is_word(line, 2, "window")
}

/// What stands inside, and the text behind that.
#[cycle(places)]
fn push_inside<'a, A: Allocator>(
    out: &mut Output<A>,
    line: &str,
    text: &'a str,
    depth: usize,
) -> Result<&'a str, AllocError>
    requires { depth < 2 ^ 63 }
    ensures written { OnOk result (out.new ≡ with_members out.old (inside_members line.now (place_objects (depth + 1) (lines_of_text text.now)))) }
    ensures rest { IfOk result (λ rest. (above : ℕ) → above ≤ depth
        → place_objects above (lines_of_text rest.now) ≡ place_objects above (lines_of_text text.now)) }
    ensures shorter { IfOk result (λ rest. length rest.now ≤ length text.now) }
{
    if !has_inside(line) {
        return Ok(text);
    }
    out.key("inside")?;
    out.begin_array()?;
    let rest = push_places(out, text, depth + 1)?;
    out.end_array()?;
    Ok(rest)
}

/// Whether a line isn't indented and begins with this word.
pub fn is_heading(line: &str, name: &str) -> bool
    ensures { result ≡ is_heading name.now line.now }
{
    !is_inner(line) && is_word(content(line), 0, name)
}

/// The members of a root bus and a space, of their heading and the text behind it.
fn push_root_members<A: Allocator>(
    out: &mut Output<A>,
    line: &str,
    text: &str,
) -> Result<(), AllocError>
    ensures { OnOk result (out.new
        ≡ with_members out.old (root_members line.now (place_objects 1 (lines_of_text text.now)))) }
{
    out.text("bus", word(line, 1))?;
    out.text("space", word(line, 2))?;
    out.key("regions")?;
    out.begin_array()?;
    push_places(out, text, 1)?;
    out.end_array()
}

/// The root bus and the space of a line, if it is such a heading, with the regions of the text behind it.
fn push_root<A: Allocator>(out: &mut Output<A>, line: &str, text: &str) -> Result<(), AllocError>
    ensures { OnOk result
        (out.new ≡ with_items out.old (root_of line.now (lines_of_text text.now))) }
{
    if !is_heading(line, "bus") {
        return Ok(());
    }
    out.begin_object()?;
    push_root_members(out, content(line), text)?;
    out.end_object()
}

/// The root buses of a map.
pub fn push_roots<A: Allocator>(out: &mut Output<A>, text: &str) -> Result<(), AllocError>
    ensures { OnOk result (out.new ≡ with_items out.old (bus_objects (lines_of_text text.now))) }
{
    let mut rest = text;
    while !rest.is_empty() {
        let (line, more) = cut(rest, b'\n');
        push_root(out, line, more)?;
        rest = more;
    }
    Ok(())
}

/// The text behind the first heading that begins with this word, or no text.
fn behind_heading<'a>(text: &'a str, name: &str) -> &'a str
    ensures { lines_of_text result.now ≡ behind_heading name.now (lines_of_text text.now) }
{
    let mut rest = text;
    while !rest.is_empty() {
        let (line, more) = cut(rest, b'\n');
        if is_heading(line, name) {
            return more;
        }
        rest = more;
    }
    rest
}

/// The regions below the first such heading.
pub fn push_aside<A: Allocator>(
    out: &mut Output<A>,
    text: &str,
    name: &str,
) -> Result<(), AllocError>
    ensures { OnOk result (out.new
        ≡ with_items out.old (aside_of name.now (lines_of_text text.now))) }
{
    push_places(out, behind_heading(text, name), 1)?;
    Ok(())
}
