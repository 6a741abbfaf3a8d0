//! The lines behind a line, and the object that they make with it.
ghost use Rattle.std.specs.Prelude.{◌≡◌, ◌++◌, [], ◌∷◌, codes, OnOk};
ghost use Rattle.json.specs.Tree.{json_tokens};
ghost use Rattle.pci_json.specs.Lines.{lines_of_text, word};
ghost use Rattle.pci_json.specs.Reasons.{claim_members, bridge_members};
ghost use Rattle.pci_json.specs.Listings.{rom_members, bus_members};
ghost use Rattle.pci_json.specs.Members.{with_members, with_items, object_of};
ghost use Rattle.pci_json.specs.Groups.{inner_of, has_any, kind_word, list_name, item_members, item_on_line, items_of_kind, has_listed, list_member, optional_list, single_members, singles, why_members, why_member, fault_object, function_members, function_object};

use crate::faults::push_fault;
use crate::lines::{content, cut, is_inner, is_word, word};
use crate::listing::{push_bar, push_buses, push_capability, push_header, push_rom, push_window};
use crate::members::push_range;
use crate::output::Output;
use crate::reasons::{push_bridge, push_claim, push_fits, push_host};
use std::alloc::{AllocError, Allocator};

/// The lines of which an object has a list.
#[derive(Clone, Copy)]
pub enum Kind {
    /// Addresses that a bridge doesn't pass.
    Missed,
    /// Addresses of two regions.
    Shared,
    /// A function's BARs.
    Bar,
    /// A bridge's windows.
    Window,
    /// A function's capabilities.
    Capability,
}

/// The first word of such a line.
fn kind_word(kind: Kind) -> &'static str
    ensures { result.now ≡ kind_word kind }
{
    match kind {
        Kind::Missed => "missed",
        Kind::Shared => "shared",
        Kind::Bar => "bar",
        Kind::Window => "window",
        Kind::Capability => "cap",
    }
}

/// The name of the list.
fn list_name(kind: Kind) -> &'static str
    ensures { result.now ≡ list_name kind }
{
    match kind {
        Kind::Missed => "missed",
        Kind::Shared => "shared",
        Kind::Bar => "bars",
        Kind::Window => "windows",
        Kind::Capability => "capabilities",
    }
}

/// The members of an item of the list.
fn push_item_members<A: Allocator>(
    out: &mut Output<A>,
    kind: Kind,
    line: &str,
) -> Result<(), AllocError>
    ensures { OnOk result (out.new ≡ with_members out.old (item_members kind line.now)) }
{
    match kind {
        Kind::Missed | Kind::Shared => push_range(out, word(line, 1)),
        Kind::Bar => push_bar(out, line),
        Kind::Window => push_window(out, line),
        Kind::Capability => push_capability(out, line),
    }
}

/// The item of a line, if it is of that kind.
fn push_item<A: Allocator>(out: &mut Output<A>, kind: Kind, line: &str) -> Result<(), AllocError>
    ensures { OnOk result (out.new ≡ with_items out.old (item_on_line kind line.now)) }
{
    if !is_word(line, 0, kind_word(kind)) {
        return Ok(());
    }
    out.begin_object()?;
    push_item_members(out, kind, line)?;
    out.end_object()
}

/// The items that the indented lines at the start of a text have.
fn push_listed<A: Allocator>(out: &mut Output<A>, kind: Kind, text: &str) -> Result<(), AllocError>
    ensures { OnOk result (out.new
        ≡ with_items out.old (items_of_kind kind (inner_of (lines_of_text text.now)))) }
{
    let mut rest = text;
    while !rest.is_empty() {
        let (line, more) = cut(rest, b'\n');
        if !is_inner(line) {
            return Ok(());
        }
        push_item(out, kind, content(line))?;
        rest = more;
    }
    Ok(())
}

/// Whether the indented lines at the start of a text have an item.
fn has_listed(kind: Kind, text: &str) -> bool
    ensures { result ≡ has_listed kind (inner_of (lines_of_text text.now)) }
{
    let mut rest = text;
    while !rest.is_empty() {
        let (line, more) = cut(rest, b'\n');
        if !is_inner(line) {
            return false;
        }
        if is_word(content(line), 0, kind_word(kind)) {
            return true;
        }
        rest = more;
    }
    false
}

/// The list, also without an item.
fn push_list<A: Allocator>(out: &mut Output<A>, kind: Kind, text: &str) -> Result<(), AllocError>
    ensures { OnOk result (out.new
        ≡ with_members out.old (list_member kind (inner_of (lines_of_text text.now)))) }
{
    out.key(list_name(kind))?;
    out.begin_array()?;
    push_listed(out, kind, text)?;
    out.end_array()
}

/// The list, where it has an item.
fn push_optional_list<A: Allocator>(
    out: &mut Output<A>,
    kind: Kind,
    text: &str,
) -> Result<(), AllocError>
    ensures { OnOk result (out.new
        ≡ with_members out.old (optional_list kind (inner_of (lines_of_text text.now)))) }
{
    if has_listed(kind, text) {
        push_list(out, kind, text)
    } else {
        Ok(())
    }
}

/// The region of a line `needs`, `first` or `second`.
fn push_claim_member<A: Allocator>(out: &mut Output<A>, line: &str) -> Result<(), AllocError>
    ensures { OnOk result (out.new
        ≡ with_members out.old ((word 0 line.now, object_of (claim_members line.now)) ∷ [])) }
{
    out.key(word(line, 0))?;
    out.begin_object()?;
    push_claim(out, line)?;
    out.end_object()
}

/// The bridge that doesn't pass all of a region.
fn push_bridge_member<A: Allocator>(out: &mut Output<A>, line: &str) -> Result<(), AllocError>
    ensures { OnOk result (out.new
        ≡ with_members out.old ((codes "bridge", object_of (bridge_members line.now)) ∷ [])) }
{
    out.key("bridge")?;
    out.begin_object()?;
    push_bridge(out, line)?;
    out.end_object()
}

/// A function's ROM.
fn push_rom_member<A: Allocator>(out: &mut Output<A>, line: &str) -> Result<(), AllocError>
    ensures { OnOk result (out.new
        ≡ with_members out.old ((codes "rom", object_of (rom_members line.now)) ∷ [])) }
{
    out.key("rom")?;
    out.begin_object()?;
    push_rom(out, line)?;
    out.end_object()
}

/// The numbers of a bridge's buses.
fn push_bus_member<A: Allocator>(out: &mut Output<A>, line: &str) -> Result<(), AllocError>
    ensures { OnOk result (out.new
        ≡ with_members out.old ((codes "bus", object_of (bus_members line.now)) ∷ [])) }
{
    out.key("bus")?;
    out.begin_object()?;
    push_buses(out, line)?;
    out.end_object()
}

/// The member that a line is, if it is one.
fn push_single<A: Allocator>(out: &mut Output<A>, line: &str) -> Result<(), AllocError>
    ensures { OnOk result (out.new ≡ with_members out.old (single_members line.now)) }
{
    let name = word(line, 0);
    if name == "needs" || name == "first" || name == "second" {
        return push_claim_member(out, line);
    }
    if name == "bridge" {
        return push_bridge_member(out, line);
    }
    if name == "host" {
        out.key("host")?;
        return push_host(out, line);
    }
    if name == "fits" {
        out.key("fits")?;
        return push_fits(out, line);
    }
    if name == "rom" {
        return push_rom_member(out, line);
    }
    if name == "bus" {
        return push_bus_member(out, line);
    }
    Ok(())
}

/// The members that the indented lines at the start of a text are.
fn push_singles<A: Allocator>(out: &mut Output<A>, text: &str) -> Result<(), AllocError>
    ensures { OnOk result (out.new
        ≡ with_members out.old (singles (inner_of (lines_of_text text.now)))) }
{
    let mut rest = text;
    while !rest.is_empty() {
        let (line, more) = cut(rest, b'\n');
        if !is_inner(line) {
            return Ok(());
        }
        push_single(out, content(line))?;
        rest = more;
    }
    Ok(())
}

/// What is told of a fault.
fn push_why_members<A: Allocator>(out: &mut Output<A>, text: &str) -> Result<(), AllocError>
    ensures { OnOk result (out.new
        ≡ with_members out.old (why_members (inner_of (lines_of_text text.now)))) }
{
    push_singles(out, text)?;
    push_optional_list(out, Kind::Missed, text)?;
    push_optional_list(out, Kind::Shared, text)
}

/// Whether the first line of a text is indented.
pub fn begins_inner(text: &str) -> bool
    ensures { result ≡ has_any (inner_of (lines_of_text text.now)) }
{
    if text.is_empty() {
        return false;
    }
    is_inner(cut(text, b'\n').0)
}

/// What is told of a fault, where lines stand behind it.
fn push_why<A: Allocator>(out: &mut Output<A>, text: &str) -> Result<(), AllocError>
    ensures { OnOk result (out.new
        ≡ with_members out.old (why_member (inner_of (lines_of_text text.now)))) }
{
    if !begins_inner(text) {
        return Ok(());
    }
    out.key("why")?;
    out.begin_object()?;
    push_why_members(out, text)?;
    out.end_object()
}

/// A fault, of its line and the text behind it.
pub fn push_fault_object<A: Allocator>(
    out: &mut Output<A>,
    line: &str,
    text: &str,
) -> Result<(), AllocError>
    ensures { OnOk result (out.new
        ≡ out.old ++ json_tokens (fault_object line.now (lines_of_text text.now))) }
{
    out.begin_object()?;
    push_fault(out, line)?;
    push_why(out, text)?;
    out.end_object()
}

/// The members of a function, of its line and the text behind it.
fn push_function_members<A: Allocator>(
    out: &mut Output<A>,
    line: &str,
    text: &str,
) -> Result<(), AllocError>
    ensures { OnOk result (out.new
        ≡ with_members out.old (function_members line.now (inner_of (lines_of_text text.now)))) }
{
    push_header(out, line)?;
    push_list(out, Kind::Bar, text)?;
    push_singles(out, text)?;
    push_optional_list(out, Kind::Window, text)?;
    push_list(out, Kind::Capability, text)
}

/// A function, of its line and the text behind it.
pub fn push_function<A: Allocator>(
    out: &mut Output<A>,
    line: &str,
    text: &str,
) -> Result<(), AllocError>
    ensures { OnOk result (out.new
        ≡ out.old ++ json_tokens (function_object line.now (lines_of_text text.now))) }
{
    out.begin_object()?;
    push_function_members(out, line, text)?;
    out.end_object()
}
