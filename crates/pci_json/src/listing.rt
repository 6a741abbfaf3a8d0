//! The lines of a listing, of a map, and of writes.
ghost use Rattle.std.specs.Prelude.{◌≡◌, OnOk};
ghost use Rattle.std.specs.List.{before_first, after_first};
ghost use Rattle.pci_json.specs.Members.{with_members};
ghost use Rattle.pci_json.specs.Listings.{is_point, header_members, bar_range_place, bar_range_members, bar_members, rom_members, bus_members, state_members, window_members, capability_members, kind_members, write_members};

use crate::lines::{is_word, split_at_first, split_second, split_word, value, word};
use crate::members::{ends_of, push_range, push_slot_and_register};
use crate::output::Output;
use std::alloc::{AllocError, Allocator};

/// The members of a function that its first line has.
pub fn push_header<A: Allocator>(out: &mut Output<A>, line: &str) -> Result<(), AllocError>
    ensures { OnOk result (out.new ≡ with_members out.old (header_members line.now)) }
{
    let (slot, rest) = split_word(line);
    let (kind, rest) = split_second(rest);
    let (vendor, rest) = split_second(rest);
    let (device, rest) = split_second(rest);
    let (class, rest) = split_second(rest);
    let (command, rest) = split_second(rest);
    let (status, _) = split_second(rest);
    out.text("slot", slot)?;
    out.number("type", value(kind, 10))?;
    out.hex("vendor", vendor)?;
    out.hex("device", device)?;
    out.hex("class", class)?;
    out.hex("command", command)?;
    out.hex("status", status)
}

/// Where the range of a BAR stands behind its kind.
fn bar_range_place(rest: &str) -> usize
    ensures { result ≡ bar_range_place rest.now }
{
    if is_word(rest, 0, "pref") { 1 } else { 0 }
}

/// What a line tells of a BAR behind its kind.
fn push_bar_range<A: Allocator>(out: &mut Output<A>, rest: &str) -> Result<(), AllocError>
    ensures { OnOk result (out.new ≡ with_members out.old (bar_range_members rest.now)) }
{
    out.boolean("prefetchable", is_word(rest, 0, "pref"))?;
    push_range(out, word(rest, bar_range_place(rest)))
}

/// The members of a BAR.
pub fn push_bar<A: Allocator>(out: &mut Output<A>, line: &str) -> Result<(), AllocError>
    ensures { OnOk result (out.new ≡ with_members out.old (bar_members line.now)) }
{
    let (register, rest) = split_second(line);
    let (kind, range) = split_word(rest);
    out.hex("register", register)?;
    out.text("kind", kind)?;
    push_bar_range(out, range)
}

/// The members of an expansion ROM.
pub fn push_rom<A: Allocator>(out: &mut Output<A>, line: &str) -> Result<(), AllocError>
    ensures { OnOk result (out.new ≡ with_members out.old (rom_members line.now)) }
{
    let (register, rest) = split_second(line);
    out.hex("register", register)?;
    out.boolean("on", is_word(rest, 0, "on"))?;
    push_range(out, word(rest, 1))
}

/// The numbers of a bridge's buses.
pub fn push_buses<A: Allocator>(out: &mut Output<A>, line: &str) -> Result<(), AllocError>
    ensures { OnOk result (out.new ≡ with_members out.old (bus_members line.now)) }
{
    let (primary, rest) = split_second(line);
    let (secondary, rest) = split_word(rest);
    out.text("primary", primary)?;
    out.text("secondary", secondary)?;
    out.text("subordinate", word(rest, 0))
}

/// What a window of a bridge shows.
fn push_state<A: Allocator>(out: &mut Output<A>, window: &str) -> Result<(), AllocError>
    ensures { OnOk result (out.new ≡ with_members out.old (state_members window.now)) }
{
    if ends_of(window).1.is_empty() {
        return out.text("state", window);
    }
    out.text("state", "open")?;
    push_range(out, window)
}

/// The members of a bridge's window.
pub fn push_window<A: Allocator>(out: &mut Output<A>, line: &str) -> Result<(), AllocError>
    ensures { OnOk result (out.new ≡ with_members out.old (window_members line.now)) }
{
    let (register, rest) = split_second(line);
    let (kind, rest) = split_word(rest);
    out.hex("register", register)?;
    out.text("kind", kind)?;
    push_state(out, word(rest, 0))
}

/// The members of a capability.
pub fn push_capability<A: Allocator>(out: &mut Output<A>, line: &str) -> Result<(), AllocError>
    ensures { OnOk result (out.new ≡ with_members out.old (capability_members line.now)) }
{
    let (at, rest) = split_second(line);
    let (kind, text) = split_word(rest);
    out.hex("at", at)?;
    out.text("kind", kind)?;
    out.text("text", text)
}

/// Whether a region of a map is prefetchable, and its slot and register, of what stands behind its part.
pub fn push_kind<A: Allocator>(out: &mut Output<A>, rest: &str) -> Result<(), AllocError>
    ensures { OnOk result (out.new ≡ with_members out.old (kind_members rest.now)) }
{
    if is_word(rest, 0, "pref") {
        out.boolean("prefetchable", true)?;
        push_slot_and_register(out, rest, 1)
    } else {
        push_slot_and_register(out, rest, 0)
    }
}

/// What stands before and behind the point of a write's offset and width.
fn offset_and_width(word: &str) -> (&str, &str)
    ensures offset { result.0.now ≡ before_first is_point word.now }
    ensures width { result.1.now ≡ after_first is_point word.now }
{
    split_at_first(word, b'.')
}

/// The members of a write.
pub fn push_write<A: Allocator>(out: &mut Output<A>, line: &str) -> Result<(), AllocError>
    ensures { OnOk result (out.new ≡ with_members out.old (write_members line.now)) }
{
    let (offset, width) = offset_and_width(word(line, 1));
    out.text("slot", word(line, 0))?;
    out.hex("offset", offset)?;
    out.number("width", value(width, 10))?;
    out.hex("value", word(line, 2))
}
