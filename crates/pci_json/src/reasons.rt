//! The lines behind a fault's line.
ghost use Rattle.std.specs.Prelude.{◌≡◌, ◌<◌, ◌++◌, OnOk};
ghost use Rattle.json.specs.Tree.{json_tokens};
ghost use Rattle.pci_json.specs.Lines.{word};
ghost use Rattle.pci_json.specs.Members.{with_members, with_items, object_of, array_of, range_objects};
ghost use Rattle.pci_json.specs.Reasons.{range_place, region_part_members, region_members, each_members, fixed_members, has_fixed_addresses, claim_members, prefetchable_window, unclaimed_place, legacy_place, legacy_word, way_members, bridge_members, bridge_words, host_ranges, fits_value};

use crate::lines::{behind, is_word, word};
use crate::members::{
    push_end, push_flag, push_opening, push_range, push_ranges, push_slot_and_register,
};
use crate::output::Output;
use std::alloc::{AllocError, Allocator};

/// Where the range of a region stands whose slot is this word.
fn range_place(line: &str, n: usize) -> usize
    requires { n < 100 }
    ensures value { result ≡ range_place n line.now }
    ensures small { result < 200 }
{
    if is_word(line, n + 4, "pref") {
        n + 5
    } else {
        n + 4
    }
}

/// The slot that is this word, and the register, the part and the space behind it.
fn push_part<A: Allocator>(out: &mut Output<A>, line: &str, n: usize) -> Result<(), AllocError>
    requires { n < 100 }
    ensures { OnOk result (out.new ≡ with_members out.old (region_part_members n line.now)) }
{
    push_slot_and_register(out, line, n)?;
    out.text("part", word(line, n + 2))?;
    out.text("space", word(line, n + 3))
}

/// The members of a region whose slot is this word.
pub fn push_region<A: Allocator>(
    out: &mut Output<A>,
    line: &str,
    n: usize,
) -> Result<(), AllocError>
    requires { n < 100 }
    ensures { OnOk result (out.new ≡ with_members out.old (region_members n line.now)) }
{
    push_part(out, line, n)?;
    out.boolean("prefetchable", is_word(line, n + 4, "pref"))?;
    let place = range_place(line, n);
    push_range(out, word(line, place))?;
    push_end(out, line, n + 2, place + 2)
}

/// That each KB has these ports.
fn push_each<A: Allocator>(out: &mut Output<A>, line: &str) -> Result<(), AllocError>
    ensures { OnOk result (out.new ≡ with_members out.old (each_members line.now)) }
{
    if is_word(line, 6, "of") {
        return out.number("each", 1024);
    }
    Ok(())
}

/// The ranges of a legacy part or a palette part.
fn push_fixed_ranges<A: Allocator>(out: &mut Output<A>, line: &str) -> Result<(), AllocError>
    ensures { OnOk result
        (out.new ≡ out.old ++ json_tokens (array_of (range_objects 44 (word 5 line.now)))) }
{
    out.begin_array()?;
    push_ranges(out, word(line, 5), b',')?;
    out.end_array()
}

/// The members of a legacy part or a palette part.
fn push_fixed<A: Allocator>(out: &mut Output<A>, line: &str) -> Result<(), AllocError>
    ensures { OnOk result (out.new ≡ with_members out.old (fixed_members line.now)) }
{
    push_part(out, line, 1)?;
    out.key("ranges")?;
    push_fixed_ranges(out, line)?;
    push_each(out, line)
}

/// Whether the part of a line is a legacy part or a palette part.
fn is_fixed(line: &str) -> bool
    ensures { result ≡ has_fixed_addresses line.now }
{
    is_word(line, 3, "vga")
        || is_word(line, 3, "vga16")
        || is_word(line, 3, "snoop")
        || is_word(line, 3, "snoop16")
}

/// The members of a region, a legacy part or a palette part.
pub fn push_claim<A: Allocator>(out: &mut Output<A>, line: &str) -> Result<(), AllocError>
    ensures { OnOk result (out.new ≡ with_members out.old (claim_members line.now)) }
{
    if is_fixed(line) {
        push_fixed(out, line)
    } else {
        push_region(out, line, 1)
    }
}

/// The prefetchable window, where the line has one.
fn push_prefetchable<A: Allocator>(out: &mut Output<A>, line: &str) -> Result<(), AllocError>
    ensures { OnOk result (out.new ≡ with_members out.old (prefetchable_window line.now)) }
{
    if !is_word(line, 5, "pref") {
        return Ok(());
    }
    out.key("pref")?;
    push_opening(out, word(line, 6))
}

/// Where `unclaimed` stands, if the line has it.
fn unclaimed_place(line: &str) -> usize
    ensures value { result ≡ unclaimed_place line.now }
    ensures small { result < 8 }
{
    if is_word(line, 5, "pref") {
        7
    } else if is_word(line, 5, "isa") {
        6
    } else {
        5
    }
}

/// Where the word of a legacy part stands.
fn legacy_place(line: &str) -> usize
    ensures { result ≡ legacy_place line.now }
{
    let place = unclaimed_place(line);
    if is_word(line, place, "unclaimed") {
        place + 1
    } else {
        place
    }
}

/// The word of a legacy part, where the line has one.
fn push_legacy_word<A: Allocator>(out: &mut Output<A>, line: &str) -> Result<(), AllocError>
    ensures { OnOk result (out.new ≡ with_members out.old (legacy_word line.now)) }
{
    let place = legacy_place(line);
    if is_word(line, place, "") {
        return Ok(());
    }
    out.text("legacy", word(line, place))
}

/// The windows of a bridge for a region, by their kinds.
fn push_window_members<A: Allocator>(out: &mut Output<A>, line: &str) -> Result<(), AllocError>
    ensures { OnOk result (out.new ≡ with_members out.old (way_members line.now)) }
{
    out.key(word(line, 3))?;
    push_opening(out, word(line, 4))?;
    push_prefetchable(out, line)
}

/// The windows of a bridge for a region.
fn push_windows<A: Allocator>(out: &mut Output<A>, line: &str) -> Result<(), AllocError>
    ensures { OnOk result (out.new ≡ out.old ++ json_tokens (object_of (way_members line.now))) }
{
    out.begin_object()?;
    push_window_members(out, line)?;
    out.end_object()
}

/// The words behind a bridge's windows: what it passes beside them.
fn push_bridge_words<A: Allocator>(out: &mut Output<A>, line: &str) -> Result<(), AllocError>
    ensures { OnOk result (out.new ≡ with_members out.old (bridge_words line.now)) }
{
    push_flag(out, line, 5, "isa")?;
    push_flag(out, line, unclaimed_place(line), "unclaimed")?;
    push_legacy_word(out, line)
}

/// The members of a bridge that doesn't pass all of a region.
pub fn push_bridge<A: Allocator>(out: &mut Output<A>, line: &str) -> Result<(), AllocError>
    ensures { OnOk result (out.new ≡ with_members out.old (bridge_members line.now)) }
{
    out.text("slot", word(line, 1))?;
    out.boolean("on", is_word(line, 2, "on"))?;
    out.key("windows")?;
    push_windows(out, line)?;
    push_bridge_words(out, line)
}

/// The ranges of a line that tells what the host sends.
fn push_host_ranges<A: Allocator>(out: &mut Output<A>, line: &str) -> Result<(), AllocError>
    ensures { OnOk result (out.new ≡ with_items out.old (host_ranges line.now)) }
{
    if is_word(line, 2, "none") {
        return Ok(());
    }
    push_ranges(out, behind(line, 2), b' ')
}

/// The ranges that the host sends to a root bus.
pub fn push_host<A: Allocator>(out: &mut Output<A>, line: &str) -> Result<(), AllocError>
    ensures { OnOk result (out.new ≡ out.old ++ json_tokens (array_of (host_ranges line.now))) }
{
    out.begin_array()?;
    push_host_ranges(out, line)?;
    out.end_array()
}

/// Where a region would fit.
pub fn push_fits<A: Allocator>(out: &mut Output<A>, line: &str) -> Result<(), AllocError>
    ensures { OnOk result (out.new ≡ out.old ++ json_tokens (fits_value line.now)) }
{
    if is_word(line, 1, "none") {
        return out.null();
    }
    push_opening(out, word(line, 1))
}
