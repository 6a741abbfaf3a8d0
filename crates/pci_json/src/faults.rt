//! The members of a fault.
ghost use Rattle.std.specs.Prelude.{◌≡◌, ◌<◌, ◌++◌, OnOk};
ghost use Rattle.json.specs.Tree.{json_tokens};
ghost use Rattle.pci_json.specs.Members.{with_members, object_of, slot_register_members};
ghost use Rattle.pci_json.specs.Faults.{space_and_address, two_regions, unreached_members, clash_members, split_members, outside_members, amount_members, part_members, no_room_members, slot_members, named_members, fault_members};

use crate::lines::{is_word, value, word};
use crate::members::push_slot_and_register;
use crate::output::Output;
use std::alloc::{AllocError, Allocator};

/// The space that is this word, and the address behind it.
fn push_space_and_address<A: Allocator>(
    out: &mut Output<A>,
    line: &str,
    n: usize,
) -> Result<(), AllocError>
    requires { n < 1000 }
    ensures { OnOk result (out.new ≡ with_members out.old (space_and_address n line.now)) }
{
    out.text("space", word(line, n))?;
    out.hex("address", word(line, n + 1))
}

/// The region that begins with this word.
fn push_named_region<A: Allocator>(
    out: &mut Output<A>,
    line: &str,
    n: usize,
) -> Result<(), AllocError>
    requires { n < 1000 }
    ensures { OnOk result (out.new ≡ out.old ++ json_tokens (object_of (slot_register_members n line.now))) }
{
    out.begin_object()?;
    push_slot_and_register(out, line, n)?;
    out.end_object()
}

/// The two regions that begin with this word.
fn push_two_regions<A: Allocator>(
    out: &mut Output<A>,
    line: &str,
    n: usize,
) -> Result<(), AllocError>
    requires { n < 100 }
    ensures { OnOk result (out.new ≡ with_members out.old (two_regions n line.now)) }
{
    out.key("regions")?;
    out.begin_array()?;
    push_named_region(out, line, n)?;
    push_named_region(out, line, n + 2)?;
    out.end_array()
}

/// The members of a 60.
fn push_unreached<A: Allocator>(out: &mut Output<A>, line: &str) -> Result<(), AllocError>
    ensures { OnOk result (out.new ≡ with_members out.old (unreached_members line.now)) }
{
    push_slot_and_register(out, line, 2)?;
    push_space_and_address(out, line, 4)?;
    out.text("bridge", word(line, 7))
}

/// The members of a 61.
fn push_clash<A: Allocator>(out: &mut Output<A>, line: &str) -> Result<(), AllocError>
    ensures { OnOk result (out.new ≡ with_members out.old (clash_members line.now)) }
{
    out.text("bus", word(line, 3))?;
    push_space_and_address(out, line, 4)?;
    push_two_regions(out, line, 6)
}

/// The members of a 62.
fn push_split<A: Allocator>(out: &mut Output<A>, line: &str) -> Result<(), AllocError>
    ensures { OnOk result (out.new ≡ with_members out.old (split_members line.now)) }
{
    push_space_and_address(out, line, 2)?;
    push_two_regions(out, line, 4)
}

/// The members of a 63.
fn push_outside<A: Allocator>(out: &mut Output<A>, line: &str) -> Result<(), AllocError>
    ensures { OnOk result (out.new ≡ with_members out.old (outside_members line.now)) }
{
    push_slot_and_register(out, line, 2)?;
    push_space_and_address(out, line, 4)
}

/// How many addresses a 72 of `settle` needs, and how they are aligned.
fn push_amounts<A: Allocator>(out: &mut Output<A>, line: &str) -> Result<(), AllocError>
    ensures { OnOk result (out.new ≡ with_members out.old (amount_members line.now)) }
{
    if is_word(line, 5, "") {
        return Ok(());
    }
    out.number("size", value(word(line, 5), 16))?;
    out.number("align", value(word(line, 6), 16))
}

/// The part that a 72 of `settle` names.
fn push_part<A: Allocator>(out: &mut Output<A>, line: &str) -> Result<(), AllocError>
    ensures { OnOk result (out.new ≡ with_members out.old (part_members line.now)) }
{
    if is_word(line, 3, "") {
        return Ok(());
    }
    push_slot_and_register(out, line, 3)?;
    push_amounts(out, line)
}

/// The members of a 72.
fn push_no_room<A: Allocator>(out: &mut Output<A>, line: &str) -> Result<(), AllocError>
    ensures { OnOk result (out.new ≡ with_members out.old (no_room_members line.now)) }
{
    out.text("class", word(line, 2))?;
    push_part(out, line)
}

/// The slot, and the register if there is one.
fn push_slot<A: Allocator>(out: &mut Output<A>, line: &str) -> Result<(), AllocError>
    ensures { OnOk result (out.new ≡ with_members out.old (slot_members line.now)) }
{
    out.text("slot", word(line, 2))?;
    if is_word(line, 3, "") {
        return Ok(());
    }
    out.hex("register", word(line, 3))
}

/// What the line of the fault with this number names.
fn push_named<A: Allocator>(out: &mut Output<A>, number: u64, line: &str) -> Result<(), AllocError>
    ensures { OnOk result (out.new ≡ with_members out.old (named_members number line.now)) }
{
    match number {
        60 => push_unreached(out, line),
        61 => push_clash(out, line),
        62 => push_split(out, line),
        63 => push_outside(out, line),
        70 | 77 => Ok(()),
        72 => push_no_room(out, line),
        75 => push_slot_and_register(out, line, 2),
        _ => push_slot(out, line),
    }
}

/// The members of a fault's line.
pub fn push_fault<A: Allocator>(out: &mut Output<A>, line: &str) -> Result<(), AllocError>
    ensures { OnOk result (out.new ≡ with_members out.old (fault_members line.now)) }
{
    let number = value(word(line, 0), 10);
    out.number("number", number)?;
    out.text("name", word(line, 1))?;
    out.text("text", line)?;
    push_named(out, number, line)
}
