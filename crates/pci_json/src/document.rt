//! The document of an answer.
ghost use Rattle.std.specs.Prelude.{◌≡◌, ◌++◌, [], ◌∷◌, codes, Some, OnOk, IfOk};
ghost use Rattle.std.specs.String.{string_bytes};
ghost use Rattle.json.specs.Lex.{tokens};
ghost use Rattle.json.specs.Json.{value};
ghost use Rattle.json.specs.Print.{print};
ghost use Rattle.json.specs.Tree.{json_tokens, depth};
ghost use Rattle.pci_json.specs.Lines.{lines_of_text};
ghost use Rattle.pci_json.specs.Members.{with_members, with_items, array_of, json_count};
ghost use Rattle.pci_json.specs.Groups.{inner_of};
ghost use Rattle.pci_json.specs.declared.document.Command.TheVariants.{Faults, Map, Show, Plan};
ghost use Rattle.pci_json.specs.Documents.{is_fault, fault_on_line, faults_of, off_of, offs_of, has_off, off_member, aside_of, function_on_line, functions_of, write_object, writes_of, command_name, body_members, first_line, behind_line, room_member, refusal_members, answer_members, document_of};

use crate::faults::push_fault;
use crate::group::{begins_inner, push_fault_object, push_function};
use crate::lines::{behind, content, cut, is_inner, is_word, split_at_first};
use crate::listing::push_write;
use crate::map::{is_heading, push_aside, push_roots};
use crate::output::Output;
use crate::reasons::push_region;
use pci_base::memory::OutOfMemory;
use std::alloc::{AllocError, Allocator};

/// A command whose answer has a document.
#[derive(Clone, Copy, Debug, PartialEq, Eq)]
pub enum Command {
    Check,
    Faults,
    Map,
    Show,
    /// With `--writes`.
    Plan,
    /// With `--writes`.
    Settle,
}

/// The word of a command.
fn command_name(command: Command) -> &'static str
    ensures { result.now ≡ command_name command }
{
    match command {
        Command::Check => "check",
        Command::Faults => "faults",
        Command::Map => "map",
        Command::Show => "show",
        Command::Plan => "plan",
        Command::Settle => "settle",
    }
}

/// Whether a line is of a list of faults.
fn is_fault(line: &str) -> bool
    ensures { result ≡ is_fault line.now }
{
    !is_inner(line) && !is_word(content(line), 0, "off") && !is_word(content(line), 0, "yes")
}

/// The fault of a line, if it is one, with the text behind it.
fn push_fault_of<A: Allocator>(
    out: &mut Output<A>,
    line: &str,
    text: &str,
) -> Result<(), AllocError>
    ensures { OnOk result
        (out.new ≡ with_items out.old (fault_on_line line.now (lines_of_text text.now))) }
{
    if !is_fault(line) {
        return Ok(());
    }
    push_fault_object(out, content(line), text)
}

/// The faults of a list.
fn push_faults<A: Allocator>(out: &mut Output<A>, text: &str) -> Result<(), AllocError>
    ensures { OnOk result (out.new ≡ with_items out.old (faults_of (lines_of_text text.now))) }
{
    let mut rest = text;
    while !rest.is_empty() {
        let (line, more) = cut(rest, b'\n');
        push_fault_of(out, line, more)?;
        rest = more;
    }
    Ok(())
}

/// Whether a list tells of what is off.
fn has_off(text: &str) -> bool
    ensures { result ≡ has_off (lines_of_text text.now) }
{
    let mut rest = text;
    while !rest.is_empty() {
        let (line, more) = cut(rest, b'\n');
        if is_heading(line, "off") {
            return true;
        }
        rest = more;
    }
    false
}

/// The BAR of a line that tells that it is off.
fn push_off<A: Allocator>(out: &mut Output<A>, line: &str) -> Result<(), AllocError>
    ensures { OnOk result (out.new ≡ with_items out.old (off_of line.now)) }
{
    if !is_heading(line, "off") {
        return Ok(());
    }
    out.begin_object()?;
    push_region(out, content(line), 1)?;
    out.end_object()
}

/// The BARs that are off.
fn push_offs<A: Allocator>(out: &mut Output<A>, text: &str) -> Result<(), AllocError>
    ensures { OnOk result (out.new ≡ with_items out.old (offs_of (lines_of_text text.now))) }
{
    let mut rest = text;
    while !rest.is_empty() {
        let (line, more) = cut(rest, b'\n');
        push_off(out, line)?;
        rest = more;
    }
    Ok(())
}

/// The BARs that are off, where the list tells of one.
fn push_off_member<A: Allocator>(out: &mut Output<A>, text: &str) -> Result<(), AllocError>
    ensures { OnOk result (out.new ≡ with_members out.old (off_member (lines_of_text text.now))) }
{
    if !has_off(text) {
        return Ok(());
    }
    out.key("off")?;
    out.begin_array()?;
    push_offs(out, text)?;
    out.end_array()
}

/// The function of a line, if the line isn't indented, with the text behind it.
fn push_function_of<A: Allocator>(
    out: &mut Output<A>,
    line: &str,
    text: &str,
) -> Result<(), AllocError>
    ensures { OnOk result
        (out.new ≡ with_items out.old (function_on_line line.now (lines_of_text text.now))) }
{
    if is_inner(line) {
        return Ok(());
    }
    push_function(out, content(line), text)
}

/// The functions of a listing.
fn push_functions<A: Allocator>(out: &mut Output<A>, text: &str) -> Result<(), AllocError>
    ensures { OnOk result (out.new ≡ with_items out.old (functions_of (lines_of_text text.now))) }
{
    let mut rest = text;
    while !rest.is_empty() {
        let (line, more) = cut(rest, b'\n');
        push_function_of(out, line, more)?;
        rest = more;
    }
    Ok(())
}

/// A write.
fn push_write_object<A: Allocator>(out: &mut Output<A>, line: &str) -> Result<(), AllocError>
    ensures { OnOk result (out.new ≡ out.old ++ json_tokens (write_object line.now)) }
{
    out.begin_object()?;
    push_write(out, content(line))?;
    out.end_object()
}

/// The writes of a plan.
fn push_writes<A: Allocator>(out: &mut Output<A>, text: &str) -> Result<(), AllocError>
    ensures { OnOk result (out.new ≡ with_items out.old (writes_of (lines_of_text text.now))) }
{
    let mut rest = text;
    while !rest.is_empty() {
        let (line, more) = cut(rest, b'\n');
        push_write_object(out, line)?;
        rest = more;
    }
    Ok(())
}

/// The members of a list of faults.
fn push_fault_list<A: Allocator>(out: &mut Output<A>, text: &str) -> Result<(), AllocError>
    ensures { OnOk result (out.new ≡ with_members out.old (body_members Faults (lines_of_text text.now))) }
{
    out.key("faults")?;
    out.begin_array()?;
    push_faults(out, text)?;
    out.end_array()?;
    push_off_member(out, text)
}

/// The regions below a heading of a map, as a member of its name.
fn push_aside_member<A: Allocator>(
    out: &mut Output<A>,
    text: &str,
    name: &str,
) -> Result<(), AllocError>
    ensures { OnOk result (out.new ≡ with_members out.old ((name.now, array_of (aside_of name.now (lines_of_text text.now))) ∷ [])) }
{
    out.key(name)?;
    out.begin_array()?;
    push_aside(out, text, name)?;
    out.end_array()
}

/// The members of a map.
fn push_map<A: Allocator>(out: &mut Output<A>, text: &str) -> Result<(), AllocError>
    ensures { OnOk result (out.new ≡ with_members out.old (body_members Map (lines_of_text text.now))) }
{
    out.key("buses")?;
    out.begin_array()?;
    push_roots(out, text)?;
    out.end_array()?;
    push_aside_member(out, text, "outside")?;
    push_aside_member(out, text, "unreached")?;
    push_aside_member(out, text, "off")
}

/// The members of a listing.
fn push_listing<A: Allocator>(out: &mut Output<A>, text: &str) -> Result<(), AllocError>
    ensures { OnOk result (out.new ≡ with_members out.old (body_members Show (lines_of_text text.now))) }
{
    out.key("functions")?;
    out.begin_array()?;
    push_functions(out, text)?;
    out.end_array()
}

/// The members of writes.
fn push_write_list<A: Allocator>(out: &mut Output<A>, text: &str) -> Result<(), AllocError>
    ensures { OnOk result (out.new ≡ with_members out.old (body_members Plan (lines_of_text text.now))) }
{
    out.key("writes")?;
    out.begin_array()?;
    push_writes(out, text)?;
    out.end_array()
}

/// The members of a command's own answer.
fn push_body<A: Allocator>(
    out: &mut Output<A>,
    command: Command,
    text: &str,
) -> Result<(), AllocError>
    ensures { OnOk result (out.new
        ≡ with_members out.old (body_members command (lines_of_text text.now))) }
{
    match command {
        Command::Check => Ok(()),
        Command::Faults => push_fault_list(out, text),
        Command::Map => push_map(out, text),
        Command::Show => push_listing(out, text),
        Command::Plan | Command::Settle => push_write_list(out, text),
    }
}

/// The first line of a text, and what stands behind it.
fn cut_first(text: &str) -> (&str, &str)
    ensures first { result.0.now ≡ first_line text.now }
    ensures behind { result.1.now ≡ behind_line text.now }
{
    split_at_first(text, b'\n')
}

/// The line behind a 72, where `plan --why` has one.
fn push_room<A: Allocator>(out: &mut Output<A>, text: &str) -> Result<(), AllocError>
    ensures { OnOk result (out.new
        ≡ with_members out.old (room_member (inner_of (lines_of_text text.now)))) }
{
    if !begins_inner(text) {
        return Ok(());
    }
    out.key("why")?;
    out.begin_object()?;
    out.text("text", content(cut_first(text).0))?;
    out.end_object()
}

/// The fault of a text that begins with `no`.
fn push_refusal<A: Allocator>(out: &mut Output<A>, text: &str) -> Result<(), AllocError>
    ensures { OnOk result (out.new ≡ with_members out.old (refusal_members text.now)) }
{
    let (line, rest) = cut_first(text);
    out.key("fault")?;
    out.begin_object()?;
    push_fault(out, behind(line, 1))?;
    push_room(out, rest)?;
    out.end_object()
}

/// The fault, or the members of the command's own answer.
fn push_answer<A: Allocator>(
    out: &mut Output<A>,
    command: Command,
    text: &str,
) -> Result<(), AllocError>
    ensures { OnOk result (out.new ≡ with_members out.old (answer_members command text.now)) }
{
    if is_word(cut_first(text).0, 0, "no") {
        push_refusal(out, text)
    } else {
        push_body(out, command, text)
    }
}

/// The status of the command.
fn push_status<A: Allocator>(out: &mut Output<A>, status: u8) -> Result<(), AllocError>
    ensures { OnOk result
        (out.new ≡ with_members out.old ((codes "status", json_count status) ∷ [])) }
{
    out.number("status", u64::from(status))
}

/// The tokens of the document.
fn push_document<A: Allocator>(
    out: &mut Output<A>,
    command: Command,
    status: u8,
    text: &str,
) -> Result<(), AllocError>
    ensures { OnOk result (out.new ≡ out.old ++ json_tokens (document_of command status text.now)) }
{
    out.begin_object()?;
    out.number("form", 1)?;
    out.text("command", command_name(command))?;
    push_status(out, status)?;
    push_answer(out, command, text)?;
    out.end_object()
}

/// The JSON document of an answer, on one line that ends with a line feed. It is made of the text that the command prints,
/// for `plan` and `settle` with `--writes`, and of its status.
///
/// It is of any text: a line that isn't of an answer makes members as well, so there is no other error than that of
/// memory.
///
/// Errors: 2 `OutOfMemory` where a growth was refused.
pub fn document<A: Allocator + Copy>(
    alloc: A,
    command: Command,
    status: u8,
    text: &str,
) -> Result<String<A>, OutOfMemory>
    ensures text { IfOk result (λ made. string_bytes made
        ≡ print (json_tokens (document_of command status text.now)) ++ 10 ∷ []) }
    // what is printed is JSON by its grammar, and is this value
    ensures reads_back { OnOk result (value (depth (document_of command status text.now))
        (tokens (print (json_tokens (document_of command status text.now))))
        ≡ Some (document_of command status text.now, [])) }
{
    let mut out = Output::new(alloc);
    push_document(&mut out, command, status, text)?;
    Ok(out.finish()?)
}
