//! The answer of a command as one JSON document.
ghost use Rattle.std.specs.Prelude.{◌≡◌, ◌⊎◌, ◌<◌, ◌≤◌, ◌+◌, IfErr, IfOk, MatchOption, map, string_bytes};
ghost use Rattle.std.specs.Io.KnownBytes.{Appends};
ghost use Rattle.pci_dump.specs.Begun.{AppendsBeginning};
ghost use Rattle.pci_json.specs.declared.document.Command.{Command};
ghost use Rattle.pciplan_cli.specs.CarriedOut.{texts};
ghost use Rattle.pciplan_tasks.specs.Also.{IsAlsoUnread};
ghost use Rattle.pciplan_tasks.specs.Answers.{AreRemarked, answer_of};
ghost use Rattle.pciplan_tasks.specs.Statuses.{status_of};
ghost use Rattle.pciplan_tasks.specs.Tasks.{HasFailed, IsAnswerOf};
ghost use Rattle.pciplan_tasks.specs.declared.failure.Failure.{Failure};
ghost use Rattle.pciplan_front.specs.JsonAsked.{IsDocumented, IsJson, IsJsonReply, IsLineBegun, IsLineDone, IsReplyRefused, with_document};
ghost use Rattle.pciplan_front.specs.Went.{went};

use pci_dump::streams::Sink;
use pci_json::document::{Command, document};
use pciplan_cli::invocation::{Invocation, start};
use pciplan_cli::opened::Opening;
use pciplan_cli::outside::Outside;
use pciplan_cli::program::open_texts;
use pciplan_tasks::failure::{Failure, report};
use pciplan_tasks::reply::{Reply, Text, send};
use pciplan_tasks::run::reply_to;
use pciplan_tasks::task::{Printed, Task};
use std::alloc::Global;

/// The command whose answer has a document; None of a task whose answer is the text of a dump, and of `size`.
fn command_of(task: &Task) -> Option<Command>
    ensures { MatchOption result ((command : Command) → IsDocumented task.now command → ⊥)
        (IsDocumented task.now) }
{
    match task {
        Task::Show => Some(Command::Show),
        Task::Check { .. } => Some(Command::Check),
        Task::Faults { .. } => Some(Command::Faults),
        Task::Map { .. } => Some(Command::Map),
        Task::Plan { writes: true, .. } => Some(Command::Plan),
        Task::Settle {
            printed: Printed::Writes,
            ..
        } => Some(Command::Settle),
        Task::Plan { .. } | Task::Settle { .. } | Task::Size | Task::Probe { .. } => None,
    }
}

/// An answer with its document in the place of its lines.
fn with_document(
    alloc: Global,
    command: Command,
    reply: Reply<Global>,
) -> Result<Reply<Global>, Failure>
    ensures document { IfOk result
        (λ made. answer_of made ≡ with_document command (answer_of reply)) }
    ensures memory { IfErr result (λ failure. failure ≡ Failure.Memory) }
{
    let status = reply.status();
    let made = match &reply.text {
        Text::Lines(lines) => document(alloc, command, status, lines.as_str())?,
        // no answer of these commands is the text of a dump
        Text::Dump(_) => return Err(Failure::Memory),
    };
    Ok(Reply {
        text: Text::Lines(made),
        ..reply
    })
}

/// What a line's task answers to the texts at its paths.
fn line_reply<D: Opening, P: Opening>(
    alloc: Global,
    line: &Invocation,
    dump: &mut D,
    second: &mut P,
) -> Result<Reply<Global>, Failure>
    ensures reply { IfOk result (λ reply. D.stands dump.old (string_bytes line.now.dump)
        × P.stands second.old (string_bytes line.now.probe)
        × IsAnswerOf line.now.task (D.bytes_at dump.old (string_bytes line.now.dump))
        (P.bytes_at second.old (string_bytes line.now.probe)) (answer_of reply)) }
    ensures refused { IfErr result (λ failure. status_of failure ≡ 2 → IsReplyRefused line.now
        (texts (D.stands dump.old) (D.bytes_at dump.old))
        (texts (P.stands second.old) (P.bytes_at second.old))) }
    ensures failed { IfErr result (λ failure. status_of failure ≡ 4
        → (D.failures dump.new ≡ D.failures dump.old + 1)
        ⊎ (P.failures second.new ≡ P.failures second.old + 1) ⊎ IsAlsoUnread line.now.task) }
{
    match open_texts(alloc, line, dump, second) {
        Ok(()) => reply_to(alloc, &line.task, dump, second),
        Err(failure) => Err(failure),
    }
}

/// The document of what a line's task answers to the texts at its paths.
fn reply_of<D: Opening, P: Opening>(
    alloc: Global,
    line: &Invocation,
    dump: &mut D,
    second: &mut P,
) -> Result<Reply<Global>, Failure>
    ensures reply { IfOk result (λ reply. IsJsonReply line.now
        (texts (D.stands dump.old) (D.bytes_at dump.old))
        (texts (P.stands second.old) (P.bytes_at second.old)) (answer_of reply)) }
    ensures refused { IfErr result (λ failure. status_of failure ≡ 2 → IsReplyRefused line.now
        (texts (D.stands dump.old) (D.bytes_at dump.old))
        (texts (P.stands second.old) (P.bytes_at second.old))) }
    ensures failed { IfErr result (λ failure. status_of failure ≡ 4
        → (D.failures dump.new ≡ D.failures dump.old + 1)
        ⊎ (P.failures second.new ≡ P.failures second.old + 1) ⊎ IsAlsoUnread line.now.task) }
{
    let Some(command) = command_of(&line.task) else {
        return Err(Failure::Usage);
    };
    match line_reply(alloc, line, dump, second) {
        Ok(reply) => with_document(alloc, command, reply),
        Err(failure) => Err(failure),
    }
}

/// Carries out a line, and writes the document of its answer.
#[tactic(auto, using(crate::proofs::JsonReplies::done_of_reply, crate::proofs::JsonReplies::begun_of_reply))]
fn carry_out<D: Opening, P: Opening, M, O: Sink, E: Sink>(
    alloc: Global,
    line: &Invocation,
    outside: &mut Outside<D, P, M, O, E>,
) -> u8
    ensures done { result < 2 → IsLineDone line.now
        (texts (D.stands outside.old.dump) (D.bytes_at outside.old.dump))
        (texts (P.stands outside.old.second) (P.bytes_at outside.old.second)) result
        (Appends (O.taken outside.old.out) (O.taken outside.new.out))
        (AreRemarked (E.taken outside.old.err) (E.taken outside.new.err)
        (E.failures outside.new.err ≡ E.failures outside.old.err + 1)
        (outside.new.err ≡ outside.old.err)) }
    ensures quiet { (result ≡ 2) ⊎ (result ≡ 3) → outside.new.out ≡ outside.old.out }
    ensures begun { result ≡ 4 → (outside.new.out ≡ outside.old.out)
        ⊎ IsLineBegun line.now
        (texts (D.stands outside.old.dump) (D.bytes_at outside.old.dump))
        (texts (P.stands outside.old.second) (P.bytes_at outside.old.second))
        (AppendsBeginning (O.taken outside.old.out) (O.taken outside.new.out)) }
    ensures refused { result ≡ 2 → IsReplyRefused line.now
        (texts (D.stands outside.old.dump) (D.bytes_at outside.old.dump))
        (texts (P.stands outside.old.second) (P.bytes_at outside.old.second)) }
    ensures failed { result ≡ 4 → HasFailed (D.failures outside.old.dump) (D.failures outside.new.dump)
        (P.failures outside.old.second) (P.failures outside.new.second)
        (O.failures outside.old.out) (O.failures outside.new.out)
        ⊎ IsAlsoUnread line.now.task }
    ensures third { outside.new.third ≡ outside.old.third }
    ensures known { result ≤ 4 }
{
    match reply_of(alloc, line, &mut outside.dump, &mut outside.second) {
        Ok(reply) => match send(&mut outside.out, &mut outside.err, &reply) {
            Ok(()) => reply.status(),
            Err(_) => report(&mut outside.err, Failure::Io),
        },
        Err(failure) => report(&mut outside.err, failure),
    }
}

/// Carries out the command that the words behind `json` ask for, and writes the document of its answer to `out`. The
/// messages and the status are those of the command; a command whose answer has no document is a fault of usage, 2.
pub fn json<D: Opening, P: Opening, M, O: Sink, E: Sink>(
    alloc: Global,
    words: &[&str],
    outside: &mut Outside<D, P, M, O, E>,
) -> u8
    ensures done { IsJson (map (λ w. w.now) words.now)
        (texts (D.stands outside.old.dump) (D.bytes_at outside.old.dump))
        (texts (P.stands outside.old.second) (P.bytes_at outside.old.second))
        (texts (P.stands outside.old.third) (P.bytes_at outside.old.third)) result
        (went (O.taken outside.old.out) (O.taken outside.new.out) (outside.new.out ≡ outside.old.out)
        (O.failures outside.new.out ≡ O.failures outside.old.out + 1))
        (went (E.taken outside.old.err) (E.taken outside.new.err) (outside.new.err ≡ outside.old.err)
        (E.failures outside.new.err ≡ E.failures outside.old.err + 1))
        (HasFailed (D.failures outside.old.dump) (D.failures outside.new.dump)
        (P.failures outside.old.second) (P.failures outside.new.second)
        (O.failures outside.old.out) (O.failures outside.new.out)
        ⊎ (P.failures outside.new.third ≡ P.failures outside.old.third + 1)) }
    ensures known { result ≤ 4 }
{
    match start(alloc, words, &mut outside.third, &mut outside.err) {
        Ok(line) => carry_out(alloc, &line, outside),
        Err(status) => status,
    }
}
