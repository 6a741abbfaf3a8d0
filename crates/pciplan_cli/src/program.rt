//! The program, from its words to its status.
ghost use Rattle.std.specs.Prelude.{◌≡◌, ◌≢◌, ◌⊎◌, ◌<◌, ◌≤◌, ◌+◌, Err, IfErr, IfOk, OnOk, MatchResult, map, string_bytes};
ghost use Rattle.std.specs.IoError.{error_kind};
ghost use Rattle.std.specs.Io.KnownBytes.{Appends};
ghost use Rattle.pciplan_cli.specs.Invocations.{IsInvocationOf, HasBadWords};
ghost use Rattle.pci_dump.specs.declared.read_fault.ReadFault.{ReadFault};
ghost use Rattle.pciplan_cli.specs.CarriedOut.{IsCarriedOut, IsCarriedOutBegun, IsSecondUnopened, second_unread, texts};
ghost use Rattle.pciplan_tasks.specs.Also.{IsAlsoUnread};
ghost use Rattle.pciplan_tasks.specs.Answers.{AreRemarked};
ghost use Rattle.pciplan_tasks.specs.Statuses.{status_of};
ghost use Rattle.pciplan_tasks.specs.Tasks.{HasFailed, IsTaskRefused};
ghost use Rattle.pciplan_tasks.specs.declared.failure.Failure.{Failure};

use crate::invocation::{Invocation, start};
use crate::opened::Opening;
use crate::outside::Outside;
use pci_dump::read_fault::ReadFault;
use pci_dump::reader::read_dump;
use pci_dump::streams::{Sink, Source};
use pciplan_tasks::failure::{Failure, report};
use pciplan_tasks::run::run;
use pciplan_tasks::task::Task;
use std::alloc::{AllocError, Allocator, Global};
use std::io::ErrorKind;
use std::rt::Env;
use std::{env, io};

/// The words after the program's name.
///
/// # Errors
///
/// Of kind `OutOfMemory` where a growth was refused, of another kind where a word isn't UTF-8.
pub fn words_of<R: Env + AllocGlobal>(rt: &R) -> io::Result<Vec<String>> {
    let mut words = Vec::new(rt.alloc());
    for word in env::args(rt)?.skip(1) {
        words.push(word)?;
    }
    Ok(words)
}

/// The words as they are read.
fn lent<'a>(alloc: Global, words: &'a [String]) -> Result<Vec<&'a str>, AllocError>
    ensures { IfOk result (λ lent. map (λ word. word.now) lent.items ≡ map string_bytes words.now) }
{
    let mut lent = Vec::new(alloc);
    for word in words {
        lent.push(word.as_str())?;
    }
    Ok(lent)
}

/// The line that the words make, with what its third text tells. Where they make none, or there are none, it writes the
/// message to `err` and answers the status.
fn line_of<T: Opening, E: Sink>(
    alloc: Global,
    words: io::Result<Vec<String>>,
    third: &mut T,
    err: &mut E,
) -> Result<Invocation, u8>
    ensures line { IfOk result (λ line. MatchResult words
        (λ words. IsInvocationOf (map string_bytes words.items)
        (texts (T.stands third.old) (T.bytes_at third.old)) line) (λ _. ⊥)) }
    ensures refused { result ≡ Err 2
        → IfOk words (λ words. HasBadWords (map string_bytes words.items)) }
    ensures status { IfErr result (λ status. (status ≡ 2) ⊎ (status ≡ 3)) }
    ensures silent { IfOk result (λ _. err.new ≡ err.old) }
    ensures failed { IfOk result
        (λ line. IsAlsoUnread line.task → T.failures third.new ≡ T.failures third.old + 1) }
    ensures memory { IfErr words
        (λ error. error_kind error ≡ ErrorKind.OutOfMemory → result ≡ Err 3) }
    ensures unread { IfErr words
        (λ error. error_kind error ≢ ErrorKind.OutOfMemory → result ≡ Err 2) }
{
    match words {
        Ok(words) => match lent(alloc, words.as_slice()) {
            Ok(lent) => start(alloc, lent.as_slice(), third, err),
            Err(_) => Err(report(err, Failure::Memory)),
        },
        Err(error) if error.kind() == ErrorKind::OutOfMemory => Err(report(err, Failure::Memory)),
        Err(_) => Err(report(err, Failure::Usage)),
    }
}

/// The second text of a task can't be read.
fn unread(task: &Task) -> Failure
    ensures { result ≡ second_unread task.now }
{
    match task {
        Task::Probe { .. } => Failure::Sizes(ReadFault::Io),
        _ => Failure::Probe(ReadFault::Io),
    }
}

/// Why there is no answer where the second text couldn't be opened: that, unless the dump has a failure.
fn without_second<A: Allocator, D: Source>(alloc: A, task: &Task, dump: &mut D) -> Failure
    ensures { IsSecondUnopened task.now (D.left dump.old) (D.failures dump.old)
        (D.failures dump.new) result }
{
    match read_dump(alloc, dump) {
        Ok(_) => unread(task),
        Err(fault) => Failure::Dump(fault),
    }
}

/// Opens the two texts of a line, the dump first. The failure names the first that can't be opened, unless that is the
/// second text and the dump isn't read.
pub fn open_texts<A: Allocator, D: Opening, P: Opening>(
    alloc: A,
    line: &Invocation,
    dump: &mut D,
    probe: &mut P,
) -> Result<(), Failure>
    ensures stands { OnOk result (D.stands dump.old (string_bytes line.now.dump)
        × P.stands probe.old (string_bytes line.now.probe)) }
    ensures lacks { OnOk result ((D.lacks dump.old (string_bytes line.now.dump) → ⊥)
        × (P.lacks probe.old (string_bytes line.now.probe) → ⊥)) }
    ensures bytes { OnOk result
        ((D.left dump.new ≡ D.bytes_at dump.old (string_bytes line.now.dump))
        × (P.left probe.new ≡ P.bytes_at probe.old (string_bytes line.now.probe))) }
    ensures fine { OnOk result ((D.failures dump.new ≡ D.failures dump.old)
        × (P.failures probe.new ≡ P.failures probe.old)) }
    // the second text isn't looked for where the dump can't be opened
    ensures named { IfErr result (λ failure.
        (failure ≡ Failure.Dump ReadFault.Io) × (D.failures dump.new ≡ D.failures dump.old + 1)
        × (probe.new ≡ probe.old)
        ⊎ D.stands dump.old (string_bytes line.now.dump)
        × (P.failures probe.new ≡ P.failures probe.old + 1)
        × IsSecondUnopened line.now.task (D.bytes_at dump.old (string_bytes line.now.dump))
        (D.failures dump.old) (D.failures dump.new) failure) }
    ensures dump { D.lacks dump.old (string_bytes line.now.dump)
        → result ≡ Err (Failure.Dump ReadFault.Io) }
{
    if dump.open(line.dump.as_str()).is_err() {
        return Err(Failure::Dump(ReadFault::Io));
    }
    if probe.open(line.probe.as_str()).is_err() {
        return Err(without_second(alloc, &line.task, dump));
    }
    Ok(())
}

/// Opens the two texts of a line, the dump first, and carries out its task. A text that can't be opened is one
/// that can't be read: there is no answer then, and the message names it, unless it is the second and the dump
/// has a failure of its own. A third text is read already, and its failure is told where these two have none.
pub fn carry_out<A: Allocator + Copy, D: Opening, P: Opening, M, O: Sink, E: Sink>(
    alloc: A,
    line: &Invocation,
    outside: &mut Outside<D, P, M, O, E>,
) -> u8
    ensures done { result < 2 → IsCarriedOut line.now
        (texts (D.stands outside.old.dump) (D.bytes_at outside.old.dump))
        (texts (P.stands outside.old.second) (P.bytes_at outside.old.second)) result
        (Appends (O.taken outside.old.out) (O.taken outside.new.out))
        (AreRemarked (E.taken outside.old.err) (E.taken outside.new.err)
        (E.failures outside.new.err ≡ E.failures outside.old.err + 1)
        (outside.new.err ≡ outside.old.err)) }
    // who reads the output by a pipe gets nothing that looks like an answer
    ensures quiet { (result ≡ 2) ⊎ (result ≡ 3) → outside.new.out ≡ outside.old.out }
    // what went out can't be taken back, so all that is promised is that it is a beginning
    ensures begun { result ≡ 4 → (outside.new.out ≡ outside.old.out)
        ⊎ IsCarriedOutBegun line.now (D.bytes_at outside.old.dump) (P.bytes_at outside.old.second)
        (O.taken outside.old.out) (O.taken outside.new.out) }
    ensures refused { result ≡ 2
        → IsTaskRefused line.now.task (D.bytes_at outside.old.dump (string_bytes line.now.dump))
        (P.bytes_at outside.old.second (string_bytes line.now.probe)) }
    ensures failed { result ≡ 4
        → HasFailed (D.failures outside.old.dump) (D.failures outside.new.dump)
        (P.failures outside.old.second) (P.failures outside.new.second)
        (O.failures outside.old.out) (O.failures outside.new.out)
        ⊎ IsAlsoUnread line.now.task }
    ensures unopened { D.lacks outside.old.dump (string_bytes line.now.dump) → result ≡ 4 }
    // where the dump isn't read its own failure is told
    ensures second { P.lacks outside.old.second (string_bytes line.now.probe) → (failure : Failure)
        × (result ≡ status_of failure)
        × IsSecondUnopened line.now.task (D.bytes_at outside.old.dump (string_bytes line.now.dump))
        (D.failures outside.old.dump) (D.failures outside.new.dump) failure }
    ensures third { outside.new.third ≡ outside.old.third }
    ensures known { result ≤ 4 }
{
    match open_texts(alloc, line, &mut outside.dump, &mut outside.second) {
        Ok(()) => run(
            alloc,
            &line.task,
            &mut outside.dump,
            &mut outside.second,
            &mut outside.out,
            &mut outside.err,
        ),
        Err(failure) => report(&mut outside.err, failure),
    }
}

/// Does what the words ask for: writes the answer to `out` or a message to `err`, and answers the status. 0 or 1
/// where the answer was written, and the remarks on a derived probe to `err`; 2 where the words or a text are refused;
/// 3 at want of memory; 4 where a text couldn't be opened, or a read or a write failed. At 2 and 3 nothing was written
/// to `out`, at 4 a beginning of the answer at most. The machine isn't looked at.
pub fn program<D: Opening, P: Opening, M, O: Sink, E: Sink>(
    alloc: Global,
    words: io::Result<Vec<String>>,
    outside: &mut Outside<D, P, M, O, E>,
) -> u8
    // of words that couldn't be had: 3 may go away by itself, 2 needs other words
    ensures memory { IfErr words (λ error. error_kind error ≡ ErrorKind.OutOfMemory → result ≡ 3) }
    // words that are no text are no words of the command line
    ensures unread { IfErr words (λ error. error_kind error ≢ ErrorKind.OutOfMemory → result ≡ 2) }
    ensures done { result < 2
        → MatchResult words
        (λ words. (line : Invocation) × IsInvocationOf (map string_bytes words.items)
        (texts (P.stands outside.old.third) (P.bytes_at outside.old.third)) line
        × IsCarriedOut line (texts (D.stands outside.old.dump) (D.bytes_at outside.old.dump))
        (texts (P.stands outside.old.second) (P.bytes_at outside.old.second)) result
        (Appends (O.taken outside.old.out) (O.taken outside.new.out))
        (AreRemarked (E.taken outside.old.err) (E.taken outside.new.err)
        (E.failures outside.new.err ≡ E.failures outside.old.err + 1)
        (outside.new.err ≡ outside.old.err)))
        (λ _. ⊥) }
    // who reads the output by a pipe gets nothing that looks like an answer
    ensures quiet { (result ≡ 2) ⊎ (result ≡ 3) → outside.new.out ≡ outside.old.out }
    ensures begun { result ≡ 4
        → (outside.new.out ≡ outside.old.out)
        ⊎ MatchResult words
        (λ words. (line : Invocation) × IsInvocationOf (map string_bytes words.items)
        (texts (P.stands outside.old.third) (P.bytes_at outside.old.third)) line
        × IsCarriedOutBegun line (D.bytes_at outside.old.dump) (P.bytes_at outside.old.second)
        (O.taken outside.old.out) (O.taken outside.new.out))
        (λ _. ⊥) }
    ensures refused { result ≡ 2 → IfOk words (λ words. HasBadWords (map string_bytes words.items)
        ⊎ ((line : Invocation) × IsInvocationOf (map string_bytes words.items)
        (texts (P.stands outside.old.third) (P.bytes_at outside.old.third)) line
        × IsTaskRefused line.task (D.bytes_at outside.old.dump (string_bytes line.dump))
        (P.bytes_at outside.old.second (string_bytes line.probe)))) }
    ensures failed { result ≡ 4
        → HasFailed (D.failures outside.old.dump) (D.failures outside.new.dump)
        (P.failures outside.old.second) (P.failures outside.new.second)
        (O.failures outside.old.out) (O.failures outside.new.out)
        ⊎ (P.failures outside.new.third ≡ P.failures outside.old.third + 1) }
    ensures known { result ≤ 4 }
{
    match line_of(alloc, words, &mut outside.third, &mut outside.err) {
        Ok(line) => carry_out(alloc, &line, outside),
        Err(status) => status,
    }
}
