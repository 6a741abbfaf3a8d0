//! Carries out a task on two texts.
ghost use Rattle.std.specs.Prelude.{◌≡◌, ◌⊎◌, ◌<◌, ◌≤◌, ◌+◌, IfOk, IfErr, MatchOption};
ghost use Rattle.std.specs.Io.KnownBytes.{Appends};
ghost use Rattle.pciplan_tasks.specs.Also.{IsAlsoFault, IsAlsoUnread, IsAlsoTold, also_of};
ghost use Rattle.pciplan_tasks.specs.Answers.{AreRemarked, IsShowAnswer, IsSizeAnswer, answer_of, outcome_answer};
ghost use Rattle.pciplan_tasks.specs.Statuses.{status_of};
ghost use Rattle.pciplan_tasks.specs.Tasks.{HasFailed, IsAnswerOf, IsTaskAnswered, IsAnswerBegun, IsFailureOf, IsOfWholePair, IsPairAnswer, IsTaskRefused};

use crate::failure::{Failure, report};
use crate::faulting::faults_by;
use crate::mapping::map_by;
use crate::planning::plan_pair;
use crate::probing::derive;
use crate::reply::{Reply, Text, done, refused, send};
use crate::settling_by_words::settle_by;
use crate::sizing::size_all;
use crate::task::Task;
use pci_base::memory::{OutOfMemory, Refused};
use pci_check::audit::judge_texts;
use pci_check::line::line_of;
use pci_check::outcome::{AuditFault, Outcome};
use pci_dump::dump::Dump;
use pci_dump::read_fault::ReadFault;
use pci_dump::reader::read_dump;
use pci_dump::streams::{Failed, Sink, Source};
use pci_listing::show::show;
use pci_machine::assuming::Assuming;
use pci_machine::sizes_reader::read_sizes;
use pci_tree::roots::Roots;
use std::alloc::Allocator;

/// Lists what the functions of a dump and its probe decode to.
fn show_pair<A: Allocator + Copy>(
    alloc: A,
    dump: &Dump<A>,
    probe: &Dump<A>,
) -> Result<Reply<A>, OutOfMemory>
    ensures { IfOk result (λ reply. IsShowAnswer dump.now probe.now (answer_of reply)) }
{
    match show(alloc, dump, probe) {
        Ok(listing) => Ok(done(alloc, Text::Lines(listing))),
        Err(Refused::Fault(fault)) => refused(alloc, &fault),
        Err(Refused::Memory) => Err(OutOfMemory),
    }
}

/// Sizes every function of a machine of a dump and its probe.
fn size_pair<A: Allocator + Copy>(
    alloc: A,
    dump: &Dump<A>,
    probe: &Dump<A>,
) -> Result<Reply<A>, OutOfMemory>
    ensures { IfOk result (λ reply. IsSizeAnswer dump.now probe.now (answer_of reply)) }
{
    match size_all(alloc, dump, probe) {
        Ok(found) => Ok(done(alloc, Text::Dump(found))),
        Err(Refused::Fault(fault)) => refused(alloc, &fault),
        Err(Refused::Memory) => Err(OutOfMemory),
    }
}

/// The line of a verdict.
fn verdict<A: Allocator + Copy>(alloc: A, outcome: Outcome) -> Result<Reply<A>, OutOfMemory>
    ensures { IfOk result (λ reply. answer_of reply ≡ outcome_answer outcome) }
{
    match outcome {
        Outcome::Yes => Ok(done(alloc, Text::Lines(line_of(alloc, None)?))),
        Outcome::No(fault) => refused(alloc, &fault),
    }
}

/// Judges two texts as a system with these root buses. They are read side by side.
fn check_texts<A: Allocator + Copy, D: Source, P: Source>(
    alloc: A,
    roots: Roots,
    dump: &mut D,
    probe: &mut P,
) -> Result<Reply<A>, Failure>
    ensures reply { IfOk result (λ reply. IsAnswerOf (Task.Check roots) (D.left dump.old)
        (P.left probe.old) (answer_of reply)) }
    ensures failure { IfErr result
        (IsFailureOf (Task.Check roots) (D.left dump.old) (P.left probe.old)) }
    ensures failed { IfErr result (λ failure. status_of failure ≡ 4
        → (D.failures dump.new ≡ D.failures dump.old + 1)
        ⊎ (P.failures probe.new ≡ P.failures probe.old + 1)) }
{
    match judge_texts(alloc, dump, probe, roots) {
        Ok(outcome) => Ok(verdict(alloc, outcome)?),
        Err(AuditFault::Dump(fault)) => Err(Failure::Dump(fault)),
        Err(AuditFault::Probe(fault)) => Err(Failure::Probe(fault)),
        Err(AuditFault::Memory) => Err(Failure::Memory),
        Err(AuditFault::Write) => unreachable!(),
    }
}

/// Derives the probe of a dump from the sizes that the second text tells.
fn derive_texts<A: Allocator + Copy, D: Source, S: Source>(
    alloc: A,
    assuming: Assuming,
    dump: &mut D,
    sizes: &mut S,
) -> Result<Reply<A>, Failure>
    ensures reply { IfOk result (λ reply. IsAnswerOf (Task.Probe assuming) (D.left dump.old)
        (S.left sizes.old) (answer_of reply)) }
    ensures failure { IfErr result
        (IsFailureOf (Task.Probe assuming) (D.left dump.old) (S.left sizes.old)) }
    ensures failed { IfErr result (λ failure. status_of failure ≡ 4
        → (D.failures dump.new ≡ D.failures dump.old + 1)
        ⊎ (S.failures sizes.new ≡ S.failures sizes.old + 1)) }
{
    let dump = read_dump(alloc, dump).map_err(Failure::Dump)?;
    let sizes = read_sizes(alloc, sizes).map_err(Failure::Sizes)?;
    Ok(derive(alloc, &dump, &sizes, assuming)?)
}

/// What a task that takes a whole dump and a whole probe answers to them.
pub fn pair_reply<A: Allocator + Copy>(
    alloc: A,
    task: &Task,
    dump: Dump<A>,
    probe: Dump<A>,
) -> Result<Reply<A>, OutOfMemory>
    requires { IsOfWholePair task.now }
    ensures { IfOk result (λ reply. IsPairAnswer task.now dump probe (answer_of reply)) }
{
    match task {
        Task::Show => show_pair(alloc, &dump, &probe),
        Task::Faults { beside, why } => faults_by(alloc, &dump, &probe, beside, *why),
        Task::Map { beside } => map_by(alloc, &dump, &probe, beside),
        Task::Size => size_pair(alloc, &dump, &probe),
        Task::Plan {
            pools,
            writes,
            why,
            roots,
        } => plan_pair(alloc, dump, probe, pools, *writes, *why, *roots),
        Task::Settle { request, printed } => settle_by(alloc, dump, probe, request, *printed),
        Task::Check { .. } | Task::Probe { .. } => unreachable!(),
    }
}

/// The fault of the third text of a task, where it has one or can't be read.
fn also_fault(task: &Task) -> Option<ReadFault>
    ensures { MatchOption result (IsAlsoTold (also_of task.now)) (IsAlsoFault task.now) }
{
    match task {
        Task::Faults { beside, .. } | Task::Map { beside } => beside.also.fault(),
        Task::Settle { request, .. } => request.also.fault(),
        _ => None,
    }
}

/// What such a task answers to two texts. Their faults go before that of the third one.
fn pair_texts<A: Allocator + Copy, D: Source, P: Source>(
    alloc: A,
    task: &Task,
    dump: &mut D,
    probe: &mut P,
) -> Result<Reply<A>, Failure>
    requires { IsOfWholePair task.now }
    ensures reply { IfOk result
        (λ reply. IsAnswerOf task.now (D.left dump.old) (P.left probe.old) (answer_of reply)) }
    ensures failure { IfErr result (IsFailureOf task.now (D.left dump.old) (P.left probe.old)) }
    ensures failed { IfErr result (λ failure. status_of failure ≡ 4
        → (D.failures dump.new ≡ D.failures dump.old + 1)
        ⊎ (P.failures probe.new ≡ P.failures probe.old + 1) ⊎ IsAlsoUnread task.now) }
{
    let dump = read_dump(alloc, dump).map_err(Failure::Dump)?;
    let probe = read_dump(alloc, probe).map_err(Failure::Probe)?;
    match also_fault(task) {
        Some(fault) => Err(Failure::Also(fault)),
        None => Ok(pair_reply(alloc, task, dump, probe)?),
    }
}

/// What a task answers to two texts. A fault of the dump's text goes before one of the second, and that before one of a
/// third text, which was read into the task.
pub fn reply_to<A: Allocator + Copy, D: Source, S: Source>(
    alloc: A,
    task: &Task,
    dump: &mut D,
    second: &mut S,
) -> Result<Reply<A>, Failure>
    ensures reply { IfOk result
        (λ reply. IsAnswerOf task.now (D.left dump.old) (S.left second.old) (answer_of reply)) }
    ensures failure { IfErr result (IsFailureOf task.now (D.left dump.old) (S.left second.old)) }
    ensures failed { IfErr result (λ failure. status_of failure ≡ 4
        → (D.failures dump.new ≡ D.failures dump.old + 1)
        ⊎ (S.failures second.new ≡ S.failures second.old + 1) ⊎ IsAlsoUnread task.now) }
{
    match task {
        Task::Check { roots } => check_texts(alloc, *roots, dump, second),
        Task::Probe { assuming } => derive_texts(alloc, *assuming, dump, second),
        _ => pair_texts(alloc, task, dump, second),
    }
}

/// Carries out a task: reads `dump` and `probe` (the sizes, where a probe is to be derived), writes the answer to `out`
/// or a message to `err`, and answers the status: 0 or 1 where the answer was written; 2 where a text has a fault; 3 at
/// want of memory; 4 where a read or a write failed. All of the answer is made before any of it is written: at 2 and 3
/// nothing was written to `out`, at 4 a beginning of the answer at most.
pub fn run<A: Allocator + Copy, D: Source, P: Source, O: Sink, E: Sink>(
    alloc: A,
    task: &Task,
    dump: &mut D,
    probe: &mut P,
    out: &mut O,
    err: &mut E,
) -> u8
    // standard error may fail: what was asked for is answered all the same
    ensures answered { result < 2
        → IsTaskAnswered task.now (D.left dump.old) (P.left probe.old) result
        (Appends (O.taken out.old) (O.taken out.new))
        (AreRemarked (E.taken err.old) (E.taken err.new)
        (E.failures err.new ≡ E.failures err.old + 1) (err.new ≡ err.old)) }
    // who reads the output by a pipe gets nothing that looks like an answer
    ensures quiet { (result ≡ 2) ⊎ (result ≡ 3) → out.new ≡ out.old }
    // what went out can't be taken back, so all that is promised is that it is a beginning
    ensures begun { result ≡ 4 → (out.new ≡ out.old)
        ⊎ IsAnswerBegun task.now (D.left dump.old) (P.left probe.old) (O.taken out.old)
        (O.taken out.new) }
    // it is the text's own fault, and comes again however often it is tried
    ensures refused { result ≡ 2
        → IsTaskRefused task.now (D.left dump.old) (P.left probe.old) }
    ensures failed { result ≡ 4 → HasFailed (D.failures dump.old) (D.failures dump.new)
        (P.failures probe.old) (P.failures probe.new) (O.failures out.old) (O.failures out.new)
        ⊎ IsAlsoUnread task.now }
    // a script that calls the program has no other case
    ensures known { result ≤ 4 }
{
    match reply_to(alloc, task, dump, probe) {
        Ok(reply) => match send(out, err, &reply) {
            Ok(()) => reply.status(),
            Err(Failed) => report(err, Failure::Io),
        },
        Err(failure) => report(err, failure),
    }
}
