//! The picture of what a map is asked of.
ghost use Rattle.std.specs.Prelude.{◌≡◌, ◌⊎◌, ◌<◌, ◌≤◌, ◌+◌, IfErr, IfOk, map};
ghost use Rattle.std.specs.Io.KnownBytes.{Appends};
ghost use Rattle.pci_dump.specs.Begun.{AppendsBeginning};
ghost use Rattle.pci_check.specs.Audits.{IsDumpOf};
ghost use Rattle.pciplan_cli.specs.CarriedOut.{texts};
ghost use Rattle.pciplan_tasks.specs.Also.{IsAlsoUnread, IsAlsoTold};
ghost use Rattle.pciplan_tasks.specs.Answers.{AreRemarked, answer_of, text_bytes};
ghost use Rattle.pciplan_tasks.specs.Statuses.{status_of};
ghost use Rattle.pciplan_tasks.specs.Tasks.{HasFailed, IsAnswerTo, IsFailureOf};
ghost use Rattle.pciplan_tasks.specs.declared.task.Task.{Task};
ghost use Rattle.pciplan_front.specs.PictureAsked.{IsDrawnOrNot, IsPicture, IsPictureBegun, IsPictureDone, IsPictureRefused, IsPictureReply, map_words, titles_text};
ghost use Rattle.pciplan_front.specs.Went.{went};

use pci_base::memory::OutOfMemory;
use pci_dump::dump::Dump;
use pci_dump::reader::read_dump;
use pci_dump::streams::{Sink, Source};
use pci_picture::board::Texts;
use pci_picture::picture::picture_of;
use pciplan_cli::invocation::{Invocation, start};
use pciplan_cli::opened::Opening;
use pciplan_cli::outside::Outside;
use pciplan_cli::program::open_texts;
use pciplan_tasks::failure::{Failure, report};
use pciplan_tasks::faulting::faults_by;
use pciplan_tasks::mapping::map_by;
use pciplan_tasks::reply::{Reply, Text, send};
use pciplan_tasks::run::pair_reply;
use pciplan_tasks::task::{Beside, Task};
use std::alloc::{AllocError, Global};

/// The lines of an answer.
fn lines_of(text: &Text<Global>) -> Result<&str, OutOfMemory>
    ensures { IfOk result (λ lines. lines.now ≡ text_bytes text.now) }
{
    match text {
        Text::Lines(lines) => Ok(lines.as_str()),
        // no answer of these commands is the text of a dump
        Text::Dump(_) => Err(OutOfMemory),
    }
}

/// The slot lines of a dump that have a title.
fn titles_of(alloc: Global, dump: &Dump) -> Result<Vec<u8>, OutOfMemory>
    ensures { IfOk result (λ titles. titles.items ≡ titles_text dump.now) }
{
    let mut titles = Vec::new(alloc);
    for block in dump.blocks() {
        if let Some(title) = &block.title {
            let slot = format!(in alloc; "{} ", block.slot)?;
            titles.extend_from_slice(slot.as_bytes())?;
            titles.extend_from_slice(title.bytes())?;
            titles.push(b'\n')?;
        }
    }
    Ok(titles)
}

/// The picture of a dump and its probe with what is said beside them; the answer of `map` where there is no map of them.
fn drawn(
    alloc: Global,
    beside: &Beside,
    dump: Dump,
    probe: Dump,
) -> Result<Reply<Global>, OutOfMemory>
    ensures { IfOk result (λ reply. IsDrawnOrNot beside.now dump probe (answer_of reply)) }
{
    let map = map_by(alloc, &dump, &probe, beside)?;
    if map.refused {
        return Ok(map);
    }
    let faults = faults_by(alloc, &dump, &probe, beside, true)?;
    let titles = titles_of(alloc, &dump)?;
    let shown = pair_reply(alloc, &Task::Show, dump, probe)?;
    let texts = Texts {
        show: lines_of(&shown.text)?,
        map: lines_of(&map.text)?,
        faults: lines_of(&faults.text)?,
        titles: titles.as_slice(),
    };
    match picture_of(alloc, &texts) {
        Ok(picture) => Ok(Reply {
            text: Text::Lines(picture),
            ..map
        }),
        Err(_) => Err(OutOfMemory),
    }
}

/// The same of the dump and the probe whose texts are left.
fn drawn_texts<D: Source, P: Source>(
    alloc: Global,
    beside: &Beside,
    dump: &mut D,
    probe: &mut P,
) -> Result<Reply<Global>, Failure>
    ensures reply { IfOk result (λ reply. IsAlsoTold beside.now.also
        × IsAnswerTo IsDumpOf (IsDrawnOrNot beside.now) (D.left dump.old) (P.left probe.old)
        (answer_of reply)) }
    ensures failure { IfErr result
        (IsFailureOf (Task.Map beside.now) (D.left dump.old) (P.left probe.old)) }
    ensures failed { IfErr result (λ failure. status_of failure ≡ 4
        → (D.failures dump.new ≡ D.failures dump.old + 1)
        ⊎ (P.failures probe.new ≡ P.failures probe.old + 1) ⊎ IsAlsoUnread (Task.Map beside.now)) }
{
    let dump = match read_dump(alloc, dump) {
        Ok(dump) => dump,
        Err(fault) => return Err(Failure::Dump(fault)),
    };
    let probe = match read_dump(alloc, probe) {
        Ok(probe) => probe,
        Err(fault) => return Err(Failure::Probe(fault)),
    };
    match beside.also.fault() {
        Some(fault) => Err(Failure::Also(fault)),
        None => Ok(drawn(alloc, beside, dump, probe)?),
    }
}

/// The same of the texts at the paths of a line of `map`.
fn line_drawn<D: Opening, P: Opening>(
    alloc: Global,
    line: &Invocation,
    beside: &Beside,
    dump: &mut D,
    second: &mut P,
) -> Result<Reply<Global>, Failure>
    requires { line.now.task ≡ Task.Map beside.now }
    ensures reply { IfOk result (λ reply. IsPictureReply line.now
        (texts (D.stands dump.old) (D.bytes_at dump.old))
        (texts (P.stands second.old) (P.bytes_at second.old)) (answer_of reply)) }
    ensures refused { IfErr result (λ failure. status_of failure ≡ 2 → IsPictureRefused line.now
        (texts (D.stands dump.old) (D.bytes_at dump.old))
        (texts (P.stands second.old) (P.bytes_at second.old))) }
    ensures failed { IfErr result (λ failure. status_of failure ≡ 4
        → (D.failures dump.new ≡ D.failures dump.old + 1)
        ⊎ (P.failures second.new ≡ P.failures second.old + 1) ⊎ IsAlsoUnread line.now.task) }
{
    match open_texts(alloc, line, dump, second) {
        Ok(()) => drawn_texts(alloc, beside, dump, second),
        Err(failure) => Err(failure),
    }
}

/// The same of a line; the words of a map make no line of another task.
fn picture_reply<D: Opening, P: Opening>(
    alloc: Global,
    line: &Invocation,
    dump: &mut D,
    second: &mut P,
) -> Result<Reply<Global>, Failure>
    ensures reply { IfOk result (λ reply. IsPictureReply line.now
        (texts (D.stands dump.old) (D.bytes_at dump.old))
        (texts (P.stands second.old) (P.bytes_at second.old)) (answer_of reply)) }
    ensures refused { IfErr result (λ failure. status_of failure ≡ 2 → IsPictureRefused line.now
        (texts (D.stands dump.old) (D.bytes_at dump.old))
        (texts (P.stands second.old) (P.bytes_at second.old))) }
    ensures failed { IfErr result (λ failure. status_of failure ≡ 4
        → (D.failures dump.new ≡ D.failures dump.old + 1)
        ⊎ (P.failures second.new ≡ P.failures second.old + 1) ⊎ IsAlsoUnread line.now.task) }
{
    match &line.task {
        Task::Map { beside } => line_drawn(alloc, line, beside, dump, second),
        _ => Err(Failure::Usage),
    }
}

/// Carries out a line, and writes the picture.
#[tactic(auto, using(crate::proofs::PictureReplies::done_of_reply, crate::proofs::PictureReplies::begun_of_reply))]
fn draw<D: Opening, P: Opening, M, O: Sink, E: Sink>(
    alloc: Global,
    line: &Invocation,
    outside: &mut Outside<D, P, M, O, E>,
) -> u8
    ensures done { result < 2 → IsPictureDone line.now
        (texts (D.stands outside.old.dump) (D.bytes_at outside.old.dump))
        (texts (P.stands outside.old.second) (P.bytes_at outside.old.second)) result
        (Appends (O.taken outside.old.out) (O.taken outside.new.out))
        (AreRemarked (E.taken outside.old.err) (E.taken outside.new.err)
        (E.failures outside.new.err ≡ E.failures outside.old.err + 1)
        (outside.new.err ≡ outside.old.err)) }
    ensures quiet { (result ≡ 2) ⊎ (result ≡ 3) → outside.new.out ≡ outside.old.out }
    ensures begun { result ≡ 4 → (outside.new.out ≡ outside.old.out)
        ⊎ IsPictureBegun line.now
        (texts (D.stands outside.old.dump) (D.bytes_at outside.old.dump))
        (texts (P.stands outside.old.second) (P.bytes_at outside.old.second))
        (AppendsBeginning (O.taken outside.old.out) (O.taken outside.new.out)) }
    ensures refused { result ≡ 2 → IsPictureRefused line.now
        (texts (D.stands outside.old.dump) (D.bytes_at outside.old.dump))
        (texts (P.stands outside.old.second) (P.bytes_at outside.old.second)) }
    ensures failed { result ≡ 4 → HasFailed (D.failures outside.old.dump) (D.failures outside.new.dump)
        (P.failures outside.old.second) (P.failures outside.new.second)
        (O.failures outside.old.out) (O.failures outside.new.out)
        ⊎ IsAlsoUnread line.now.task }
    ensures third { outside.new.third ≡ outside.old.third }
    ensures known { result ≤ 4 }
{
    match picture_reply(alloc, line, &mut outside.dump, &mut outside.second) {
        Ok(reply) => match send(&mut outside.out, &mut outside.err, &reply) {
            Ok(()) => reply.status(),
            Err(_) => report(&mut outside.err, Failure::Io),
        },
        Err(failure) => report(&mut outside.err, failure),
    }
}

/// The words of the map behind those of a picture.
fn with_map<'a>(alloc: Global, words: &[&'a str]) -> Result<Vec<&'a str>, AllocError>
    ensures { IfOk result (λ made. map (λ word. word.now) made.items
        ≡ map_words (map (λ word. word.now) words.now)) }
{
    let mut made = Vec::new(alloc);
    made.push("map")?;
    made.extend_from_slice(words)?;
    Ok(made)
}

/// Writes the picture of what the words behind `picture` ask for, which are those behind `map`, to `out`. The messages and
/// the status are those of `map`, and so is what is written where its answer is `no`.
pub fn picture<D: Opening, P: Opening, M, O: Sink, E: Sink>(
    alloc: Global,
    words: &[&str],
    outside: &mut Outside<D, P, M, O, E>,
) -> u8
    ensures done { IsPicture (map (λ w. w.now) words.now)
        (texts (D.stands outside.old.dump) (D.bytes_at outside.old.dump))
        (texts (P.stands outside.old.second) (P.bytes_at outside.old.second))
        (texts (P.stands outside.old.third) (P.bytes_at outside.old.third)) result
        (went (O.taken outside.old.out) (O.taken outside.new.out) (outside.new.out ≡ outside.old.out)
        (O.failures outside.new.out ≡ O.failures outside.old.out + 1))
        (went (E.taken outside.old.err) (E.taken outside.new.err) (outside.new.err ≡ outside.old.err)
        (E.failures outside.new.err ≡ E.failures outside.old.err + 1))
        (HasFailed (D.failures outside.old.dump) (D.failures outside.new.dump)
        (P.failures outside.old.second) (P.failures outside.new.second)
        (O.failures outside.old.out) (O.failures outside.new.out)
        ⊎ (P.failures outside.new.third ≡ P.failures outside.old.third + 1)) }
    ensures known { result ≤ 4 }
{
    let Ok(words) = with_map(alloc, words) else {
        return report(&mut outside.err, Failure::Memory);
    };
    match start(
        alloc,
        words.as_slice(),
        &mut outside.third,
        &mut outside.err,
    ) {
        Ok(line) => draw(alloc, &line, outside),
        Err(status) => status,
    }
}
