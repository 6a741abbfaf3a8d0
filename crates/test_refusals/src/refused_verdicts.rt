//! Listing and judging, with the first growth refused, then with the second, and so on until no refusal is met.
use crate::refused_readings::both;
use crate::turn::{Turn, turn_by_fault, turn_of};
use pci_base::memory::OutOfMemory;
use pci_check::audit::audit;
use pci_check::check::check;
use pci_check::judge::judge;
use pci_check::line::line_of;
use pci_check::outcome::AuditFault;
use pci_check::verdict::Verdict;
use pci_dump::dump::Dump;
use pci_dump::std_streams::{Incoming, Outgoing};
use pci_dump::write::write_dump;
use pci_tree::admit::admit;
use pci_tree::admitted::Admitted;
use pci_tree::fault::Fault;
use pci_tree::outline::Outline;
use pci_tree::space::Space;
use std::alloc::Global;
use std::test::Fail;
use test_support::board::Texts;
use test_support::refusing::{MANY, Refusing};
use test_support::samples::samples;

/// The admission of two texts, with no growth refused.
pub fn admitted<'a>(
    heap: &'a Refusing<Global>,
    texts: &Texts,
) -> Option<Admitted<&'a Refusing<Global>>> {
    let (dump, probe) = both(heap, texts)?;
    admit(heap, dump, probe).ok()
}

/// The number of the fault that a growing call ended with.
fn number_of<T: Drop>(answer: Result<T, OutOfMemory>) -> Option<u8> {
    match answer {
        Ok(_) => None,
        Err(refused) => Some(refused.number()),
    }
}

/// A question on a system, of a bus and a space where it is on these.
#[derive(Clone, Copy)]
enum Question {
    Bridges,
    Regions(u8, Space),
    Sorted(u8, Space),
    Reach(u8, Space, bool),
}

const QUESTIONS: [Question; 16] = [
    Question::Bridges,
    Question::Regions(0, Space::Mem),
    Question::Regions(1, Space::Mem),
    Question::Regions(1, Space::Io),
    Question::Regions(2, Space::Mem),
    Question::Regions(2, Space::Io),
    Question::Sorted(0, Space::Mem),
    Question::Sorted(1, Space::Mem),
    Question::Sorted(1, Space::Io),
    Question::Sorted(2, Space::Mem),
    Question::Sorted(2, Space::Io),
    Question::Reach(0, Space::Io, false),
    Question::Reach(1, Space::Mem, false),
    Question::Reach(2, Space::Mem, true),
    Question::Reach(2, Space::Io, false),
    Question::Reach(255, Space::Mem, false),
];

/// The number of the fault that a question ends with, where the admission is asked.
fn fault_of<'a>(board: &Admitted<&'a Refusing<Global>>, question: Question) -> Option<u8> {
    match question {
        Question::Bridges => number_of(board.bridges()),
        Question::Regions(bus, space) => number_of(board.regions(bus, space)),
        Question::Sorted(bus, space) => number_of(board.sorted(bus, space)),
        Question::Reach(bus, space, prefetch) => number_of(board.reach(bus, space, prefetch)),
    }
}

/// The same, where its outline is asked.
fn outline_fault_of<'a>(outline: &Outline<&'a Refusing<Global>>, question: Question) -> Option<u8> {
    match question {
        Question::Bridges => number_of(outline.bridges()),
        Question::Regions(bus, space) => number_of(outline.regions(bus, space)),
        Question::Sorted(bus, space) => number_of(outline.sorted(bus, space)),
        Question::Reach(bus, space, prefetch) => number_of(outline.reach(bus, space, prefetch)),
    }
}

/// The turn of a question where the n-th growth is refused; the outline's answer is the admission's.
fn turn_of_question<'a>(
    heap: &'a Refusing<Global>,
    board: &Admitted<&'a Refusing<Global>>,
    question: Question,
    n: u64,
) -> Turn {
    heap.refuse(n);
    let fault = fault_of(board, question);
    let is_whole = heap.is_due();
    heap.refuse(n);
    if outline_fault_of(board.outline(), question) == fault {
        turn_by_fault(is_whole, fault)
    } else {
        Turn::Wrong
    }
}

/// How many growths of a question are refused in turn.
fn refusals_of_question<'a>(
    heap: &'a Refusing<Global>,
    board: &Admitted<&'a Refusing<Global>>,
    question: Question,
) -> u64 {
    for n in 1..MANY {
        if let Some(refused) = turn_of_question(heap, board, question, n).end(n) {
            return refused;
        }
    }
    MANY
}

/// How many growths of all questions are refused; none where an answer is wrong.
fn refusals_of_questions(heap: &Refusing<Global>, texts: &Texts) -> Option<u64> {
    let board = admitted(heap, texts)?;
    let mut refused = 0u64;
    for question in QUESTIONS {
        let more = refusals_of_question(heap, &board, question);
        if more == MANY {
            return None;
        }
        refused = refused.wrapping_add(more);
    }
    Some(refused)
}

#[test]
fn each_growth_of_a_listing_is_refused(rt: HostRuntime) -> Result<(), Fail> {
    let heap = Refusing::new(rt.alloc());
    let mut refused = 0u64;
    for (texts, _) in samples(rt.alloc())? {
        let more = refusals_of_questions(&heap, &texts);
        assert!(rt; more.is_some());
        refused = refused.wrapping_add(more.unwrap_or(0));
    }
    assert!(rt; 20 < refused, "{refused}");
    Ok(())
}

/// Whether a dump is written as this text.
pub fn is_written_as<'a>(alloc: Global, dump: &Dump<&'a Refusing<Global>>, text: &str) -> bool {
    let mut bytes = Vec::new(alloc);
    let is_written = write_dump(&mut Outgoing::new(&mut bytes), dump).is_ok();
    is_written && bytes.as_slice() == text.as_bytes()
}

/// Whether two texts are still those that were admitted.
pub fn is_as_it_was<'a>(
    alloc: Global,
    board: &Admitted<&'a Refusing<Global>>,
    texts: &Texts,
) -> bool {
    is_written_as(alloc, board.dump(), texts.dump.as_str())
        && is_written_as(alloc, board.probe(), texts.probe.as_str())
}

/// The fault of a verdict.
fn fault_in<'a>(verdict: &Verdict<'_, &'a Refusing<Global>>) -> Option<Fault> {
    match verdict {
        Verdict::Yes(_) => None,
        Verdict::No(fault) => Some(*fault),
    }
}

/// What judging an admission's outline answers.
fn judged<'a>(
    heap: &'a Refusing<Global>,
    board: &Admitted<&'a Refusing<Global>>,
) -> Result<Option<Fault>, OutOfMemory> {
    judge(heap, board.outline())
}

/// What checking an admission answers.
fn checked<'a>(
    heap: &'a Refusing<Global>,
    board: &Admitted<&'a Refusing<Global>>,
) -> Result<Option<Fault>, OutOfMemory> {
    let verdict = check(heap, board)?;
    Ok(fault_in(&verdict))
}

/// The turn of judging by what it answered.
fn turn_by_answer(
    is_whole: bool,
    answer: Result<Option<Fault>, OutOfMemory>,
    wanted: &Option<Fault>,
) -> Turn {
    match answer {
        Ok(fault) => turn_of(is_whole, is_whole && fault == *wanted),
        Err(OutOfMemory) => turn_of(is_whole, !is_whole),
    }
}

/// The turn of judging, or of checking, where the n-th growth is refused.
fn turn_of_verdict<'a>(
    heap: &'a Refusing<Global>,
    board: &Admitted<&'a Refusing<Global>>,
    wanted: &Option<Fault>,
    n: u64,
    is_check: bool,
) -> Turn {
    heap.refuse(n);
    let answer = if is_check {
        checked(heap, board)
    } else {
        judged(heap, board)
    };
    turn_by_answer(heap.is_due(), answer, wanted)
}

/// Whether an admission is checked with this answer where no growth is refused.
fn is_checked<'a>(
    heap: &'a Refusing<Global>,
    board: &Admitted<&'a Refusing<Global>>,
    wanted: &Option<Fault>,
) -> bool {
    heap.refuse(0);
    match checked(heap, board) {
        Ok(fault) => fault == *wanted,
        Err(_) => false,
    }
}

/// How many growths of a verdict are refused in turn. The board stays as it was, and is checked after each.
fn refusals_of_verdict<'a>(
    alloc: Global,
    heap: &'a Refusing<Global>,
    board: &Admitted<&'a Refusing<Global>>,
    texts: &Texts,
    wanted: &Option<Fault>,
) -> u64 {
    for n in 1..MANY {
        let judging = turn_of_verdict(heap, board, wanted, n, false);
        let checking = turn_of_verdict(heap, board, wanted, n, true);
        if !is_as_it_was(alloc, board, texts) || !is_checked(heap, board, wanted) {
            return MANY;
        }
        let turn = judging.and(checking);
        if let Some(refused) = turn.end(n) {
            return refused;
        }
    }
    MANY
}

/// Whether a verdict's line is this one.
fn is_told(alloc: Global, fault: &Option<Fault>, line: &str) -> bool {
    match line_of(alloc, *fault) {
        Ok(told) => told.as_str() == line,
        Err(_) => false,
    }
}

/// The same of a board's texts and the line of its verdict.
fn refusals_on(alloc: Global, heap: &Refusing<Global>, texts: &Texts, line: &str) -> u64 {
    let Some(board) = admitted(heap, texts) else {
        return MANY;
    };
    let Ok(wanted) = judged(heap, &board) else {
        return MANY;
    };
    if !is_told(alloc, &wanted, line) {
        return MANY;
    }
    refusals_of_verdict(alloc, heap, &board, texts, &wanted)
}

#[test]
fn each_growth_of_a_verdict_is_refused(rt: HostRuntime) -> Result<(), Fail> {
    let heap = Refusing::new(rt.alloc());
    for (texts, line) in samples(rt.alloc())? {
        let refused = refusals_on(rt.alloc(), &heap, &texts, line);
        assert!(rt; 0 < refused && refused < MANY, "{refused}");
    }
    Ok(())
}

/// The number of the fault that auditing two texts ends with.
fn audit_fault(heap: &Refusing<Global>, texts: &Texts, out: &mut Vec<u8>) -> Option<u8> {
    let outcome = audit(
        heap,
        &mut Incoming::new(texts.dump.as_bytes()),
        &mut Incoming::new(texts.probe.as_bytes()),
        &mut Outgoing::new(out),
    );
    match outcome {
        Ok(_) => None,
        Err(AuditFault::Memory) => Some(OutOfMemory.number()),
        Err(AuditFault::Dump(fault) | AuditFault::Probe(fault)) => Some(fault.number()),
        Err(AuditFault::Write) => Some(10),
    }
}

/// The turn of auditing two texts where the n-th growth is refused; it writes its line at once or nothing.
fn turn_of_audit(
    alloc: Global,
    heap: &Refusing<Global>,
    texts: &Texts,
    line: &str,
    n: u64,
) -> Turn {
    heap.refuse(n);
    let mut out = Vec::new(alloc);
    let fault = audit_fault(heap, texts, &mut out);
    let is_whole = heap.is_due();
    let wanted = if is_whole { line } else { "" };
    if out.as_slice() == wanted.as_bytes() {
        turn_by_fault(is_whole, fault)
    } else {
        Turn::Wrong
    }
}

/// How many growths of an audit are refused in turn.
fn refusals_of_audit(alloc: Global, heap: &Refusing<Global>, texts: &Texts, line: &str) -> u64 {
    for n in 1..MANY {
        if let Some(refused) = turn_of_audit(alloc, heap, texts, line, n).end(n) {
            return refused;
        }
    }
    MANY
}

#[test]
fn an_audit_that_is_refused_a_growth_writes_nothing(rt: HostRuntime) -> Result<(), Fail> {
    let heap = Refusing::new(rt.alloc());
    for (texts, line) in samples(rt.alloc())? {
        let refused = refusals_of_audit(rt.alloc(), &heap, &texts, line);
        assert!(rt; 0 < refused && refused < MANY, "{refused}");
    }
    Ok(())
}
