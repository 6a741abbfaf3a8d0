//! Runs in which a read or a write fails.
use crate::program::{Answer, run_task};
use pci_dump::std_streams::{Incoming, Outgoing};
use pciplan_tasks::run::run;
use pciplan_tasks::task::Task;
use std::alloc::Global;
use std::test::Fail;
use test_support::board::Texts;
use test_support::fakes::{Narrow, Pieces};

/// What a task answers where one read of each text fails, counted from 1; 0 is none. A read gives up to 500 bytes.
pub fn with_failing_read(
    alloc: Global,
    task: &Task,
    texts: &Texts,
    dump_fails: u64,
    probe_fails: u64,
) -> Answer {
    let mut dump = Pieces::new(texts.dump.as_bytes(), 500, dump_fails);
    let mut probe = Pieces::new(texts.probe.as_bytes(), 500, probe_fails);
    run_on_pieces(alloc, task, &mut dump, &mut probe)
}

/// What a task answers to texts that come in pieces.
fn run_on_pieces(
    alloc: Global,
    task: &Task,
    dump: &mut Pieces<'_>,
    probe: &mut Pieces<'_>,
) -> Answer {
    let mut out = Vec::new(alloc);
    let mut err = Vec::new(alloc);
    let status = run(
        alloc,
        task,
        dump,
        probe,
        &mut Outgoing::new(&mut out),
        &mut Outgoing::new(&mut err),
    );
    Answer { status, out, err }
}

/// Whether a run ended with this message, or with an answer and its status.
fn is_told(got: &Answer, message: &[u8], status: u8) -> bool {
    match got.status {
        4 => got.out.is_empty() && got.err.as_slice() == message,
        other => other == status && got.err.is_empty(),
    }
}

/// Whether a task one of whose reads of a text fails tells that, of either text.
fn is_told_of_both(alloc: Global, task: &Task, texts: &Texts, at: u64, status: u8) -> bool {
    let dump = with_failing_read(alloc, task, texts, at, 0);
    let probe = with_failing_read(alloc, task, texts, 0, at);
    is_told(&dump, b"pciplan: dump: 1 Io\n".as_slice(), status)
        && is_told(&probe, b"pciplan: probe: 1 Io\n".as_slice(), status)
}

/// Fails unless a task whose read of a text fails, whichever it is, tells that and nothing else, and answers with this
/// status where none does.
pub fn tells_failed_reads(
    alloc: Global,
    task: &Task,
    texts: &Texts,
    status: u8,
) -> Result<(), Fail> {
    for at in 1..16u64 {
        if !is_told_of_both(alloc, task, texts, at, status) {
            return Err(Fail::new(format_args!("read {at} fails and isn't told")));
        }
    }
    Ok(())
}

/// What a task answers, whose answer goes to a writer.
fn with_writer(alloc: Global, task: &Task, texts: &Texts, writer: &mut Narrow) -> (u8, Vec<u8>) {
    let mut err = Vec::new(alloc);
    let status = run(
        alloc,
        task,
        &mut Incoming::new(texts.dump.as_bytes()),
        &mut Incoming::new(texts.probe.as_bytes()),
        &mut Outgoing::new(writer),
        &mut Outgoing::new(&mut err),
    );
    (status, err)
}

/// Whether a writer without room was told of, and holds a beginning of the answer.
fn is_beginning(status: u8, err: &[u8], taken: &[u8], whole: &[u8]) -> bool {
    status == 4
        && err == b"pciplan: 10 Io\n".as_slice()
        && whole.get(..taken.len()).is_some_and(|front| front == taken)
}

/// What a writer has room for.
#[derive(Clone, Copy)]
struct Room {
    room: usize,
    /// How many bytes it takes at once.
    step: usize,
    /// Whether it fails where it has no room, and doesn't take nothing.
    fails: bool,
}

/// Whether a writer without room for the whole answer holds all that it has room for.
fn leaves_beginning(alloc: Global, task: &Task, texts: &Texts, room: Room, whole: &[u8]) -> bool {
    let mut writer = Narrow {
        taken: Vec::new(alloc),
        room: room.room,
        step: room.step,
        fails: room.fails,
    };
    let (status, err) = with_writer(alloc, task, texts, &mut writer);
    let taken = writer.taken.as_slice();
    taken.len() == room.room && is_beginning(status, err.as_slice(), taken, whole)
}

/// Whether writers that fail and writers that take nothing both do.
fn leave_beginnings(
    alloc: Global,
    task: &Task,
    texts: &Texts,
    (room, step): (usize, usize),
    whole: &[u8],
) -> bool {
    for fails in [true, false] {
        let room = Room { room, step, fails };
        if !leaves_beginning(alloc, task, texts, room, whole) {
            return false;
        }
    }
    true
}

/// Fails unless writers with too little room, which take up to `step` bytes at once, hold a beginning of the answer.
pub fn leaves_beginnings(
    alloc: Global,
    task: &Task,
    texts: &Texts,
    step: usize,
    rooms: &[usize],
) -> Result<(), Fail> {
    let whole = run_task(alloc, task, texts.dump.as_str(), texts.probe.as_str());
    for room in rooms {
        if !leave_beginnings(alloc, task, texts, (*room, step), whole.out.as_slice()) {
            return Err(Fail::new(format_args!("with room for {room}")));
        }
    }
    Ok(())
}
