//! The program, run on texts that are held in memory.
use crate::opening::Shelf;
use pci_dump::std_streams::{Incoming, Outgoing};
use pciplan_cli::invocation::start;
use pciplan_tasks::run::run;
use pciplan_tasks::task::Task;
use std::alloc::{Allocator, Global};
use std::test::Fail;

/// What a run left: its status, and what it wrote.
#[derive(Drop)]
pub struct Answer {
    pub status: u8,
    pub out: Vec<u8>,
    pub err: Vec<u8>,
}

/// What a task answers to two texts, where it grows by `alloc`, and what it writes by `heap`.
pub fn run_by<A: Allocator + Copy>(
    heap: Global,
    alloc: A,
    task: &Task,
    dump: &str,
    probe: &str,
) -> Answer {
    let mut out = Vec::new(heap);
    let mut err = Vec::new(heap);
    let status = run(
        alloc,
        task,
        &mut Incoming::new(dump.as_bytes()),
        &mut Incoming::new(probe.as_bytes()),
        &mut Outgoing::new(&mut out),
        &mut Outgoing::new(&mut err),
    );
    Answer { status, out, err }
}

/// The same with all the memory that it asks for.
pub fn run_task(alloc: Global, task: &Task, dump: &str, probe: &str) -> Answer {
    run_by(alloc, alloc, task, dump, probe)
}

/// What a line of words answers to two texts. It names no third one.
fn run_words(alloc: Global, words: &[&str], dump: &str, probe: &str) -> Answer {
    let mut out = Vec::new(alloc);
    let mut err = Vec::new(alloc);
    let status = {
        let mut errors = Outgoing::new(&mut err);
        match start(alloc, words, &mut Shelf::closed(&[]), &mut errors) {
            Err(status) => status,
            Ok(line) => run(
                alloc,
                &line.task,
                &mut Incoming::new(dump.as_bytes()),
                &mut Incoming::new(probe.as_bytes()),
                &mut Outgoing::new(&mut out),
                &mut errors,
            ),
        }
    };
    Answer { status, out, err }
}

/// Whether a run left what is wanted on standard output and on standard error, and the status.
fn is_answer(got: &Answer, wanted: (&str, &str, u8)) -> Result<(), Fail> {
    let (out, err, status) = wanted;
    if got.out.as_slice() != out.as_bytes() {
        return Err(Fail::new(format_args!("not on standard output: {out}")));
    }
    if got.err.as_slice() != err.as_bytes() {
        return Err(Fail::new(format_args!("not on standard error: {err}")));
    }
    if got.status != status {
        let left = got.status;
        return Err(Fail::new(format_args!("status {left}: {out}{err}")));
    }
    Ok(())
}

/// Whether a line of words prints this about a dump and its probe: what it writes to standard output and to standard
/// error, and its status.
///
/// # Errors
///
/// What isn't as it is wanted.
pub fn prints(
    alloc: Global,
    words: &[&str],
    texts: (&str, &str),
    wanted: (&str, &str, u8),
) -> Result<(), Fail> {
    is_answer(&run_words(alloc, words, texts.0, texts.1), wanted)
}
