//! Tasks on boards that are constants: what they do where a read, a write or a growth fails.
use crate::failing::{leaves_beginnings, tells_failed_reads};
use crate::program::prints;
use crate::refused_tasks::is_refused_in_turn;
use pciplan_tasks::task::Task;
use std::alloc::{AllocError, Global};
use std::test::Fail;
use test_support::row::{Row, texts_of_rows};

/// A task, where there was memory for it.
pub type Made = Result<Task, AllocError>;

/// Fails unless a task that is refused a growth, whichever it is, says just that.
pub fn is_refused(alloc: Global, task: Made, board: &[Row]) -> Result<(), Fail> {
    let task = task?;
    let texts = texts_of_rows(alloc, board)?;
    if is_refused_in_turn(alloc, &task, &texts) {
        Ok(())
    } else {
        Err(Fail::new(format_args!("a growth is refused and isn't told")))
    }
}

/// Fails unless writers with too little room hold a beginning of the answer.
pub fn is_cut_off(
    alloc: Global,
    task: Made,
    board: &[Row],
    step: usize,
    rooms: &[usize],
) -> Result<(), Fail> {
    let task = task?;
    let texts = texts_of_rows(alloc, board)?;
    leaves_beginnings(alloc, &task, &texts, step, rooms)
}

/// Fails unless a task whose read of a text fails tells that, and answers with this status where none does.
pub fn is_unread(alloc: Global, task: Made, board: &[Row], status: u8) -> Result<(), Fail> {
    let task = task?;
    let texts = texts_of_rows(alloc, board)?;
    tells_failed_reads(alloc, &task, &texts, status)
}

/// Fails unless a line of words prints this about a board, and nothing to standard error.
pub fn is_printed(alloc: Global, words: &[&str], board: &[Row], wanted: &str) -> Result<(), Fail> {
    let texts = texts_of_rows(alloc, board)?;
    let (dump, probe) = (texts.dump.as_str(), texts.probe.as_str());
    prints(alloc, words, (dump, probe), (wanted, "", 0))
}
