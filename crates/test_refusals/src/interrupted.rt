//! Verdicts where a read or a write fails.
use crate::failing::{leaves_beginnings, with_failing_read};
use crate::program::Answer;
use pci_tree::roots::Roots;
use pciplan_tasks::task::Task;
use std::alloc::Global;
use std::test::Fail;
use test_support::board::Texts;
use test_support::samples::{clash, tree};

/// A verdict with the one root bus 00.
fn task() -> Task {
    Task::Check {
        roots: Roots::host(),
    }
}

/// Whether a run whose read fails at a place ended with this message, and one whose reads were over with the verdict.
fn is_told(got: &Answer, at: u64, message: &[u8]) -> bool {
    // four reads that give bytes, and one that tells the end
    let is_cut = at < 6;
    got.status == (if is_cut { 4 } else { 1 })
        && got.out.is_empty() == is_cut
        && (!is_cut || got.err.as_slice() == message)
}

/// The same of a read of either text.
fn is_told_of_both(alloc: Global, texts: &Texts, at: u64) -> bool {
    let dump = with_failing_read(alloc, &task(), texts, at, 0);
    let probe = with_failing_read(alloc, &task(), texts, 0, at);
    is_told(&dump, at, b"pciplan: dump: 1 Io\n".as_slice())
        && is_told(&probe, at, b"pciplan: probe: 1 Io\n".as_slice())
}

#[test]
fn a_read_that_fails_leaves_no_verdict(rt: HostRuntime) -> Result<(), Fail> {
    let texts = clash(rt.alloc())?;
    for at in 1..9u64 {
        assert!(rt; is_told_of_both(rt.alloc(), &texts, at), "{at}");
    }
    Ok(())
}

#[test]
fn a_write_that_fails_leaves_a_beginning_of_the_line(rt: HostRuntime) -> Result<(), Fail> {
    for texts in [clash(rt.alloc())?, tree(rt.alloc())?] {
        leaves_beginnings(rt.alloc(), &task(), &texts, 1, &[0, 1, 2, 3])?;
    }
    Ok(())
}
