//! Deriving a probe where a read, a write or a growth fails.
use crate::failing::{leaves_beginnings, with_failing_read};
use crate::program::Answer;
use crate::refused_tasks::is_refused_in_turn;
use pci_machine::assuming::Assuming;
use pciplan_tasks::task::Task;
use std::alloc::{AllocError, Global};
use std::fmt::Write;
use std::test::Fail;
use test_support::board::{Texts, device, texts_of};

/// A probe in which read backs may be assumed.
fn task() -> Task {
    Task::Probe {
        assuming: Assuming::Disabled,
    }
}

/// Appends a block of sizes, with its first line.
fn push_sizes(text: &mut String, slot: &str, first: &str) -> Result<(), AllocError> {
    writeln!(text, "{slot}")?;
    writeln!(text, "{first}")?;
    for _ in 0..6 {
        writeln!(text, "0x{:016x} 0x{:016x} 0x{:016x}", 0, 0, 0)?;
    }
    writeln!(text, "")
}

/// A dump of two functions, of one of which a size is told, and the sizes in the place of its probe.
fn example(alloc: Global) -> Result<Texts, AllocError> {
    let board = [
        device("00:01.0", 2, &[(0x10, 0xfebc_0000, 0)]),
        device("00:02.0", 0, &[(0x30, 0xe000_0000, 0)]),
    ];
    let dump = texts_of(alloc, &board)?.dump;
    let mut probe = String::new(alloc);
    let told = "0x00000000febc0000 0x00000000febdffff 0x0000000000040200";
    let none = "0x0000000000000000 0x0000000000000000 0x0000000000000000";
    push_sizes(&mut probe, "00:01.0", told)?;
    push_sizes(&mut probe, "00:02.0", none)?;
    Ok(Texts { dump, probe })
}

#[test]
fn a_probe_that_is_refused_a_growth_says_just_that(rt: HostRuntime) -> Result<(), Fail> {
    let texts = example(rt.alloc())?;
    assert!(rt; is_refused_in_turn(rt.alloc(), &task(), &texts));
    leaves_beginnings(rt.alloc(), &task(), &texts, 7, &[0, 1, 100, 300])
}

/// Whether a run whose read failed tells that and nothing else, and another one the read back that it assumed.
fn is_told(got: &Answer, message: &[u8]) -> bool {
    match got.status {
        4 => got.out.is_empty() && got.err.as_slice() == message,
        0 => got.err.as_slice() == b"pciplan: assumed 00:02.0 30\n".as_slice(),
        _ => false,
    }
}

/// Whether that is so where a read of either text fails, and then whether it is the sizes of which one failed.
fn is_told_of_both(alloc: Global, texts: &Texts, at: u64) -> (bool, bool) {
    let dump = with_failing_read(alloc, &task(), texts, at, 0);
    let sizes = with_failing_read(alloc, &task(), texts, 0, at);
    let are_told = is_told(&dump, b"pciplan: dump: 1 Io\n".as_slice())
        && is_told(&sizes, b"pciplan: sizes: 1 Io\n".as_slice());
    (are_told, sizes.status == 4)
}

#[test]
fn a_probe_is_derived_of_what_can_be_read(rt: HostRuntime) -> Result<(), Fail> {
    let texts = example(rt.alloc())?;
    let mut failed = 0u64;
    for at in 1..9u64 {
        let (are_told, is_failed) = is_told_of_both(rt.alloc(), &texts, at);
        assert!(rt; are_told, "{at}");
        if is_failed {
            failed = at;
        }
    }
    assert!(rt; 1 < failed && failed < 8, "{failed}");
    Ok(())
}
