//! Listings and sizes where a text is none, or a read, a write or a growth fails.
use crate::failing::{leaves_beginnings, with_failing_read};
use crate::program::prints;
use crate::refused_tasks::is_refused_in_turn;
use pci_dump::std_streams::{Incoming, Outgoing};
use pciplan_tasks::run::run;
use pciplan_tasks::task::Task;
use std::alloc::{AllocError, Global};
use std::test::Fail;
use test_support::board::{Texts, bridge, device, list_at, texts_of};
use test_support::fakes::Narrow;

/// Three functions with a line of each sort.
fn example(alloc: Global) -> Result<Texts, AllocError> {
    let bar_and_rom = [(0x10, 0xe000_0000, 0xfff0_0000), (0x30, 0, 0xffff_0000)];
    texts_of(
        alloc,
        &[
            bridge("00:01.0", 0, (0, 1, 1), &[]),
            device("00:02.0", 0, &bar_and_rom),
            list_at("00:03.0", 0x40).bytes(0x40, &[0x09]),
        ],
    )
}

#[test]
fn a_text_that_is_none_has_its_message(rt: HostRuntime) -> Result<(), Fail> {
    let good = example(rt.alloc())?;
    let (dump, probe) = (good.dump.as_str(), good.probe.as_str());
    let cut = dump.len().saturating_sub(100);
    let short = dump.get(..cut).unwrap_or("");
    let other = probe.get(..cut).unwrap_or("");
    for (dump, probe, message) in [
        ("00:20.0\n", probe, "pciplan: dump: 3 BadSlot 1\n"),
        ("00:01.0 \n", probe, "pciplan: dump: 4 BadTitle 1\n"),
        ("00:01.0\n00: G", probe, "pciplan: dump: 5 BadLine 2\n"),
        (short, probe, "pciplan: dump: 9 Ended 52\n"),
        (short, "G", "pciplan: dump: 9 Ended 52\n"),
        (dump, other, "pciplan: probe: 9 Ended 52\n"),
        (dump, "G", "pciplan: probe: 3 BadSlot 1\n"),
    ] {
        prints(
            rt.alloc(),
            &["show", "d", "p"],
            (dump, probe),
            ("", message, 2),
        )?;
    }
    Ok(())
}

#[test]
fn each_read_that_fails_ends_with_status_4(rt: HostRuntime) -> Result<(), Fail> {
    let example = example(rt.alloc())?;
    let mut failed = 0u64;
    for at in 1..20u64 {
        for (dump_fails, probe_fails, message) in [
            (at, 0, b"pciplan: dump: 1 Io\n".as_slice()),
            (0, at, b"pciplan: probe: 1 Io\n".as_slice()),
        ] {
            let got = with_failing_read(rt.alloc(), &Task::Show, &example, dump_fails, probe_fails);
            if got.status == 4 {
                failed = failed.max(dump_fails);
                assert!(rt; got.out.is_empty(), "{at}");
                assert!(rt; got.err.as_slice() == message, "{at}");
            } else {
                assert_eq!(rt; got.status, 0, "{at}");
            }
        }
    }
    assert!(rt; 4 < failed && failed < 19, "{failed}");
    Ok(())
}

#[test]
fn a_writer_that_fails_holds_a_beginning(rt: HostRuntime) -> Result<(), Fail> {
    let example = example(rt.alloc())?;
    for task in [Task::Show, Task::Size] {
        leaves_beginnings(rt.alloc(), &task, &example, 7, &[0, 1, 100, 300])?;
    }
    Ok(())
}

#[test]
fn a_message_that_cannot_be_written_changes_no_status(rt: HostRuntime) -> Result<(), Fail> {
    let mut writer = Narrow {
        taken: Vec::new(rt.alloc()),
        room: 12,
        step: 5,
        fails: true,
    };
    let mut out = Vec::new(rt.alloc());
    let status = run(
        rt.alloc(),
        &Task::Show,
        &mut Incoming::new(b"G".as_slice()),
        &mut Incoming::new(b"".as_slice()),
        &mut Outgoing::new(&mut out),
        &mut Outgoing::new(&mut writer),
    );
    assert_eq!(rt; status, 2);
    assert!(rt; out.is_empty());
    assert!(rt; writer.taken.as_slice() == b"pciplan: dum".as_slice());
    Ok(())
}

#[test]
fn a_refused_growth_writes_nothing(rt: HostRuntime) -> Result<(), Fail> {
    let example = example(rt.alloc())?;
    for task in [Task::Show, Task::Size] {
        assert!(rt; is_refused_in_turn(rt.alloc(), &task, &example));
    }
    Ok(())
}
