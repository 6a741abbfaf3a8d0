//! The program's settling where a read, a write or a growth fails.
use crate::on_boards::{Made, is_cut_off, is_printed, is_refused, is_unread};
use crate::program::prints;
use pci_base::range::{Range, RootRange};
use pci_base::slot::Slot;
use pci_base::window_kind::ByKind;
use pci_model::words::{VgaWord, Words};
use pci_script::form::Form;
use pci_tree::roots::Roots;
use pciplan_tasks::task::{Also, Printed, SettleLists, SettleRequest, Task};
use std::alloc::{AllocError, Global};
use std::test::Fail;
use test_support::row::Row::{Bridge, Device};
use test_support::row::{Row, texts_of_rows};

/// A list with one range of all root buses.
fn list_of(alloc: Global, first: u64, last: u64) -> Result<Vec<RootRange>, AllocError> {
    let mut list = Vec::new(alloc);
    list.push(RootRange {
        root: None,
        range: Range { first, last },
    })?;
    Ok(list)
}

/// The function at a device of bus 00, where one is named.
fn fixed_at(alloc: Global, device: Option<u8>) -> Result<Vec<Slot>, AllocError> {
    let mut slots = Vec::new(alloc);
    if let Some(slot) = device.and_then(|dev| Slot::new(0, dev, 0)) {
        slots.push(slot)?;
    }
    Ok(slots)
}

/// 60 KB of I/O, memory from E0000000h to this address, and no prefetchable memory.
fn lists_to(alloc: Global, last: u64) -> Result<SettleLists, AllocError> {
    Ok(SettleLists {
        io: list_of(alloc, 0x1000, 0xffff)?,
        mem: list_of(alloc, 0xe000_0000, last)?,
        pref: Vec::new(alloc),
    })
}

/// Nothing is wanted behind any slot.
fn no_spares() -> ByKind<u64> {
    ByKind {
        io: 0,
        memory: 0,
        prefetchable: 0,
    }
}

/// Settling in these lists, with the function at this device of bus 00 not to be written, where one is named, and else all
/// placed anew.
fn task_to(alloc: Global, last: u64, fixed: Option<u8>, printed: Printed) -> Made {
    let request = SettleRequest {
        roots: Roots::host(),
        lists: lists_to(alloc, last)?,
        fixed: fixed_at(alloc, fixed)?,
        anew: fixed.is_none(),
        also: Also::nothing(alloc),
        words: None,
        spares: no_spares(),
        slots: None,
    };
    Ok(Task::Settle { request, printed })
}

/// A bridge with a BAR behind it that is on at its own window's place, and a BAR beside it.
const BOARD: &[Row] = &[
    Bridge("00:01.0", 2, (0, 1, 1), &[(0x20, 0xe010_e010, 0xfff0_fff0)]),
    Device("00:02.0", 0, &[(0x10, 0x0000_0000, 0xfff0_0000)]),
    Device("01:00.0", 2, &[(0x10, 0xe010_0000, 0xffff_f000)]),
];

/// The writes that settle it.
const WRITES: &str = "01:00.0 04.2 0000
00:01.0 20.4 0000fff0
00:01.0 20.4 e000e000
00:02.0 10.4 e0100000
01:00.0 10.4 e0000000
00:02.0 04.2 0002
01:00.0 04.2 0002
";

/// The last address with which it has room.
const LAST: u64 = 0xe01f_ffff;

#[test]
fn writes_of_settling_are_printed(rt: HostRuntime) -> Result<(), Fail> {
    const WORDS: &[&str] = &[
        "settle",
        "d",
        "p",
        "--io",
        "none",
        "--mem",
        "e0000000-e01fffff",
        "--pref",
        "none",
        "--anew",
        "--writes",
    ];
    is_printed(rt.alloc(), WORDS, BOARD, WRITES)
}

#[test]
fn what_stands_is_left_where_it_is(rt: HostRuntime) -> Result<(), Fail> {
    const WORDS: &[&str] = &[
        "settle",
        "d",
        "p",
        "--io",
        "none",
        "--mem",
        "e0000000-e01fffff",
        "--pref",
        "none",
        "--fixed",
        "00:01.0,01:00.0",
        "--writes",
    ];
    const FEW: &str = "00:02.0 10.4 e0000000\n00:02.0 04.2 0002\n";
    is_printed(rt.alloc(), WORDS, BOARD, FEW)
}

#[test]
fn settling_that_is_refused_a_growth_says_just_that(rt: HostRuntime) -> Result<(), Fail> {
    is_refused(
        rt.alloc(),
        task_to(rt.alloc(), LAST, None, Printed::Writes),
        BOARD,
    )
}

#[test]
fn so_does_one_that_prints_the_dump(rt: HostRuntime) -> Result<(), Fail> {
    is_refused(
        rt.alloc(),
        task_to(rt.alloc(), LAST, None, Printed::Dump),
        BOARD,
    )
}

#[test]
fn so_does_one_that_prints_a_script(rt: HostRuntime) -> Result<(), Fail> {
    let script = Printed::Script(Form::Grub);
    is_refused(rt.alloc(), task_to(rt.alloc(), LAST, None, script), BOARD)
}

#[test]
fn so_does_one_without_room(rt: HostRuntime) -> Result<(), Fail> {
    is_refused(
        rt.alloc(),
        task_to(rt.alloc(), LAST - 1, None, Printed::Writes),
        BOARD,
    )
}

#[test]
fn so_does_one_that_leaves_what_stands(rt: HostRuntime) -> Result<(), Fail> {
    is_refused(
        rt.alloc(),
        task_to(rt.alloc(), LAST, Some(1), Printed::Writes),
        BOARD,
    )
}

#[test]
fn so_does_one_whose_fixed_part_does_not_stand(rt: HostRuntime) -> Result<(), Fail> {
    is_refused(
        rt.alloc(),
        task_to(rt.alloc(), LAST, Some(2), Printed::Writes),
        BOARD,
    )
}

/// The same with this much memory wanted behind the bridge, which is named, and nothing placed anew.
fn task_with_spare(alloc: Global, memory: u64, printed: Printed) -> Made {
    let request = SettleRequest {
        roots: Roots::host(),
        lists: lists_to(alloc, LAST)?,
        fixed: Vec::new(alloc),
        anew: false,
        also: Also::nothing(alloc),
        words: None,
        spares: ByKind {
            memory,
            ..no_spares()
        },
        slots: Some(fixed_at(alloc, Some(1))?),
    };
    Ok(Task::Settle { request, printed })
}

#[test]
fn so_does_one_whose_spare_is_denied(rt: HostRuntime) -> Result<(), Fail> {
    is_refused(
        rt.alloc(),
        task_with_spare(rt.alloc(), 1 << 21, Printed::Writes),
        BOARD,
    )
}

#[test]
fn a_spare_that_is_denied_is_told(rt: HostRuntime) -> Result<(), Fail> {
    const WORDS: &[&str] = &[
        "settle",
        "d",
        "p",
        "--io",
        "none",
        "--mem",
        "e0000000-e01fffff",
        "--pref",
        "none",
        "--spare",
        "mem:200000",
        "--slots",
        "00:01.0",
        "--writes",
    ];
    const FEW: &str = "00:02.0 10.4 e0000000\n00:02.0 04.2 0002\n";
    const DENIED: &str = "pciplan: spare 00:01.0 20\n";
    let texts = texts_of_rows(rt.alloc(), BOARD)?;
    let (dump, probe) = (texts.dump.as_str(), texts.probe.as_str());
    prints(rt.alloc(), WORDS, (dump, probe), (FEW, DENIED, 0))
}

/// All words but that of ten bits. None of them is about a function of the board.
const ALL_WORDS: Words = Words {
    cardbus: true,
    ide: true,
    isa: true,
    power: true,
    reset: true,
    snoop: true,
    subtractive: true,
    unclaimed: true,
    unnumbered: true,
    vga: Some(VgaWord::Vga16),
    windows: true,
};

#[test]
fn so_does_one_by_words(rt: HostRuntime) -> Result<(), Fail> {
    let request = SettleRequest {
        roots: Roots::host(),
        lists: lists_to(rt.alloc(), LAST)?,
        fixed: Vec::new(rt.alloc()),
        anew: true,
        also: Also::nothing(rt.alloc()),
        words: Some(ALL_WORDS),
        spares: no_spares(),
        slots: None,
    };
    let printed = Printed::Writes;
    is_refused(rt.alloc(), Ok(Task::Settle { request, printed }), BOARD)
}

#[test]
fn words_that_are_about_no_function_change_nothing(rt: HostRuntime) -> Result<(), Fail> {
    const WORDS: &[&str] = &[
        "settle",
        "d",
        "p",
        "--io",
        "none",
        "--mem",
        "e0000000-e01fffff",
        "--pref",
        "none",
        "--anew",
        "--model",
        "all",
        "--writes",
    ];
    is_printed(rt.alloc(), WORDS, BOARD, WRITES)
}

#[test]
fn wrong_words_are_refused_before_lists(rt: HostRuntime) -> Result<(), Fail> {
    const WORDS: &[&str] = &[
        "settle",
        "d",
        "p",
        "--io",
        "bad",
        "--mem",
        "bad",
        "--pref",
        "bad",
        "--model",
        "power,power",
    ];
    prints(rt.alloc(), WORDS, ("", ""), ("", "pciplan: model\n", 2))
}

#[test]
fn a_writer_that_fails_holds_a_beginning_of_the_writes(rt: HostRuntime) -> Result<(), Fail> {
    is_cut_off(
        rt.alloc(),
        task_to(rt.alloc(), LAST, None, Printed::Writes),
        BOARD,
        7,
        &[0, 1, 100],
    )
}

#[test]
fn a_read_that_fails_leaves_nothing_settled(rt: HostRuntime) -> Result<(), Fail> {
    is_unread(
        rt.alloc(),
        task_to(rt.alloc(), LAST, None, Printed::Writes),
        BOARD,
        0,
    )
}
