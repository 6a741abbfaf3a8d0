//! Maps where a read, a write or a growth fails.
use crate::on_boards::{Made, is_cut_off, is_printed, is_refused, is_unread};
use pci_base::range::{Range, RootRange};
use pci_model::words::{VgaWord, Words};
use pci_tree::roots::Roots;
use pciplan_tasks::task::{Also, Beside, HostLists, Task};
use std::alloc::Global;
use std::test::Fail;
use test_support::row::Row;
use test_support::row::Row::{Bridge, Device};

/// A map of functions that are taken as they are, or by words.
fn task_by(alloc: Global, words: Option<Words>) -> Made {
    Ok(Task::Map {
        beside: Beside {
            roots: Roots::host(),
            words,
            host: HostLists {
                io: None,
                mem: None,
            },
            also: Also::nothing(alloc),
        },
    })
}

/// A map of functions that are taken as they are.
fn task(alloc: Global) -> Made {
    task_by(alloc, None)
}

/// A map with what the host sends of memory.
fn task_sent(alloc: Global) -> Made {
    let mut sent = Vec::new(alloc);
    sent.push(RootRange {
        root: None,
        range: Range {
            first: 0xe000_0800,
            last: 0xe0ff_ffff,
        },
    })?;
    Ok(Task::Map {
        beside: Beside {
            roots: Roots::host(),
            words: None,
            host: HostLists {
                io: None,
                mem: Some(sent),
            },
            also: Also::nothing(alloc),
        },
    })
}

/// Windows in a window, a BAR in the inner one, a BAR and a window that no window holds, and a BAR that is off.
const MAPPED: &[Row] = &[
    Bridge("00:01.0", 2, (0, 1, 2), &[(0x20, 0xe010_e000, 0xfff0_fff0)]),
    Bridge(
        "01:00.0",
        2,
        (1, 2, 2),
        &[
            (0x20, 0xe000_e000, 0xfff0_fff0),
            (0x24, 0xf000_f000, 0xfff0_fff0),
        ],
    ),
    Device("01:01.0", 1, &[(0x10, 0x0000_1001, 0xffff_ffe1)]),
    Device("02:00.0", 2, &[(0x10, 0xe000_0000, 0xffff_f000)]),
    Device("02:01.0", 0, &[(0x10, 0xe000_1000, 0xffff_f000)]),
];

/// What is printed of it.
const MAP: &str = "bus 00 mem
  00000000e0000000-00000000e01fffff 2M window 00:01.0 20
    00000000e0000000-00000000e00fffff 1M window 01:00.0 20
      00000000e0000000-00000000e0000fff 4K bar 02:00.0 10
      00000000e0001000-00000000e00fffff 1020K free
    00000000e0100000-00000000e01fffff 1M free
unreached
  00000000f0000000-00000000f00fffff 1M window 01:00.0 24
  00001000-0000101f 32 bar 01:01.0 10
off
  00000000e0001000-00000000e0001fff 4K bar 02:01.0 10
";

/// All words there are.
const WORDS: Words = Words {
    cardbus: true,
    ide: true,
    isa: true,
    power: true,
    reset: true,
    snoop: true,
    subtractive: true,
    unclaimed: true,
    unnumbered: true,
    vga: Some(VgaWord::Vga),
    windows: true,
};

#[test]
fn a_map_is_printed(rt: HostRuntime) -> Result<(), Fail> {
    is_printed(
        rt.alloc(),
        &["map", "d", "p", "--model", "power"],
        MAPPED,
        MAP,
    )
}

#[test]
fn a_map_that_is_refused_a_growth_says_just_that(rt: HostRuntime) -> Result<(), Fail> {
    is_refused(rt.alloc(), task(rt.alloc()), MAPPED)
}

#[test]
fn so_does_one_by_words(rt: HostRuntime) -> Result<(), Fail> {
    is_refused(rt.alloc(), task_by(rt.alloc(), Some(WORDS)), MAPPED)
}

/// A bridge that takes what no region of its bus claims, with a palette part, above a BAR that its window doesn't hold.
const TAKEN: &[Row] = &[
    Bridge("00:1e.0", 0x23, (0, 1, 1), &[(0x08, 0x0604_0100, 0)]),
    Device("01:00.0", 2, &[(0x10, 0xe000_0000, 0xffff_f000)]),
];

#[test]
fn so_does_one_of_what_a_bridge_takes(rt: HostRuntime) -> Result<(), Fail> {
    is_refused(rt.alloc(), task_by(rt.alloc(), Some(WORDS)), TAKEN)
}

#[test]
fn so_does_one_of_what_the_host_sends(rt: HostRuntime) -> Result<(), Fail> {
    is_refused(rt.alloc(), task_sent(rt.alloc()), MAPPED)
}

#[test]
fn so_does_one_of_what_is_not_admitted(rt: HostRuntime) -> Result<(), Fail> {
    is_refused(rt.alloc(), task(rt.alloc()), &[Device("01:00.0", 0, &[])])
}

#[test]
fn a_writer_that_fails_holds_a_beginning_of_the_map(rt: HostRuntime) -> Result<(), Fail> {
    is_cut_off(rt.alloc(), task(rt.alloc()), MAPPED, 7, &[0, 1, 100, 300])
}

#[test]
fn a_read_that_fails_leaves_no_map(rt: HostRuntime) -> Result<(), Fail> {
    is_unread(rt.alloc(), task(rt.alloc()), MAPPED, 0)
}
