//! Lists of all faults where a read, a write or a growth fails.
use crate::on_boards::{Made, is_cut_off, is_refused, is_unread};
use pci_base::range::{Range, RootRange};
use pci_model::words::{VgaWord, Words};
use pci_tree::roots::Roots;
use pciplan_tasks::task::{Also, Beside, HostLists, Task};
use std::alloc::Global;
use std::test::Fail;
use test_support::board::Register;
use test_support::row::Row;
use test_support::row::Row::{Bridge, Device};

/// A list with reasons.
fn task(alloc: Global) -> Made {
    task_by(alloc, None)
}

/// The same of functions that are taken by words.
fn task_by(alloc: Global, words: Option<Words>) -> Made {
    Ok(Task::Faults {
        beside: Beside {
            roots: Roots::host(),
            words,
            host: HostLists {
                io: None,
                mem: None,
            },
            also: Also::nothing(alloc),
        },
        why: true,
    })
}

/// A list with what is given: what the host sends of memory, and bridges with legacy parts; with reasons or without.
fn task_given(alloc: Global, why: bool) -> Made {
    let mut sent = Vec::new(alloc);
    sent.push(RootRange {
        root: None,
        range: Range {
            first: 0,
            last: 0xe0ff_ffff,
        },
    })?;
    Ok(Task::Faults {
        beside: Beside {
            roots: Roots::host(),
            words: Some(Words {
                vga: Some(VgaWord::Vga),
                ..ALL_WORDS
            }),
            host: HostLists {
                io: None,
                mem: Some(sent),
            },
            also: Also::nothing(alloc),
        },
        why,
    })
}

/// All words but that for legacy parts.
const ALL_WORDS: Words = Words {
    cardbus: true,
    ide: true,
    isa: true,
    power: true,
    reset: true,
    snoop: true,
    subtractive: true,
    unclaimed: true,
    unnumbered: true,
    vga: None,
    windows: true,
};

/// A bridge that is off above a BAR, a clash, and a BAR that is off.
const JUDGED: &[Row] = &[
    Bridge("00:01.0", 0, (0, 1, 1), &[(0x20, 0xe000_e000, 0xfff0_fff0)]),
    Device("00:02.0", 2, &[(0x10, 0xe100_0000, 0xfff0_0000)]),
    Device("00:03.0", 2, &[(0x10, 0xe100_0000, 0xfff0_0000)]),
    Device("00:04.0", 0, &[(0x10, 0xe200_0000, 0xfff0_0000)]),
    Device("01:00.0", 2, &[(0x10, 0xe000_0000, 0xffff_f000)]),
];

/// Two functions whose buses no bridge leads to.
const MISPLACED: &[Row] = &[Device("01:00.0", 0, &[]), Device("02:00.0", 0, &[])];

#[test]
fn a_list_that_is_refused_a_growth_says_just_that(rt: HostRuntime) -> Result<(), Fail> {
    is_refused(rt.alloc(), task(rt.alloc()), JUDGED)
}

#[test]
fn so_does_one_of_an_earlier_phase(rt: HostRuntime) -> Result<(), Fail> {
    is_refused(rt.alloc(), task(rt.alloc()), MISPLACED)
}

#[test]
fn so_does_one_by_words(rt: HostRuntime) -> Result<(), Fail> {
    is_refused(rt.alloc(), task_by(rt.alloc(), Some(ALL_WORDS)), JUDGED)
}

/// A bridge that takes what no region of its bus claims, with a palette part, above a BAR part of which it doesn't take.
const TAKEN: &[Row] = &[
    Device("00:02.0", 2, &[(0x10, 0xe000_0800, 0xffff_ff00)]),
    Bridge("00:1e.0", 0x23, (0, 1, 1), &[(0x08, 0x0604_0100, 0)]),
    Device("01:00.0", 2, &[(0x10, 0xe000_0000, 0xffff_f000)]),
];

#[test]
fn so_does_one_of_what_a_bridge_takes(rt: HostRuntime) -> Result<(), Fail> {
    is_refused(rt.alloc(), task_by(rt.alloc(), Some(ALL_WORDS)), TAKEN)
}

#[test]
fn a_writer_that_fails_holds_a_beginning_of_the_list(rt: HostRuntime) -> Result<(), Fail> {
    is_cut_off(rt.alloc(), task(rt.alloc()), JUDGED, 7, &[0, 1, 100, 300])
}

#[test]
fn a_read_that_fails_leaves_no_list(rt: HostRuntime) -> Result<(), Fail> {
    is_unread(rt.alloc(), task(rt.alloc()), JUDGED, 1)
}

/// A window that is closed, and VGA Enable.
const CLOSED: &[Register] = &[(0x20, 0x0000_fff0, 0xfff0_fff0), (0x3c, 0x0008_0000, 0)];

/// Two bridges with legacy parts, and a BAR outside of what the host sends.
const GIVEN: &[Row] = &[
    Bridge("00:01.0", 3, (0, 1, 1), CLOSED),
    Bridge("00:02.0", 3, (0, 2, 2), CLOSED),
    Device("00:03.0", 2, &[(0x10, 0xe100_0000, 0xfff0_0000)]),
];

#[test]
fn so_does_one_with_what_is_given(rt: HostRuntime) -> Result<(), Fail> {
    is_refused(rt.alloc(), task_given(rt.alloc(), false), GIVEN)?;
    is_refused(rt.alloc(), task_given(rt.alloc(), false), MISPLACED)
}

#[test]
fn with_what_is_given_a_read_or_a_write_that_fails_leaves_no_more(
    rt: HostRuntime,
) -> Result<(), Fail> {
    is_cut_off(
        rt.alloc(),
        task_given(rt.alloc(), false),
        GIVEN,
        7,
        &[0, 1, 100],
    )?;
    is_unread(rt.alloc(), task_given(rt.alloc(), false), GIVEN, 1)
}

/// The same, with a BAR that the first of them doesn't pass.
const GIVEN_BEHIND: &[Row] = &[
    Bridge("00:01.0", 3, (0, 1, 1), CLOSED),
    Bridge("00:02.0", 3, (0, 2, 2), CLOSED),
    Device("00:03.0", 2, &[(0x10, 0xe100_0000, 0xfff0_0000)]),
    Device("01:00.0", 2, &[(0x10, 0x000c_0000, 0xffff_0000)]),
];

#[test]
fn so_does_one_with_reasons_and_what_is_given(rt: HostRuntime) -> Result<(), Fail> {
    is_refused(rt.alloc(), task_given(rt.alloc(), true), GIVEN_BEHIND)?;
    is_refused(rt.alloc(), task_given(rt.alloc(), true), MISPLACED)
}

#[test]
fn with_reasons_too_a_read_or_a_write_that_fails_leaves_no_more(
    rt: HostRuntime,
) -> Result<(), Fail> {
    let alloc = rt.alloc();
    is_cut_off(
        alloc,
        task_given(alloc, true),
        GIVEN_BEHIND,
        7,
        &[0, 1, 100, 300],
    )?;
    is_unread(alloc, task_given(alloc, true), GIVEN_BEHIND, 1)
}
