//! Boards beside which a text tells what no BAR shows.
use crate::boards::{Listed, admitted, in_memory, list_of};
use crate::settles::{Wanted, are_writes};
use pci_base::memory::Refused;
use pci_base::slot::Slot;
use pci_dump::std_streams::Incoming;
use pci_dump::told_reader::read_told;
use pci_first_fit::list::Lists;
use pci_first_fit::told::ToldRanges;
use pci_settle::lack::SettleFault;
use pci_settle::settle::settle;
use pci_settle::writes::Writes;
use std::alloc::Global;
use test_support::row::Row;
use test_support::row::Row::{Bridge, Device};

/// A list of 16 MB.
const MEM: &[Listed] = &[(None, 0xe000_0000, 0xe0ff_ffff)];

/// A window of 2 MB with a BAR of 16 KB in it, and another such BAR that has no place yet.
const BOARD: &[Row] = &[
    Bridge("00:01.0", 2, (0, 1, 1), &[(0x20, 0xe010_e000, 0xfff0_fff0)]),
    Device("01:00.0", 2, &[(0x10, 0xe000_0000, 0xffff_c000)]),
    Device("01:01.0", 0, &[(0x10, 0, 0xffff_c000)]),
];

/// The same, and what follows the window is taken.
const FULL: &[Row] = &[
    Bridge("00:01.0", 2, (0, 1, 1), &[(0x20, 0xe010_e000, 0xfff0_fff0)]),
    Device("00:02.0", 2, &[(0x10, 0xe020_0000, 0xfff0_0000)]),
    Device("01:00.0", 2, &[(0x10, 0xe000_0000, 0xffff_c000)]),
    Device("01:01.0", 0, &[(0x10, 0, 0xffff_c000)]),
];

/// Virtual functions behind the first BAR, and so many of them that they fill the window.
const TWO: &str = "01:00.0 mem 00000000e0004000-00000000e000bfff always vf0\n";

const ALL: &str = "01:00.0 mem 00000000e0004000-00000000e01fffff always vf0\n";

/// What settling ends with beside the ranges of a text, where all is placed anew or not: the writes, or the fault.
fn settled_beside(
    alloc: Global,
    board: &[Row],
    text: &str,
    anew: bool,
) -> Option<Result<Writes, SettleFault>> {
    let (admitted, mem) = (admitted(alloc, &[0], board)?, list_of(alloc, MEM)?);
    let told = read_told(alloc, &mut Incoming::new(text.as_bytes())).ok()?;
    let lists = Lists {
        told: ToldRanges::of(&told),
        ..in_memory(mem.as_slice())
    };
    match settle(alloc, &admitted, &lists, &[], anew) {
        Ok(settled) => Some(Ok(settled.writes)),
        Err(Refused::Fault(fault)) => Some(Err(fault)),
        Err(Refused::Memory) => None,
    }
}

/// Whether a board settles by just these writes, of which none closes.
fn settles_beside(alloc: Global, board: &[Row], text: &str, wanted: &[Wanted]) -> bool {
    match settled_beside(alloc, board, text, false) {
        Some(Ok(writes)) => are_writes(&writes, 0, wanted),
        _ => false,
    }
}

/// The same where all is placed anew and so many of the writes close.
fn settles_anew(alloc: Global, board: &[Row], text: &str, count: usize, wanted: &[Wanted]) -> bool {
    match settled_beside(alloc, board, text, true) {
        Some(Ok(writes)) => are_writes(&writes, count, wanted),
        _ => false,
    }
}

#[test]
fn nothing_is_placed_on_what_is_told(rt: HostRuntime) {
    const UNTOLD: &[Wanted] = &[(1, 1, 0x10, 4, 0xe000_4000), (1, 1, 0x04, 2, 2)];
    const WANTED: &[Wanted] = &[(1, 1, 0x10, 4, 0xe000_c000), (1, 1, 0x04, 2, 2)];
    assert!(rt; settles_beside(rt.alloc(), BOARD, "", UNTOLD));
    assert!(rt; settles_beside(rt.alloc(), BOARD, TWO, WANTED));
}

#[test]
fn a_window_that_is_full_of_it_grows(rt: HostRuntime) {
    const WANTED: &[Wanted] = &[
        (0, 1, 0x20, 4, 0xe020_e000),
        (1, 1, 0x10, 4, 0xe020_0000),
        (1, 1, 0x04, 2, 2),
    ];
    assert!(rt; settles_beside(rt.alloc(), BOARD, ALL, WANTED));
}

/// The fault for which a board isn't settled beside the ranges of a text.
fn fault_beside(alloc: Global, board: &[Row], text: &str) -> Option<SettleFault> {
    settled_beside(alloc, board, text, false)?.err()
}

/// Whether a fault is 75 and names the first line of a text, which is of 01:00.0.
fn is_first_line(fault: SettleFault) -> bool {
    match fault {
        SettleFault::Told { slot, line } => {
            fault.number() == 75 && Slot::new(1, 0, 0) == Some(slot) && line == 1
        }
        _ => false,
    }
}

#[test]
fn it_is_named_where_its_window_would_go(rt: HostRuntime) {
    assert!(rt; fault_beside(rt.alloc(), FULL, ALL).is_some_and(is_first_line));
}

/// A window of 2 MB with two BARs of 16 KB in it, and a BAR of 512 KB that has no place yet.
const PIECES: &[Row] = &[
    Bridge("00:01.0", 2, (0, 1, 1), &[(0x20, 0xe010_e000, 0xfff0_fff0)]),
    Device("01:00.0", 2, &[(0x10, 0xe000_0000, 0xffff_c000)]),
    Device("01:01.0", 0, &[(0x10, 0, 0xfff8_0000)]),
    Device("01:02.0", 2, &[(0x10, 0xe008_0000, 0xffff_c000)]),
];

/// Virtual functions that have its second megabyte.
const SECOND: &str = "01:00.0 mem 00000000e0100000-00000000e01fffff always vf0\n";

#[test]
fn anew_the_window_over_it_stands(rt: HostRuntime) {
    const WANTED: &[Wanted] = &[
        (1, 2, 0x04, 2, 0),
        (1, 0, 0x04, 2, 0),
        (1, 0, 0x10, 4, 0xe008_0000),
        (1, 1, 0x10, 4, 0xe000_0000),
        (1, 2, 0x10, 4, 0xe008_4000),
        (1, 0, 0x04, 2, 2),
        (1, 1, 0x04, 2, 2),
        (1, 2, 0x04, 2, 2),
    ];
    assert!(rt; settles_anew(rt.alloc(), PIECES, SECOND, 2, WANTED));
}

#[test]
fn without_it_the_window_is_placed_anew_too(rt: HostRuntime) {
    const WANTED: &[Wanted] = &[
        (1, 2, 0x04, 2, 0),
        (1, 0, 0x04, 2, 0),
        (0, 1, 0x20, 4, 0x0000_fff0),
        (0, 1, 0x20, 4, 0xe000_e000),
        (1, 0, 0x10, 4, 0xe008_0000),
        (1, 1, 0x10, 4, 0xe000_0000),
        (1, 2, 0x10, 4, 0xe008_4000),
        (1, 0, 0x04, 2, 2),
        (1, 1, 0x04, 2, 2),
        (1, 2, 0x04, 2, 2),
    ];
    assert!(rt; settles_anew(rt.alloc(), PIECES, "", 3, WANTED));
}
