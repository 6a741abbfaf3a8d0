//! Boards, and which parts of them stay.
use crate::boards::{Listed, admitted, list_of};
use pci_base::range::RootRange;
use pci_base::window_kind::WindowKind;
use pci_first_fit::kept::Kept;
use pci_first_fit::list::Lists;
use pci_first_fit::slots::Slots;
use pci_first_fit::told::ToldRanges;
use pci_kept::rules::Rules;
use pci_kept::staying::staying;
use pci_tree::admitted::Admitted;
use std::alloc::Global;
use test_support::row::Row;
use test_support::row::Row::{Bridge, Device};

/// Of a function whether its first BAR stays, and its window of memory.
type Stays = (bool, bool);

/// Whether of a function just these stay.
fn is_kept(kept: &Kept, wanted: &Stays) -> bool {
    (kept.bar(0), kept.window(WindowKind::Memory)) == *wanted
}

/// Whether of a table just these stay, function by function.
fn are_kept(table: &[Kept], wanted: &[Stays]) -> bool {
    table.len() == wanted.len()
        && table
            .iter()
            .zip(wanted)
            .all(|(kept, one)| is_kept(kept, one))
}

/// Whether of a board just these stay in a list of memory, with none of I/O and of prefetchable memory.
fn stay_in(alloc: Global, admitted: &Admitted, mem: &[RootRange], wanted: &[Stays]) -> bool {
    let lists = Lists {
        io: &[],
        mem,
        pref: &[],
        slots: Slots::none(),
        told: ToldRanges::none(),
    };
    let rules = Rules {
        fixed: &[],
        anew: false,
    };
    match staying(alloc, admitted, &lists, &rules) {
        Ok(table) => are_kept(table.as_slice(), wanted),
        Err(_) => false,
    }
}

/// The same of a board below root 00.
fn stay(alloc: Global, board: &[Row], mem: &[Listed], wanted: &[Stays]) -> bool {
    match (admitted(alloc, &[0], board), list_of(alloc, mem)) {
        (Some(admitted), Some(mem)) => stay_in(alloc, &admitted, mem.as_slice(), wanted),
        _ => false,
    }
}

#[test]
fn what_stands_with_room_stays(rt: HostRuntime) {
    const BOARD: &[Row] = &[
        Bridge("00:01.0", 2, (0, 1, 1), &[(0x20, 0xe010_e000, 0xfff0_fff0)]),
        Device("01:00.0", 2, &[(0x10, 0xe000_0000, 0xffff_f000)]),
        Device("01:01.0", 2, &[(0x10, 0xe000_0000, 0xffff_f000)]),
    ];
    const MEM: &[Listed] = &[(None, 0xe000_0000, 0xefff_ffff)];
    const WANTED: &[Stays] = &[(false, true), (true, false), (false, false)];
    assert!(rt; stay(rt.alloc(), BOARD, MEM, WANTED));
}

#[test]
fn nothing_stays_in_a_window_without_room(rt: HostRuntime) {
    const BOARD: &[Row] = &[
        Bridge("00:01.0", 2, (0, 1, 1), &[(0x20, 0xe000_e000, 0xfff0_fff0)]),
        Device("01:00.0", 2, &[(0x10, 0xe000_0000, 0xfff0_0000)]),
        Device("01:01.0", 2, &[(0x10, 0xf000_0000, 0xffff_f000)]),
    ];
    const MEM: &[Listed] = &[(None, 0xe000_0000, 0xefff_ffff)];
    const WANTED: &[Stays] = &[(false, false), (false, false), (false, false)];
    assert!(rt; stay(rt.alloc(), BOARD, MEM, WANTED));
}

#[test]
fn a_window_below_one_without_room_moves(rt: HostRuntime) {
    const BOARD: &[Row] = &[
        Bridge("00:01.0", 2, (0, 1, 2), &[(0x20, 0xe000_e000, 0xfff0_fff0)]),
        Device("00:02.0", 2, &[(0x10, 0xe100_0000, 0xffff_f000)]),
        Bridge("01:00.0", 2, (1, 2, 2), &[(0x20, 0xe000_e000, 0xfff0_fff0)]),
        Device("01:01.0", 2, &[(0x10, 0xf000_0000, 0xffff_f000)]),
        Device("02:00.0", 2, &[(0x10, 0xe000_0000, 0xffff_f000)]),
    ];
    const MEM: &[Listed] = &[(None, 0xe000_0000, 0xefff_ffff)];
    // the window over bus 1 is full of the one over bus 2, which has room
    const WANTED: &[Stays] = &[
        (false, false),
        (true, false),
        (false, false),
        (false, false),
        (false, false),
    ];
    assert!(rt; stay(rt.alloc(), BOARD, MEM, WANTED));
}

#[test]
fn what_lies_in_no_list_moves(rt: HostRuntime) {
    const BOARD: &[Row] = &[
        Device("00:01.0", 2, &[(0x10, 0xe000_0000, 0xffff_f000)]),
        Device("00:02.0", 2, &[(0x10, 0xd000_0000, 0xffff_f000)]),
    ];
    const MEM: &[Listed] = &[(None, 0xe000_0000, 0xefff_ffff)];
    assert!(rt; stay(rt.alloc(), BOARD, MEM, &[(true, false), (false, false)]));
}
