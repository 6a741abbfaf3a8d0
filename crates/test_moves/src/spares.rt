//! Boards with a slot behind which room is wanted.
use crate::boards::{Listed, admitted, list_of};
use pci_base::range::RootRange;
use pci_base::slot::Slot;
use pci_first_fit::list::Lists;
use pci_first_fit::slots::Slots;
use pci_first_fit::told::ToldRanges;
use pci_plan::write::Write;
use pci_settle::settle::{Denied, Settled, settle};
use std::alloc::Global;
use test_support::row::Row;
use test_support::row::Row::{Bridge, Device};

/// A list of 16 MB.
const MEM: &[Listed] = &[(None, 0xe000_0000, 0xe0ff_ffff)];

/// A bridge whose window of 1 MB has a BAR of 4 KB in it.
const ALONE: &[Row] = &[
    Bridge("00:01.0", 2, (0, 1, 1), &[(0x20, 0xe000_e000, 0xfff0_fff0)]),
    Device("01:00.0", 2, &[(0x10, 0xe000_0000, 0xffff_f000)]),
];

/// The same, and the next megabyte is taken.
const BESIDE: &[Row] = &[
    Bridge("00:01.0", 2, (0, 1, 1), &[(0x20, 0xe000_e000, 0xfff0_fff0)]),
    Device("00:02.0", 2, &[(0x10, 0xe010_0000, 0xfff0_0000)]),
    Device("01:00.0", 2, &[(0x10, 0xe000_0000, 0xffff_f000)]),
];

/// A list of memory, where 2 MB are wanted behind bridges.
fn lists_of<'a>(mem: &'a [RootRange], bridges: &'a [Slot]) -> Lists<'a> {
    let slots = Slots {
        bridges,
        io: 0,
        mem: 0x20_0000,
        pref: 0,
    };
    Lists {
        io: &[],
        mem,
        pref: &[],
        slots,
        told: ToldRanges::none(),
    }
}

/// What settling comes to where they are wanted behind the bridge 00:01.0.
fn spared(alloc: Global, board: &[Row]) -> Option<Settled> {
    let (admitted, mem) = (admitted(alloc, &[0], board)?, list_of(alloc, MEM)?);
    let bridges = [Slot::new(0, 1, 0)?];
    let lists = lists_of(mem.as_slice(), &bridges);
    settle(alloc, &admitted, &lists, &[], false).ok()
}

/// Whether writes are one, of a window of memory: its base and limit.
fn are_one(writes: &[Write], window: u32) -> bool {
    matches!(writes, [write] if write.off == 0x20 && write.value == window)
}

/// Whether a window is that of memory of the bridge 00:01.0.
fn is_of_bridge(denied: &Denied) -> bool {
    Slot::new(0, 1, 0) == Some(denied.slot) && denied.register == 0x20
}

/// Whether nothing is denied, and a window of memory is written alone.
fn is_spared(settled: &Settled, window: u32) -> bool {
    settled.denied.is_empty() && are_one(settled.writes.all.as_slice(), window)
}

/// Whether nothing is written, and the window of the bridge is denied alone.
fn is_denied(settled: &Settled) -> bool {
    settled.writes.all.is_empty()
        && matches!(settled.denied.as_slice(), [denied] if is_of_bridge(denied))
}

#[test]
fn a_window_ends_later_for_a_spare(rt: HostRuntime) {
    let settled = spared(rt.alloc(), ALONE);
    assert!(rt; matches!(&settled, Some(settled) if is_spared(settled, 0xe030_e000)));
}

#[test]
fn a_spare_without_room_is_denied(rt: HostRuntime) {
    let settled = spared(rt.alloc(), BESIDE);
    assert!(rt; matches!(&settled, Some(settled) if is_denied(settled)));
}
