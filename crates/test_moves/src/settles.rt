//! Boards, and the writes that settle them where nothing stands.
use crate::boards::{Listed, RANGE_OF_EACH, TWO_ROOTS, admitted, in_memory, list_of};
use pci_base::memory::Refused;
use pci_base::range::RootRange;
use pci_base::slot::Slot;
use pci_base::window_kind::WindowKind;
use pci_plan::write::Write;
use pci_settle::lack::{Lack, SettleFault};
use pci_settle::settle::settle;
use pci_settle::writes::Writes;
use pci_tree::admitted::Admitted;
use std::alloc::Global;
use test_support::row::Row;
use test_support::row::Row::{Bridge, Device};

/// A write to a function by its bus and device: offset, width and value.
pub(crate) type Wanted = (u8, u8, u8, u8, u32);

/// Whether a write is just that.
fn is_write(write: &Write, wanted: &Wanted) -> bool {
    let (bus, dev, off, width, value) = *wanted;
    Slot::new(bus, dev, 0) == Some(write.slot)
        && (write.off, write.width, write.value) == (off, width, value)
}

/// Whether writes are just these, so many of which close.
pub(crate) fn are_writes(writes: &Writes, closings: usize, wanted: &[Wanted]) -> bool {
    writes.closings == closings
        && writes.all.len() == wanted.len()
        && writes
            .all
            .iter()
            .zip(wanted)
            .all(|(write, one)| is_write(write, one))
}

/// What settling ends with in a list of memory, with none of I/O and of prefetchable memory: the writes, or the fault.
fn settled(
    alloc: Global,
    admitted: &Admitted,
    mem: &[RootRange],
) -> Option<Result<Writes, SettleFault>> {
    let lists = in_memory(mem);
    match settle(alloc, admitted, &lists, &[], true) {
        Ok(settled) => Some(Ok(settled.writes)),
        Err(Refused::Fault(fault)) => Some(Err(fault)),
        Err(Refused::Memory) => None,
    }
}

/// The same of a board below these roots.
fn settled_below(
    alloc: Global,
    roots: &[u8],
    board: &[Row],
    mem: &[Listed],
) -> Option<Result<Writes, SettleFault>> {
    match (admitted(alloc, roots, board), list_of(alloc, mem)) {
        (Some(admitted), Some(mem)) => settled(alloc, &admitted, mem.as_slice()),
        _ => None,
    }
}

/// Whether a board settles by so many closing writes, which are the first of just these.
fn settles(
    alloc: Global,
    roots: &[u8],
    board: &[Row],
    mem: &[Listed],
    (closings, wanted): (usize, &[Wanted]),
) -> bool {
    match settled_below(alloc, roots, board, mem) {
        Some(Ok(writes)) => are_writes(&writes, closings, wanted),
        _ => false,
    }
}

#[test]
fn bars_behind_a_bridge_are_placed_and_opened(rt: HostRuntime) {
    const BOARD: &[Row] = &[
        Bridge("00:01.0", 0, (0, 1, 1), &[]),
        Device(
            "01:00.0",
            0,
            &[(0x10, 0, 0xfff0_0000), (0x14, 0, 0xffff_f000)],
        ),
    ];
    const MEM: &[Listed] = &[(None, 0xe000_0000, 0xefff_ffff)];
    const WANTED: &[Wanted] = &[
        (0, 1, 0x20, 4, 0x0000_fff0),
        (0, 1, 0x20, 4, 0xe010_e000),
        (1, 0, 0x10, 4, 0xe000_0000),
        (1, 0, 0x14, 4, 0xe010_0000),
        (0, 1, 0x04, 2, 2),
        (1, 0, 0x04, 2, 2),
    ];
    assert!(rt; settles(rt.alloc(), &[0], BOARD, MEM, (1, WANTED)));
}

#[test]
fn what_fits_no_hole_goes_behind_it(rt: HostRuntime) {
    const BOARD: &[Row] = &[
        Device("00:01.0", 6, &[(0x10, 0xe000_0000, 0xfff0_0000)]),
        Device("00:02.0", 2, &[(0x10, 0xe040_0000, 0xffe0_0000)]),
    ];
    const MEM: &[Listed] = &[
        (None, 0xe000_0000, 0xe00f_ffff),
        (None, 0xe020_0000, 0xe03f_ffff),
    ];
    const WANTED: &[Wanted] = &[
        (0, 2, 0x04, 2, 0),
        (0, 2, 0x10, 4, 0xe020_0000),
        (0, 2, 0x04, 2, 2),
    ];
    assert!(rt; settles(rt.alloc(), &[0], BOARD, MEM, (1, WANTED)));
}

#[test]
fn each_root_is_settled_in_its_own_range(rt: HostRuntime) {
    const WANTED: &[Wanted] = &[
        (0, 1, 0x10, 4, 0xe000_0000),
        (0x40, 1, 0x10, 4, 0xe010_0000),
        (0, 1, 0x04, 2, 2),
        (0x40, 1, 0x04, 2, 2),
    ];
    assert!(rt;
        settles(
            rt.alloc(),
            &[0, 0x40],
            TWO_ROOTS,
            RANGE_OF_EACH,
            (0, WANTED)
        )
    );
}

#[test]
fn io_that_is_left_is_switched_off(rt: HostRuntime) {
    const BOARD: &[Row] = &[Device(
        "00:01.0",
        3,
        &[
            (0x10, 0x0000_1001, 0xffff_ff01),
            (0x14, 0xe000_0000, 0xfff0_0000),
        ],
    )];
    const MEM: &[Listed] = &[(None, 0xe000_0000, 0xe00f_ffff)];
    const WANTED: &[Wanted] = &[(0, 1, 0x04, 2, 2)];
    assert!(rt; settles(rt.alloc(), &[0], BOARD, MEM, (1, WANTED)));
}

#[test]
fn a_window_with_nothing_behind_is_closed(rt: HostRuntime) {
    const BOARD: &[Row] = &[Bridge("00:01.0", 2, (0, 1, 1), &[(0x20, 0xe000_e000, 0xfff0_fff0)])];
    const MEM: &[Listed] = &[(None, 0xe000_0000, 0xe00f_ffff)];
    const WANTED: &[Wanted] = &[(0, 1, 0x20, 4, 0x0000_fff0)];
    assert!(rt; settles(rt.alloc(), &[0], BOARD, MEM, (1, WANTED)));
}

#[test]
fn a_bridge_stays_on_while_its_window_moves(rt: HostRuntime) {
    const BOARD: &[Row] = &[
        Bridge("00:01.0", 3, (0, 1, 1), &[(0x20, 0xe010_e010, 0xfff0_fff0)]),
        Device("01:00.0", 3, &[(0x10, 0xe010_0000, 0xffff_f000)]),
    ];
    const MEM: &[Listed] = &[(None, 0xe000_0000, 0xe00f_ffff)];
    const WANTED: &[Wanted] = &[
        (1, 0, 0x04, 2, 1),
        (0, 1, 0x20, 4, 0x0000_fff0),
        (0, 1, 0x20, 4, 0xe000_e000),
        (1, 0, 0x10, 4, 0xe000_0000),
        (1, 0, 0x04, 2, 3),
    ];
    assert!(rt; settles(rt.alloc(), &[0], BOARD, MEM, (2, WANTED)));
}

#[test]
fn what_is_cut_off_is_shut_until_the_bridge_is_open(rt: HostRuntime) {
    const BOARD: &[Row] = &[
        Bridge("00:01.0", 0, (0, 1, 1), &[(0x20, 0xe000_e000, 0xfff0_fff0)]),
        Device("01:00.0", 2, &[(0x10, 0xe000_0000, 0xfff0_0000)]),
    ];
    const MEM: &[Listed] = &[(None, 0xe000_0000, 0xe00f_ffff)];
    const WANTED: &[Wanted] = &[(1, 0, 0x04, 2, 0), (0, 1, 0x04, 2, 2), (1, 0, 0x04, 2, 2)];
    assert!(rt; settles(rt.alloc(), &[0], BOARD, MEM, (1, WANTED)));
}

/// The fault for which a board below bus 00 isn't settled.
fn fault_in(alloc: Global, board: &[Row], mem: &[Listed]) -> Option<SettleFault> {
    settled_below(alloc, &[0], board, mem)?.err()
}

/// What has no place on a board.
fn lack_in(alloc: Global, board: &[Row], mem: &[Listed]) -> Option<Lack> {
    match fault_in(alloc, board, mem) {
        Some(SettleFault::NoRoom(lack)) => Some(lack),
        _ => None,
    }
}

/// Whether it is that register of four kilobytes of memory, of a function by its bus and device.
fn is_lack(lack: &Lack, bus: u8, dev: u8, register: u8) -> bool {
    lack.class == WindowKind::Memory
        && Slot::new(bus, dev, 0) == Some(lack.slot)
        && (lack.register, lack.size, lack.alignment) == (register, 0x1000, 0x1000)
}

#[test]
fn what_lacks_a_place_is_named_by_slot_and_register(rt: HostRuntime) {
    const BOARD: &[Row] = &[
        Device("00:01.0", 0, &[(0x10, 0, 0xfff0_0000)]),
        Device("00:02.0", 0, &[(0x14, 0, 0xffff_f000)]),
    ];
    const MEM: &[Listed] = &[(None, 0xe000_0000, 0xe00f_ffff)];
    assert!(rt;
        matches!(lack_in(rt.alloc(), BOARD, MEM), Some(lack) if is_lack(&lack, 0, 2, 0x14))
    );
}

#[test]
fn lists_that_share_addresses_are_refused(rt: HostRuntime) {
    const BOARD: &[Row] = &[Device("00:01.0", 0, &[])];
    const MEM: &[Listed] = &[
        (None, 0xe000_0000, 0xe00f_ffff),
        (None, 0xe00f_0000, 0xe01f_ffff),
    ];
    assert!(rt; matches!(fault_in(rt.alloc(), BOARD, MEM), Some(fault) if fault.number() == 70));
}
