//! Boards beside the ranges of addresses that the host sends to their root buses.
use crate::judged::{NOTHING, Said, has_lines};
use pci_base::range::{Range, RootRange};
use std::alloc::Global;
use test_support::row::Row;
use test_support::row::Row::Device;

/// Whether a board has these lines where the host sends these ranges of memory.
fn has(alloc: Global, board: &[Row], roots: &[u8], memory: &[RootRange], wanted: &str) -> bool {
    let said = Said {
        memory: Some(memory),
        ..NOTHING
    };
    has_lines(alloc, board, roots, said, wanted)
}

/// A BAR of 64 bits above 4 GB.
static HIGH: [Row; 1] = [Device(
    "00:01.0",
    2,
    &[
        (0x10, 0x8000_000c, 0xffff_c00c),
        (0x14, 0x0000_0080, 0xffff_ffff),
    ],
)];

static BELOW_4_GB: [RootRange; 1] = [RootRange {
    root: None,
    range: Range {
        first: 0x8000_0000,
        last: 0xfebf_ffff,
    },
}];

#[test]
fn a_bar_above_what_the_host_sends_is_outside(rt: HostRuntime) {
    let line = "63 Outside 00:01.0 10 mem 0000008080000000\n";
    assert!(rt; has(rt.alloc(), &HIGH, &[0], &BELOW_4_GB, line));
}

static ONE: [Row; 1] = [Device("00:01.0", 2, &[(0x10, 0xe000_0000, 0xfff0_0000)])];

static FROM_ITS_MIDDLE: [RootRange; 1] = [RootRange {
    root: None,
    range: Range {
        first: 0xe008_0000,
        last: 0xefff_ffff,
    },
}];

#[test]
fn the_least_address_outside_is_told(rt: HostRuntime) {
    let line = "63 Outside 00:01.0 10 mem 00000000e0000000\n";
    assert!(rt; has(rt.alloc(), &ONE, &[0], &FROM_ITS_MIDDLE, line));
}

/// BARs of one address on two root buses.
static ON_TWO_ROOTS: [Row; 2] = [
    Device("00:01.0", 2, &[(0x10, 0xe000_0000, 0xfff0_0000)]),
    Device("40:01.0", 2, &[(0x10, 0xe000_0000, 0xfff0_0000)]),
];

#[test]
fn where_all_is_sent_to_both_roots_an_access_is_split(rt: HostRuntime) {
    let line = "62 Split mem 00000000e0000000 00:01.0 10 40:01.0 10\n";
    assert!(rt; has_lines(rt.alloc(), &ON_TWO_ROOTS, &[0, 0x40], NOTHING, line));
}

static TO_ONE_OF_THEM: [RootRange; 2] = [
    RootRange {
        root: Some(0),
        range: Range {
            first: 0xe000_0000,
            last: 0xefff_ffff,
        },
    },
    RootRange {
        root: Some(0x40),
        range: Range {
            first: 0xf000_0000,
            last: 0xffff_ffff,
        },
    },
];

#[test]
fn where_it_is_sent_to_one_root_the_other_bar_is_outside(rt: HostRuntime) {
    let line = "63 Outside 40:01.0 10 mem 00000000e0000000\n";
    assert!(rt; has(rt.alloc(), &ON_TWO_ROOTS, &[0, 0x40], &TO_ONE_OF_THEM, line));
}
