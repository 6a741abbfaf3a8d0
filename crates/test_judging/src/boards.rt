//! Boards that are admitted.
use pci_tree::admit::admit_with;
use pci_tree::admitted::Admitted;
use pci_tree::roots::Roots;
use std::alloc::Global;
use test_support::row::Row::{Bridge, Device};
use test_support::row::{Row, dumps_of_rows};

/// Two BARs and a ROM behind a bridge that is off.
pub const BEHIND_ONE_THAT_IS_OFF: &[Row] = &[
    Bridge("00:01.0", 0, (0, 1, 1), &[(0x20, 0xe000_e000, 0xfff0_fff0)]),
    Device("01:00.0", 2, &[(0x10, 0xe000_0000, 0xffff_f000)]),
    Device(
        "01:01.0",
        2,
        &[
            (0x10, 0xe001_0000, 0xffff_0000),
            (0x30, 0xe002_0001, 0xffff_f800),
        ],
    ),
];

/// A prefetchable BAR of 4 MB, of which the bridge before it passes the first and the third.
pub const PASSED_IN_TWO_PARTS: &[Row] = &[
    Bridge(
        "00:01.0",
        2,
        (0, 1, 1),
        &[
            (0x20, 0xe000_e000, 0xfff0_fff0),
            (0x24, 0xe020_e020, 0xfff0_fff0),
        ],
    ),
    Device("01:00.0", 2, &[(0x10, 0xe000_0008, 0xffc0_0008)]),
];

/// A board with these roots.
pub fn admitted(alloc: Global, board: &[Row], roots: &[u8]) -> Option<Admitted> {
    let roots = Roots::of(roots)?;
    match dumps_of_rows(alloc, board) {
        Some((dump, probe)) => admit_with(alloc, dump, probe, roots).ok(),
        None => None,
    }
}
