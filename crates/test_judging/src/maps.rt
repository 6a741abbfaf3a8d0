//! The text of a map.
use crate::boards::admitted;
use pci_claims::given::Given;
use pci_claims::told::Told;
use pci_map::text::map_text;
use pci_tree::admitted::Admitted;
use std::alloc::Global;
use std::test::Fail;
use test_support::row::Row;
use test_support::row::Row::{Bridge, Device};

/// Whether the lines of a board, with nothing given or told, are these.
#[tactic(auto, using(crate::proofs::Nothing::nothing_told))]
fn are_lines(alloc: Global, board: &Admitted, wanted: &str) -> bool {
    let given = Given {
        io: None,
        memory: None,
        legacy: &[],
        isa: &[],
        palette: &[],
        unclaimed: &[],
    };
    let told = Told {
        ranges: &[],
        asleep: &[],
    };
    match map_text(alloc, board.outline(), &given, &told) {
        Ok(lines) => lines.as_str() == wanted,
        Err(_) => false,
    }
}

/// The same of a board below these roots.
fn has_lines(alloc: Global, board: &[Row], roots: &[u8], wanted: &str) -> bool {
    match admitted(alloc, board, roots) {
        Some(board) => are_lines(alloc, &board, wanted),
        None => false,
    }
}

#[test]
fn regions_that_overlap_stand_one_after_the_other(rt: HostRuntime) -> Result<(), Fail> {
    const BOARD: &[Row] = &[
        Bridge("00:01.0", 2, (0, 1, 1), &[(0x20, 0xe010_e000, 0xfff0_fff0)]),
        Device("01:00.0", 2, &[(0x10, 0xe010_0000, 0xfff0_0000)]),
        Device("01:01.0", 2, &[(0x10, 0xe018_0000, 0xfff8_0000)]),
        Device("40:00.0", 0, &[(0x10, 0xe000_0000, 0xffff_f000)]),
    ];
    assert!(rt;
        has_lines(
            rt.alloc(),
            BOARD,
            &[0, 0x40],
            "bus 00 mem\n  00000000e0000000-00000000e01fffff 2M window 00:01.0 20\n    \
             00000000e0000000-00000000e00fffff 1M free\n    \
             00000000e0100000-00000000e01fffff 1M bar 01:00.0 10\n    \
             00000000e0180000-00000000e01fffff 512K bar 01:01.0 10\n\
             off\n  00000000e0000000-00000000e0000fff 4K bar 40:00.0 10\n",
        )
    );
    Ok(())
}

#[test]
fn what_belongs_under_a_window_that_is_left_is_left(rt: HostRuntime) -> Result<(), Fail> {
    const BOARD: &[Row] = &[
        Bridge("00:01.0", 2, (0, 1, 2), &[(0x20, 0xe010_e000, 0xfff0_fff0)]),
        Bridge("01:00.0", 2, (1, 2, 2), &[(0x20, 0xf000_f000, 0xfff0_fff0)]),
        Device(
            "01:01.0",
            3,
            &[
                (0x10, 0x0000_1001, 0xffff_ffe1),
                (0x14, 0xe010_0000, 0xfff0_0000),
            ],
        ),
        Device("02:00.0", 2, &[(0x10, 0xf000_0000, 0xfff0_0000)]),
    ];
    assert!(rt;
        has_lines(
            rt.alloc(),
            BOARD,
            &[0],
            "bus 00 mem\n  00000000e0000000-00000000e01fffff 2M window 00:01.0 20\n    \
             00000000e0000000-00000000e00fffff 1M free\n    \
             00000000e0100000-00000000e01fffff 1M bar 01:01.0 14\n\
             unreached\n  00000000f0000000-00000000f00fffff 1M window 01:00.0 20\n  \
             00001000-0000101f 32 bar 01:01.0 10\n  \
             00000000f0000000-00000000f00fffff 1M bar 02:00.0 10\n",
        )
    );
    Ok(())
}
