//! The lists of all faults of judging.
use crate::boards::{BEHIND_ONE_THAT_IS_OFF, PASSED_IN_TWO_PARTS, admitted};
use pci_faults::judging::all_of_judging;
use pci_tree::admitted::Admitted;
use std::alloc::Global;
use std::test::Fail;
use test_support::row::Row;
use test_support::row::Row::Device;

/// A line for each fault of a board.
fn lines_of(alloc: Global, board: &Admitted) -> Option<String> {
    let faults = all_of_judging(alloc, board.outline()).ok()?;
    let mut lines = String::new(alloc);
    for fault in faults.iter() {
        writeln!(lines, "{fault}").ok()?;
    }
    Some(lines)
}

/// Whether they are these.
fn are_lines(alloc: Global, board: &Admitted, wanted: &str) -> bool {
    match lines_of(alloc, board) {
        Some(lines) => lines.as_str() == wanted,
        None => false,
    }
}

/// Whether the faults of a board are these lines.
fn has_lines(alloc: Global, board: &[Row], roots: &[u8], wanted: &str) -> bool {
    match admitted(alloc, board, roots) {
        Some(board) => are_lines(alloc, &board, wanted),
        None => false,
    }
}

#[test]
fn a_clash_is_told_at_the_least_address_of_each_later_region(rt: HostRuntime) -> Result<(), Fail> {
    const BOARD: &[Row] = &[
        Device("00:01.0", 2, &[(0x10, 0xe000_0000, 0xf000_0000)]),
        Device("00:02.0", 2, &[(0x10, 0xe100_0000, 0xfff0_0000)]),
        Device("00:03.0", 2, &[(0x10, 0xe080_0000, 0xfff0_0000)]),
    ];
    assert!(rt;
        has_lines(
            rt.alloc(),
            BOARD,
            &[0],
            "61 Clash bus 00 mem 00000000e0800000 00:01.0 10 00:03.0 10\n\
         61 Clash bus 00 mem 00000000e1000000 00:01.0 10 00:02.0 10\n",
        )
    );
    Ok(())
}

#[test]
fn each_region_is_named_second_once(rt: HostRuntime) -> Result<(), Fail> {
    const BOARD: &[Row] = &[
        Device("00:01.0", 2, &[(0x10, 0xe000_0000, 0xffe0_0000)]),
        Device("00:02.0", 2, &[(0x10, 0xe010_0000, 0xfff0_0000)]),
        Device(
            "00:03.0",
            2,
            &[
                (0x10, 0xe010_0000, 0xfff0_0000),
                (0x14, 0xe018_0000, 0xfff8_0000),
            ],
        ),
    ];
    assert!(rt;
        has_lines(
            rt.alloc(),
            BOARD,
            &[0],
            "61 Clash bus 00 mem 00000000e0100000 00:01.0 10 00:02.0 10\n\
         61 Clash bus 00 mem 00000000e0100000 00:01.0 10 00:03.0 10\n\
         61 Clash bus 00 mem 00000000e0180000 00:01.0 10 00:03.0 14\n",
        )
    );
    Ok(())
}

#[test]
fn each_bar_and_rom_behind_a_bridge_that_is_off_has_a_line(rt: HostRuntime) -> Result<(), Fail> {
    assert!(rt;
        has_lines(
            rt.alloc(),
            BEHIND_ONE_THAT_IS_OFF,
            &[0],
            "60 Unreached 01:00.0 10 mem 00000000e0000000 bridge 00:01.0\n\
         60 Unreached 01:01.0 10 mem 00000000e0010000 bridge 00:01.0\n\
         60 Unreached 01:01.0 30 mem 00000000e0020000 bridge 00:01.0\n",
        )
    );
    Ok(())
}

#[test]
fn the_least_address_that_the_first_bridge_misses_is_told(rt: HostRuntime) -> Result<(), Fail> {
    assert!(rt;
        has_lines(
            rt.alloc(),
            PASSED_IN_TWO_PARTS,
            &[0],
            "60 Unreached 01:00.0 10 mem 00000000e0100000 bridge 00:01.0\n",
        )
    );
    Ok(())
}

#[test]
fn splits_follow_clashes(rt: HostRuntime) -> Result<(), Fail> {
    const BOARD: &[Row] = &[
        Device("00:01.0", 2, &[(0x10, 0xe000_0000, 0xfff0_0000)]),
        Device("40:01.0", 2, &[(0x10, 0xe000_0000, 0xfff0_0000)]),
        Device("40:02.0", 2, &[(0x10, 0xe008_0000, 0xfff8_0000)]),
    ];
    assert!(rt;
        has_lines(
            rt.alloc(),
            BOARD,
            &[0, 0x40],
            "61 Clash bus 40 mem 00000000e0080000 40:01.0 10 40:02.0 10\n\
         62 Split mem 00000000e0000000 00:01.0 10 40:01.0 10\n\
         62 Split mem 00000000e0080000 00:01.0 10 40:02.0 10\n",
        )
    );
    Ok(())
}

#[test]
fn a_sound_board_has_none(rt: HostRuntime) -> Result<(), Fail> {
    const BOARD: &[Row] = &[Device("00:01.0", 2, &[(0x10, 0xe000_0000, 0xfff0_0000)])];
    assert!(rt; has_lines(rt.alloc(), BOARD, &[0], ""));
    Ok(())
}
