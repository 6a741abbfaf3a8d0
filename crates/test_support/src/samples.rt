//! Boards on which reads, writes and growths are made to fail.
use crate::board::{Texts, bridge, device, texts_of};
use std::alloc::{AllocError, Global};

/// Two BARs that clash.
pub fn clash(alloc: Global) -> Result<Texts, AllocError> {
    let board = [
        device("00:01.0", 2, &[(0x10, 0xe000_0000, 0xfff0_0000)]),
        device("00:02.0", 2, &[(0x10, 0xe008_0000, 0xfff8_0000)]),
    ];
    texts_of(alloc, &board)
}

/// Two bridges with windows side by side, and a BAR behind one of them.
pub fn tree(alloc: Global) -> Result<Texts, AllocError> {
    let board = [
        bridge("00:01.0", 2, (0, 1, 1), &[(0x20, 0xe000_e000, 0xfff0_fff0)]),
        bridge("00:02.0", 2, (0, 2, 2), &[(0x20, 0xe010_e010, 0xfff0_fff0)]),
        device("01:00.0", 2, &[(0x10, 0xe000_0000, 0xffff_f000)]),
    ];
    texts_of(alloc, &board)
}

/// Two BARs side by side.
pub fn plain(alloc: Global) -> Result<Texts, AllocError> {
    let board = [
        device("00:01.0", 2, &[(0x10, 0xe000_0000, 0xfff0_0000)]),
        device("00:02.0", 2, &[(0x10, 0xe010_0000, 0xfff0_0000)]),
    ];
    texts_of(alloc, &board)
}

/// Two bridges in a row, and behind them a 64-bit prefetchable BAR in the prefetchable windows, an I/O BAR in the I/O
/// windows, and a ROM that is on in the memory windows.
pub fn deep(alloc: Global) -> Result<Texts, AllocError> {
    let outer = [
        (0x1c, 0x0000_2010, 0x0000_f0f0),
        (0x20, 0xe010_e000, 0xfff0_fff0),
        (0x24, 0x0011_0001, 0xfff1_fff1),
        (0x28, 0x0000_0001, 0xffff_ffff),
        (0x2c, 0x0000_0001, 0xffff_ffff),
    ];
    let inner = [
        (0x1c, 0x0000_1010, 0x0000_f0f0),
        (0x20, 0xe000_e000, 0xfff0_fff0),
        (0x24, 0x0001_0001, 0xfff1_fff1),
        (0x28, 0x0000_0001, 0xffff_ffff),
        (0x2c, 0x0000_0001, 0xffff_ffff),
    ];
    let registers = [
        (0x10, 0x0000_000c, 0xffff_000c),
        (0x14, 0x0000_0001, 0xffff_ffff),
        (0x18, 0x0000_1001, 0xffff_ffe1),
        (0x30, 0xe000_0001, 0xffff_0000),
    ];
    let board = [
        bridge("00:01.0", 3, (0, 1, 2), &outer),
        bridge("01:00.0", 3, (1, 2, 2), &inner),
        device("02:00.0", 3, &registers),
    ];
    texts_of(alloc, &board)
}

/// Fourteen functions without a register.
pub fn row(alloc: Global) -> Result<Texts, AllocError> {
    let mut board = Vec::new(alloc);
    for slot in [
        "00:01.0", "00:02.0", "00:03.0", "00:04.0", "00:05.0", "00:06.0", "00:07.0", "00:08.0",
        "00:09.0", "00:0a.0", "00:0b.0", "00:0c.0", "00:0d.0", "00:0e.0",
    ] {
        board.push(device(slot, 0, &[]))?;
    }
    texts_of(alloc, board.as_slice())
}

/// All of them, each with the line of its verdict.
pub fn samples(alloc: Global) -> Result<[(Texts, &'static str); 5], AllocError> {
    Ok([
        (
            clash(alloc)?,
            "no 61 Clash bus 00 mem 00000000e0080000 00:01.0 10 00:02.0 10\n",
        ),
        (tree(alloc)?, "yes\n"),
        (plain(alloc)?, "yes\n"),
        (deep(alloc)?, "yes\n"),
        (row(alloc)?, "yes\n"),
    ])
}
