//! Boards that are planned in these pools, and the lines of their plans.
use crate::board::{Texts, bridge, device, texts_of};
use pci_base::range::Range;
use std::alloc::{AllocError, Global};

/// The pool of I/O.
pub const IO_POOL: Range = Range {
    first: 0x1000,
    last: 0xffff,
};

/// Three megabytes of memory.
pub const MEMORY_POOL: Range = Range {
    first: 0xe000_0000,
    last: 0xe02f_ffff,
};

/// Prefetchable memory from 4 GB on.
pub const PREFETCH_POOL: Range = Range {
    first: 0x1_0000_0000,
    last: 0x1_ffff_ffff,
};

/// A board of three functions and one with a wide prefetchable window, each with the lines of its plan.
pub fn boards(alloc: Global) -> Result<[(Texts, &'static str); 2], AllocError> {
    let far = [(0x10, 0, 0xfff0_0000), (0x14, 0, 0xffff_f000)];
    let three = [
        bridge("00:01.0", 0, (0, 1, 1), &[]),
        device("00:02.0", 0, &[(0x10, 0, 0xfff0_0000)]),
        device("01:00.0", 0, &far),
    ];
    let windows = [
        (0x24, 0x0001_0001, 0xfff1_fff1),
        (0x28, 0, 0xffff_ffff),
        (0x2c, 0, 0xffff_ffff),
    ];
    let bar = [(0x10, 0x0000_000c, 0xf000_000c), (0x14, 0, 0xffff_ffff)];
    let wide = [
        bridge("00:01.0", 0, (0, 1, 1), &windows),
        device("01:00.0", 0, &bar),
    ];
    Ok([
        (
            texts_of(alloc, &three)?,
            "00:01.0 20.4 e010e000\n00:02.0 10.4 e0200000\n01:00.0 10.4 e0000000\n\
01:00.0 14.4 e0100000\n00:01.0 04.2 0002\n00:02.0 04.2 0002\n01:00.0 04.2 0002\n",
        ),
        (
            texts_of(alloc, &wide)?,
            "00:01.0 20.4 0000fff0\n00:01.0 24.4 0ff10001\n00:01.0 28.4 00000001\n\
00:01.0 2c.4 00000001\n01:00.0 14.4 00000001\n00:01.0 04.2 0002\n01:00.0 04.2 0002\n",
        ),
    ])
}
