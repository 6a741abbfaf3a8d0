//! Boards that are constants, with the pools to plan them in.
use pci_base::range::Range;
use pci_place::pools::Pools;
use test_support::planned::{IO_POOL, MEMORY_POOL, PREFETCH_POOL};
use test_support::row::Row;
use test_support::row::Row::{Bridge, Device};

/// A board, and where it is planned.
pub struct Sample {
    pub board: &'static [Row],
    pub pools: Pools,
    pub roots: &'static [u8],
    /// From how many writes on a stop is sound: 0 where the start is.
    pub safe_from: usize,
}

/// 60 KB of I/O, three megabytes of memory, and prefetchable memory from 4 GB on.
const USUAL: Pools = Pools {
    io: IO_POOL,
    mem: MEMORY_POOL,
    pref: PREFETCH_POOL,
};

/// Two devices and a bridge on the way to one of them, with nothing placed.
const THREE: &[Row] = &[
    Bridge("00:01.0", 0, (0, 1, 1), &[]),
    Device("00:02.0", 0, &[(0x10, 0, 0xfff0_0000)]),
    Device(
        "01:00.0",
        0,
        &[(0x10, 0, 0xfff0_0000), (0x14, 0, 0xffff_f000)],
    ),
];

/// The same where all is on, at addresses that clash.
const UNSOUND: &[Row] = &[
    Bridge("00:01.0", 2, (0, 1, 1), &[]),
    Device("00:02.0", 2, &[(0x10, 0, 0xfff0_0000)]),
    Device(
        "01:00.0",
        2,
        &[(0x10, 0, 0xfff0_0000), (0x14, 0, 0xffff_f000)],
    ),
];

/// The same as it is planned.
const PLACED: &[Row] = &[
    Bridge("00:01.0", 2, (0, 1, 1), &[(0x20, 0xe010_e000, 0xfff0_fff0)]),
    Device("00:02.0", 2, &[(0x10, 0xe020_0000, 0xfff0_0000)]),
    Device(
        "01:00.0",
        2,
        &[
            (0x10, 0xe000_0000, 0xfff0_0000),
            (0x14, 0xe010_0000, 0xffff_f000),
        ],
    ),
];

/// A bridge with all windows but that of I/O, and a large prefetchable BAR behind it.
const WIDE: &[Row] = &[
    Bridge(
        "00:01.0",
        0,
        (0, 1, 1),
        &[
            (0x24, 0x0001_0001, 0xfff1_fff1),
            (0x28, 0, 0xffff_ffff),
            (0x2c, 0, 0xffff_ffff),
        ],
    ),
    Device(
        "01:00.0",
        0,
        &[(0x10, 0x0000_000c, 0xf000_000c), (0x14, 0, 0xffff_ffff)],
    ),
];

/// A BAR and a ROM.
const ROM: &[Row] = &[Device(
    "00:01.0",
    0,
    &[(0x10, 0, 0xffff_f000), (0x30, 0, 0xffff_0000)],
)];

/// The least pool that has room for them. It doesn't begin at a multiple of the larger one.
const ROM_POOLS: Pools = Pools {
    io: IO_POOL,
    mem: Range {
        first: 0xe000_0800,
        last: 0xe002_0fff,
    },
    pref: PREFETCH_POOL,
};

/// An I/O BAR behind an I/O window.
const PORTS: &[Row] = &[
    Bridge("00:01.0", 0, (0, 1, 1), &[(0x1c, 0x0000_f000, 0x0000_f0f0)]),
    Device("01:00.0", 0, &[(0x10, 1, 0xffff_ff01)]),
];

/// A device on each of two root buses.
const ROOTS: &[Row] = &[
    Device("00:01.0", 0, &[(0x10, 0, 0xfff0_0000)]),
    Device("40:01.0", 0, &[(0x10, 0, 0xfff0_0000)]),
];

const ROOTS_POOLS: Pools = Pools {
    io: IO_POOL,
    mem: Range {
        first: 0xe000_0000,
        last: 0xe01f_ffff,
    },
    pref: PREFETCH_POOL,
};

/// A sample below root 00 whose start is sound.
macro_rules! sound {
    ($board:expr, $pools:expr) => {
        Sample {
            board: $board,
            pools: $pools,
            roots: &[0],
            safe_from: 0,
        }
    };
}

/// The boards, and no function at all.
pub const SAMPLES: &[Sample] = &[
    sound!(THREE, USUAL),
    sound!(WIDE, USUAL),
    sound!(ROM, ROM_POOLS),
    sound!(PORTS, USUAL),
    Sample {
        board: ROOTS,
        pools: ROOTS_POOLS,
        roots: &[0, 0x40],
        safe_from: 0,
    },
    sound!(PLACED, USUAL),
    Sample {
        board: UNSOUND,
        pools: USUAL,
        roots: &[0],
        safe_from: 3,
    },
    sound!(&[], USUAL),
];
