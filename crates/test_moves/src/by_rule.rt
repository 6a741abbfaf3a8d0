//! Boards made by rule: three bridges at most, and devices on four buses, with BARs, ROMs and windows of every kind.
//!
//! Each board is planned for twice: as it starts, with nothing switched on, and once more from what was planned, so that
//! everything is on and moves to other pools.
use crate::setting::WIDE_POOLS;
use crate::trial::{Trial, tried, tried_again};
use pci_base::range::Range;
use pci_place::pools::Pools;
use std::alloc::{AllocError, Global};
use test_support::board::{Function, Register, bridge, device};

/// What is there of a window: nothing, its base and limit, or their upper halves as well.
const IO_WINDOWS: [&[Register]; 2] = [
    &[(0x1c, 0, 0x0000_f0f0)],
    &[(0x1c, 0x0000_0101, 0x0000_f1f1), (0x30, 0, 0xffff_ffff)],
];

const PREFETCHABLE_WINDOWS: [&[Register]; 3] = [
    &[],
    &[(0x24, 0, 0xfff0_fff0)],
    &[
        (0x24, 0x0001_0001, 0xfff1_fff1),
        (0x28, 0, 0xffff_ffff),
        (0x2c, 0, 0xffff_ffff),
    ],
];

/// The read backs of memory BARs of 16 bytes to 16 MB, and of I/O BARs.
const MEMORY: [u32; 5] = [
    0xffff_fff0,
    0xffff_f000,
    0xffff_0000,
    0xfff0_0000,
    0xff00_0000,
];

const IO: [u32; 3] = [0xffff_fffd, 0xffff_ffe1, 0x0000_ff01];

/// Pools elsewhere, with the prefetchable one below 4 GB.
const LOW_POOLS: Pools = Pools {
    io: Range {
        first: 0x0800,
        last: 0xefff,
    },
    mem: Range {
        first: 0x4000_0000,
        last: 0x7fff_ffff,
    },
    pref: Range {
        first: 0x8000_0000,
        last: 0xbfff_ffff,
    },
};

/// Takes numbers out of a seed, one after another.
#[derive(Drop)]
struct Rule {
    seed: u64,
}

impl Rule {
    /// A number below a bound.
    fn below(&mut self, bound: u32) -> u32 {
        self.seed = (self.seed % 0x1_0000_0000) * 1_664_525 + 1_013_904_223;
        let drawn = (self.seed / 0x1_0000 % 0x1_0000) as u32;
        drawn.checked_rem(bound).unwrap_or(0)
    }

    /// One of these.
    fn one_of<T: Copy>(&mut self, choice: &[T], other: T) -> T {
        let place = self.below(choice.len().min(16) as u32);
        match choice.get(place as usize) {
            Some(one) => *one,
            None => other,
        }
    }

    /// The function with a BAR of some kind in one or two registers, or none.
    fn with_bar(&mut self, function: Function, offset: u8, io: bool) -> Function {
        let mask = self.one_of(&MEMORY, 0);
        let upper = (offset.saturating_add(4), 0, 0xffff_ffff);
        match self.below(6) {
            0 => function,
            1 => function.registers(&[(offset, 0, mask)]),
            2 => function.registers(&[(offset, 0x8, mask | 0x8)]),
            3 => function.registers(&[(offset, 0x4, mask | 0x4), upper]),
            4 => function.registers(&[(offset, 0xc, mask | 0xc), upper]),
            _ if io => function.registers(&[(offset, 0x1, self.one_of(&IO, 0))]),
            _ => function,
        }
    }

    /// The function with a ROM, or without.
    fn with_rom(&mut self, function: Function, offset: u8) -> Function {
        match self.below(3) {
            0 => function.registers(&[(offset, 0, 0xffff_0000)]),
            _ => function,
        }
    }

    /// A device, with I/O BARs only where they can be got to.
    fn device(&mut self, slot: &'static str, io: bool) -> Function {
        let function = device(slot, 0, &[]);
        let function = self.with_bar(function, 0x10, io);
        let function = self.with_bar(function, 0x18, io);
        let function = self.with_bar(function, 0x20, io);
        self.with_rom(function, 0x30)
    }

    /// A bridge, with an I/O window or without, and I/O BARs only where they can be got to.
    fn bridge(
        &mut self,
        slot: &'static str,
        buses: (u8, u8, u8),
        io: bool,
        window: bool,
    ) -> Function {
        let function = bridge(slot, 0, buses, &[]);
        let function = if window {
            function.registers(self.one_of(&IO_WINDOWS, &[]))
        } else {
            function
        };
        let function = function.registers(self.one_of(&PREFETCHABLE_WINDOWS, &[]));
        let function = self.with_bar(function, 0x10, io);
        self.with_rom(function, 0x38)
    }

    /// A board: a bridge to bus 01, behind it maybe one to bus 02, maybe a bridge to bus 03, and devices.
    fn board(&mut self, alloc: Global) -> Result<Vec<Function>, AllocError> {
        let mut board = Vec::new(alloc);
        let (outer, inner, side) = (self.below(2) == 0, self.below(2) == 0, self.below(2) == 0);
        let (far, wide) = (self.below(2) == 0, self.below(2) == 0);
        board.push(self.device("00:00.0", true))?;
        board.push(self.bridge("00:01.0", (0, 1, 2), true, outer))?;
        if wide {
            board.push(self.bridge("00:02.0", (0, 3, 3), true, side))?;
        }
        board.push(self.device("00:03.0", true))?;
        board.push(self.device("01:00.0", outer))?;
        if far {
            board.push(self.bridge("01:01.0", (1, 2, 2), outer, inner))?;
            board.push(self.device("02:00.0", outer && inner))?;
        }
        if wide {
            board.push(self.device("03:00.0", side))?;
        }
        Ok(board)
    }
}

/// Whether the board of a seed stays sound wherever its plan stops.
fn stays_sound(alloc: Global, seed: u64) -> bool {
    let Ok(board) = Rule { seed }.board(alloc) else {
        return false;
    };
    let (pools, others) = if seed % 2 == 0 {
        (WIDE_POOLS, LOW_POOLS)
    } else {
        (LOW_POOLS, WIDE_POOLS)
    };
    let functions = board.as_slice();
    tried(alloc, functions, &pools, Trial::StopsAnywhere)
        && tried_again(alloc, functions, &pools, &others, Trial::StopsAnywhere)
}

#[test]
fn a_board_stays_sound_wherever_its_plan_stops(rt: HostRuntime) {
    for seed in 0..300u64 {
        assert!(rt; stays_sound(rt.alloc(), seed), "{seed}");
    }
}
