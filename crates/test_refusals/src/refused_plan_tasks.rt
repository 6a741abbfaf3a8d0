//! The program's plans, with the first growth refused, then with the second, and so on until no refusal is met.
use crate::on_boards::is_refused;
use crate::refused_tasks::is_refused_in_turn;
use pci_base::range::Range;
use pci_place::pools::Pools;
use pci_tree::roots::Roots;
use pciplan_tasks::task::Task;
use std::alloc::Global;
use std::test::Fail;
use test_support::board::Texts;
use test_support::planned::{IO_POOL, MEMORY_POOL, PREFETCH_POOL, boards};
use test_support::row::Row;
use test_support::row::Row::Device;

const POOLS: Pools = Pools {
    io: IO_POOL,
    mem: MEMORY_POOL,
    pref: PREFETCH_POOL,
};

/// A plan with reasons in some pools.
fn task(pools: Pools, writes: bool) -> Task {
    Task::Plan {
        pools,
        writes,
        why: true,
        roots: Roots::host(),
    }
}

/// Whether a plan that is refused a growth says just that, where it is printed as a dump and as writes.
fn are_refused_in_turn(alloc: Global, texts: &Texts) -> bool {
    is_refused_in_turn(alloc, &task(POOLS, false), texts)
        && is_refused_in_turn(alloc, &task(POOLS, true), texts)
}

#[test]
fn a_plan_that_is_refused_a_growth_says_just_that(rt: HostRuntime) -> Result<(), Fail> {
    for (texts, _) in boards(rt.alloc())? {
        assert!(rt; are_refused_in_turn(rt.alloc(), &texts));
    }
    Ok(())
}

/// A pool of memory that ends with its first address.
const NARROW: Pools = Pools {
    io: IO_POOL,
    mem: Range {
        first: MEMORY_POOL.first,
        last: MEMORY_POOL.first,
    },
    pref: PREFETCH_POOL,
};

#[test]
fn a_shortage_that_is_refused_a_growth_says_just_that(rt: HostRuntime) -> Result<(), Fail> {
    const BOARD: &[Row] = &[Device("00:01.0", 2, &[(0x10, 0xe000_0000, 0xfff0_0000)])];
    is_refused(rt.alloc(), Ok(task(NARROW, false)), BOARD)
}
