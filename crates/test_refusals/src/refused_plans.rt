//! Planning, with the first growth refused, then with the second, and so on until no refusal is met.
use crate::refused_verdicts::{admitted, is_as_it_was};
use crate::turn::{Turn, turn_of};
use pci_base::memory::Refused;
use pci_place::pools::Pools;
use pci_plan::plan::Plan;
use pci_plan::plan_fault::PlanFault;
use pci_plan::planning::plan;
use pci_tree::admitted::Admitted;
use std::alloc::{AllocError, Global};
use std::fmt::Write;
use std::test::Fail;
use test_support::board::Texts;
use test_support::planned::{IO_POOL, MEMORY_POOL, PREFETCH_POOL, boards};
use test_support::refusing::{MANY, Refusing};

const POOLS: Pools = Pools {
    io: IO_POOL,
    mem: MEMORY_POOL,
    pref: PREFETCH_POOL,
};

/// Memory above 4 GB.
const BAD_POOLS: Pools = Pools {
    io: IO_POOL,
    mem: PREFETCH_POOL,
    pref: MEMORY_POOL,
};

/// What planning answers: the lines of the writes, or why there are none.
fn lines_of<'a>(
    alloc: Global,
    board: &Admitted<&'a Refusing<Global>>,
    heap: &'a Refusing<Global>,
    pools: &Pools,
) -> Result<String, AllocError> {
    answer_of(alloc, &plan(heap, board, pools))
}

/// The same of an answer.
fn answer_of<'p, 'a>(
    alloc: Global,
    answer: &Result<Plan<'p, &'a Refusing<Global>>, Refused<PlanFault>>,
) -> Result<String, AllocError> {
    let mut text = String::new(alloc);
    match answer {
        Ok(plan) => {
            for write in plan.writes() {
                writeln!(text, "{write}")?;
            }
        }
        Err(Refused::Fault(fault)) => writeln!(text, "{fault}")?,
        Err(Refused::Memory) => text.push_str("2 Memory\n")?,
    }
    Ok(text)
}

/// Whether planning answers these lines.
fn is_answered<'a>(
    alloc: Global,
    board: &Admitted<&'a Refusing<Global>>,
    heap: &'a Refusing<Global>,
    pools: &Pools,
    lines: &str,
) -> bool {
    match lines_of(alloc, board, heap, pools) {
        Ok(answer) => answer.as_str() == lines,
        Err(_) => false,
    }
}

/// The turn of planning where the n-th growth is refused.
fn turn_of_plan<'a>(
    alloc: Global,
    board: &Admitted<&'a Refusing<Global>>,
    heap: &'a Refusing<Global>,
    lines: &str,
    n: u64,
) -> Turn {
    heap.refuse(n);
    let Some(answer) = lines_of(alloc, board, heap, &POOLS).ok() else {
        return Turn::Wrong;
    };
    let is_whole = heap.is_due();
    let wanted = if is_whole { lines } else { "2 Memory\n" };
    turn_of(is_whole, answer.as_str() == wanted)
}

/// How many growths of planning are refused in turn. The board stays as it was, and is planned after each.
fn refusals_of_plan<'a>(
    alloc: Global,
    board: &Admitted<&'a Refusing<Global>>,
    heap: &'a Refusing<Global>,
    texts: &Texts,
    lines: &str,
) -> u64 {
    for n in 1..MANY {
        let turn = turn_of_plan(alloc, board, heap, lines, n);
        heap.refuse(0);
        if !is_as_it_was(alloc, board, texts) || !is_answered(alloc, board, heap, &POOLS, lines) {
            return MANY;
        }
        if let Some(refused) = turn.end(n) {
            return refused;
        }
    }
    MANY
}

/// The same of a board's texts.
fn refusals_on(alloc: Global, heap: &Refusing<Global>, texts: &Texts, lines: &str) -> u64 {
    match admitted(heap, texts) {
        Some(board) => refusals_of_plan(alloc, &board, heap, texts, lines),
        None => MANY,
    }
}

#[test]
fn each_growth_of_a_plan_is_refused(rt: HostRuntime) -> Result<(), Fail> {
    let heap = Refusing::new(rt.alloc());
    for (texts, lines) in boards(rt.alloc())? {
        let refused = refusals_on(rt.alloc(), &heap, &texts, lines);
        assert!(rt; 3 < refused && refused < MANY, "{refused}");
    }
    Ok(())
}

/// Whether pools that are none are refused with no growth.
fn are_no_pools(alloc: Global, heap: &Refusing<Global>, texts: &Texts) -> bool {
    let Some(board) = admitted(heap, texts) else {
        return false;
    };
    heap.refuse(1);
    is_answered(alloc, &board, heap, &BAD_POOLS, "70 BadPools\n") && heap.is_due()
}

#[test]
fn pools_that_are_no_pools_are_told_without_memory(rt: HostRuntime) -> Result<(), Fail> {
    let heap = Refusing::new(rt.alloc());
    for (texts, _) in boards(rt.alloc())? {
        assert!(rt; are_no_pools(rt.alloc(), &heap, &texts));
    }
    Ok(())
}
