//! Calls that take no memory, with the first growth refused: they meet no refusal, and answer the same.
use crate::refused_readings::both;
use crate::refused_verdicts::{admitted, is_written_as};
use pci_base::memory::Refused;
use pci_base::range::Range;
use pci_base::slot::Slot;
use pci_dump::block::Block;
use pci_dump::dump::Dump;
use pci_dump::reader::Reader;
use pci_dump::std_streams::Incoming;
use pci_machine::machine::Machine;
use pci_machine::size::size;
use pci_place::pools::Pools;
use pci_plan::apply::apply;
use pci_plan::plan::Plan;
use pci_plan::planning::plan;
use pci_tree::admitted::Admitted;
use pci_tree::fault::Fault;
use pci_tree::pair::pair;
use pci_tree::survey::Survey;
use std::alloc::Global;
use std::test::Fail;
use test_support::board::Texts;
use test_support::refusing::Refusing;
use test_support::samples::samples;

/// Whether a text's blocks are those of its dump, in their order.
fn is_read_by_blocks<'a>(dump: &Dump<&'a Refusing<Global>>, text: &str) -> bool {
    let mut reader = Reader::new(Incoming::new(text.as_bytes()));
    for block in dump.blocks() {
        match reader.next_block() {
            Ok(Some(next)) if next == *block => {}
            _ => return false,
        }
    }
    matches!(reader.next_block(), Ok(None))
}

/// Whether texts are read, paired and written with no growth.
fn is_read_and_written(alloc: Global, heap: &Refusing<Global>, texts: &Texts) -> bool {
    let Some((dump, probe)) = both(heap, texts) else {
        return false;
    };
    heap.refuse(1);
    is_written_as(alloc, &dump, texts.dump.as_str())
        && pair(&dump, &probe) == Ok(())
        && is_read_by_blocks(&dump, texts.dump.as_str())
        && heap.is_due()
}

#[test]
fn texts_are_read_paired_and_written(rt: HostRuntime) -> Result<(), Fail> {
    let heap = Refusing::new(rt.alloc());
    for (texts, _) in samples(rt.alloc())? {
        assert!(rt; is_read_and_written(rt.alloc(), &heap, &texts));
    }
    Ok(())
}

/// Whether sizing each function finds what its block of the probe holds.
fn is_sized<'a>(
    machine: &mut Machine<&'a Refusing<Global>>,
    probe: &Dump<&'a Refusing<Global>>,
) -> bool {
    for block in probe.blocks() {
        if size(machine, block.slot) != Ok(block.image) {
            return false;
        }
    }
    true
}

/// Whether the functions of a dump and its probe are sized with no growth.
fn is_sized_at_once<'a>(
    heap: &'a Refusing<Global>,
    dump: &Dump<&'a Refusing<Global>>,
    probe: &Dump<&'a Refusing<Global>>,
) -> bool {
    let Some(mut machine) = Machine::of(heap, dump, probe).ok() else {
        return false;
    };
    heap.refuse(1);
    is_sized(&mut machine, probe) && heap.is_due()
}

/// The same of two texts.
fn are_sized(heap: &Refusing<Global>, texts: &Texts) -> bool {
    match both(heap, texts) {
        Some((dump, probe)) => is_sized_at_once(heap, &dump, &probe),
        None => false,
    }
}

#[test]
fn functions_are_sized(rt: HostRuntime) -> Result<(), Fail> {
    let heap = Refusing::new(rt.alloc());
    for (texts, _) in samples(rt.alloc())? {
        assert!(rt; are_sized(&heap, &texts));
    }
    Ok(())
}

/// The fault that a survey ends with.
fn noted_in<'a>(survey: Survey<&'a Refusing<Global>>) -> Option<Fault> {
    let refused = match survey.finish() {
        Ok(_) => return None,
        Err(refused) => refused,
    };
    match refused {
        Refused::Fault(fault) => Some(fault),
        Refused::Memory => None,
    }
}

/// Whether the way to a slot is found; the boards' bridges stand in a row, one on each bus.
fn is_way_found<'a>(board: &Admitted<&'a Refusing<Global>>, slot: Slot) -> bool {
    match (board.outline().path(slot), board.path(slot)) {
        (Some(path), Some(same)) => {
            path.len() == usize::from(slot.bus()) && same.as_slice() == path.as_slice()
        }
        _ => false,
    }
}

/// Whether a survey that one text alone has a slot for ends with that fault.
fn is_survey_begun(heap: &Refusing<Global>, slot: Slot) -> bool {
    let mut survey = Survey::new(heap);
    survey.only(slot);
    noted_in(survey) == Some(Fault::SlotsDiffer(slot))
}

/// Whether each way is found and a survey is begun at each function with no growth.
fn are_ways_found(heap: &Refusing<Global>, texts: &Texts) -> bool {
    let Some(board) = admitted(heap, texts) else {
        return false;
    };
    heap.refuse(1);
    for block in board.dump().blocks() {
        if !is_way_found(&board, block.slot) || !is_survey_begun(heap, block.slot) {
            return false;
        }
    }
    heap.is_due()
}

#[test]
fn ways_are_found_and_surveys_begun(rt: HostRuntime) -> Result<(), Fail> {
    let heap = Refusing::new(rt.alloc());
    for (texts, _) in samples(rt.alloc())? {
        assert!(rt; are_ways_found(&heap, &texts));
    }
    Ok(())
}

/// Pools with room for each of the boards.
fn wide_pools() -> Pools {
    Pools {
        io: Range {
            first: 0x1000,
            last: 0xffff,
        },
        mem: Range {
            first: 0x8000_0000,
            last: 0xfebf_ffff,
        },
        pref: Range {
            first: 0x1_0000_0000,
            last: 0xffff_ffff_ffff,
        },
    }
}

/// Whether a machine is as it is planned once a plan is applied to it.
fn is_applied<'a>(
    machine: &mut Machine<&'a Refusing<Global>>,
    plan: &Plan<'_, &'a Refusing<Global>>,
) -> bool {
    if apply(machine, &plan.as_move()) != Ok(()) || plan.writes().len() < plan.safe_from() {
        return false;
    }
    for block in plan.dump().blocks() {
        if machine.image(block.slot) != Some(&block.image) {
            return false;
        }
    }
    true
}

/// Whether a plan of a board is lent and applied to its machine with no growth.
fn is_planned_and_applied<'a>(
    heap: &'a Refusing<Global>,
    board: &Admitted<&'a Refusing<Global>>,
    machine: &mut Machine<&'a Refusing<Global>>,
) -> bool {
    let Some(plan) = plan(heap, board, &wide_pools()).ok() else {
        return false;
    };
    heap.refuse(1);
    is_applied(machine, &plan) && heap.is_due()
}

/// The same of a board with the machine that it is of.
fn is_set_up<'a>(heap: &'a Refusing<Global>, board: &Admitted<&'a Refusing<Global>>) -> bool {
    match Machine::of(heap, board.dump(), board.probe()).ok() {
        Some(mut machine) => is_planned_and_applied(heap, board, &mut machine),
        None => false,
    }
}

/// The same of two texts.
fn is_lent_and_applied(heap: &Refusing<Global>, texts: &Texts) -> bool {
    match admitted(heap, texts) {
        Some(board) => is_set_up(heap, &board),
        None => false,
    }
}

#[test]
fn plans_are_lent_and_applied(rt: HostRuntime) -> Result<(), Fail> {
    let heap = Refusing::new(rt.alloc());
    for (texts, _) in samples(rt.alloc())? {
        assert!(rt; is_lent_and_applied(&heap, &texts));
    }
    Ok(())
}
