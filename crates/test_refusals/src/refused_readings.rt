//! Reading and admitting, with the first growth refused, then with the second, and so on until no refusal is met.
use crate::turn::{Turn, turn_by_fault, turn_of};
use pci_base::memory::{OutOfMemory, Refused};
use pci_dump::block::Block;
use pci_dump::dump::Dump;
use pci_dump::reader::read_dump;
use pci_dump::std_streams::Incoming;
use pci_machine::machine::Machine;
use pci_tree::admit::admit;
use pci_tree::survey::Survey;
use std::alloc::Global;
use std::test::Fail;
use test_support::board::Texts;
use test_support::refusing::{MANY, Refusing};
use test_support::samples::samples;

/// The dump of a text.
fn read<'a>(heap: &'a Refusing<Global>, text: &str) -> Option<Dump<&'a Refusing<Global>>> {
    read_dump(heap, &mut Incoming::new(text.as_bytes())).ok()
}

/// The dump and the probe of two texts, read with no growth refused.
pub fn both<'a>(
    heap: &'a Refusing<Global>,
    texts: &Texts,
) -> Option<(Dump<&'a Refusing<Global>>, Dump<&'a Refusing<Global>>)> {
    heap.refuse(0);
    let dump = read(heap, texts.dump.as_str())?;
    let probe = read(heap, texts.probe.as_str())?;
    Some((dump, probe))
}

/// A call on two texts.
#[derive(Clone, Copy)]
enum Call {
    ReadDump,
    ReadProbe,
    MachineOf,
    Admit,
}

/// The number of the fault that a call ends with whose n-th growth is refused.
fn fault_of(heap: &Refusing<Global>, n: u64, texts: &Texts, call: Call) -> Option<u8> {
    match call {
        Call::ReadDump => read_fault(heap, n, texts.dump.as_str()),
        Call::ReadProbe => read_fault(heap, n, texts.probe.as_str()),
        Call::MachineOf => machine_fault(heap, n, texts),
        Call::Admit => admit_fault(heap, n, texts),
    }
}

/// The number of the fault that reading a text ends with.
fn read_fault(heap: &Refusing<Global>, n: u64, text: &str) -> Option<u8> {
    heap.refuse(n);
    match read_dump(heap, &mut Incoming::new(text.as_bytes())) {
        Ok(_) => None,
        Err(fault) => Some(fault.number()),
    }
}

/// The number of the fault that making a machine ends with; 0 where the texts can't be read.
fn machine_fault(heap: &Refusing<Global>, n: u64, texts: &Texts) -> Option<u8> {
    let Some((dump, probe)) = both(heap, texts) else {
        return Some(0);
    };
    heap.refuse(n);
    machine_fault_of(heap, &dump, &probe)
}

/// The same of a dump and its probe.
fn machine_fault_of<'a>(
    heap: &'a Refusing<Global>,
    dump: &Dump<&'a Refusing<Global>>,
    probe: &Dump<&'a Refusing<Global>>,
) -> Option<u8> {
    let refused = match Machine::of(heap, dump, probe) {
        Ok(_) => return None,
        Err(refused) => refused,
    };
    match refused {
        Refused::Memory => Some(OutOfMemory.number()),
        Refused::Fault(fault) => Some(fault.number()),
    }
}

/// The number of the fault that admitting ends with; 0 where the texts can't be read.
fn admit_fault(heap: &Refusing<Global>, n: u64, texts: &Texts) -> Option<u8> {
    let Some((dump, probe)) = both(heap, texts) else {
        return Some(0);
    };
    heap.refuse(n);
    let refused = match admit(heap, dump, probe) {
        Ok(_) => return None,
        Err(refused) => refused,
    };
    match refused {
        Refused::Memory => Some(OutOfMemory.number()),
        Refused::Fault(fault) => Some(fault.number()),
    }
}

/// How many growths of a call are refused in turn.
fn refusals_of_call(heap: &Refusing<Global>, texts: &Texts, call: Call) -> u64 {
    for n in 1..MANY {
        let fault = fault_of(heap, n, texts, call);
        if let Some(refused) = turn_by_fault(heap.is_due(), fault).end(n) {
            return refused;
        }
    }
    MANY
}

#[test]
fn each_growth_of_reading_and_admitting_is_refused(rt: HostRuntime) -> Result<(), Fail> {
    let heap = Refusing::new(rt.alloc());
    for (texts, _) in samples(rt.alloc())? {
        for call in [
            Call::ReadDump,
            Call::ReadProbe,
            Call::MachineOf,
            Call::Admit,
        ] {
            let refused = refusals_of_call(&heap, &texts, call);
            assert!(rt; 0 < refused && refused < MANY, "{refused}");
        }
    }
    Ok(())
}

/// Whether a block is pushed, or its push is refused, leaves the dump as it was and then is done again.
fn is_pushed(
    heap: &Refusing<Global>,
    dump: &mut Dump<&Refusing<Global>>,
    front: &[Block],
    block: &Block,
) -> bool {
    let was_due = heap.is_due();
    let pushed = dump.push(block.copy());
    if !was_due || heap.is_due() {
        return pushed == Ok(());
    }
    pushed == Err(Refused::Memory) && dump.blocks() == front && dump.push(block.copy()) == Ok(())
}

/// The turn of pushing blocks where the n-th growth is refused.
fn turn_of_pushes(heap: &Refusing<Global>, blocks: &[Block], n: u64) -> Turn {
    heap.refuse(n);
    let mut dump = Dump::empty(heap);
    for i in 0..blocks.len() {
        if !is_pushed(heap, &mut dump, &blocks[..i], &blocks[i]) {
            return Turn::Wrong;
        }
    }
    turn_of(heap.is_due(), dump.blocks() == blocks)
}

/// How many growths of pushing a text's blocks are refused in turn.
fn refusals_of_pushes(heap: &Refusing<Global>, text: &str) -> u64 {
    heap.refuse(0);
    let Some(whole) = read(heap, text) else {
        return MANY;
    };
    for n in 1..MANY {
        if let Some(refused) = turn_of_pushes(heap, whole.blocks(), n).end(n) {
            return refused;
        }
    }
    MANY
}

#[test]
fn a_refused_push_leaves_the_dump_as_it_was(rt: HostRuntime) -> Result<(), Fail> {
    let heap = Refusing::new(rt.alloc());
    for (texts, _) in samples(rt.alloc())? {
        let refused = refusals_of_pushes(&heap, texts.dump.as_str());
        assert!(rt; 0 < refused && refused < MANY, "{refused}");
    }
    Ok(())
}

/// Whether a function is added to a survey once a growth for it was refused.
fn is_added_again(heap: &Refusing<Global>, block: &Block, read_back: &Block) -> bool {
    let mut survey = Survey::new(heap);
    heap.refuse(1);
    survey.add(block, read_back) == Err(OutOfMemory) && survey.add(block, read_back) == Ok(())
}

/// Whether each of two texts' functions is.
fn are_added_again(heap: &Refusing<Global>, texts: &Texts) -> bool {
    let Some((dump, probe)) = both(heap, texts) else {
        return false;
    };
    let mut are_added = true;
    for (block, read_back) in dump.blocks().iter().zip(probe.blocks()) {
        are_added = is_added_again(heap, block, read_back) && are_added;
    }
    are_added
}

#[test]
fn a_refused_add_leaves_the_survey_as_it_was(rt: HostRuntime) -> Result<(), Fail> {
    let heap = Refusing::new(rt.alloc());
    for (texts, _) in samples(rt.alloc())? {
        assert!(rt; are_added_again(&heap, &texts));
    }
    Ok(())
}
