//! What a plan starts from, where a growth is refused, the array is short, or the dump is no text.
use crate::c_plan::{MANY, NONE};
use crate::c_texts::old_pair;
use pci_dump::read_fault::ReadFault;
use pciplan_c::starting::{NoStart, start_into};
use std::alloc::Global;
use std::test::Fail;
use test_support::refusing::Refusing;

/// More registers than the board has that are compared.
const ROOM: usize = 96;

/// Whether the registers of a dump are put as a whole, and each growth that is refused leaves the array as it was.
fn are_put_or_refused(alloc: Global, dump: &[u8], fault: Option<NoStart>) -> bool {
    let heap = Refusing::new(alloc);
    let mut whole = [NONE; ROOM];
    let answer = start_into(alloc, dump, &mut whole);
    if answer.err() != fault {
        return false;
    }
    for n in 1..MANY {
        heap.refuse(n);
        let mut put = [NONE; ROOM];
        let answered = start_into(&heap, dump, &mut put);
        if heap.is_due() {
            return 1 < n && answered == answer && put == whole;
        }
        if answered != Err(NoStart::Memory) || put != [NONE; ROOM] {
            return false;
        }
    }
    false
}

#[test]
fn a_start_that_is_refused_a_growth_says_just_that(rt: HostRuntime) -> Result<(), Fail> {
    let old = old_pair(rt.alloc())?;
    let dump = old.dump.as_bytes();
    let cut = &dump[..dump.len().saturating_sub(1)];
    let ended = NoStart::Dump(ReadFault::Ended(198));
    assert!(rt; are_put_or_refused(rt.alloc(), dump, None));
    assert!(rt; are_put_or_refused(rt.alloc(), cut, Some(ended)));
    Ok(())
}

/// Whether an array that is short by one is left as it was, and so many registers are said to be needed.
fn is_short_by_one(alloc: Global, dump: &[u8]) -> bool {
    let mut whole = [NONE; ROOM];
    let Ok(count) = start_into(alloc, dump, &mut whole) else {
        return false;
    };
    if count == 0 || ROOM < count || whole[count..].iter().any(|register| *register != NONE) {
        return false;
    }
    let mut put = [NONE; ROOM];
    let answered = start_into(alloc, dump, &mut put[..count - 1]);
    answered == Err(NoStart::Registers(count)) && put == [NONE; ROOM]
}

#[test]
fn a_start_without_room_leaves_the_array_as_it_was(rt: HostRuntime) -> Result<(), Fail> {
    let old = old_pair(rt.alloc())?;
    assert!(rt; is_short_by_one(rt.alloc(), old.dump.as_bytes()));
    Ok(())
}
