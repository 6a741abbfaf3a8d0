use crate::texts::{STEPS, block, joined, reads_as};
use pci_base::image::Image;
use pci_base::memory::Refused;
use pci_base::slot::Slot;
use pci_dump::block::Block;
use pci_dump::dump::{Dump, PushFault};
use pci_dump::read_fault::{ReadFault, WriteFault};
use pci_dump::reader::read_dump;
use pci_dump::std_streams::{Incoming, Outgoing};
use pci_dump::write::write_dump;
use std::test::Fail;
use test_support::example::DUMP;
use test_support::fakes::{Narrow, Pieces};

/// What is written of a dump, nothing where a write fails.
fn written(rt: &HostRuntime, dump: &Dump) -> Vec<u8> {
    let mut text = Vec::new(rt.alloc());
    if write_dump(&mut Outgoing::new(&mut text), dump).is_err() {
        text.clear();
    }
    text
}

/// Whether a dump that was read is written as this text.
fn is_written_again(rt: &HostRuntime, dump: Result<Dump, ReadFault>, text: &[u8]) -> bool {
    match dump {
        Ok(dump) => written(rt, &dump).as_slice() == text,
        Err(_) => false,
    }
}

/// Whether a text that is read in this cutting is written again.
fn is_kept(rt: &HostRuntime, text: &[u8], step: usize) -> bool {
    let dump = read_dump(rt.alloc(), &mut Pieces::new(text, step, 0));
    is_written_again(rt, dump, text)
}

/// Whether it is where a reader of std gives it.
fn is_kept_by_std(rt: &HostRuntime, text: &[u8]) -> bool {
    let dump = read_dump(rt.alloc(), &mut Incoming::new(text));
    is_written_again(rt, dump, text)
}

/// Whether a text is written again, however it is read.
fn is_always_kept(rt: &HostRuntime, text: &[u8]) -> bool {
    for step in STEPS {
        if !is_kept(rt, text, step) {
            return false;
        }
    }
    is_kept_by_std(rt, text)
}

#[test]
fn what_is_read_is_written_again(rt: HostRuntime) -> Result<(), Fail> {
    let last = block(&rt, b"ff:1f.7 \xe9 ~\n")?;
    let text = joined(&rt, &[DUMP.as_bytes(), &last])?;
    assert!(rt; is_always_kept(&rt, &text));
    Ok(())
}

/// A writer with so much room.
fn narrow(rt: &HostRuntime, room: usize, step: usize, fails: bool) -> Narrow {
    Narrow {
        taken: Vec::new(rt.alloc()),
        room,
        step,
        fails,
    }
}

/// What writing a dump to a writer answers.
fn write_to(writer: &mut Narrow, dump: &Dump) -> Result<(), WriteFault> {
    write_dump(&mut Outgoing::new(writer), dump)
}

/// Whether writing a dump, whose text is this, fails and leaves the beginning of it that there was room for.
fn leaves_beginning(dump: &Dump, text: &[u8], writer: Narrow) -> bool {
    let room = writer.room;
    let mut writer = writer;
    write_to(&mut writer, dump) == Err(WriteFault::Io)
        && writer.taken.len() == room
        && text.get(..room) == Some(writer.taken.as_slice())
}

/// Whether all of a text is written.
fn takes_all(dump: &Dump, text: &[u8], writer: Narrow) -> bool {
    let mut writer = writer;
    write_to(&mut writer, dump) == Ok(()) && writer.taken.as_slice() == text
}

/// Writers by step, room, and whether they fail.
static NARROW: [(usize, usize, bool); 5] = [
    (4096, 100, true),
    (4096, 100, false),
    (1, 100, true),
    (1, 100, false),
    (7, 0, true),
];

/// Whether each of those writers, and one of each room that takes a byte at a time, holds a beginning.
fn hold_beginnings(rt: &HostRuntime, dump: &Dump, text: &[u8]) -> bool {
    for &(step, room, fails) in &NARROW {
        if !leaves_beginning(dump, text, narrow(rt, room, step, fails)) {
            return false;
        }
    }
    for room in 0..849 {
        if !leaves_beginning(dump, text, narrow(rt, room, 1, true)) {
            return false;
        }
    }
    true
}

/// Whether writers that have just the room take all.
fn take_all(rt: &HostRuntime, dump: &Dump, text: &[u8]) -> bool {
    takes_all(dump, text, narrow(rt, 849, 1, true))
        && takes_all(dump, text, narrow(rt, 849, 848, true))
        && takes_all(dump, text, narrow(rt, 849, 4096, true))
}

#[test]
fn a_failing_writer_holds_a_beginning(rt: HostRuntime) -> Result<(), Fail> {
    let text = DUMP.as_bytes();
    let dump = read_dump(rt.alloc(), &mut Pieces::new(text, 4096, 0))?;
    assert!(rt; hold_beginnings(&rt, &dump, text));
    assert!(rt; take_all(&rt, &dump, text));
    Ok(())
}

#[test]
fn a_failed_write_is_shown_by_number_and_name(rt: HostRuntime) -> Result<(), Fail> {
    let fault = WriteFault::Io;
    assert!(rt; fault.number() == 10);
    assert!(rt; format!(in rt.alloc(); "{fault}")?.as_str() == "10 Io");
    Ok(())
}

/// A block of zeros at the n-th slot of the first sixteen buses.
fn block_at(n: u16) -> Option<Block> {
    let slot = Slot::new((n / 256) as u8, (n / 8 % 32) as u8, (n % 8) as u8)?;
    Some(Block {
        slot,
        title: None,
        image: Image([0; 256]),
    })
}

/// What pushing the n-th block onto a dump answers.
fn pushed(dump: &mut Dump, n: u16) -> Option<Result<(), Refused<PushFault>>> {
    let block = block_at(n)?;
    Some(dump.push(block))
}

/// Whether the n-th block is refused.
fn is_refused(dump: &mut Dump, n: u16, fault: PushFault) -> bool {
    pushed(dump, n) == Some(Err(Refused::Fault(fault)))
}

/// Whether a dump takes the n-th block once.
fn takes_once(dump: &mut Dump, n: u16) -> bool {
    pushed(dump, n) == Some(Ok(())) && is_refused(dump, n, PushFault::NotAbove)
}

/// Whether a dump takes 4,096 blocks, each once, and no more.
fn is_filled(dump: &mut Dump) -> bool {
    for n in 0..4096u16 {
        if !takes_once(dump, n) {
            return false;
        }
    }
    is_refused(dump, 4096, PushFault::Full)
        && is_refused(dump, 4095, PushFault::NotAbove)
        && dump.blocks().len() == 4096
}

/// Whether a text of 4,096 blocks is read, and with no byte more.
fn is_full(rt: &HostRuntime, text: &[u8]) -> bool {
    let refused = Err(ReadFault::TooMany(73729));
    text.len() == 3_444_736
        && reads_as(rt, text, b"", Ok(4096))
        && reads_as(rt, text, b"0", refused)
        && reads_as(rt, text, b"G", refused)
        && reads_as(rt, text, b"\n", refused)
}

#[test]
fn a_dump_has_at_most_4096_blocks(rt: HostRuntime) {
    let mut dump = Dump::empty(rt.alloc());
    assert!(rt; is_filled(&mut dump));
    assert!(rt; is_full(&rt, &written(&rt, &dump)));
}

#[test]
fn faults_of_a_push_are_numbered(rt: HostRuntime) {
    assert!(rt; PushFault::NotAbove.number() == 11);
    assert!(rt; PushFault::Full.number() == 12);
}
