//! Texts of told ranges.

use pci_base::slot::Slot;
use pci_base::space::Space;
use pci_dump::read_fault::ReadFault;
use pci_dump::std_streams::Incoming;
use pci_dump::told_range::{Mark, ToldRange};
use pci_dump::told_reader::read_told;
use std::alloc::AllocError;
use std::test::Fail;

/// A line of 37 bytes.
const LINE: &[u8] = b"00:1f.1 io 000001f0-000001f7 command\n";

/// Two lines of two slots: the second has a name.
const TWO: &[u8] = b"00:1f.1 io 000001f0-000001f7 command\n\
00:1f.2 pref 00000000fe000000-00000000fe0fffff always smbus\n";

/// Texts, and how many ranges each has or its fault.
const TEXTS: &[(&[u8], Result<usize, ReadFault>)] = &[
    (b"", Ok(0)),
    (LINE, Ok(1)),
    (TWO, Ok(2)),
    (
        b"00:1f.1 io 000001f0-000001f7 command",
        Err(ReadFault::Ended(1)),
    ),
    (
        b"00:1f.1  io 000001f0-000001f7 command\n",
        Err(ReadFault::BadLine(1)),
    ),
    (
        b"00:1F.1 io 000001f0-000001f7 command\n",
        Err(ReadFault::BadSlot(1)),
    ),
    (
        b"00:20.0 io 000001f0-000001f7 command\n",
        Err(ReadFault::BadSlot(1)),
    ),
    (
        b"00:1f.8 io 000001f0-000001f7 command\n",
        Err(ReadFault::BadSlot(1)),
    ),
    (b"00:1f.1 io 1f0-1f7 command\n", Err(ReadFault::BadLine(1))),
    (
        b"00:1f.1 io 000001f7-000001f0 command\n",
        Err(ReadFault::Order(1)),
    ),
    (
        b"00:1f.1 mem 000001f0-000001f7 command\n",
        Err(ReadFault::BadLine(1)),
    ),
    (
        b"00:1f.1 pref 0000000100000000-00000000ffffffff held\n",
        Err(ReadFault::Order(1)),
    ),
    (
        b"00:1f.1 mem 00000000ffffffff-0000000100000000 held\n",
        Ok(1),
    ),
    (
        b"00:1f.1 io 000001f0-000001f7 on\n",
        Err(ReadFault::BadLine(1)),
    ),
    (
        b"00:1f.1 io 000001f0-000001f7 command \n",
        Err(ReadFault::BadLine(1)),
    ),
    (
        b"00:1f.1 io 000001f0-000001f7 command 123456789a123456789b123456789c12\n",
        Ok(1),
    ),
    (
        b"00:1f.1 io 000001f0-000001f7 command 123456789a123456789b123456789c123\n",
        Err(ReadFault::BadLine(1)),
    ),
    (
        b"00:1f.1 io 000001f0-000001f7 command two words\n",
        Err(ReadFault::BadLine(1)),
    ),
    (
        b"00:1f.1 io 000001f0-000001f7 held\n00:1e.0 io 00000170-00000177 held\n",
        Err(ReadFault::Order(2)),
    ),
    (
        b"00:1f.1 io 000001f0-000001f7 held\n\n",
        Err(ReadFault::BadSlot(2)),
    ),
];

/// How many ranges a text has, where it is one.
fn outcome(rt: &HostRuntime, text: &[u8]) -> Result<usize, ReadFault> {
    match read_told(rt.alloc(), &mut Incoming::new(text)) {
        Ok(list) => Ok(list.as_slice().len()),
        Err(fault) => Err(fault),
    }
}

#[test]
fn each_text_is_read_or_has_its_fault(rt: HostRuntime) {
    for (text, answer) in TEXTS {
        assert!(rt; outcome(&rt, text) == *answer);
    }
}

/// How many line ends a text has.
fn line_ends(text: &[u8]) -> usize {
    text.iter().filter(|&&byte| byte == b'\n').count()
}

/// What a beginning of two good lines is read as.
fn cut_outcome(front: &[u8]) -> Result<usize, ReadFault> {
    let lines = line_ends(front);
    match front.last() {
        None | Some(&b'\n') => Ok(lines),
        Some(_) => Err(ReadFault::Ended((lines as u64).wrapping_add(1))),
    }
}

#[test]
fn each_beginning_lacks_its_end(rt: HostRuntime) {
    for cut in 0..TWO.len() {
        let front = &TWO[..cut];
        assert!(rt; outcome(&rt, front) == cut_outcome(front), "{cut}");
    }
}

/// Whether this is the range of the second of two lines.
fn is_second(range: &ToldRange) -> bool {
    Some(range.slot) == Slot::new(0, 31, 2)
        && range.space == Space::Mem
        && range.prefetchable
        && range.first == 0xfe00_0000
        && range.last == 0xfe0f_ffff
        && range.mark == Mark::Always
        && range.name.as_slice() == b"smbus".as_slice()
}

#[test]
fn a_line_tells_all_its_fields(rt: HostRuntime) {
    let list = read_told(rt.alloc(), &mut Incoming::new(TWO));
    assert!(rt; matches!(&list, Ok(list) if list.as_slice().last().is_some_and(is_second)));
}

/// The same line so many times.
fn lines(rt: &HostRuntime, count: usize) -> Result<Vec<u8>, AllocError> {
    let mut text = Vec::new(rt.alloc());
    for _ in 0..count {
        text.extend_from_slice(LINE)?;
    }
    Ok(text)
}

#[test]
fn a_text_has_4096_lines_at_most(rt: HostRuntime) -> Result<(), Fail> {
    let mut text = lines(&rt, 4096)?;
    assert!(rt; outcome(&rt, &text) == Ok(4096));
    text.push(b'0')?;
    assert!(rt; outcome(&rt, &text) == Err(ReadFault::TooMany(4097)));
    Ok(())
}
