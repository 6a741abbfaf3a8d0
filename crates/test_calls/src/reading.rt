use crate::texts::{STEPS, block, joined, outcome, reads_as};
use pci_dump::block::{Block, Title};
use pci_dump::read_fault::ReadFault;
use pci_dump::reader::{Reader, read_dump};
use std::alloc::AllocError;
use std::test::Fail;
use test_support::example::DUMP;
use test_support::fakes::Pieces;

/// What a reader answers next.
fn next_of(reader: &mut Reader<Pieces<'_>>) -> Result<Option<Block>, ReadFault> {
    reader.next_block()
}

/// Whether a block is the example's.
fn is_example(block: &Block) -> bool {
    let slot = block.slot;
    let image = &block.image;
    (slot.bus(), slot.dev(), slot.fun()) == (0, 2, 0)
        && matches!(&block.title, Some(title) if title.bytes() == b"Example".as_slice())
        && image.u32(0) == 0x5678_1234
        && image.u32(0x10) == 0xfe00_0008
        && image.u8(0x5d) == 0x40
        && block.copy() == *block
}

/// Whether a reader answers the example next.
fn gives_example(reader: &mut Reader<Pieces<'_>>) -> bool {
    matches!(next_of(reader), Ok(Some(block)) if is_example(&block))
}

/// Whether a reader answers that there is no further block.
fn has_ended(reader: &mut Reader<Pieces<'_>>) -> bool {
    matches!(next_of(reader), Ok(None))
}

/// Whether a text is read as the example and no more in this cutting.
fn is_read_as_example(text: &[u8], step: usize) -> bool {
    let mut reader = Reader::new(Pieces::new(text, step, 0));
    gives_example(&mut reader) && has_ended(&mut reader) && has_ended(&mut reader)
}

#[test]
fn the_example_is_read_in_any_cutting(rt: HostRuntime) {
    assert!(rt; DUMP.len() == 849);
    for step in STEPS {
        assert!(rt; is_read_as_example(DUMP.as_bytes(), step), "{step}");
    }
}

/// How many lines a text of 849 bytes has that ends, cut after each byte, in the line that is cut; or a cut after which
/// it doesn't.
fn lines_of(rt: &HostRuntime, text: &[u8]) -> Result<u64, usize> {
    let mut line = 1u64;
    for cut in 1..849 {
        let Some(front) = text.get(..cut) else {
            return Err(cut);
        };
        if front.last() == Some(&b'\n') {
            line = line.wrapping_add(1);
        }
        if outcome(rt, front, 100) != Err(ReadFault::Ended(line)) {
            return Err(cut);
        }
    }
    Ok(line)
}

#[test]
fn cut_after_each_byte_the_example_ends_there(rt: HostRuntime) {
    assert!(rt; lines_of(&rt, DUMP.as_bytes()) == Ok(18));
}

/// What the example with byte `at`, counted from 1 in line `line`, made a `G` is read as.
fn changed(at: usize, line: u64) -> Result<usize, ReadFault> {
    match line {
        1 if at <= 8 => Err(ReadFault::BadSlot(1)),
        1 if at <= 15 => Ok(1),
        1 => Err(ReadFault::BadLine(2)),
        18 => Err(ReadFault::NoBlank(18)),
        line => Err(ReadFault::BadLine(line)),
    }
}

/// Puts a byte in place of another, which is returned.
fn put(text: &mut [u8], at: usize, byte: u8) -> Option<u8> {
    let place = text.get_mut(at)?;
    let before = *place;
    *place = byte;
    Some(before)
}

/// The first byte of the example's text that doesn't count, if any.
fn idle_byte(rt: &HostRuntime, text: &mut [u8]) -> Option<usize> {
    let mut line = 1u64;
    for at in 0..849usize {
        let Some(byte) = put(text, at, b'G') else {
            return Some(at);
        };
        let wanted = changed(at.wrapping_add(1), line);
        if outcome(rt, text, 64) != wanted || outcome(rt, text, 4096) != wanted {
            return Some(at);
        }
        let _ = put(text, at, byte);
        if byte == b'\n' {
            line = line.wrapping_add(1);
        }
    }
    None
}

#[test]
fn each_byte_of_the_example_counts(rt: HostRuntime) -> Result<(), Fail> {
    let mut text = DUMP.as_bytes().to_vec(rt.alloc())?;
    assert!(rt; idle_byte(&rt, &mut text) == None);
    Ok(())
}

/// What a text begins with.
#[derive(Clone, Copy)]
enum Front {
    Nothing,
    /// The block of zeros at 00:01.0, or so many bytes of it.
    One,
    OneTo(usize),
    /// The block of zeros at 00:02.0.
    Two,
}

/// The block of zeros that comes first in a text, or its beginning.
fn front_of(rt: &HostRuntime, front: Front) -> Result<Vec<u8>, AllocError> {
    match front {
        Front::Nothing => Ok(Vec::new(rt.alloc())),
        Front::One => block(rt, b"00:01.0\n"),
        Front::OneTo(len) => {
            let mut text = block(rt, b"00:01.0\n")?;
            text.truncate(len);
            Ok(text)
        }
        Front::Two => block(rt, b"00:02.0\n"),
    }
}

/// What a text begins with, what follows, and what it is read as.
type Row = (Front, &'static [u8], Result<usize, ReadFault>);

static ROWS: [Row; 20] = [
    (Front::Nothing, b"", Ok(0)),
    (Front::Nothing, b"00:01.0", Err(ReadFault::Ended(1))),
    (Front::Nothing, b"00:01.0\r\n", Err(ReadFault::BadSlot(1))),
    (Front::Nothing, b"\n", Err(ReadFault::BadSlot(1))),
    (Front::Nothing, b"00:20.0\n", Err(ReadFault::BadSlot(1))),
    (Front::Nothing, b"00:0A.0\n", Err(ReadFault::BadSlot(1))),
    (Front::Nothing, b"00:01.0 \n", Err(ReadFault::BadTitle(1))),
    (
        Front::Nothing,
        b"00:01.0 a\tb\n",
        Err(ReadFault::BadTitle(1)),
    ),
    (
        Front::Nothing,
        b"00:01.0 a\n00: 0A",
        Err(ReadFault::BadLine(2)),
    ),
    (Front::OneTo(112), b"", Err(ReadFault::Ended(4))),
    (Front::OneTo(788), b"\n", Err(ReadFault::BadLine(17))),
    (Front::OneTo(840), b"0", Err(ReadFault::NoBlank(18))),
    (Front::OneTo(840), b"", Err(ReadFault::Ended(18))),
    (Front::One, b"\n", Err(ReadFault::BadSlot(19))),
    (Front::Two, b"00:01.0", Err(ReadFault::Order(19))),
    (Front::Two, b"00:01.", Err(ReadFault::Ended(19))),
    (Front::Two, b"00:01.8", Err(ReadFault::BadSlot(19))),
    (Front::One, b"00:01.1x", Err(ReadFault::BadSlot(19))),
    (
        Front::One,
        b"00:02.0\n00: 00\n",
        Err(ReadFault::BadLine(20)),
    ),
    (Front::One, b"00:02.0 \xff \n", Err(ReadFault::Ended(20))),
];

/// Whether a row's text is read as it says.
fn is_as_its_row_says(rt: &HostRuntime, row: &Row) -> bool {
    let (front, end, wanted) = *row;
    match front_of(rt, front) {
        Ok(front) => reads_as(rt, &front, end, wanted),
        Err(_) => false,
    }
}

#[test]
fn texts_are_refused_at_their_line(rt: HostRuntime) {
    for row in &ROWS {
        assert!(rt; is_as_its_row_says(&rt, row), "{:?}", row.2);
    }
}

/// Whether two blocks are read in their order alone.
fn rise(rt: &HostRuntime, one: &[u8], two: &[u8]) -> bool {
    reads_as(rt, one, two, Ok(2))
        && reads_as(rt, one, one, Err(ReadFault::Order(19)))
        && reads_as(rt, two, one, Err(ReadFault::Order(19)))
}

#[test]
fn blocks_rise(rt: HostRuntime) -> Result<(), Fail> {
    let one = block(&rt, b"00:01.0\n")?;
    let two = block(&rt, b"00:02.0\n")?;
    assert!(rt; rise(&rt, &one, &two));
    Ok(())
}

/// A block of zeros with a title of so many bytes.
fn titled(rt: &HostRuntime, len: usize) -> Result<Vec<u8>, AllocError> {
    let mut line = Vec::new(rt.alloc());
    line.extend_from_slice(b"00:01.0 ")?;
    line.resize(len.saturating_add(8), b'a')?;
    line.push(b'\n')?;
    block(rt, &line)
}

/// Whether a block with a title of so many bytes is read so.
fn title_reads_as(rt: &HostRuntime, len: usize, wanted: Result<usize, ReadFault>) -> bool {
    match titled(rt, len) {
        Ok(text) => text.len() == len.saturating_add(842) && reads_as(rt, &text, b"", wanted),
        Err(_) => false,
    }
}

#[test]
fn a_title_has_at_most_200_bytes(rt: HostRuntime) {
    assert!(rt; title_reads_as(&rt, 200, Ok(1)));
    assert!(rt; title_reads_as(&rt, 201, Err(ReadFault::BadTitle(1))));
}

/// Whether bytes are a title's, and that title's bytes are these.
fn is_title(bytes: &[u8]) -> bool {
    matches!(Title::of(bytes), Some(title) if title.bytes() == bytes)
}

#[test]
fn titles_have_1_to_200_bytes_and_no_controls(rt: HostRuntime) {
    for title in [&[b'a'; 200], b" ".as_slice(), b"\x80 ~\xff"] {
        assert!(rt; is_title(title));
    }
    for none in [&[b'a'; 201], b"".as_slice(), b"\x7f", b"a\n"] {
        assert!(rt; !is_title(none));
    }
}

/// Whether a reader answers that its text has no title in line 19.
fn has_no_title(reader: &mut Reader<Pieces<'_>>) -> bool {
    matches!(next_of(reader), Err(ReadFault::BadTitle(19)))
}

/// Whether a reader of a text answers a block, and then three times that fault.
fn stays_at_fault(text: &[u8]) -> bool {
    let mut reader = Reader::new(Pieces::new(text, 841, 0));
    matches!(next_of(&mut reader), Ok(Some(_)))
        && has_no_title(&mut reader)
        && has_no_title(&mut reader)
        && has_no_title(&mut reader)
}

#[test]
fn a_reader_stays_at_its_fault(rt: HostRuntime) -> Result<(), Fail> {
    let one = block(&rt, b"00:01.0\n")?;
    let text = joined(&rt, &[&one, b"00:01.1 \n", &one])?;
    assert!(rt; stays_at_fault(&text));
    Ok(())
}

/// Whether a reader whose text is cut by a failed read answers that fault, and then no other, within four answers.
fn stays_failed(text: &[u8], fail_at: u64) -> bool {
    let mut reader = Reader::new(Pieces::new(text, 400, fail_at));
    let mut failed = false;
    for _ in 0..4 {
        match next_of(&mut reader) {
            Err(ReadFault::Io) => failed = true,
            Err(_) => return false,
            Ok(_) if failed => return false,
            Ok(_) => {}
        }
    }
    failed
}

/// Whether reading a text, cut by a failed read, fails.
fn fails(rt: &HostRuntime, text: &[u8], fail_at: u64) -> bool {
    let read = read_dump(rt.alloc(), &mut Pieces::new(text, 400, fail_at));
    matches!(read, Err(ReadFault::Io))
}

#[test]
fn a_reader_stays_at_a_failed_read(rt: HostRuntime) -> Result<(), Fail> {
    let one = block(&rt, b"00:01.0\n")?;
    for fail_at in 1..5u64 {
        assert!(rt;
            stays_failed(&one, fail_at) && fails(&rt, &one, fail_at),
            "{fail_at}"
        );
    }
    Ok(())
}

/// Faults with their numbers and texts.
static SHOWN: [(ReadFault, u8, &str); 9] = [
    (ReadFault::Io, 1, "1 Io"),
    (ReadFault::Memory, 2, "2 Memory"),
    (ReadFault::BadSlot(1), 3, "3 BadSlot 1"),
    (ReadFault::BadTitle(19), 4, "4 BadTitle 19"),
    (ReadFault::BadLine(17), 5, "5 BadLine 17"),
    (ReadFault::NoBlank(18), 6, "6 NoBlank 18"),
    (ReadFault::Order(19), 7, "7 Order 19"),
    (ReadFault::TooMany(73729), 8, "8 TooMany 73729"),
    (ReadFault::Ended(4), 9, "9 Ended 4"),
];

/// Whether a fault is shown so.
fn is_shown(rt: &HostRuntime, fault: ReadFault, text: &str) -> bool {
    match format!(in rt.alloc(); "{fault}") {
        Ok(shown) => shown.as_str() == text,
        Err(_) => false,
    }
}

#[test]
fn faults_are_shown_by_number_name_and_line(rt: HostRuntime) {
    for &(fault, number, text) in &SHOWN {
        assert!(rt;
            fault.number() == number && is_shown(&rt, fault, text),
            "{text}"
        );
    }
}
