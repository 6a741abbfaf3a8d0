ghost use Rattle.std.specs.Prelude.{Some};

use pci_base::failures::Failures;
use pci_base::slot::Slot;
use pci_dump::read_fault::ReadFault;
use pci_dump::std_streams::Incoming;
use pci_dump::streams::{Failed, Source};
use pci_machine::resource_line::ResourceLine;
use pci_machine::sizes::SizesBlock;
use pci_machine::sizes_reader::read_sizes;
use std::alloc::AllocError;
use std::test::Fail;

/// Two functions of a machine, as its sysfs shows them: a network card, and a display with a ROM.
static TWO: [u8; 816] = *b"00:02.0\n\
0x00000000fea04000 0x00000000fea04fff 0x0000000000040200\n\
0x0000000000000000 0x0000000000000000 0x0000000000000000\n\
0x000000000000c040 0x000000000000c05f 0x0000000000040101\n\
0x0000000000000000 0x0000000000000000 0x0000000000000000\n\
0x0000000000000000 0x0000000000000000 0x0000000000000000\n\
0x0000000000000000 0x0000000000000000 0x0000000000000000\n\
0x00000000fe980000 0x00000000fe9fffff 0x0000000000046200\n\
\n\
01:1f.7\n\
0x00000000fd000000 0x00000000fdffffff 0x0000000000042208\n\
0x0000000000000000 0x0000000000000000 0x0000000000000000\n\
0xfffffffffffff000 0xffffffffffffffff 0x000000000014220c\n\
0x0000000000000000 0x0000000000000000 0x0000000000000000\n\
0x0000000000000000 0x0000000000000000 0x0000000000000000\n\
0x0000000000000000 0x0000000000000000 0x0000000000000000\n\
0x00000000000c0000 0x00000000000dffff 0x0000000000000212\n\
\n";

/// A byte in place of that at a place of the two functions' text, and what the text is refused by then.
static CHANGED: [(usize, u8, ReadFault); 22] = [
    (0, b'g', ReadFault::BadSlot(1)),
    (0, b'A', ReadFault::BadSlot(1)),
    (2, b'.', ReadFault::BadSlot(1)),
    (3, b'2', ReadFault::BadSlot(1)),
    (6, b'8', ReadFault::BadSlot(1)),
    (7, b' ', ReadFault::BadSlot(1)),
    (8, b'1', ReadFault::BadLine(2)),
    (9, b'X', ReadFault::BadLine(2)),
    (25, b'/', ReadFault::BadLine(2)),
    (25, b':', ReadFault::BadLine(2)),
    (26, b'\t', ReadFault::BadLine(2)),
    (64, b'\r', ReadFault::BadLine(2)),
    (82, b'F', ReadFault::BadLine(3)),
    (406, b' ', ReadFault::BadLine(8)),
    (407, b'0', ReadFault::NoBlank(9)),
    (408, b'x', ReadFault::BadSlot(10)),
    (415, b' ', ReadFault::BadSlot(10)),
    (416, b'\n', ReadFault::BadLine(11)),
    (531, b'g', ReadFault::BadLine(13)),
    (814, b'0', ReadFault::BadLine(17)),
    (815, b' ', ReadFault::NoBlank(18)),
    (1, b'2', ReadFault::Order(10)),
];

/// So many bytes of the first block behind the second, and what they are refused by.
static BEHIND: [(usize, ReadFault); 5] = [
    (1, ReadFault::Ended(10)),
    (6, ReadFault::Ended(10)),
    (7, ReadFault::Order(10)),
    (8, ReadFault::Order(10)),
    (408, ReadFault::Order(10)),
];

/// Gives at most `step` bytes at a time, and fails in place of its end where it is torn.
#[derive(Drop)]
struct Steps<'a> {
    rest: &'a [u8],
    step: usize,
    torn: bool,
    failed: Failures,
}

impl<'a> Source for Steps<'a> {
    ghost left = { λ s. Some s.rest.now };

    ghost failures = { λ s. s.failed.count };

    fn read(&mut self, buf: &mut [u8]) -> Result<usize, Failed> {
        if self.torn && self.rest.is_empty() {
            self.failed = self.failed.and_one();
            return Err(Failed);
        }
        let count = self.step.max(1).min(buf.len()).min(self.rest.len());
        let (given, rest) = self.rest.split_at(count);
        buf[..count].copy_from_slice(given);
        self.rest = rest;
        Ok(count)
    }
}

/// How many blocks a text has, where it is one.
fn outcome(rt: &HostRuntime, rest: &[u8], step: usize, torn: bool) -> Result<usize, ReadFault> {
    let mut source = Steps {
        rest,
        step,
        torn,
        failed: Failures::new(),
    };
    match read_sizes(rt.alloc(), &mut source) {
        Ok(sizes) => Ok(sizes.blocks().len()),
        Err(fault) => Err(fault),
    }
}

/// Whether a block is the network card's.
fn is_card(block: &SizesBlock) -> bool {
    let registers = ResourceLine {
        first: 0xfea0_4000,
        last: 0xfea0_4fff,
        flags: 0x4_0200,
    };
    let rom = ResourceLine {
        first: 0xfe98_0000,
        last: 0xfe9f_ffff,
        flags: 0x4_6200,
    };
    Some(block.slot) == Slot::new(0, 2, 0)
        && block.lines[0] == registers
        && block.lines[1] == ResourceLine::default()
        && block.lines[6] == rom
}

/// Whether a block is the display's.
fn is_display(block: &SizesBlock) -> bool {
    let last = ResourceLine {
        first: 0xffff_ffff_ffff_f000,
        last: u64::MAX,
        flags: 0x14_220c,
    };
    Some(block.slot) == Slot::new(1, 31, 7) && block.lines[2] == last
}

/// Whether the two functions are read from their text by std's reader.
fn are_read(rt: &HostRuntime) -> bool {
    match read_sizes(rt.alloc(), &mut Incoming::new(TWO.as_slice())) {
        Ok(sizes) => {
            matches!(sizes.blocks(), [card, display] if is_card(card) && is_display(display))
        }
        Err(_) => false,
    }
}

#[test]
fn a_text_is_read_whole_in_any_cutting(rt: HostRuntime) {
    assert!(rt; are_read(&rt));
    for step in [1, 7, 407, 816, 9000] {
        assert!(rt; outcome(&rt, &TWO, step, false) == Ok(2), "{step}");
        assert!(rt;
            outcome(&rt, &TWO, step, true) == Err(ReadFault::Io),
            "{step}"
        );
        assert!(rt; outcome(&rt, b"", step, false) == Ok(0), "{step}");
    }
}

/// The two functions' text with a byte in place of that at a place.
fn text_with(rt: &HostRuntime, place: usize, byte: u8) -> Result<Vec<u8>, AllocError> {
    let mut text = TWO.to_vec(rt.alloc())?;
    if let Some(cell) = text.get_mut(place) {
        *cell = byte;
    }
    Ok(text)
}

/// The text of the second function, and so many bytes of the first one's behind it.
fn second_and(rt: &HostRuntime, count: usize) -> Result<Vec<u8>, AllocError> {
    let (first, second) = TWO.split_at(408);
    let mut text = second.to_vec(rt.alloc())?;
    text.extend_from_slice(first.get(..count).unwrap_or(&[]))?;
    Ok(text)
}

/// Whether a text is refused by this fault.
fn is_refused(
    rt: &HostRuntime,
    text: Result<Vec<u8>, AllocError>,
    step: usize,
    fault: ReadFault,
) -> bool {
    match text {
        Ok(text) => outcome(rt, &text, step, false) == Err(fault),
        Err(_) => false,
    }
}

/// How many lines a text has that ends, cut before each byte but its first, in the line that is cut; or a cut after
/// which it doesn't.
fn lines_of(rt: &HostRuntime, text: &[u8]) -> Result<u64, usize> {
    let mut line = 1u64;
    for cut in 1..408 {
        let Some(front) = text.get(..cut) else {
            return Err(cut);
        };
        if front.last() == Some(&b'\n') {
            line = line.wrapping_add(1);
        }
        if outcome(rt, front, 100, false) != Err(ReadFault::Ended(line)) {
            return Err(cut);
        }
    }
    Ok(line)
}

#[test]
fn each_fault_has_its_line(rt: HostRuntime) {
    for (place, byte, fault) in &CHANGED {
        let text = text_with(&rt, *place, *byte);
        assert!(rt; is_refused(&rt, text, 816, *fault), "{place}");
    }
    for (count, fault) in &BEHIND {
        let text = second_and(&rt, *count);
        assert!(rt; is_refused(&rt, text, 100, *fault), "{count}");
    }
    assert!(rt; lines_of(&rt, &TWO) == Ok(9));
}

/// A hex digit.
fn digit(number: u8) -> u8 {
    let value = number % 16;
    if value < 10 {
        b'0' + value
    } else {
        b'a' + (value - 10)
    }
}

/// Appends the blocks of the functions of a bus.
fn push_bus(text: &mut Vec<u8>, bus: u8) -> Result<(), AllocError> {
    let (_slot, lines) = TWO.split_at(415);
    for device in 0..32u8 {
        for function in 0..8u8 {
            let slot = [
                b'0',
                digit(bus),
                b':',
                digit(device / 16),
                digit(device),
                b'.',
                digit(function),
            ];
            text.extend_from_slice(&slot)?;
            text.extend_from_slice(lines)?;
        }
    }
    Ok(())
}

#[test]
fn a_text_has_4096_blocks_at_most(rt: HostRuntime) -> Result<(), Fail> {
    let mut text = Vec::new(rt.alloc());
    for bus in 0..16u8 {
        push_bus(&mut text, bus)?;
    }
    assert!(rt; outcome(&rt, &text, 5000, false) == Ok(4096));
    text.push(b'1')?;
    assert!(rt; outcome(&rt, &text, 5000, false) == Err(ReadFault::TooMany(36_865)));
    Ok(())
}
