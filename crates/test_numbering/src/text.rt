//! Boards as text: `@00` begins a root bus, `01.0` is a device and `01.0[ .. ]` a bridge with what
//! is behind it. Before the bracket may stand `+`, a hot-plug slot, `!`, a bridge that takes no
//! numbers, and `(000509)`, the numbers that it has.
use crate::bus::{Bus, Function};
use crate::roots::Roots;
use pci_base::digit::digit_value;
use pci_base::offset::{CAPABILITIES_POINTER, HEADER_TYPE, PRIMARY_BUS};
use std::alloc::{AllocError, Global};
use std::slice::Iter;

/// A word of such a text.
enum Word {
    Root(u8),
    Node(Function),
    Bridge(Function),
    End,
}

/// The board of a text, or none where the text isn't that of a board.
pub fn roots_of(alloc: Global, text: &str) -> Result<Option<Roots>, AllocError> {
    let mut words = Vec::new(alloc);
    for word in text.split_whitespace() {
        words.push(word)?;
    }
    let mut roots = Roots::NoRoots;
    let mut bus = Bus::Empty;
    // what follows the bridges that are around
    let mut outer = Vec::new(alloc);
    // from the last word on, so that what follows a node is there before it
    for i in 0..words.len() {
        match word_of(words[words.len() - 1 - i]) {
            Some(Word::Root(number)) => {
                let rest = Box::new(alloc, roots)?;
                roots = Roots::First(number, bus, rest);
                bus = Bus::Empty;
            }
            Some(Word::Node(function)) => bus = with_node(alloc, function, Bus::Empty, bus)?,
            Some(Word::Bridge(function)) => match outer.pop() {
                Some(others) => bus = with_node(alloc, function, bus, others)?,
                None => return Ok(None),
            },
            Some(Word::End) => {
                outer.push(bus)?;
                bus = Bus::Empty;
            }
            None => return Ok(None),
        }
    }
    match bus {
        Bus::Empty if outer.is_empty() => Ok(Some(roots)),
        _ => Ok(None),
    }
}

/// A node before others on its bus. Where there are more functions of its device, function 0 says
/// so.
fn with_node(
    alloc: Global,
    function: Function,
    behind: Bus,
    others: Bus,
) -> Result<Bus, AllocError> {
    let mut function = function;
    if function.function == 0 && is_of(&others, function.device) {
        function.image[usize::from(HEADER_TYPE)] |= 0x80;
    }
    let behind = Box::new(alloc, behind)?;
    let others = Box::new(alloc, others)?;
    Ok(Bus::Holds(function, behind, others))
}

/// Whether the first node on a bus is of a device.
fn is_of(bus: &Bus, device: u8) -> bool {
    match bus {
        Bus::Empty => false,
        Bus::Holds(function, _, _) => function.device == device,
    }
}

fn word_of(word: &str) -> Option<Word> {
    let mut bytes = word.as_bytes().iter();
    match word {
        "]" => Some(Word::End),
        _ if word.starts_with('@') => {
            bytes.next()?;
            Some(Word::Root(byte_of(&mut bytes)?))
        }
        _ => node_of(&mut bytes),
    }
}

fn node_of(bytes: &mut Iter<'_, u8>) -> Option<Word> {
    let device = byte_of(bytes)?;
    bytes.next()?;
    let number = digit_of(bytes)?;
    if 32 <= device || 8 <= number {
        return None;
    }
    let mut function = Function {
        device,
        function: number,
        takes: true,
        image: [0; 256],
    };
    function.image[0x00] = 0x34;
    function.image[0x01] = 0x12;
    for _ in 0..4u8 {
        match bytes.next() {
            None => return Some(Word::Node(function)),
            Some(b'+') => add_slot(&mut function),
            Some(b'!') => function.takes = false,
            Some(b'(') => {
                for place in PRIMARY_BUS..PRIMARY_BUS + 3 {
                    function.image[usize::from(place)] = byte_of(bytes)?;
                }
                bytes.next()?;
            }
            Some(_) => {
                function.image[usize::from(HEADER_TYPE)] = 1;
                return Some(Word::Bridge(function));
            }
        }
    }
    None
}

/// A PCI Express capability at 40h, of a port with a hot-plug slot (PCI Express Base 3.0, 7.8).
fn add_slot(function: &mut Function) {
    function.image[0x06] = 0x10;
    function.image[usize::from(CAPABILITIES_POINTER)] = 0x40;
    function.image[0x40] = 0x10;
    function.image[0x43] = 0x01;
    function.image[0x54] = 0x40;
}

/// A byte as two hex digits.
pub fn byte_of(bytes: &mut Iter<'_, u8>) -> Option<u8> {
    let high = digit_of(bytes)?;
    let low = digit_of(bytes)?;
    Some(high % 16 * 16 + low % 16)
}

fn digit_of(bytes: &mut Iter<'_, u8>) -> Option<u8> {
    digit_value(*bytes.next()?)
}
