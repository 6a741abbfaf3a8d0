//! What numbering answered, and the numbers that a board has, as text.
use crate::bus::Bus;
use crate::roots::Roots;
use crate::text::{byte_of, roots_of};
use crate::tree::Tree;
use pci_base::offset::{PRIMARY_BUS, SECONDARY_BUS, SUBORDINATE_BUS};
use pci_base::slot::Slot;
use pci_number::number::{Numbering, number};
use pci_number::{NotTaken, Stop};
use std::alloc::{AllocError, Global};

/// A line with the last bus, how many are kept free behind hot-plug slots, and a board; then each
/// write and each answer where each root is numbered in turn, up to the bus before the next root.
pub fn board_told(alloc: Global, line: &str) -> Result<String, AllocError> {
    let mut text = format!(in alloc; "{line}\n")?;
    match split(line) {
        Some((last, spare, board)) => match roots_of(alloc, board)? {
            Some(roots) => push_board(alloc, last, spare, roots, &mut text)?,
            None => text.push_str("no board\n")?,
        },
        None => text.push_str("no board\n")?,
    }
    Ok(text)
}

/// The two numbers of a line, and its board.
fn split(line: &str) -> Option<(u8, u8, &str)> {
    let (last, rest) = line.split_once(' ')?;
    let (spare, board) = rest.split_once(' ')?;
    let last = byte_of(&mut last.as_bytes().iter())?;
    let spare = byte_of(&mut spare.as_bytes().iter())?;
    Some((last, spare, board))
}

fn push_board(
    alloc: Global,
    last: u8,
    spare: u8,
    roots: Roots,
    text: &mut String,
) -> Result<(), AllocError> {
    let mut numbers = Vec::new(alloc);
    push_root_numbers(&roots, &mut numbers)?;
    match Tree::new(alloc, roots) {
        Some(mut tree) => {
            for i in 0..numbers.len() {
                let end = end_of(&numbers, i).min(last);
                let call = call_text(alloc, &mut tree, numbers[i], end, spare)?;
                text.push_str(&call)?;
            }
            Ok(())
        }
        None => text.push_str("roots that don't rise\n"),
    }
}

/// The bus before the next root.
fn end_of(numbers: &[u8], i: usize) -> u8 {
    match numbers.get(i.saturating_add(1)) {
        Some(next) => next.saturating_sub(1),
        None => 0xff,
    }
}

fn push_root_numbers(roots: &Roots, numbers: &mut Vec<u8>) -> Result<(), AllocError> {
    match roots {
        Roots::NoRoots => Ok(()),
        Roots::First(number, _, rest) => {
            numbers.push(*number)?;
            push_root_numbers(rest, numbers)
        }
    }
}

/// Numbers what is behind a root: each write, by the slot, the offset and the number, and the
/// answer.
fn call_text(
    alloc: Global,
    tree: &mut Tree,
    root: u8,
    last: u8,
    spare: u8,
) -> Result<String, AllocError> {
    let mut text = String::new(alloc);
    let made = tree.stood.len();
    let answer = number(tree, root, last, spare);
    for i in made..tree.stood.len() {
        let NotTaken {
            slot,
            offset,
            number,
        } = tree.stood[i].written;
        let line = format!(in alloc; "{slot} {offset:02x} {number:02x}\n")?;
        text.push_str(&line)?;
    }
    let answer = answer_text(alloc, answer)?;
    text.push_str(&answer)?;
    text.push('\n')?;
    Ok(text)
}

/// An answer.
pub fn answer_text(alloc: Global, answer: Result<Numbering, Stop>) -> Result<String, AllocError> {
    match answer {
        Ok(numbering) => numbering_text(alloc, numbering),
        Err(stop) => stop_text(alloc, stop),
    }
}

fn numbering_text(alloc: Global, numbering: Numbering) -> Result<String, AllocError> {
    match numbering {
        Numbering::Numbered { highest } => format!(in alloc; "numbered {highest:02x}"),
        Numbering::NoBus { slot, highest } => format!(in alloc; "no bus {slot} {highest:02x}"),
    }
}

fn stop_text(alloc: Global, stop: Stop) -> Result<String, AllocError> {
    match stop {
        Stop::Stuck(told) => {
            let slot = told.slot;
            format!(in alloc; "stuck {slot}")
        }
        Stop::Port => format!(in alloc; "port"),
    }
}

/// The numbers of each bridge, in the order of the walk: its slot, then primary, secondary and
/// subordinate bus.
pub fn numbers_text(alloc: Global, roots: &Roots) -> Result<String, AllocError> {
    let mut text = String::new(alloc);
    push_roots(alloc, roots, &mut text)?;
    Ok(text)
}

fn push_roots(alloc: Global, roots: &Roots, text: &mut String) -> Result<(), AllocError> {
    match roots {
        Roots::NoRoots => Ok(()),
        Roots::First(number, bus, rest) => {
            push_bus(alloc, bus, *number, text)?;
            push_roots(alloc, rest, text)
        }
    }
}

fn push_bus(alloc: Global, bus: &Bus, number: u8, text: &mut String) -> Result<(), AllocError> {
    match bus {
        Bus::Empty => Ok(()),
        Bus::Holds(function, behind, others) => {
            if function.is_bridge() {
                let slot = Slot::new(
                    number,
                    function.device,
                    function.function,
                ).unwrap_or_default();
                let primary = function.image[usize::from(PRIMARY_BUS)];
                let secondary = function.image[usize::from(SECONDARY_BUS)];
                let subordinate = function.image[usize::from(SUBORDINATE_BUS)];
                let line = format!(in alloc;
                    "{slot} {primary:02x} {secondary:02x} {subordinate:02x};"
                )?;
                text.push_str(&line)?;
                push_bus(alloc, behind, secondary, text)?;
            }
            push_bus(alloc, others, number, text)
        }
    }
}
