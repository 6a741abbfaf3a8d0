//! Boards that are constants: a row for each function, which is made of it where it is wanted. A test that names such a
//! board is proved sooner than one that makes it.
use crate::board::{Function, Register, Texts, bridge, device, texts_of};
use pci_dump::dump::Dump;
use pci_dump::reader::read_dump;
use pci_dump::std_streams::Incoming;
use std::alloc::{AllocError, Global};

/// A function by its slot, its Command, a bridge's buses, and its registers.
pub enum Row {
    Device(&'static str, u16, &'static [Register]),
    Bridge(&'static str, u16, (u8, u8, u8), &'static [Register]),
}

impl Row {
    fn function(&self) -> Function {
        match self {
            Row::Device(slot, command, registers) => device(slot, *command, registers),
            Row::Bridge(slot, command, buses, registers) => {
                bridge(slot, *command, *buses, registers)
            }
        }
    }
}

/// The texts of a board.
pub fn texts_of_rows(alloc: Global, rows: &[Row]) -> Result<Texts, AllocError> {
    let mut board = Vec::new(alloc);
    for row in rows {
        board.push(row.function())?;
    }
    texts_of(alloc, board.as_slice())
}

fn read(alloc: Global, text: &str) -> Option<Dump> {
    read_dump(alloc, &mut Incoming::new(text.as_bytes())).ok()
}

/// The dump and the probe of two texts.
pub fn dumps_of(alloc: Global, texts: &Texts) -> Option<(Dump, Dump)> {
    match (
        read(alloc, texts.dump.as_str()),
        read(alloc, texts.probe.as_str()),
    ) {
        (Some(dump), Some(probe)) => Some((dump, probe)),
        _ => None,
    }
}

/// The dump and the probe of a board.
pub fn dumps_of_rows(alloc: Global, rows: &[Row]) -> Option<(Dump, Dump)> {
    match texts_of_rows(alloc, rows) {
        Ok(texts) => dumps_of(alloc, &texts),
        Err(_) => None,
    }
}
