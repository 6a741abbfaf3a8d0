//! Boards for tests: functions by their registers, as texts of a dump and a probe.
use crate::registers::Registers;
use pci_base::image::Image;
use std::alloc::{AllocError, Global};

/// A four-byte register: its offset, its value and what it reads back.
pub type Register = (u8, u32, u32);

/// A function as a test writes it down: what it holds, and what its registers read back. What isn't said is 0.
#[derive(Clone, Copy)]
pub struct Function {
    slot: &'static str,
    pub registers: Registers,
}

/// A dump and its probe.
#[derive(Drop)]
pub struct Texts {
    pub dump: String,
    pub probe: String,
}

/// A function of vendor 1234h and device 5678h with a type 0 header.
pub fn device(slot: &'static str, command: u16, registers: &[Register]) -> Function {
    let function = crate::registers::device().half(0x04, command, 0);
    Function {
        slot,
        registers: function,
    }
    .registers(registers)
}

/// A bridge with its primary, secondary and subordinate bus. Its memory window is that of the first megabyte unless a
/// register says otherwise.
pub fn bridge(
    slot: &'static str,
    command: u16,
    buses: (u8, u8, u8),
    registers: &[Register],
) -> Function {
    let (primary, secondary, subordinate) = buses;
    let function = crate::registers::bridge()
        .half(0x04, command, 0)
        .bytes(0x18, &[primary, secondary, subordinate]);
    Function {
        slot,
        registers: function,
    }
    .registers(registers)
}

/// A device with a capabilities list that starts at a pointer.
pub fn list_at(slot: &'static str, pointer: u8) -> Function {
    Function {
        slot,
        registers: crate::registers::list_at(pointer),
    }
}

impl Function {
    /// The same with these bytes in its image from an offset on.
    pub fn bytes(self, offset: u8, bytes: &[u8]) -> Function {
        let mut function = self;
        function.registers = function.registers.bytes(offset, bytes);
        function
    }

    /// The same with these registers.
    pub fn registers(self, registers: &[Register]) -> Function {
        let mut function = self;
        for (offset, value, read_back) in registers {
            function.registers = function.registers.register(*offset, *value, *read_back);
        }
        function
    }
}

/// Appends a block: slot line, sixteen byte lines and an empty line.
fn push_block(text: &mut String, slot: &str, image: &Image) -> Result<(), AllocError> {
    text.push_str(slot)?;
    for (offset, byte) in image.0.iter().enumerate() {
        if offset % 16 == 0 {
            write!(text, "\n{offset:02x}:")?;
        }
        write!(text, " {byte:02x}")?;
    }
    text.push_str("\n\n")
}

/// The texts of a board.
pub fn texts_of(alloc: Global, board: &[Function]) -> Result<Texts, AllocError> {
    let mut dump = String::new(alloc);
    let mut probe = String::new(alloc);
    for function in board {
        push_block(&mut dump, function.slot, &function.registers.image)?;
        push_block(&mut probe, function.slot, &function.registers.probe)?;
    }
    Ok(Texts { dump, probe })
}
