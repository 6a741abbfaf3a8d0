//! A write to a register of a function.

use pci_base::slot::Slot;
use std::fmt;

/// A write of `width` little-endian bytes, 2 or 4, to a byte offset of the function at a slot.
#[derive(Clone, Copy, Debug, PartialEq, Eq)]
pub struct Write {
    pub slot: Slot,
    pub off: u8,
    pub width: u8,
    pub value: u32,
}

/// `bb:dd.f oo.w v`: slot, offset, width, and the value in two hex digits a byte.
impl fmt::Display for Write {
    ghost use Rattle.pci_plan.specs.Writes.{printed};

    ghost output = { printed };

    fn fmt<W: fmt::Write>(&self, f: &mut fmt::Formatter<W>) -> fmt::Result {
        let (slot, off, width, value) = (self.slot, self.off, self.width, self.value);
        match width {
            2 => {
                let low = value % (1 << 16);
                write!(f, "{slot} {off:02x}.2 {low:04x}")
            }
            4 => write!(f, "{slot} {off:02x}.4 {value:08x}"),
            _ => write!(f, "{slot} {off:02x}.{width} {value:x}"),
        }
    }
}
