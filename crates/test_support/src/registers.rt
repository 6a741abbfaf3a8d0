//! Functions made of registers, each with its value and its read back.

use pci_base::image::{IMAGE_LEN, Image};

/// The image of a function and what its registers read back; all other bytes are 0.
#[derive(Clone, Copy)]
pub struct Registers {
    pub image: Image,
    pub probe: Image,
}

/// Nothing but zeros.
pub fn zeros() -> Registers {
    Registers {
        image: Image([0; IMAGE_LEN]),
        probe: Image([0; IMAGE_LEN]),
    }
}

/// A device of vendor 1234h and device 5678h, without any BAR.
pub fn device() -> Registers {
    zeros().bytes(0x00, &[0x34, 0x12, 0x78, 0x56])
}

/// A bridge of vendor 1234h with a memory window at 0 that has only its registers.
pub fn bridge() -> Registers {
    device().byte(0x0e, 0x01).register(0x20, 0, 0xfff0_fff0)
}

/// A device with a capabilities list that starts at a pointer.
pub fn list_at(pointer: u8) -> Registers {
    device().byte(0x06, 0x10).byte(0x34, pointer)
}

impl Registers {
    /// With a register of four bytes.
    pub fn register(self, off: u8, value: u32, read_back: u32) -> Registers {
        let mut changed = self;
        put(&mut changed.image.0, off, &value.to_le_bytes());
        put(&mut changed.probe.0, off, &read_back.to_le_bytes());
        changed
    }

    /// With a register of two bytes.
    pub fn half(self, off: u8, value: u16, read_back: u16) -> Registers {
        let mut changed = self;
        put(&mut changed.image.0, off, &value.to_le_bytes());
        put(&mut changed.probe.0, off, &read_back.to_le_bytes());
        changed
    }

    /// With bytes in the image alone.
    pub fn bytes(self, off: u8, bytes: &[u8]) -> Registers {
        let mut changed = self;
        put(&mut changed.image.0, off, bytes);
        changed
    }

    /// With one byte in the image alone.
    pub fn byte(self, off: u8, byte: u8) -> Registers {
        self.bytes(off, &[byte])
    }
}

/// Puts bytes into an image, from an offset on.
fn put(image: &mut [u8; IMAGE_LEN], off: u8, bytes: &[u8]) {
    for (place, byte) in image.iter_mut().skip(usize::from(off)).zip(bytes) {
        *place = *byte;
    }
}
