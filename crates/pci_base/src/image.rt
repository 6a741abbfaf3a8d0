//! The configuration space of one function (PCI 3.0, 6.1).
ghost use Rattle.std.specs.Prelude.{◌≡◌, ◌+◌, ◌<◌, ◌≤◌, ◌/◌, ◌%◌, ◌^◌, ◌⊎◌, ℕ, IsTrue, slice_index};
ghost use Rattle.pci_spec.specs.Number.{byte_at, number_at, IsImage};
ghost use Rattle.pci_spec.specs.Port as port;

use byteorder::{ByteOrder, LittleEndian};

/// The bytes of a function's configuration space (PCI 3.0, 6.1).
pub const IMAGE_LEN: usize = 256;

/// The 256 bytes of a function's configuration space, or of what its registers read back.
#[derive(Clone, Copy, Debug, PartialEq, Eq)]
pub struct Image(pub [u8; IMAGE_LEN]);

impl Image {
    /// The byte at an offset.
    pub fn u8(&self, off: u8) -> u8
        ensures { result ≡ byte_at self.now.0 off }
    {
        self.0[usize::from(off)]
    }

    /// The little-endian number of two bytes at an even offset.
    pub fn u16(&self, off: u8) -> u16
        // an even offset leaves room for the second byte, also at FEh
        requires { off % 2 ≡ 0 }
        ensures { result ≡ number_at self.now.0 off 2 }
    {
        LittleEndian::read_u16(&self.0[usize::from(off)..])
    }

    /// The little-endian number of four bytes at an offset that is a multiple of four.
    pub fn u32(&self, off: u8) -> u32
        // as an access is made: so all four bytes lie within the image
        requires { off % 4 ≡ 0 }
        ensures { result ≡ number_at self.now.0 off 4 }
    {
        LittleEndian::read_u32(&self.0[usize::from(off)..])
    }

    /// The little-endian number of 1, 2 or 4 bytes at an offset that is a multiple of their number.
    pub fn number(&self, off: u8, width: u8) -> u32
        // an access of configuration space lies within one doubleword
        requires { IsTrue (port.is_access off width) }
        ensures { result ≡ number_at self.now.0 off width }
    {
        match width {
            1 => u32::from(self.u8(off)),
            2 => u32::from(self.u16(off)),
            _ => self.u32(off),
        }
    }
}

/// One of the four bytes of a number, the low byte first.
pub fn byte_of(value: u32, j: u8) -> u8
    // above the fourth 256 to the power of j would be no u32
    requires { j < 4 }
    ensures { result ≡ value / 256 ^ j % 256 }
{
    value.to_le_bytes()[usize::from(j)]
}

/// Puts the bytes of a number at an offset, the low byte first.
pub fn put(bytes: &mut [u8; IMAGE_LEN], off: u8, width: u8, value: u32)
    // as an access is made: so all its bytes lie within the image
    requires { IsTrue (port.is_access off width) }
    ensures inside { (j : ℕ) → j < width → slice_index bytes.new (off + j) ≡ value / 256 ^ j % 256 }
    // registers are put one after another, and none may undo the one before
    ensures outside { (place : ℕ) → (place < off) ⊎ (off + width ≤ place)
        → slice_index bytes.new place ≡ slice_index bytes.old place }
    // a larger value would be cut to the width, so nothing is said of one
    ensures number { value < 256 ^ width → number_at bytes.new off width ≡ value }
    ensures image { IsImage bytes.old → IsImage bytes.new }
{
    for j in 0..width {
        bytes[usize::from(off + j)] = byte_of(value, j);
    }
}
