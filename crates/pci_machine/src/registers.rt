//! One function in memory: its configuration space under reads and writes.
ghost use Rattle.std.specs.Prelude.{◌≡◌, ◌↔◌, nat_lt, IsTrue};
ghost use Rattle.pci_spec.specs.Number.{number_at};
ghost use Rattle.pci_spec.specs.Slot as place;
ghost use Rattle.pci_spec.specs.Machine.{byte_of_bits, written, written_bit};
ghost use Rattle.pci_spec.specs.Port as port;
ghost use Rattle.pci_machine.specs.Memory.{pinned};

use pci_base::image::{IMAGE_LEN, Image, byte_of};
use pci_base::slot::Slot;
use std::marker::Model;

/// A function's configuration space, with the bits of each byte that a write sets and those that a
/// written one clears.
#[derive(Drop)]
pub struct ConfigSpace {
    pub slot: Slot,
    pub image: Image,
    pub writable: [u8; IMAGE_LEN],
    pub clearing: [u8; IMAGE_LEN],
}

impl Model for ConfigSpace {
    ghost use Rattle.pci_spec.specs.Machine.{Target};

    ghost Value = { Target };

    ghost view = { λ r. record {
      slot = r.slot;
      image = r.image.0;
      writable = r.writable;
      clearing = r.clearing;
    } };
}

impl ConfigSpace {
    /// Whether the function is at a slot.
    pub fn is_at(&self, slot: Slot) -> bool
        ensures { IsTrue result ↔ (self.now.slot ≡ slot) }
    {
        self.slot == slot
    }

    /// Whether the slot's number is below another.
    pub fn is_below(&self, number: u16) -> bool
        ensures { result ≡ nat_lt (place.slot_number self.now.slot) number }
    {
        self.slot.number() < number
    }

    /// The number of `width` bytes at an offset.
    pub fn number(&self, off: u8, width: u8) -> u32
        // an access lies within one doubleword, so all its bytes are there
        requires { IsTrue (port.is_access off width) }
        ensures { result ≡ number_at self.now.image off width }
    {
        self.image.number(off, width)
    }

    /// Makes bits of a byte unwritable.
    pub fn pin(&mut self, off: u8, mask: u8)
        ensures { self.new ≡ pinned self.old off mask }
    {
        self.writable[usize::from(off)] &= !mask;
    }

    /// Writes to `width` bytes at an offset.
    pub fn write(&mut self, off: u8, width: u8, value: u32)
        // an access lies within one doubleword, so all its bytes are there
        requires { IsTrue (port.is_access off width) }
        ensures { self.new ≡ record self.old { image = written self.old off width value } }
    {
        write_bytes(
            &mut self.image.0,
            &self.writable,
            &self.clearing,
            off,
            width,
            value,
        );
    }
}

/// Writes to `width` bytes at an offset of a configuration space, with these writable and clearing
/// bits.
fn write_bytes(
    bytes: &mut [u8; IMAGE_LEN],
    writable: &[u8; IMAGE_LEN],
    clearing: &[u8; IMAGE_LEN],
    off: u8,
    width: u8,
    value: u32,
)
    requires { IsTrue (port.is_access off width) }
    ensures { (slot : place.Slot) → bytes.new
        ≡ written record {
          slot = slot;
          image = bytes.old;
          writable = writable.now;
          clearing = clearing.now;
        } off width value }
{
    for j in 0..width {
        let place = usize::from(off + j);
        let datum = byte_of(value, j);
        bytes[place] = written_byte(bytes[place], writable[place], clearing[place], datum);
    }
}

/// A byte after a write: writable bits take the datum, a one clears the bits that are cleared so
/// (PCI 3.0, 6.2.3).
fn written_byte(old: u8, writable: u8, clearing: u8, datum: u8) -> u8
    ensures { result ≡ byte_of_bits (written_bit writable clearing old datum) }
{
    (old & !writable & !(clearing & datum)) | (datum & writable)
}
