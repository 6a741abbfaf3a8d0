//! The characters of a line, put together before a text gets all of them at once.
ghost use Rattle.std.specs.Prelude.{◌≡◌, ◌+◌, ◌*◌, ◌≤◌, ◌++◌, length, IsAscii, OnOk};
ghost use Rattle.std.specs.String.{string_bytes};
ghost use Rattle.arrayvec.specs.ArrayVec.{array_vec_len};
ghost use Rattle.pci_spec.specs.Text.{hex_byte, slot_text};
ghost use Rattle.pci_spec.specs.Line.{hex_number};

use arrayvec::ArrayVec;
use pci_base::digit::digit_of;
use pci_base::slot::Slot;
use std::alloc::{AllocError, Allocator};

/// The most characters of a line: 62 of an indent, 33 of two addresses, 39 and a letter of an amount, 32 of the name of a
/// told range, and 30 others.
pub const CELLS_MAX: usize = 197;

/// Room for the characters of a line.
pub type Cells = ArrayVec<u8, CELLS_MAX>;

/// Puts characters behind those that are there.
#[inline(always)]
pub fn put(cells: &mut Cells, characters: &[u8])
    // the array is as long as the longest line
    requires { array_vec_len cells.old + length characters.now ≤ CELLS_MAX }
    ensures text { cells.new.items ≡ cells.old.items ++ characters.now }
    // so the caller knows how much room is left
    ensures len { array_vec_len cells.new ≡ array_vec_len cells.old + length characters.now }
{
    cells.try_extend_from_slice(characters).unwrap();
}

/// Puts a byte there, in two hex digits.
#[inline(always)]
pub fn put_byte(cells: &mut Cells, byte: u8)
    // the array is as long as the longest line
    requires { array_vec_len cells.old + 2 ≤ CELLS_MAX }
    ensures text { cells.new.items ≡ cells.old.items ++ hex_byte byte }
    // so the caller knows how much room is left
    ensures len { array_vec_len cells.new ≡ array_vec_len cells.old + 2 }
    // so the text that the cells become is UTF-8
    ensures ascii { IsAscii (hex_byte byte) }
{
    cells.push(digit_of(byte / 16));
    cells.push(digit_of(byte % 16));
}

/// Puts the lowest bytes of a number there.
#[inline(always)]
pub fn put_bytes(cells: &mut Cells, number: u64, bytes: u32)
    // a u64 has no more
    requires bytes { bytes ≤ 8 }
    // the array is as long as the longest line
    requires room { array_vec_len cells.old + 2 * bytes ≤ CELLS_MAX }
    ensures text { cells.new.items ≡ cells.old.items ++ hex_number (2 * bytes) number }
    // so the caller knows how much room is left
    ensures len { array_vec_len cells.new ≡ array_vec_len cells.old + 2 * bytes }
{
    for done in 0..bytes {
        let byte = (number >> (8 * (bytes - 1 - done))) % 256;
        put_byte(cells, byte as u8);
    }
}

/// Puts `bb:dd.f` there.
#[inline(always)]
pub fn put_slot(cells: &mut Cells, slot: Slot)
    // the array is as long as the longest line
    requires { array_vec_len cells.old + 7 ≤ CELLS_MAX }
    ensures text { cells.new.items ≡ cells.old.items ++ slot_text slot }
    // so the caller knows how much room is left
    ensures len { array_vec_len cells.new ≡ array_vec_len cells.old + 7 }
    // so the text that the cells become is UTF-8
    ensures ascii { IsAscii (slot_text slot) }
{
    put_byte(cells, slot.bus());
    cells.push(b':');
    put_byte(cells, slot.dev());
    cells.push(b'.');
    cells.push(digit_of(slot.fun()));
}

/// Appends the characters to a text.
#[inline(always)]
pub fn push_cells<A: Allocator>(text: &mut String<A>, cells: &Cells) -> Result<(), AllocError>
    // so the text stays UTF-8, and that isn't looked at again
    requires { IsAscii cells.now.items }
    ensures { OnOk result (string_bytes text.new ≡ string_bytes text.old ++ cells.now.items) }
{
    text.push_str(unsafe { str::from_utf8_unchecked(cells.as_slice()) })
}
