//! The text of a block.
ghost use Rattle.std.specs.Prelude.{◌≡◌, ◌≤◌, ◌<◌, ◌⊎◌, ◌+◌, ◌/◌, ◌%◌, ◌++◌, [], ℕ, length, replicate, slice_index, IsTrue};
ghost use Rattle.arrayvec.specs.ArrayVec.{array_vec_len};
ghost use Rattle.pci_spec.specs.Text.{hex_digit, hex_byte, slot_text, title_text, byte_line, block_text};
ghost use Rattle.pci_spec.specs.Form.{row_text};

use super::block::{Block, TITLE_MAX, Title};
use super::parse::{LINES_LEN, SLOT_LEN};
use super::row::{ROW_LEN, ROW_OF_ZEROS};
use arrayvec::ArrayVec;
use pci_base::digit::digit_of;
use pci_base::image::IMAGE_LEN;
use pci_base::slot::Slot;

/// The most bytes of a block's text: 841, a space and a title of 200.
pub(crate) const BLOCK_MAX: usize = SLOT_LEN + 1 + TITLE_MAX + 1 + LINES_LEN;

/// Room for the text of a block.
pub(crate) type Text = ArrayVec<u8, BLOCK_MAX>;

/// Two hex digits.
pub(crate) fn put_byte(text: &mut Text, byte: u8)
    requires { array_vec_len text.old + 2 ≤ BLOCK_MAX }
    ensures text { text.new.items ≡ text.old.items ++ hex_byte byte }
    ensures len { array_vec_len text.new ≡ array_vec_len text.old + 2 }
{
    text.push(digit_of(byte / 16));
    text.push(digit_of(byte % 16));
}

/// `bb:dd.f`
fn put_slot(text: &mut Text, slot: Slot)
    requires { array_vec_len text.old + 7 ≤ BLOCK_MAX }
    ensures text { text.new.items ≡ text.old.items ++ slot_text slot }
    ensures len { array_vec_len text.new ≡ array_vec_len text.old + 7 }
{
    put_byte(text, slot.bus());
    text.push(b':');
    put_byte(text, slot.dev());
    text.push(b'.');
    text.push(digit_of(slot.fun()));
}

/// Bytes as they are.
pub(crate) fn put_bytes(text: &mut Text, bytes: &[u8])
    requires { array_vec_len text.old + length bytes.now ≤ BLOCK_MAX }
    ensures text { text.new.items ≡ text.old.items ++ bytes.now }
    ensures len { array_vec_len text.new ≡ array_vec_len text.old + length bytes.now }
{
    text.try_extend_from_slice(bytes).unwrap();
}

/// A space and a title, where there is one.
fn put_title(text: &mut Text, title: &Option<Title>)
    requires { array_vec_len text.old + 201 ≤ BLOCK_MAX }
    ensures text { text.new.items ≡ text.old.items ++ title_text title.now }
    ensures len { array_vec_len text.new ≤ array_vec_len text.old + 201 }
{
    if let Some(title) = title {
        text.push(b' ');
        put_bytes(text, title.bytes());
    }
}

/// Whether all bytes are 0.
fn are_zero(bytes: &[u8]) -> bool
    ensures { IsTrue result → bytes.now ≡ replicate (length bytes.now) 0 }
{
    let mut bits = 0;
    for &byte in bytes {
        bits |= byte;
    }
    bits == 0
}

/// Puts a byte's two digits at a place of a line.
fn set_digits(line: &mut [u8; ROW_LEN], at: usize, byte: u8)
    requires { at < 51 }
    ensures high { slice_index line.new at ≡ hex_digit (byte / 16) }
    ensures low { slice_index line.new (at + 1) ≡ hex_digit (byte % 16) }
    ensures kept { (k : ℕ) → (k < at) ⊎ (at + 1 < k)
        → slice_index line.new k ≡ slice_index line.old k }
{
    line[at] = digit_of(byte / 16);
    line[at + 1] = digit_of(byte % 16);
}

/// The line of a row: its offset, sixteen values and the line's end.
fn row_line(values: &[u8], row: u8) -> [u8; ROW_LEN]
    requires whole { length values.now ≡ 16 }
    requires within { row < 16 }
    ensures { result ≡ row_text row values.now }
{
    let mut line = ROW_OF_ZEROS;
    line[0] = digit_of(row);
    for i in 0..16 {
        set_digits(&mut line, 3 * i + 4, values[i]);
    }
    line
}

/// The line of a row whose bytes are all 0.
fn put_zeros(text: &mut Text, row: u8)
    requires room { array_vec_len text.old + ROW_LEN ≤ BLOCK_MAX }
    requires row { row < 16 }
    ensures text { text.new.items ≡ text.old.items ++ row_text row (replicate 16 0) }
    ensures len { array_vec_len text.new ≡ array_vec_len text.old + ROW_LEN }
{
    text.push(digit_of(row));
    put_bytes(text, &ROW_OF_ZEROS[1..]);
}

/// The line of a row of an image.
fn put_row(text: &mut Text, image: &[u8; IMAGE_LEN], row: u8)
    requires room { array_vec_len text.old + ROW_LEN ≤ BLOCK_MAX }
    requires row { row < 16 }
    ensures text { text.new.items ≡ text.old.items ++ byte_line image.now row }
    ensures len { array_vec_len text.new ≡ array_vec_len text.old + ROW_LEN }
{
    let at = usize::from(row) * 16;
    let values = &image[at..at + 16];
    if are_zero(values) {
        put_zeros(text, row);
    } else {
        put_bytes(text, &row_line(values, row));
    }
}

/// The eighteen lines of a block.
pub(crate) fn put_block(text: &mut Text, block: &Block)
    requires { text.old.items ≡ [] }
    ensures { text.new.items ≡ block_text block.now }
{
    put_slot(text, block.slot);
    put_title(text, &block.title);
    text.push(b'\n');
    for row in 0..16 {
        put_row(text, &block.image.0, row);
    }
    text.push(b'\n');
}
