//! Lines of sixteen bytes.
ghost use Rattle.std.specs.Prelude.{◌≡◌, ◌<◌, ◌≤◌, ◌+◌, ◌*◌, slice_index, replicate, true, false, ℕ, List, length, IsTrue};
ghost use Rattle.std.specs.List.{slice_range};
ghost use Rattle.pci_spec.specs.Form.{Fits, row_cells, row_text};
ghost use Rattle.pci_dump.specs.Value.{AreValues, AreSmall};

use super::lanes::{are_zero, bytes_of, difference, digits_of, either_of, non_spaces};
use std::simd::prelude::*;

/// How many bytes the line of a row has: its offset, sixteen bytes, and its end.
pub(crate) const ROW_LEN: usize = 52;

/// A row's line where all its bytes are 0, but for the first digit of its offset.
pub(crate) const ROW_OF_ZEROS: [u8; ROW_LEN] =
    *b"00: 00 00 00 00 00 00 00 00 00 00 00 00 00 00 00 00\n";

/// The first four bytes of each row's line as one number: its offset, a colon and a space.
static HEADS: [u32; 16] = [
    0x203a3030, 0x203a3031, 0x203a3032, 0x203a3033, 0x203a3034, 0x203a3035, 0x203a3036, 0x203a3037,
    0x203a3038, 0x203a3039, 0x203a3061, 0x203a3062, 0x203a3063, 0x203a3064, 0x203a3065, 0x203a3066,
];

/// A line's cells where all values are 0.
static ZEROS: [u8; 48] = *b" 00 00 00 00 00 00 00 00 00 00 00 00 00 00 00 00";

/// A line's bytes from its first value on where all values are 0.
static ZERO_VALUES: [u8; 48] = *b"00 00 00 00 00 00 00 00 00 00 00 00 00 00 00 00\n";

/// Four bytes as one number, to compare them at once.
#[inline(always)]
fn head_of(line: &[u8]) -> u32
    requires { 4 ≤ length line.now }
    ensures { result ≡ slice_index line.now 0 + slice_index line.now 1 * 256 + slice_index line.now 2 * 65536
        + slice_index line.now 3 * 16777216 }
{
    u32::from_le_bytes([line[0], line[1], line[2], line[3]])
}

/// Whether the first sixteen of a line's cells are those of zeros.
#[inline(always)]
fn begin_zeros(cells: &[u8]) -> bool
    requires { 16 ≤ length cells.now }
    ensures { result ≡ true → slice_range cells.now 0 16 ≡ slice_range ZEROS 0 16 }
{
    are_zero(difference(&cells[0..16], &ZEROS[0..16]))
}

/// Whether sixteen times 00 stand there, each after a space.
#[inline(always)]
fn are_zeros(cells: &[u8]) -> bool
    requires { length cells.now ≡ 48 }
    ensures { result ≡ true → cells.now ≡ ZEROS }
{
    if !begin_zeros(cells) {
        return false;
    }
    let second = difference(&cells[16..32], &ZEROS[16..32]);
    let third = difference(&cells[32..48], &ZEROS[32..48]);
    are_zero(either_of(second, third))
}

/// Whether a line's bytes from its first value on are those of zeros.
#[inline(always)]
fn are_zero_values(values: &[u8]) -> bool
    requires { length values.now ≡ 48 }
    ensures { result ≡ true → values.now ≡ ZERO_VALUES }
{
    let first = difference(&values[0..16], &ZERO_VALUES[0..16]);
    let second = difference(&values[16..32], &ZERO_VALUES[16..32]);
    let third = difference(&values[32..48], &ZERO_VALUES[32..48]);
    are_zero(either_of(first, either_of(second, third)))
}

/// Whether a line is that of a row whose bytes are all 0.
#[inline(always)]
pub(crate) fn is_zero_row(line: &[u8], row: u8) -> bool
    requires line { length line.now ≡ 52 }
    requires row { row < 16 }
    ensures { IsTrue result → line.now ≡ row_text row (replicate 16 0) }
{
    head_of(line) == HEADS[usize::from(row)] && are_zero_values(&line[4..52])
}

/// Sixteen bytes, each after a space, all at once. Their spaces, upper and lower digits are every third cell, and no two
/// of a kind have one lane: so they are taken where they stand, and put in order at the end.
#[inline(always)]
fn values_into(cells: &[u8], values: &mut [u8]) -> bool
    requires cells { length cells.now ≡ 48 }
    requires values { length values.old ≡ 16 }
    ensures long { length values.new ≡ 16 }
    ensures yes { IsTrue result → AreValues cells.now values.new 16 }
    ensures no { result ≡ false → (v : List ℕ) → AreValues cells.now v 16 → ⊥ }
{
    let a = u8x16::from_slice(&cells[0..16]);
    let b = u8x16::from_slice(&cells[16..32]);
    let c = u8x16::from_slice(&cells[32..48]);
    let spaces = a
        .shuffle(b, [0, 1, 18, 3, 4, 21, 6, 7, 24, 9, 10, 27, 12, 13, 30, 15])
        .shuffle(c, [0, 17, 2, 3, 20, 5, 6, 23, 8, 9, 26, 11, 12, 29, 14, 15]);
    let high = a
        .shuffle(
            b,
            [16, 1, 2, 19, 4, 5, 22, 7, 8, 25, 10, 11, 28, 13, 14, 31],
        )
        .shuffle(c, [0, 1, 18, 3, 4, 21, 6, 7, 24, 9, 10, 27, 12, 13, 30, 15]);
    let low = a
        .shuffle(b, [0, 17, 2, 3, 20, 5, 6, 23, 8, 9, 26, 11, 12, 29, 14, 15])
        .shuffle(
            c,
            [16, 1, 2, 19, 4, 5, 22, 7, 8, 25, 10, 11, 28, 13, 14, 31],
        );
    let (high_digits, not_high) = digits_of(high);
    let (low_digits, not_low) = digits_of(low);
    let not_digits = either_of(not_high, not_low);
    if !are_zero(either_of(non_spaces(spaces), not_digits)) {
        return false;
    }
    let upper = high_digits.shuffle(
        high_digits,
        [1, 4, 7, 10, 13, 0, 3, 6, 9, 12, 15, 2, 5, 8, 11, 14],
    );
    let lower = low_digits.shuffle(
        low_digits,
        [2, 5, 8, 11, 14, 1, 4, 7, 10, 13, 0, 3, 6, 9, 12, 15],
    );
    bytes_of(upper, lower).copy_to_slice(values);
    true
}

/// Sixteen zeros.
fn put_zeros(values: &mut [u8])
    requires { length values.old ≡ 16 }
    ensures { values.new ≡ replicate 16 0 }
{
    values.copy_from_slice(&[0; 16]);
}

/// The sixteen bytes of a row's line: its offset, the bytes, and the line's end. False where that isn't such a line.
#[inline(always)]
pub(crate) fn row_into(line: &[u8], row: u8, values: &mut [u8]) -> bool
    requires line { length line.now ≡ 52 }
    requires row { row < 16 }
    requires values { length values.old ≡ 16 }
    ensures long { length values.new ≡ 16 }
    ensures yes { IsTrue result → AreSmall values.new × (line.now ≡ row_text row values.new) }
    ensures no { result ≡ false → Fits (row_cells row) line.now → ⊥ }
{
    if head_of(line) != HEADS[usize::from(row)] || line[51] != b'\n' {
        return false;
    }
    let cells = &line[3..51];
    if are_zeros(cells) {
        put_zeros(values);
        return true;
    }
    values_into(cells, values)
}
