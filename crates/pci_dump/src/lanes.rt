//! Sixteen bytes at once.
ghost use Rattle.std.specs.Prelude.{◌≡◌, ◌↔◌, ◌+◌, ◌<◌, ◌≤◌, ◌/◌, ◌%◌, ℕ, length, false, IsTrue, slice_index};
ghost use Rattle.pci_spec.specs.Text.{hex_digit};
ghost use Rattle.pci_dump.specs.Lane.{AreDigits, AreSpaces, AreZero};
ghost use Rattle.pci_dump.specs.TitleRun.{IsTitleRun, first_of_16};

use std::simd::prelude::*;

/// What is 0 where a space stands.
#[inline(always)]
pub(crate) fn non_spaces(cells: u8x16) -> u8x16
    ensures long { length result ≡ 16 }
    ensures zero { AreZero result ↔ AreSpaces cells }
{
    cells - u8x16::splat(b' ')
}

/// What hex digits in lower case stand for; and what is 0 where such a digit stands.
#[inline(always)]
pub(crate) fn digits_of(cells: u8x16) -> (u8x16, u8x16)
    ensures long { length result.0 ≡ 16 }
    ensures each { (k d : ℕ) → k < 16 → d < 16 → slice_index cells k ≡ hex_digit d
        → slice_index result.0 k ≡ d }
    ensures zero { AreZero result.1 ↔ AreDigits cells }
{
    // 0 to 9 where a number stands, 16 and more for each other byte
    let numbers = (cells + u8x16::splat(198)).saturating_sub(u8x16::splat(6)) + u8x16::splat(16);
    // 10 to 15 where a letter stands, 16 and more for each other byte
    let letters = (cells - u8x16::splat(97)).simd_min(u8x16::splat(245)) + u8x16::splat(10);
    let digits = numbers.simd_min(letters);
    (digits, digits & u8x16::splat(0xf0))
}

/// The bytes of these upper and lower halves.
#[inline(always)]
pub(crate) fn bytes_of(high: u8x16, low: u8x16) -> u8x16
    ensures long { length result ≡ 16 }
    ensures each { (k v : ℕ) → k < 16 → v < 256 → slice_index high k ≡ v / 16
        → slice_index low k ≡ v % 16 → slice_index result k ≡ v }
{
    (high << u8x16::splat(4)) | low
}

/// Whether all are 0.
#[inline(always)]
pub(crate) fn are_zero(cells: u8x16) -> bool
    ensures yes { IsTrue result → AreZero cells }
    ensures no { result ≡ false → AreZero cells → ⊥ }
{
    cells.simd_eq(u8x16::splat(0)).all()
}

/// What is 0 where both are.
#[inline(always)]
pub(crate) fn either_of(one: u8x16, other: u8x16) -> u8x16
    ensures long { length result ≡ 16 }
    ensures zero { AreZero result ↔ (AreZero one × AreZero other) }
{
    one | other
}

/// What is 0 where two parts of sixteen bytes are the same.
#[inline(always)]
pub(crate) fn difference(part: &[u8], other: &[u8]) -> u8x16
    requires part { length part.now ≡ 16 }
    requires other { length other.now ≡ 16 }
    ensures long { length result ≡ 16 }
    ensures same { AreZero result → part.now ≡ other.now }
{
    u8x16::from_slice(part) - u8x16::from_slice(other)
}

/// The place of the lowest of sixteen bits that is set, 16 where none is.
fn first_of_16(bits: u64) -> usize
    ensures { result ≡ first_of_16 bits }
{
    if bits == 0 {
        16
    } else {
        bits.trailing_zeros() as usize
    }
}

/// How many of the sixteen bytes from a place on may stand in a title, before the first that may not.
#[inline(always)]
pub(crate) fn title_run(bytes: &[u8], at: usize) -> usize
    requires { at + 16 ≤ length bytes.now }
    ensures { IsTitleRun bytes.now at result }
{
    let sixteen = u8x16::from_slice(&bytes[at..]);
    let others = sixteen.simd_lt(u8x16::splat(0x20)) | sixteen.simd_eq(u8x16::splat(0x7f));
    first_of_16(others.to_bitmask())
}
