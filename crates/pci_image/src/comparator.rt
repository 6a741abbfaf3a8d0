//! What a read back says of a decoder's size, and a value of its place.
//!
//! A decoder compares the upper bits of an address with its register. The bits that it compares are
//! those that read back 1 after all ones were written (PCI 3.0, 6.2.5.1).
ghost use Rattle.std.specs.Prelude.{◌≡◌, ◌^◌, ◌<◌, ◌≤◌, ◌↔◌, ℕ, IsTrue, Some};
ghost use Rattle.pci_spec.specs.Bar.{is_run, is_within};
ghost use Rattle.pci_spec.specs.Decoded.{aligned_range};
ghost use Rattle.pci_base.specs.Ranges.{decoded_range_of};

use pci_base::range::Range;

/// The lowest bit that reads back 1, from bit `from` upward, where the ones there are one run that
/// ends at bit `top`.
pub fn run_start(mask: u64, from: u32, top: u32) -> Option<u32>
    // the run ends at bit top, so it can't start above
    requires order { from ≤ top }
    // the run is cut from 64 ones by a shift of 63 - top
    requires width { top < 64 }
    ensures { (k : ℕ) → (result ≡ Some k)
        ↔ ((from ≤ k) × (k ≤ top) × IsTrue (is_run from mask k top)) }
{
    let ones = mask >> from << from;
    if ones == 0 {
        return None;
    }
    let start = ones.trailing_zeros();
    let run = (u64::MAX >> (63 - top)) & (u64::MAX << start);
    if ones == run { Some(start) } else { None }
}

/// Whether a value has ones only where its read back has them.
pub fn fits_within(value: u64, mask: u64) -> bool
    ensures { result ≡ is_within 0 value mask }
{
    value & !mask == 0
}

/// The addresses that agree with a value from bit `size_log2` upward.
pub fn aligned(value: u64, size_log2: u32) -> Range
    // a shift by 64 isn't defined, and no register decodes so many addresses
    requires { size_log2 < 64 }
    ensures { decoded_range_of result ≡ aligned_range value (2 ^ size_log2) }
{
    let low = (1u64 << size_log2) - 1;
    let first = value & !low;
    Range {
        first,
        last: first | low,
    }
}
