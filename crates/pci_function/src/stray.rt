//! Bytes of a probe outside the address registers. Only these registers are written and read back.
ghost use Rattle.std.specs.Prelude.{◌≡◌, ◌<◌, ℕ, false, true, IfSome, IfNone};
ghost use Rattle.pci_spec.specs.Fault.{is_in_address_register, is_stray_by};
ghost use Rattle.pci_image.specs.Layouts.{layout_number};

use pci_base::image::{IMAGE_LEN, Image};
use pci_image::layout::Layout;
use pci_image::register::{HEADER_LEN, address_bytes};

/// Whether an offset lies in an address register of a header.
fn is_address(layout: Layout, offset: usize) -> bool
    ensures { result ≡ is_in_address_register (layout_number layout) offset }
{
    offset < HEADER_LEN && address_bytes(layout)[offset]
}

/// Whether a probe's byte isn't 00 and lies in no address register.
fn is_stray(layout: Layout, probe: &Image, offset: usize) -> bool
    requires { offset < 256 }
    ensures { result ≡ is_stray_by (layout_number layout) probe.now.0 offset }
{
    probe.0[offset] != 0 && !is_address(layout, offset)
}

/// Whether a probe has a byte other than 00 outside the address registers. It looks at all bytes in
/// any case, so that many of them can be looked at together.
fn has_stray(layout: Layout, probe: &Image) -> bool
    ensures { result ≡ false → (offset : ℕ) → is_stray_by (layout_number layout) probe.now.0 offset ≡ false }
{
    let is_address = address_bytes(layout);
    let mut found = false;
    for offset in 0..HEADER_LEN {
        found |= (probe.0[offset] != 0) & !is_address[offset];
    }
    for offset in HEADER_LEN..IMAGE_LEN {
        found |= probe.0[offset] != 0;
    }
    found
}

/// The offset of the first byte of a probe that isn't 00 and lies in no address register of a header
/// with this layout.
pub fn stray_byte(layout: Layout, probe: &Image) -> Option<u8>
    ensures none { IfNone result ((offset : ℕ) → is_stray_by (layout_number layout) probe.now.0 offset ≡ false) }
    ensures some { IfSome result (λ offset. is_stray_by (layout_number layout) probe.now.0 offset ≡ true) }
    ensures first { IfSome result
        (λ offset. (k : ℕ) → k < offset → is_stray_by (layout_number layout) probe.now.0 k ≡ false) }
{
    if !has_stray(layout, probe) {
        return None;
    }
    for offset in 0..IMAGE_LEN {
        if is_stray(layout, probe, offset) {
            return Some(offset as u8);
        }
    }
    None
}
