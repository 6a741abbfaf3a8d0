//! Ranges of addresses, as a listing shows them.
ghost use Rattle.std.specs.Prelude.{◌≡◌, ◌≤◌, ◌++◌, ◌∷◌, OnOk};
ghost use Rattle.std.specs.String.{string_bytes};
ghost use Rattle.pci_spec.specs.Line.{hex_number};

use crate::hex_text::push_hex;
use pci_base::range::Range;
use pci_base::space::Space;
use std::alloc::{AllocError, Allocator};

/// A range of addresses of a space, as `F-L`: 8 hex digits each in I/O space, 16 in memory space.
#[derive(Clone, Copy)]
pub struct Span {
    pub space: Space,
    pub range: Range,
}

/// Appends first and last address of a range in so many hex digits.
fn push_range<A: Allocator>(
    text: &mut String<A>,
    range: Range,
    digits: u32,
) -> Result<(), AllocError>
    requires { digits ≤ 16 }
    ensures { OnOk result (string_bytes text.new
        ≡ string_bytes text.old
        ++ (hex_number digits range.first ++ (45 ∷ hex_number digits range.last))) }
{
    push_hex(text, range.first, digits)?;
    text.push('-')?;
    push_hex(text, range.last, digits)
}

impl Span {
    ghost use Rattle.pci_listing.specs.Spans.{span_text};

    /// Appends the range.
    pub fn push_to<A: Allocator>(self, text: &mut String<A>) -> Result<(), AllocError>
        ensures { OnOk result (string_bytes text.new ≡ string_bytes text.old ++ span_text self) }
    {
        match self.space {
            Space::Io => push_range(text, self.range, 8),
            Space::Mem => push_range(text, self.range, 16),
        }
    }
}
