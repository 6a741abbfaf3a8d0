//! The first seven lines of a function's file `resource`.
ghost use Rattle.std.specs.Prelude.{List, MatchOption};
ghost use Rattle.pci_spec.specs.Resource.{ResourceLine as LineValue};
ghost use Rattle.pci_here.specs.Resource.{AreFirstLines};

use pci_machine::resource_line::ResourceLine;
use pci_machine::sizes_line::lines_into;

/// How many bytes seven lines have.
const SEVEN_LINES: usize = 399;

/// The lines that a text begins with: those of the BAR registers, and that of the ROM. There are none where the text
/// doesn't begin with seven lines of sizes.
pub fn lines_of(text: &str) -> Option<[ResourceLine; 7]>
    ensures { MatchOption result ((lines : List LineValue) → AreFirstLines text.now lines → ⊥)
        (λ lines. AreFirstLines text.now lines) }
{
    let bytes = text.as_bytes();
    if bytes.len() < SEVEN_LINES {
        return None;
    }
    let mut lines = [ResourceLine::default(); 7];
    if lines_into(&bytes[..SEVEN_LINES], &mut lines) {
        Some(lines)
    } else {
        None
    }
}
