//! What is given.
ghost use Rattle.std.specs.Prelude.{◌≡◌, map};
ghost use Rattle.judge_spec.specs.Given.{ranges_of};
ghost use Rattle.pci_base.specs.Ranges.{decoded_range_of};
ghost use Rattle.pci_base.specs.Space.{space_of};
ghost use Rattle.pci_claims.specs.Values.{taking_value};

use pci_base::range::{Range, RootRange};
use pci_base::slot::Slot;
use pci_base::space::Space;

/// A bridge with legacy parts, which answer for a VGA adapter behind it, or with a palette part, which forwards writes of
/// the adapter's palette (Bridge 1.2, 3.2.5.18; PCI 3.0, 6.2.2).
#[derive(Clone, Copy, Debug, PartialEq, Eq)]
pub struct LegacyBridge {
    pub slot: Slot,
    /// Whether it decodes 16 bits of I/O addresses, or 10 of them.
    pub is_wide: bool,
}

/// A bridge that takes what no region of its bus claims, and the ranges of addresses that none claims (PCI 3.0, 3.6.1:
/// subtractive decoding).
#[derive(Clone, Copy, Debug)]
pub struct TakingBridge<'a> {
    pub slot: Slot,
    pub io: &'a [Range],
    pub memory: &'a [Range],
}

/// The ranges of a space.
pub fn ranges_of<'a>(bridge: &TakingBridge<'a>, space: Space) -> &'a [Range]
    ensures { map decoded_range_of result.now ≡ ranges_of (taking_value bridge.now) (space_of space) }
{
    match space {
        Space::Io => bridge.io,
        Space::Mem => bridge.memory,
    }
}

/// What is given beside a system: the ranges of each space that the host sends to its root buses, the bridges with legacy
/// parts or palette parts, those with ISA Enable, and those that take what nobody claims. Where no ranges are said of a
/// space, the host sends all of it to each root bus.
#[derive(Clone, Copy, Debug)]
pub struct Given<'a> {
    pub io: Option<&'a [RootRange]>,
    pub memory: Option<&'a [RootRange]>,
    pub legacy: &'a [LegacyBridge],
    /// The bridges with ISA Enable (Bridge 1.2, 3.2.5.18).
    pub isa: &'a [Slot],
    /// The bridges with palette parts: VGA Palette Snoop of their Command is set (PCI 3.0, 6.2.2).
    pub palette: &'a [LegacyBridge],
    /// The bridges that take what no region of their bus claims.
    pub unclaimed: &'a [TakingBridge<'a>],
}
