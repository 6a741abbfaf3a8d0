//! The pieces of a bridge's legacy parts and of its palette part (Bridge 1.2, 3.2.5.18; PCI 3.0, 6.2.2).
ghost use Rattle.std.specs.Prelude.{◌≡◌, ◌+◌, ◌<◌, ◌≤◌, map, IfOk};
ghost use Rattle.pci_spec.specs.System.{Io};
ghost use Rattle.pci_base.specs.Space.{space_of};
ghost use Rattle.pci_claims.specs.Values.{code_given_value, legacy_value};
ghost use Rattle.pci_claims.specs.Legacy.{register_of_part, bridges_with, ArePartPieces, ArePieces, ArePalettePieces, blocks_of, ArePorts};

use super::given::{Given, LegacyBridge};
use pci_base::memory::OutOfMemory;
use pci_base::offset::{BRIDGE_CONTROL, COMMAND};
use pci_base::range::Range;
use pci_base::space::Space;
use std::alloc::Allocator;

/// A part of a bridge whose addresses no register shows.
#[derive(Clone, Copy, Debug, PartialEq, Eq)]
pub enum FixedPart {
    /// It answers for a VGA adapter behind the bridge.
    Legacy,
    /// It forwards writes of the adapter's palette.
    Palette,
}

/// The register that names the part: the one that enables it.
pub fn register_of(part: FixedPart) -> u8
    ensures { result ≡ register_of_part part }
{
    match part {
        FixedPart::Legacy => BRIDGE_CONTROL,
        FixedPart::Palette => COMMAND,
    }
}

/// The bridges that have the part.
pub fn bridges_with<'a>(given: &Given<'a>, part: FixedPart) -> &'a [LegacyBridge]
    ensures { map legacy_value result.now ≡ bridges_with (code_given_value given.now) part }
{
    match part {
        FixedPart::Legacy => given.legacy,
        FixedPart::Palette => given.palette,
    }
}

/// Two ranges of ports in each of so many KB: the two count from the start of the KB.
fn ports<A: Allocator>(
    alloc: A,
    blocks: u64,
    low: Range,
    high: Range,
) -> Result<Vec<Range, A>, OutOfMemory>
    requires blocks { blocks ≤ 64 }
    // so that they rise, with a port between each two
    requires low { low.first ≤ low.last }
    requires apart { low.last + 1 < high.first }
    requires high { high.first ≤ high.last }
    requires end { high.last < 0x3ff }
    ensures { IfOk result (λ v. ArePorts blocks low high v.items) }
{
    let mut out = Vec::new(alloc);
    for block in 0..blocks {
        let base = block * 0x400;
        out.push(Range {
            first: base + low.first,
            last: base + low.last,
        })?;
        out.push(Range {
            first: base + high.first,
            last: base + high.last,
        })?;
    }
    Ok(out)
}

/// In how many KB of the first 64 the ports are: in each where the bridge decodes 10 bits.
fn blocks_of(is_wide: bool) -> u64
    ensures value { result ≡ blocks_of is_wide }
    ensures few { result ≤ 64 }
{
    if is_wide { 1 } else { 64 }
}

/// The ports of a VGA adapter that a legacy part has.
fn vga_ports<A: Allocator>(alloc: A, is_wide: bool) -> Result<Vec<Range, A>, OutOfMemory>
    ensures { IfOk result (λ v. ArePieces is_wide Io v.items) }
{
    let low = Range {
        first: 0x3b0,
        last: 0x3bb,
    };
    let high = Range {
        first: 0x3c0,
        last: 0x3df,
    };
    ports(alloc, blocks_of(is_wide), low, high)
}

/// The addresses of a legacy part: the frame buffer, or the ports of a VGA adapter, which are there in each KB of the
/// first 64 where the bridge decodes 10 bits.
pub fn pieces<A: Allocator>(
    alloc: A,
    is_wide: bool,
    space: Space,
) -> Result<Vec<Range, A>, OutOfMemory>
    ensures { IfOk result (λ v. ArePieces is_wide (space_of space) v.items) }
{
    match space {
        Space::Io => vga_ports(alloc, is_wide),
        Space::Mem => {
            let mut out = Vec::new(alloc);
            out.push(Range {
                first: 0xa_0000,
                last: 0xb_ffff,
            })?;
            Ok(out)
        }
    }
}

/// The ports of a palette part, which are there in each KB of the first 64 where the bridge decodes 10 bits.
pub fn palette_pieces<A: Allocator>(alloc: A, is_wide: bool) -> Result<Vec<Range, A>, OutOfMemory>
    ensures { IfOk result (λ v. ArePalettePieces is_wide v.items) }
{
    let low = Range {
        first: 0x3c6,
        last: 0x3c6,
    };
    let high = Range {
        first: 0x3c8,
        last: 0x3c9,
    };
    ports(alloc, blocks_of(is_wide), low, high)
}

/// The addresses of a part: a palette part has none in memory space.
pub fn part_pieces<A: Allocator>(
    alloc: A,
    part: FixedPart,
    is_wide: bool,
    space: Space,
) -> Result<Vec<Range, A>, OutOfMemory>
    ensures { IfOk result (λ v. ArePartPieces part is_wide (space_of space) v.items) }
{
    match (part, space) {
        (FixedPart::Legacy, _) => pieces(alloc, is_wide, space),
        (FixedPart::Palette, Space::Io) => palette_pieces(alloc, is_wide),
        (FixedPart::Palette, Space::Mem) => Ok(Vec::new(alloc)),
    }
}
