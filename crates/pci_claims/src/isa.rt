//! What ISA Enable leaves of the I/O windows of bridges (Bridge 1.2, 3.2.5.18).
ghost use Rattle.std.specs.Prelude.{◌≡◌, ◌≤◌, IfOk};
ghost use Rattle.pci_base.specs.Space.{space_of};
ghost use Rattle.pci_tree.specs.Ranges.{IsCanonical};
ghost use Rattle.judge_spec.specs.Given.{has_isa, is_isa_port};
ghost use Rattle.pci_claims.specs.Values.{code_given_value};
ghost use Rattle.pci_claims.specs.Isa.{cuts, is_cut_region, ArePortBlocks, ArePortsKept, AreLeftByIsa};

use super::gather::common;
use super::given::Given;
use pci_base::memory::OutOfMemory;
use pci_base::range::Range;
use pci_base::slot::Slot;
use pci_base::space::Space;
use pci_tree::region::{Part, Region};
use std::alloc::Allocator;

/// A window is cut in each KB of the first 64, and nowhere else.
const KILOBYTE: u64 = 0x400;

const CUT_KILOBYTES: u64 = 64;

const CUT_END: u64 = 0x1_0000;

/// Whether a bridge has ISA Enable.
pub fn has_isa(given: &Given<'_>, slot: Slot) -> bool
    ensures { result ≡ has_isa (code_given_value given.now) slot }
{
    for other in given.isa {
        if *other == slot {
            return true;
        }
    }
    false
}

/// Whether ISA Enable takes addresses of a space from the windows of a bridge.
pub fn cuts(given: &Given<'_>, space: Space, slot: Slot) -> bool
    ensures { result ≡ cuts (code_given_value given.now) (space_of space) slot }
{
    match space {
        Space::Io => has_isa(given, slot),
        Space::Mem => false,
    }
}

/// Whether ISA Enable takes addresses of a space from a region: from a window of a bridge that has it.
pub fn is_cut(given: &Given<'_>, space: Space, region: &Region) -> bool
    ensures { result ≡ is_cut_region (code_given_value given.now) (space_of space) region.now }
{
    region.part == Part::Window && cuts(given, space, region.slot)
}

/// Whether ISA Enable takes a port from the windows that it cuts: below 64 KB, and behind the first 256 of its KB.
pub fn is_isa_port(port: u64) -> bool
    ensures { result ≡ is_isa_port port }
{
    port < CUT_END && 0x100 <= port % KILOBYTE
}

/// The first 256 ports of each of so many KB.
fn port_blocks<A: Allocator>(alloc: A, kilobytes: u64) -> Result<Vec<Range, A>, OutOfMemory>
    requires { kilobytes ≤ 64 }
    ensures { IfOk result (λ v. ArePortBlocks kilobytes v.items) }
{
    let mut out = Vec::new(alloc);
    for kilobyte in 0..kilobytes {
        let first = kilobyte * KILOBYTE;
        out.push(Range {
            first,
            last: first + 0xff,
        })?;
    }
    Ok(out)
}

/// Of the ports up to the last one those that ISA Enable leaves.
fn ports_kept<A: Allocator>(alloc: A, last: u64) -> Result<Vec<Range, A>, OutOfMemory>
    ensures { IfOk result (λ v. ArePortsKept last v.items) }
{
    if last < CUT_END {
        return port_blocks(alloc, last / KILOBYTE + 1);
    }
    let mut out = port_blocks(alloc, CUT_KILOBYTES)?;
    out.push(Range {
        first: CUT_END,
        last,
    })?;
    Ok(out)
}

/// The addresses of ranges of I/O space that ISA Enable leaves.
pub fn kept<A: Allocator + Copy>(alloc: A, ranges: &[Range]) -> Result<Vec<Range, A>, OutOfMemory>
    // the last range has the last address
    requires { IsCanonical ranges.now }
    ensures { IfOk result (λ v. AreLeftByIsa ranges.now v.items) }
{
    if ranges.is_empty() {
        return Ok(Vec::new(alloc));
    }
    let ports = ports_kept(alloc, ranges[ranges.len() - 1].last)?;
    common(alloc, ranges, &ports)
}
