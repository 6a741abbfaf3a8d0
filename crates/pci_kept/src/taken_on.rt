//! What is taken on a bus: by told ranges there, and by the parts that keep their places.
ghost use Rattle.std.specs.Prelude.{◌≡◌, ◌<◌, ◌≤◌, IfOk, length, map};
ghost use Rattle.std.specs.List.{All, AllWithin, filter};
ghost use Rattle.std.specs.List.Sorted.{IsNonDecreasingBy};
ghost use Rattle.settle_spec.specs.Parts.{are_same_space};
ghost use Rattle.pci_base.specs.Space.{space_of};
ghost use Rattle.pci_first_fit.specs.Lines.{AreForwardRanges, AreLineRows};
ghost use Rattle.pci_first_fit.specs.Spots.{AreRisingRanges};
ghost use Rattle.pci_kept.specs.Passing.{CanBeNoted};
ghost use Rattle.pci_kept.specs.Rooms.{region_bus, region_range, is_taken, is_taken_on, AreTakenBehindBridge};

use super::region::Region;
use pci_base::memory::OutOfMemory;
use pci_base::range::Range;
use pci_base::space::Space;
use pci_first_fit::kept::Kept;
use pci_first_fit::lines::{Line, add_lines_on};
use pci_first_fit::spot::sort_by_first;
use std::alloc::Allocator;

/// The index of the first part on this bus or a higher one.
fn first_from(regions: &[Region], bus: u16) -> usize
    requires { IsNonDecreasingBy region_bus regions.now }
    ensures bound { result ≤ length regions.now }
    ensures before { AllWithin (λ r. r.bus < bus) regions.now 0 result }
    ensures after { AllWithin (λ r. bus ≤ r.bus) regions.now result (length regions.now) }
{
    regions.partition_point(|region| u16::from(region.bus) < bus)
}

/// Whether two spaces are one.
fn is_same(space: Space, other: Space) -> bool
    ensures { result ≡ are_same_space (space_of space) (space_of other) }
{
    match space {
        Space::Io => other == Space::Io,
        Space::Mem => other == Space::Mem,
    }
}

/// Whether a part is of a space and keeps its place.
fn is_taken(region: &Region, space: Space, table: &[Kept]) -> bool
    requires { region.now.function < length table.now }
    ensures { result ≡ is_taken (space_of space) table.now region.now }
{
    is_same(space, region.space) && table[region.function].keeps(region.part)
}

/// What takes addresses on buses.
#[derive(Clone, Copy)]
pub struct Takers<'a, 'b> {
    /// The parts of all functions, by rising slots.
    pub regions: &'a [Region],
    /// All told ranges, by rising levels of their buses.
    pub lines: &'b [Line],
}

/// The ranges of the parts of a space that keep their places on a bus. The parts stand in slot order, so those of the bus
/// stand in a row.
fn parts_on<A: Allocator>(
    alloc: A,
    regions: &[Region],
    bus: u8,
    space: Space,
    table: &[Kept],
) -> Result<Vec<Range, A>, OutOfMemory>
    requires order { IsNonDecreasingBy region_bus regions.now }
    requires ready { All (CanBeNoted (length table.now)) regions.now }
    ensures parts { IfOk result (λ parts. parts.items
        ≡ map region_range (filter (is_taken_on bus (space_of space) table.now) regions.now)) }
    ensures forward { IfOk result (λ parts. AreForwardRanges parts.items) }
{
    let first = first_from(regions, bus as u16);
    let end = first_from(regions, bus as u16 + 1);
    let mut parts = Vec::new(alloc);
    for index in first..end {
        let region = &regions[index];
        if is_taken(region, space, table) {
            parts.push(region.range)?;
        }
    }
    Ok(parts)
}

/// What is taken on a bus behind a bridge in a space, by rising first addresses: by told ranges, and by the parts that keep
/// their places there.
pub fn taken_on<A: Allocator>(
    alloc: A,
    takers: &Takers,
    bus: u8,
    space: Space,
    table: &[Kept],
) -> Result<Vec<Range, A>, OutOfMemory>
    // the parts of a bus stand in a row, whose ends are found by halving
    requires order { IsNonDecreasingBy region_bus takers.now.regions.now }
    // so do the told ranges of a bus
    requires lines { AreLineRows takers.now.lines.now }
    // each part names a function that the table has
    requires ready { All (CanBeNoted (length table.now)) takers.now.regions.now }
    ensures taken { IfOk result (λ taken. AreTakenBehindBridge takers.now.regions.now takers.now.lines.now
        bus (space_of space) table.now taken.items) }
    ensures listed { IfOk result (λ taken. AreRisingRanges taken.items) }
{
    let mut taken = parts_on(alloc, takers.regions, bus, space, table)?;
    add_lines_on(&mut taken, takers.lines, bus as u16 + 1, space)?;
    sort_by_first(&mut taken);
    Ok(taken)
}
