//! Clashes: two regions of one bus that claim an address which gets there.
ghost use Rattle.std.specs.Prelude.{MatchOption};
ghost use Rattle.pci_spec.specs.System.{Space as SpaceValue, Io, Memory};
ghost use Rattle.pci_tree.specs.Outline.{Tree};
ghost use Rattle.pci_base.specs.Space.{space_of};
ghost use Rattle.pci_check.specs.Stops.{AreReachesOf, AreBusRegionsOfTree};
ghost use Rattle.pci_check.specs.Clashes.{NoneClashOn, IsClashFaultOn, IsClashFaultOnBus};

use super::reached::Reached;
use super::sweep::{Overlap, first_overlap};
use pci_base::space::Space;
use pci_function::fault::Fault;
use pci_tree::region::Region;
use std::alloc::Allocator;

/// The clash of a bus and space at the least address, with the two least of its regions that claim it.
fn clash_in<A: Allocator + Copy>(
    reached: &Reached<A>,
    bus: u8,
    space: Space,
    regions: &mut Vec<Region, A>,
) -> Option<Fault>
    ensures { (t : Tree) → AreReachesOf t reached.now
        → AreBusRegionsOfTree t bus (space_of space) regions.old.items
        → MatchOption result (NoneClashOn t bus (space_of space))
        (λ fault. IsClashFaultOn t bus (space_of space) fault) }
{
    // Two regions meet where any access gets, so what gets furthest decides.
    let allowed = reached.ranges(bus, space.furthest());
    match first_overlap(regions, allowed) {
        None => None,
        Some(
            Overlap {
                address,
                first,
                second,
            },
        ) => Some(Fault::Clash {
            bus,
            space,
            address,
            first: first.slot,
            first_reg: first.reg,
            second: second.slot,
            second_reg: second.reg,
        }),
    }
}

/// The first clash of a bus, whose regions these are: in I/O before memory.
pub fn first_clash<A: Allocator + Copy>(
    reached: &Reached<A>,
    bus: u8,
    io: &mut Vec<Region, A>,
    memory: &mut Vec<Region, A>,
) -> Option<Fault>
    // of each tree that these belong to, as no outline is handed in
    ensures { (t : Tree) → AreReachesOf t reached.now
        → AreBusRegionsOfTree t bus Io io.old.items → AreBusRegionsOfTree t bus Memory memory.old.items
        → MatchOption result ((space : SpaceValue) → NoneClashOn t bus space)
        (λ fault. IsClashFaultOnBus t bus fault) }
{
    if let Some(fault) = clash_in(reached, bus, Space::Io, io) {
        return Some(fault);
    }
    clash_in(reached, bus, Space::Mem, memory)
}
