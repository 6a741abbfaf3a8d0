//! All BARs and ROMs that aren't home.
ghost use Rattle.std.specs.Prelude.{◌≡◌, OnOk};
ghost use Rattle.pci_spec.specs.Order.{Reach};
ghost use Rattle.pci_base.specs.Space.{space_of};
ghost use Rattle.pci_check.specs.Stops.{AlwaysNested, AreReachesOf};
ghost use Rattle.pci_faults.specs.Lines.{AreLinesAdded, IsAt};

use super::board::Board;
use pci_base::memory::OutOfMemory;
use pci_base::slot::BUSES;
use pci_base::space::Space;
use pci_check::unreached::{is_lost, unreached_at};
use pci_function::fault::Fault;
use std::alloc::Allocator;

/// Adds those of a bus and space.
fn add_unreached_in<A: Allocator + Copy>(
    out: &mut Vec<Fault, A>,
    board: &Board<'_, A>,
    bus: u8,
    space: Space,
) -> Result<(), OutOfMemory>
    requires reached { AreReachesOf board.now.outline.now board.now.reached.now }
    requires nested { AlwaysNested board.now.outline.now }
    ensures { OnOk result (AreLinesAdded (IsAt Reach bus (space_of space)) board.now.outline.now
        out.old.items out.new.items) }
{
    let regions = board.outline.regions(bus, space)?;
    for region in regions.iter() {
        if is_lost(region, board.reached, space, bus) {
            if let Some(fault) = unreached_at(board.outline, board.reached, region, space) {
                out.push(fault)?;
            }
        }
    }
    Ok(())
}

/// Adds those of a bus.
fn add_unreached_on<A: Allocator + Copy>(
    out: &mut Vec<Fault, A>,
    board: &Board<'_, A>,
    bus: u8,
) -> Result<(), OutOfMemory>
    requires reached { AreReachesOf board.now.outline.now board.now.reached.now }
    requires nested { AlwaysNested board.now.outline.now }
    ensures { OnOk result (AreLinesAdded (λ c b sp. (c ≡ Reach) × (b ≡ bus)) board.now.outline.now
        out.old.items out.new.items) }
{
    add_unreached_in(out, board, bus, Space::Io)?;
    add_unreached_in(out, board, bus, Space::Mem)
}

/// Adds those of all buses.
pub fn add_unreached<A: Allocator + Copy>(
    out: &mut Vec<Fault, A>,
    board: &Board<'_, A>,
) -> Result<(), OutOfMemory>
    // made once, for all buses
    requires reached { AreReachesOf board.now.outline.now board.now.reached.now }
    // one way alone leads to each bus
    requires nested { AlwaysNested board.now.outline.now }
    ensures { OnOk result (AreLinesAdded (λ c b sp. c ≡ Reach) board.now.outline.now
        out.old.items out.new.items) }
{
    for bus in 0..BUSES {
        add_unreached_on(out, board, bus as u8)?;
    }
    Ok(())
}
