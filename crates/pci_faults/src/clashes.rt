//! All clashes and all splits, one for each region that claims an address with one before it.
ghost use Rattle.std.specs.Prelude.{◌≡◌, OnOk};
ghost use Rattle.pci_spec.specs.Order.{Clashes, Splits};
ghost use Rattle.pci_base.specs.Space.{space_of};
ghost use Rattle.pci_check.specs.Stops.{AreReachesOf};
ghost use Rattle.pci_faults.specs.Lines.{AreLinesAdded, IsAt};

use super::board::Board;
use super::shares::{Among, shares};
use super::told::add_told;
use pci_base::memory::OutOfMemory;
use pci_base::slot::BUSES;
use pci_base::space::Space;
use pci_check::split::of_roots;
use pci_function::fault::Fault;
use pci_tree::outline::Outline;
use std::alloc::Allocator;

/// Adds the clashes of a bus in a space.
fn add_clashes_in<A: Allocator + Copy>(
    alloc: A,
    out: &mut Vec<Fault, A>,
    board: &Board<'_, A>,
    bus: u8,
    space: Space,
) -> Result<(), OutOfMemory>
    requires { AreReachesOf board.now.outline.now board.now.reached.now }
    ensures { OnOk result (AreLinesAdded (IsAt Clashes bus (space_of space)) board.now.outline.now
        out.old.items out.new.items) }
{
    let among = Among::Bus(bus);
    let regions = board.outline.regions(bus, space)?;
    let regions = regions.as_slice();
    // Two regions meet where any access gets, so what gets furthest decides.
    let allowed = board.reached.ranges(bus, space.furthest());
    let shared = shares(alloc, regions, allowed, among)?;
    add_told(out, regions, among, space, shared.as_slice())
}

/// Adds the clashes of a bus.
fn add_clashes_on<A: Allocator + Copy>(
    alloc: A,
    out: &mut Vec<Fault, A>,
    board: &Board<'_, A>,
    bus: u8,
) -> Result<(), OutOfMemory>
    requires { AreReachesOf board.now.outline.now board.now.reached.now }
    ensures { OnOk result (AreLinesAdded (λ c b sp. (c ≡ Clashes) × (b ≡ bus))
        board.now.outline.now out.old.items out.new.items) }
{
    add_clashes_in(alloc, out, board, bus, Space::Io)?;
    add_clashes_in(alloc, out, board, bus, Space::Mem)
}

/// Adds the clashes of all buses.
pub fn add_clashes<A: Allocator + Copy>(
    alloc: A,
    out: &mut Vec<Fault, A>,
    board: &Board<'_, A>,
) -> Result<(), OutOfMemory>
    // made once, for all buses
    requires { AreReachesOf board.now.outline.now board.now.reached.now }
    ensures { OnOk result (AreLinesAdded (λ c b sp. c ≡ Clashes) board.now.outline.now
        out.old.items out.new.items) }
{
    for bus in 0..BUSES {
        add_clashes_on(alloc, out, board, bus as u8)?;
    }
    Ok(())
}

/// Adds the splits of a space.
fn add_splits_in<A: Allocator + Copy>(
    alloc: A,
    out: &mut Vec<Fault, A>,
    outline: &Outline<A>,
    space: Space,
) -> Result<(), OutOfMemory>
    ensures { OnOk result (AreLinesAdded (IsAt Splits 0 (space_of space)) outline.now
        out.old.items out.new.items) }
{
    let roots = outline.roots();
    let regions = of_roots(alloc, outline, &roots, space)?;
    let regions = regions.as_slice();
    let whole = [space.whole()];
    let shared = shares(alloc, regions, &whole, Among::Roots)?;
    add_told(out, regions, Among::Roots, space, shared.as_slice())
}

/// Adds the splits of both spaces.
pub fn add_splits<A: Allocator + Copy>(
    alloc: A,
    out: &mut Vec<Fault, A>,
    outline: &Outline<A>,
) -> Result<(), OutOfMemory>
    ensures { OnOk result (AreLinesAdded (λ c b sp. (c ≡ Splits) × (b ≡ 0)) outline.now
        out.old.items out.new.items) }
{
    add_splits_in(alloc, out, outline, Space::Io)?;
    add_splits_in(alloc, out, outline, Space::Mem)
}
