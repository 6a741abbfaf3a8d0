//! The windows above each bus, and which of them are left: found from the roots down.
ghost use Rattle.std.specs.Prelude.{◌≡◌, ◌<◌, length, map, IfOk};
ghost use Rattle.pci_spec.specs.System.{System};
ghost use Rattle.pci_spec.specs.Bus.{IsNested};
ghost use Rattle.pci_spec.specs.Decoded.{HasRecords};
ghost use Rattle.pci_base.specs.Space.{space_of};
ghost use Rattle.pci_function.specs.Values.{record_value};
ghost use Rattle.pci_tree.specs.Roots.{buses_of};
ghost use Rattle.pci_tree.specs.Ways.{IsBridgeToBus};
ghost use Rattle.pci_claims.specs.Values.{code_given_value};
ghost use Rattle.pci_map.specs.Left.{IsTreeOf, HasAbove};
ghost use Rattle.pci_map.specs.Ways.{IsJudgedAt, AreWindowsOf, IsWayTo, AreWays};

use super::left::{Judged, Windows, is_left};
use super::takers::taken_at;
use pci_base::memory::OutOfMemory;
use pci_base::offset::{IO_BASE, MEMORY_BASE, PREFETCHABLE_BASE};
use pci_base::slot::{BUSES, Slot};
use pci_base::space::Space;
use pci_claims::find::region_at;
use pci_claims::given::Given;
use pci_claims::isa::is_cut;
use pci_function::record::Record;
use pci_tree::outline::Outline;
use pci_tree::path::bridge_to_bus;
use pci_tree::roots::Roots;
use std::alloc::Allocator;

/// Where a bridge's window stands: its register, and the space of its addresses.
#[derive(Clone, Copy)]
pub struct Spot {
    pub slot: Slot,
    pub register: u8,
    pub space: Space,
}

/// What leads to a bus.
#[derive(Clone, Copy)]
pub enum Above {
    /// The host, as the bus is a root.
    Host,
    Bridge(Slot),
    Nothing,
}

/// What leads to a bus.
fn find_above(
    records: &[Record],
    bridge_to_bus: &[Option<usize>; BUSES],
    roots: &Roots,
    bus: u8,
) -> Above
    requires { IsBridgeToBus records.now bridge_to_bus.now }
    ensures { (s : System) → HasRecords s (map record_value records.now)
        → IsNested (buses_of roots.now) s → HasAbove (buses_of roots.now) s bus result }
{
    if roots.has(bus) {
        return Above::Host;
    }
    match bridge_to_bus[bus as usize] {
        None => Above::Nothing,
        Some(index) => Above::Bridge(records[index].slot),
    }
}

/// The window at a spot, where it claims an address, by the windows above lower buses.
fn judge<A: Allocator + Copy>(
    alloc: A,
    given: &Given<'_>,
    outline: &Outline<A>,
    ways: &[Option<Windows<A>>],
    spot: Spot,
) -> Result<Option<Judged>, OutOfMemory>
    requires { spot.slot.bus < length ways.now }
    ensures { IfOk result (λ o. (s : System) → IsTreeOf outline.now s
        → AreWays (code_given_value given.now) outline.now.roots s ways.now
        → IsJudgedAt (code_given_value given.now) outline.now.roots s record { slot = spot.slot; register = spot.register; space = space_of spot.space } o) }
{
    let Spot {
        slot,
        register,
        space,
    } = spot;
    let Some(window) = region_at(alloc, outline, slot, register, space)? else {
        return Ok(None);
    };
    let cut = is_cut(given, space, &window);
    let left = is_left(ways, slot.bus(), space, window.first);
    Ok(Some(Judged { window, cut, left }))
}

/// The windows of a bridge, by those above lower buses, and what it takes.
fn windows_of<A: Allocator + Copy>(
    alloc: A,
    given: &Given<'_>,
    outline: &Outline<A>,
    ways: &[Option<Windows<A>>],
    bridge: Slot,
) -> Result<Windows<A>, OutOfMemory>
    requires { bridge.bus < length ways.now }
    ensures { IfOk result (λ w. (s : System) → IsTreeOf outline.now s
        → AreWays (code_given_value given.now) outline.now.roots s ways.now
        → AreWindowsOf (code_given_value given.now) outline.now.roots s bridge w) }
{
    let io_spot = Spot {
        slot: bridge,
        register: IO_BASE,
        space: Space::Io,
    };
    let memory_spot = Spot {
        slot: bridge,
        register: MEMORY_BASE,
        space: Space::Mem,
    };
    let prefetchable_spot = Spot {
        slot: bridge,
        register: PREFETCHABLE_BASE,
        space: Space::Mem,
    };
    let io = judge(alloc, given, outline, ways, io_spot)?;
    let memory = judge(alloc, given, outline, ways, memory_spot)?;
    let prefetchable = judge(alloc, given, outline, ways, prefetchable_spot)?;
    let takes = taken_at(alloc, given, outline, bridge)?;
    Ok(Windows {
        io,
        memory,
        prefetchable,
        takes,
    })
}

/// The windows above the next bus, by those above lower ones.
fn next_way<A: Allocator + Copy>(
    alloc: A,
    given: &Given<'_>,
    outline: &Outline<A>,
    ways: &[Option<Windows<A>>],
    above: Above,
) -> Result<Option<Windows<A>>, OutOfMemory>
    ensures { IfOk result (λ o. (s : System) → IsTreeOf outline.now s
        → AreWays (code_given_value given.now) outline.now.roots s ways.now
        → HasAbove outline.now.roots s (length ways.now) above
        → IsWayTo (code_given_value given.now) outline.now.roots s (length ways.now) o) }
{
    match above {
        Above::Host => Ok(None),
        Above::Nothing => Ok(Some(Windows::none(alloc))),
        Above::Bridge(bridge) => {
            // a bridge leads to a higher bus than its own
            if ways.len() <= bridge.bus() as usize {
                return Ok(None);
            }
            let windows = windows_of(alloc, given, outline, ways, bridge)?;
            Ok(Some(windows))
        }
    }
}

/// At each bus that is no root the windows of the bridge that leads there; none where no bridge does.
pub fn find_ways<A: Allocator + Copy>(
    alloc: A,
    given: &Given<'_>,
    outline: &Outline<A>,
) -> Result<Vec<Option<Windows<A>>, A>, OutOfMemory>
    // bus numbers index it
    ensures size { IfOk result (λ v. length v.items ≡ 256) }
    ensures ways { IfOk result (λ v. (s : System) → IsTreeOf outline.now s
        → AreWays (code_given_value given.now) outline.now.roots s v.items) }
{
    let records = outline.records();
    let roots = outline.roots();
    let bridge_to_bus = bridge_to_bus(records);
    let Ok(mut ways) = Vec::with_capacity(alloc, BUSES) else {
        return Err(OutOfMemory);
    };
    for bus in 0..BUSES {
        let above = find_above(records, &bridge_to_bus, &roots, bus as u8);
        let way = next_way(alloc, given, outline, ways.as_slice(), above)?;
        ways.push(way)?;
    }
    Ok(ways)
}
