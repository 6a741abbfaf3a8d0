//! Unreached regions: a BAR or a ROM that is enabled, and has an address that a bridge on the way to it
//! doesn't pass.
ghost use Rattle.std.specs.Prelude.{◌≡◌, ◌<◌, ℕ, false, length, Option, IfSome, MatchOption, MatchBool};
ghost use Rattle.pci_spec.specs.System.{Io, Memory};
ghost use Rattle.pci_function.specs.declared.fault.Fault.{Fault};
ghost use Rattle.pci_base.specs.Space.{space_of};
ghost use Rattle.pci_tree.specs.Regions.{is_of_window};
ghost use Rattle.pci_check.specs.Stops.{AreReachesOf, IsWholeAt, IsReachedAt, IsOutsideAnswer, IsBusBehind, IsWholeBehind, IsLeastLost, IsFirstStopOnPath, IsEarlier, IsUnreachedFault, IsLineFault, IsUnreachedFaultOn, IsWholeInEach, AreHomeInEach, AlwaysNested, AreBusRegionsOfTree};

use super::reached::Reached;
use super::sweep::is_before;
use pci_base::range::Range;
use pci_base::slot::Slot;
use pci_base::space::Space;
use pci_function::fault::Fault;
use pci_tree::outline::Outline;
use pci_tree::ranges::least_outside;
use pci_tree::region::{Part, Region};
use std::alloc::Allocator;

/// The least address of a region that doesn't get to a bus.
fn least_lost<A: Allocator + Copy>(
    region: &Region,
    reached: &Reached<A>,
    space: Space,
    bus: u8,
) -> Option<u64>
    ensures { MatchOption result (IsWholeAt reached.now (space_of space) bus region.now)
        (λ a. IsLeastLost reached.now (space_of space) bus region.now a) }
{
    let range = Range {
        first: region.first,
        last: region.last,
    };
    if range.last < range.first {
        return None;
    }
    least_outside(range, reached.ranges(bus, space.kind(region.prefetch)))
}

/// Whether a region is a window.
fn is_window(part: Part) -> bool
    ensures { result ≡ is_of_window part }
{
    match part {
        Part::Bar | Part::Rom => false,
        Part::Window => true,
    }
}

/// Whether a region is a BAR or a ROM with an address that doesn't get to a bus.
pub fn is_lost<A: Allocator + Copy>(
    region: &Region,
    reached: &Reached<A>,
    space: Space,
    bus: u8,
) -> bool
    ensures { MatchBool result ((is_of_window region.now.part ≡ false)
        × (IsWholeAt reached.now (space_of space) bus region.now → ⊥))
        (IsReachedAt reached.now (space_of space) bus region.now) }
{
    if is_window(region.part) {
        return false;
    }
    match least_lost(region, reached, space, bus) {
        None => false,
        Some(_) => true,
    }
}

/// The index of the first BAR or ROM of a list with an address that doesn't get to the bus.
fn first_outside<A: Allocator + Copy>(
    regions: &[Region],
    reached: &Reached<A>,
    space: Space,
    bus: u8,
) -> Option<usize>
    ensures { IsOutsideAnswer reached.now (space_of space) bus regions.now result }
{
    for (i, region) in regions.iter().enumerate() {
        if is_lost(region, reached, space, bus) {
            return Some(i);
        }
    }
    None
}

/// Which of two lists has the region that stands first, by slot and register, and its index there.
#[derive(Clone, Copy, Debug, PartialEq, Eq)]
enum Foremost {
    Neither,
    Io(usize),
    Memory(usize),
}

/// Of an index in each of two lists that of the region which stands first.
fn earlier(
    io: &[Region],
    in_io: Option<usize>,
    memory: &[Region],
    in_memory: Option<usize>,
) -> Foremost
    requires io { IfSome in_io (λ k. k < length io.now) }
    requires memory { IfSome in_memory (λ k. k < length memory.now) }
    ensures { IsEarlier io.now in_io memory.now in_memory result }
{
    match in_io {
        None => match in_memory {
            None => Foremost::Neither,
            Some(m) => Foremost::Memory(m),
        },
        Some(i) => match in_memory {
            None => Foremost::Io(i),
            Some(m) => if is_before(&memory[m], &io[i]) {
                Foremost::Memory(m)
            } else {
                Foremost::Io(i)
            },
        },
    }
}

/// The bus that the bridge at an index of a path leads to, the path ending at a bus.
fn bus_behind(path: &[Slot], i: usize, end: u8) -> u8
    requires { i < length path.now }
    ensures { IsBusBehind path.now end i result }
{
    if i + 1 < path.len() {
        path[i + 1].bus()
    } else {
        end
    }
}

/// The index of a bridge on a path, and an address that it doesn't pass.
#[derive(Clone, Copy, Debug, PartialEq, Eq)]
struct MissedAt {
    index: usize,
    address: u64,
}

/// The first bridge of a path that doesn't pass the whole region, and the least address that it doesn't pass.
fn first_stop<A: Allocator + Copy>(
    path: &[Slot],
    region: &Region,
    reached: &Reached<A>,
    space: Space,
) -> Option<MissedAt>
    ensures { MatchOption result ((k : ℕ) → k < length path.now
        → IsWholeBehind reached.now (space_of space) path.now region.now.slot.bus region.now k)
        (λ s. IsFirstStopOnPath reached.now
        (space_of space) path.now region.now s.index s.address) }
{
    let end = region.slot.bus();
    for i in 0..path.len() {
        if let Some(address) = least_lost(region, reached, space, bus_behind(path, i, end)) {
            return Some(MissedAt { index: i, address });
        }
    }
    None
}

/// The fault of a BAR or a ROM, where not all of it gets to its bus: the first bridge on the way that doesn't pass all
/// of it, and the least address that this bridge doesn't pass.
pub fn unreached_at<A: Allocator + Copy>(
    outline: &Outline<A>,
    reached: &Reached<A>,
    region: &Region,
    space: Space,
) -> Option<Fault>
    // made once, for all regions
    requires reached { AreReachesOf outline.now reached.now }
    // one way alone leads to each bus, so the bridge that is named is the one at fault
    requires nested { AlwaysNested outline.now }
    ensures fault { MatchOption result
        (IsWholeInEach outline.now reached.now (space_of space) region.now)
        (λ fault. IsUnreachedFault outline.now (space_of space) region.now fault) }
    // whoever lists all faults asks for each region, whatever is wrong with lesser ones
    ensures line { IfSome result (IsLineFault outline.now (space_of space) region.now) }
{
    match outline.path(region.slot) {
        None => None,
        Some(bridges) => {
            let path = bridges.as_slice();
            match first_stop(path, region, reached, space) {
                None => None,
                Some(stop) => Some(Fault::Unreached {
                    slot: region.slot,
                    reg: region.reg,
                    space,
                    address: stop.address,
                    bridge: path[stop.index],
                }),
            }
        }
    }
}

/// The first unreached region of a bus, by slot and register, with the first bridge on the way to it that doesn't pass
/// all of it, and the least address that this bridge doesn't pass.
pub fn first_unreached<A: Allocator + Copy>(
    outline: &Outline<A>,
    reached: &Reached<A>,
    bus: u8,
    io: &[Region],
    memory: &[Region],
) -> Option<Fault>
    // made once, for all buses
    requires reached { AreReachesOf outline.now reached.now }
    // one way alone leads to each bus, so the bridge that is named is the one at fault
    requires nested { AlwaysNested outline.now }
    // listed by the caller, who looks for clashes in the same lists
    requires io { AreBusRegionsOfTree outline.now bus Io io.now }
    requires memory { AreBusRegionsOfTree outline.now bus Memory memory.now }
    ensures { MatchOption result (AreHomeInEach outline.now bus)
        (λ fault. IsUnreachedFaultOn outline.now bus fault) }
{
    let in_io = first_outside(io, reached, Space::Io, bus);
    let in_memory = first_outside(memory, reached, Space::Mem, bus);
    match earlier(io, in_io, memory, in_memory) {
        Foremost::Neither => None,
        Foremost::Io(k) => unreached_at(outline, reached, &io[k], Space::Io),
        Foremost::Memory(k) => unreached_at(outline, reached, &memory[k], Space::Mem),
    }
}
