//! What gets to a bus: what the host sends to the root above it, and each bridge on the way from there lets through.
ghost use Rattle.std.specs.Prelude.{◌≡◌, map, MatchOption, IfOk, IfSome};
ghost use Rattle.std.specs.List.{All, Contains};
ghost use Rattle.pci_spec.specs.System.{System};
ghost use Rattle.pci_spec.specs.Bus.{IsNested};
ghost use Rattle.pci_spec.specs.Decoded.{HasRecords};
ghost use Rattle.pci_base.specs.Space.{space_of};
ghost use Rattle.pci_base.specs.WindowKinds.{kind_value};
ghost use Rattle.pci_tree.specs.Outline.{RiseBySlot};
ghost use Rattle.pci_tree.specs.Ranges.{IsCanonical};
ghost use Rattle.pci_tree.specs.Reaches.{HasSpans};
ghost use Rattle.pci_tree.specs.Ways.{IsBridgeIn, bus_behind};
ghost use Rattle.pci_function.specs.declared.record.Record.{Record as RecordValue};
ghost use Rattle.pci_claims.specs.Values.{code_given_value};
ghost use Rattle.pci_claims.specs.Reached.{IsReachAlong, IsReachThroughInEach, IsReachInEach, IsAccessReachInEach};

use super::given::Given;
use super::outside::root_above;
use super::passed::{Through, passed_on, space_through};
use super::sent::sent_to;
use pci_base::memory::OutOfMemory;
use pci_base::range::Range;
use pci_base::slot::Slot;
use pci_base::space::Space;
use pci_base::window_kind::WindowKind;
use pci_function::record::Record;
use pci_tree::bus::record_at;
use pci_tree::outline::Outline;
use std::alloc::Allocator;

/// A way from a root bus, and the slots of the bridges on it.
#[derive(Clone, Copy)]
struct Way<'a> {
    root: u8,
    bridges: &'a [Slot],
}

/// The addresses that are sent to the root of a way and that each bridge on it lets through.
fn reach_along<A: Allocator + Copy>(
    alloc: A,
    given: &Given<'_>,
    records: &[Record],
    way: &Way,
    through: Through,
) -> Result<Vec<Range, A>, OutOfMemory>
    // found by halving
    requires rising { RiseBySlot records.now }
    // of an empty window no address could be told
    requires spans { All HasSpans records.now }
    ensures { IfOk result (λ v. IsReachAlong (code_given_value given.now) through records.now way.now.root
        way.now.bridges.now v.items) }
{
    let mut reach = sent_to(alloc, given, space_through(through), way.root)?;
    for slot in way.bridges {
        if let Some(bridge) = record_at(records, *slot) {
            reach = passed_on(alloc, given, &reach, bridge, through)?;
        }
    }
    Ok(reach)
}

/// The addresses that get to the bus of a function from a root to which the host sends them: ranges that rise, with an
/// address between each two. None where no function has the slot.
fn reach_through<A: Allocator + Copy>(
    alloc: A,
    given: &Given<'_>,
    outline: &Outline<A>,
    slot: Slot,
    through: Through,
) -> Result<Option<Vec<Range, A>>, OutOfMemory>
    ensures canonical { IfOk result (λ o. IfSome o (λ v. IsCanonical v.items)) }
    ensures exact { IfOk result (λ o. MatchOption o
        (Contains (map (λ r. r.slot) outline.now.records) slot → ⊥)
        (λ v. IsReachThroughInEach (code_given_value given.now) outline.now through slot.bus v.items)) }
{
    match outline.path(slot) {
        None => Ok(None),
        Some(bridges) => {
            let path = bridges.as_slice();
            let root = root_above(path, slot.bus());
            let way = Way {
                root,
                bridges: path,
            };
            let reach = reach_along(alloc, given, outline.records(), &way, through)?;
            Ok(Some(reach))
        }
    }
}

/// The addresses of regions of a kind that get to the bus of a function from a root to which the host sends them: ranges
/// that rise, with an address between each two. None where no function has the slot.
pub fn reach_of<A: Allocator + Copy>(
    alloc: A,
    given: &Given<'_>,
    outline: &Outline<A>,
    slot: Slot,
    kind: WindowKind,
) -> Result<Option<Vec<Range, A>>, OutOfMemory>
    // claims are cut down to them by halving
    ensures canonical { IfOk result (λ o. IfSome o (λ v. IsCanonical v.items)) }
    ensures exact { IfOk result (λ o. MatchOption o
        (Contains (map (λ r. r.slot) outline.now.records) slot → ⊥)
        (λ v. IsReachInEach (code_given_value given.now) outline.now (kind_value kind) slot.bus v.items)) }
{
    reach_through(alloc, given, outline, slot, Through::Regions(kind))
}

/// The addresses of a space at which some access of the host gets to the bus of a function, be it a write that palette
/// parts forward. None where no function has the slot.
pub fn access_reach<A: Allocator + Copy>(
    alloc: A,
    given: &Given<'_>,
    outline: &Outline<A>,
    slot: Slot,
    space: Space,
) -> Result<Option<Vec<Range, A>>, OutOfMemory>
    // claims are cut down to them by halving
    ensures canonical { IfOk result (λ o. IfSome o (λ v. IsCanonical v.items)) }
    ensures exact { IfOk result (λ o. MatchOption o
        (Contains (map (λ r. r.slot) outline.now.records) slot → ⊥)
        (λ v. IsAccessReachInEach (code_given_value given.now) outline.now (space_of space) slot.bus
        v.items)) }
{
    reach_through(alloc, given, outline, slot, Through::Accesses(space))
}

/// The bridge that leads to a bus.
fn bridge_to(records: &[Record], bus: u8) -> Option<&Record>
    ensures { MatchOption result
        ((r : RecordValue) → IsBridgeIn records.now r → bus_behind r ≡ bus → ⊥)
        (λ r. IsBridgeIn records.now r.now × (bus_behind r.now ≡ bus)) }
{
    for function in records {
        if let Some(bridge) = function.bridge {
            if bridge.secondary == bus {
                return Some(function);
            }
        }
    }
    None
}

/// The addresses of a space at which some access of the host gets to a bus, whether or not a function stands there: what the
/// host sends to a root bus, what the bridge to another bus forwards, and none where no bridge leads.
pub fn reach_to<A: Allocator + Copy>(
    alloc: A,
    given: &Given<'_>,
    outline: &Outline<A>,
    bus: u8,
    space: Space,
) -> Result<Vec<Range, A>, OutOfMemory>
    // claims are cut down to them by halving
    ensures canonical { IfOk result (λ v. IsCanonical v.items) }
    ensures exact { IfOk result (λ v. IsAccessReachInEach (code_given_value given.now) outline.now
        (space_of space) bus v.items) }
    // handed on with them: no bridge leads to a root bus
    ensures nested { (s : System) → HasRecords s outline.now.records → IsNested outline.now.roots s }
{
    let records = outline.records();
    if outline.roots().has(bus) {
        return sent_to(alloc, given, space, bus);
    }
    let Some(bridge) = bridge_to(records, bus) else {
        return Ok(Vec::new(alloc));
    };
    let Some(above) = access_reach(alloc, given, outline, bridge.slot, space)? else {
        return Ok(Vec::new(alloc));
    };
    passed_on(alloc, given, &above, bridge, Through::Accesses(space))
}
