//! Unreached regions: a BAR, a ROM or a told range that has to be reached, and has an address that the host sends to the
//! root above it and that a bridge on the way from there doesn't pass.
ghost use Rattle.std.specs.Prelude.{IsFalse, IsTrue, MatchOption, IfOk};
ghost use Rattle.std.specs.List.{All};
ghost use Rattle.pci_spec.specs.System.{window_space};
ghost use Rattle.pci_base.specs.Space.{space_of};
ghost use Rattle.pci_base.specs.WindowKinds.{kind_value};
ghost use Rattle.pci_tree.specs.Outline.{RiseBySlot};
ghost use Rattle.pci_tree.specs.Reaches.{HasSpans};
ghost use Rattle.pci_check.specs.Stops.{AreReachesOf, AlwaysNested};
ghost use Rattle.pci_claims.specs.Values.{code_given_value};
ghost use Rattle.pci_claims.specs.Outside.{IsSent};
ghost use Rattle.pci_claims.specs.Reached.{PassesAt};
ghost use Rattle.pci_faults.specs.Stopped.{ArePortsLeft, HasCut, HasCutAddress, HasTakenPort, IsLeftWhole, NeverCut, PassesSent, IsFirstBridgeThatStops, IsWholeAtOwnBus, IsNeverUnreached, IsUnreachedLine};

use super::missed::least_missed;
use super::needed::Needed;
use pci_base::memory::OutOfMemory;
use pci_base::range::Range;
use pci_base::slot::Slot;
use pci_base::space::Space;
use pci_base::window_kind::WindowKind;
use pci_check::reached::Reached;
use pci_claims::given::Given;
use pci_claims::outside::root_above;
use pci_claims::passed::passed_with;
use pci_claims::sent::sent_to;
use pci_function::record::Record;
use pci_tree::bus::record_at;
use pci_tree::outline::Outline;
use pci_tree::ranges::least_outside;
use std::alloc::Allocator;

/// A bridge, and an address that it doesn't pass.
#[derive(Clone, Copy, Debug, PartialEq, Eq)]
pub struct Stop {
    pub bridge: Slot,
    pub address: u64,
}

/// A way from a root bus: the slots of the bridges on it, and the records among which they are found.
#[derive(Clone, Copy)]
struct Way<'a> {
    root: u8,
    bridges: &'a [Slot],
    records: &'a [Record],
}

/// The first bridge of a way that doesn't pass all that the host sends of a range to the root, and the least address that
/// it doesn't pass.
fn first_stop<A: Allocator + Copy>(
    alloc: A,
    given: &Given<'_>,
    way: &Way,
    range: Range,
    kind: WindowKind,
) -> Result<Option<Stop>, OutOfMemory>
    // found by halving
    requires rising { RiseBySlot way.now.records.now }
    // of an empty window no address could be told
    requires spans { All HasSpans way.now.records.now }
    ensures { IfOk result (λ o. MatchOption o
        (All (PassesSent (code_given_value given.now) (kind_value kind) way.now.records.now way.now.root range)
        way.now.bridges.now)
        (λ stop. IsFirstBridgeThatStops
        (IsSent (code_given_value given.now) (window_space (kind_value kind)) way.now.root)
        (PassesAt (code_given_value given.now) (kind_value kind) way.now.records.now)
        range way.now.bridges.now stop.bridge stop.address)) }
{
    let sent = sent_to(alloc, given, Space::of(kind), way.root)?;
    for slot in way.bridges {
        if let Some(bridge) = record_at(way.records, *slot) {
            let passed = passed_with(alloc, given, bridge, kind)?;
            if let Some(address) = least_missed(range, &sent, &passed) {
                return Ok(Some(Stop {
                    bridge: *slot,
                    address,
                }));
            }
        }
    }
    Ok(None)
}

/// What a fault 60 of a region names: the first bridge on the way to it that doesn't pass all that the host sends of it,
/// and the least address that this bridge doesn't pass. None where there is no such bridge.
fn first_stop_of<A: Allocator + Copy>(
    alloc: A,
    given: &Given<'_>,
    outline: &Outline<A>,
    one: &Needed,
) -> Result<Option<Stop>, OutOfMemory>
    ensures { IfOk result (λ o. MatchOption o
        (IsNeverUnreached (code_given_value given.now) outline.now one.now)
        (λ stop. IsUnreachedLine (code_given_value given.now) outline.now one.now stop.address stop.bridge)) }
{
    let slot = one.name.slot;
    match outline.path(slot) {
        None => Ok(None),
        Some(bridges) => {
            let path = bridges.as_slice();
            let way = Way {
                root: root_above(path, slot.bus()),
                bridges: path,
                records: outline.records(),
            };
            first_stop(alloc, given, &way, one.range, one.space.kind(one.prefetch))
        }
    }
}

/// Whether ISA Enable takes an address of a space from the window of some bridge.
pub fn are_any_cut(given: &Given<'_>, space: Space) -> bool
    ensures cut { IsTrue result → HasCut (code_given_value given.now) (space_of space) }
    ensures never { IsFalse result → NeverCut (code_given_value given.now) (space_of space) }
{
    match space {
        Space::Io => !given.isa.is_empty(),
        Space::Mem => false,
    }
}

/// Whether ISA Enable leaves all ports of a range to the windows that it cuts. Of those from 64 KB on it takes none. Below,
/// the first one that it takes, from the beginning of the range on, is past the end.
fn are_ports_left(range: Range) -> bool
    ensures left { IsTrue result → ArePortsLeft range }
    ensures taken { IsFalse result → HasTakenPort range }
{
    let first = range.first;
    0x1_0000 <= first || range.last < first.max(first / 0x400 * 0x400 + 0x100)
}

/// Whether ISA Enable takes an address of a region from the window of some bridge. This bridge may be on no way to the
/// region.
fn may_be_cut(given: &Given<'_>, one: &Needed) -> bool
    ensures cut { IsTrue result → HasCutAddress (code_given_value given.now) one.now }
    ensures never { IsFalse result → IsLeftWhole (code_given_value given.now) one.now }
{
    if are_any_cut(given, one.space) {
        !are_ports_left(one.range)
    } else {
        false
    }
}

/// Whether windows alone let all of a region to its bus.
fn is_whole<A: Allocator + Copy>(reached: &Reached<A>, one: &Needed) -> bool
    ensures { IsTrue result → IsWholeAtOwnBus reached.now one.now }
{
    let range = one.range;
    if range.last < range.first {
        return true;
    }
    let passed = reached.ranges(one.name.slot.bus(), one.space.kind(one.prefetch));
    match least_outside(range, passed) {
        None => true,
        Some(_) => false,
    }
}

/// What a fault 60 of a region names, `reached` being what windows alone let to each bus.
pub fn stop_of_lost<A: Allocator + Copy>(
    alloc: A,
    given: &Given<'_>,
    outline: &Outline<A>,
    reached: &Reached<A>,
    one: &Needed,
) -> Result<Option<Stop>, OutOfMemory>
    // made once, for all regions
    requires reached { AreReachesOf outline.now reached.now }
    // one way alone leads to each bus
    requires nested { AlwaysNested outline.now }
    ensures { IfOk result (λ o. MatchOption o
        (IsNeverUnreached (code_given_value given.now) outline.now one.now)
        (λ stop. IsUnreachedLine (code_given_value given.now) outline.now one.now stop.address stop.bridge)) }
{
    // a window may not pass what it holds
    if may_be_cut(given, one) {
        return first_stop_of(alloc, given, outline, one);
    }
    // what the windows on the way pass isn't stopped, so that few ways are walked
    if is_whole(reached, one) {
        Ok(None)
    } else {
        first_stop_of(alloc, given, outline, one)
    }
}
