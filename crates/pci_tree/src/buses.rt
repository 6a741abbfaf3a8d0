//! Whether functions stand in their places: function 0 is beside each other function of a device, a bridge leads to
//! each bus that is no root, and the bus numbers of bridges fit (Bridge 1.2, 3.2.5).
ghost use Rattle.std.specs.Prelude.{◌≡◌, ◌↔◌, ◌<◌, IsTrue, List, MatchOption};
ghost use Rattle.std.specs.Option.{is_some};
ghost use Rattle.std.specs.List.{All};
ghost use Rattle.pci_spec.specs.Slot.{IsSlot};
ghost use Rattle.pci_tree.specs.Roots.{buses_of};
ghost use Rattle.pci_tree.specs.Outline.{RiseBySlot};
ghost use Rattle.pci_tree.specs.BusNumbers.{HasBusOrder, HasNoBus, AreApart, ShareNoBus, AreSiblings, IsApartFrom, IsApartFromLower, IsApartFromEarlier, HasNoRootBehind, HasLawfulBuses, IsNotLone, IsLedTo, IsInPlace, AreLeastEnds, least_of, EndsWithin};
ghost use Rattle.pci_tree.specs.PlaceFaults.{IsPlaceFault, IsSomePlaceFault};
ghost use Rattle.pci_tree.specs.Misplaced.{HasUnlawfulBuses, IsMisplacedBy};

use super::bus::{has_slot, on_bus};
use super::roots::Roots;
use pci_base::slot::{BUSES, Slot};
use pci_function::fault::Fault;
use pci_function::record::{Bridge, Record};

/// Whether a bridge knows its own bus, and leads to higher ones.
fn has_order(bus: u8, bridge: &Bridge) -> bool
    ensures { IsTrue result ↔ HasBusOrder bus bridge.now }
{
    bridge.primary == bus && bus < bridge.secondary && bridge.secondary <= bridge.subordinate
}

/// Whether no bus is behind a bridge: the ends of its range are crossed.
fn has_no_bus(bridge: &Bridge) -> bool
    ensures { IsTrue result ↔ HasNoBus bridge.now }
{
    bridge.subordinate < bridge.secondary
}

/// Whether the range of one of two bridges ends before that of the other begins.
fn are_apart(bridge: &Bridge, other: &Bridge) -> bool
    ensures { IsTrue result ↔ AreApart bridge.now other.now }
{
    bridge.subordinate < other.secondary || other.subordinate < bridge.secondary
}

/// Whether no bus is behind both of two bridges.
fn share_no_bus(bridge: &Bridge, other: &Bridge) -> bool
    ensures { IsTrue result ↔ ShareNoBus bridge.now other.now }
{
    are_apart(bridge, other) || has_no_bus(bridge) || has_no_bus(other)
}

/// Whether a bridge shares no bus with a function which is a bridge with a lower slot.
fn is_apart_from(function: &Record, slot: Slot, bridge: &Bridge) -> bool
    ensures { IsTrue result ↔ IsApartFrom function.now slot bridge.now }
{
    match &function.bridge {
        None => true,
        Some(other) => slot.number() <= function.slot.number() || share_no_bus(bridge, other),
    }
}

/// Whether a bridge shares no bus with the bridges with lower slots among some records.
fn is_apart_from_lower(part: &[Record], slot: Slot, bridge: &Bridge) -> bool
    ensures { IsTrue result ↔ IsApartFromLower part.now slot bridge.now }
{
    for function in part {
        if !is_apart_from(function, slot, bridge) {
            return false;
        }
    }
    true
}

/// Whether two buses are the same, or both are roots.
fn are_siblings(roots: &Roots, bus: u8, other: u8) -> bool
    ensures { IsTrue result ↔ AreSiblings (buses_of roots.now) bus other }
{
    bus == other || (roots.has(bus) && roots.has(other))
}

/// Whether a bridge shares no bus with the bridges with lower slots on its bus, and on each root where its bus is one.
fn is_apart_from_earlier(records: &[Record], roots: &Roots, slot: Slot, bridge: &Bridge) -> bool
    requires rising { RiseBySlot records.now }
    requires slots { All (λ r. IsSlot r.slot) records.now }
    ensures { IsTrue result ↔ IsApartFromEarlier (buses_of roots.now) records.now slot bridge.now }
{
    let own = slot.bus();
    if !roots.has(own) {
        return is_apart_from_lower(on_bus(records, own), slot, bridge);
    }
    for bus in 0..BUSES {
        if are_siblings(roots, bus as u8, own) {
            let part = on_bus(records, bus as u8);
            if !is_apart_from_lower(part, slot, bridge) {
                return false;
            }
        }
    }
    true
}

/// Whether no root is behind a bridge.
fn has_no_root_behind(roots: &Roots, bridge: &Bridge) -> bool
    ensures { IsTrue result ↔ HasNoRootBehind (buses_of roots.now) bridge.now }
{
    for bus in usize::from(bridge.secondary)..usize::from(bridge.subordinate) + 1 {
        if roots.has(bus as u8) {
            return false;
        }
    }
    true
}

/// At each bus the least subordinate bus of the bridges that lead there.
pub fn least_subordinates(records: &[Record]) -> [Option<u8>; BUSES]
    ensures { AreLeastEnds records.now result }
{
    let mut table = [None; BUSES];
    for function in records {
        if let Some(bridge) = function.bridge {
            let bus = bridge.secondary as usize;
            table[bus] = Some(lesser(table[bus], bridge.subordinate));
        }
    }
    table
}

/// The lesser of a number, where there is one, and another.
fn lesser(least: Option<u8>, end: u8) -> u8
    ensures { result ≡ least_of least end }
{
    match least {
        None => end,
        Some(least) => least.min(end),
    }
}

/// Whether a range of buses ends at a number, where there is one, or before.
fn ends_within(end: Option<u8>, bridge: &Bridge) -> bool
    ensures { IsTrue result ↔ EndsWithin end bridge.now.subordinate }
{
    match end {
        None => true,
        Some(end) => bridge.subordinate <= end,
    }
}

/// Whether a bridge leads to a bus with this least subordinate bus.
fn has_upstream_bridge(end: Option<u8>) -> bool
    ensures { result ≡ is_some end }
{
    end.is_some()
}

/// Whether the bus numbers of the bridge at a slot fit those of the others, and the roots.
fn has_lawful_buses(
    records: &[Record],
    roots: &Roots,
    ends: &[Option<u8>; BUSES],
    slot: Slot,
    bridge: &Bridge,
) -> bool
    requires rising { RiseBySlot records.now }
    requires slots { All (λ r. IsSlot r.slot) records.now }
    requires ends { AreLeastEnds records.now ends.now }
    ensures { IsTrue result ↔ HasLawfulBuses (buses_of roots.now) records.now slot bridge.now }
{
    let bus = slot.bus();
    if !has_order(bus, bridge)
        || !is_apart_from_earlier(records, roots, slot, bridge)
        || !has_no_root_behind(roots, bridge)
    {
        return false;
    }
    if roots.has(bus) {
        return true;
    }
    ends_within(ends[bus as usize], bridge)
}

/// Whether function 0 of its device is beside a function, where it is another.
fn is_not_lone(records: &[Record], slot: Slot) -> bool
    requires rising { RiseBySlot records.now }
    requires slots { All (λ r. IsSlot r.slot) records.now }
    ensures { IsTrue result ↔ IsNotLone records.now slot }
{
    if slot.fun() == 0 {
        return true;
    }
    match Slot::new(slot.bus(), slot.dev(), 0) {
        None => false,
        Some(first) => has_slot(records, first),
    }
}

/// The fault of a function's place: 50 `LoneFunction`, else 58 `Orphan`, else 57 `BusRange`.
fn place_fault(
    records: &[Record],
    roots: &Roots,
    ends: &[Option<u8>; BUSES],
    function: &Record,
) -> Option<Fault>
    requires rising { RiseBySlot records.now }
    requires slots { All (λ r. IsSlot r.slot) records.now }
    requires ends { AreLeastEnds records.now ends.now }
    ensures { MatchOption result (IsInPlace (buses_of roots.now) records.now function.now)
        (IsPlaceFault (buses_of roots.now) records.now function.now) }
{
    let slot = function.slot;
    let bus = slot.bus();
    if !is_not_lone(records, slot) {
        return Some(Fault::LoneFunction(slot));
    }
    if !roots.has(bus) && !has_upstream_bridge(ends[bus as usize]) {
        return Some(Fault::Orphan(slot));
    }
    match &function.bridge {
        None => None,
        Some(bridge) => {
            if has_lawful_buses(records, roots, ends, slot, bridge) {
                None
            } else {
                Some(Fault::BusRange(slot))
            }
        }
    }
}

/// What is wrong with a function's place, each by itself.
#[derive(Clone, Copy, Debug, PartialEq, Eq)]
pub struct Misplaced {
    /// 50 `LoneFunction`: function 0 of its device isn't beside it.
    pub lone: bool,
    /// 58 `Orphan`: its bus is no root, and no bridge leads there.
    pub orphan: bool,
    /// 57 `BusRange`: it is a bridge whose bus numbers don't fit.
    pub bus_range: bool,
}

/// Whether a bus is a root, or a bridge leads to it.
fn is_led_to(roots: &Roots, ends: &[Option<u8>; BUSES], bus: u8) -> bool
    ensures { (records : List Record) → AreLeastEnds records ends.now
        → (IsTrue result ↔ IsLedTo (buses_of roots.now) records bus) }
{
    roots.has(bus) || has_upstream_bridge(ends[bus as usize])
}

/// Whether a function is a bridge whose bus numbers don't fit those of the others, or the roots.
fn has_unlawful_buses(
    records: &[Record],
    roots: &Roots,
    ends: &[Option<u8>; BUSES],
    function: &Record,
) -> bool
    requires rising { RiseBySlot records.now }
    requires slots { All (λ r. IsSlot r.slot) records.now }
    requires ends { AreLeastEnds records.now ends.now }
    ensures { IsTrue result ↔ HasUnlawfulBuses (buses_of roots.now) records.now function.now }
{
    match &function.bridge {
        None => false,
        Some(bridge) => !has_lawful_buses(records, roots, ends, function.slot, bridge),
    }
}

/// What is wrong with a function's place, `ends` being the table that `least_subordinates` gives.
pub fn look_at_place(
    records: &[Record],
    roots: &Roots,
    ends: &[Option<u8>; BUSES],
    function: &Record,
) -> Misplaced
    // function 0 of a device is found by halving
    requires rising { RiseBySlot records.now }
    // a device number above 31 would make a slot's number one of the next bus
    requires slots { All (λ r. IsSlot r.slot) records.now }
    // made once, for all functions
    requires ends { AreLeastEnds records.now ends.now }
    // a list of all faults tells each of the three, whichever of them is looked for first
    ensures { IsMisplacedBy (buses_of roots.now) records.now function.now result }
{
    let slot = function.slot;
    Misplaced {
        lone: !is_not_lone(records, slot),
        orphan: !is_led_to(roots, ends, slot.bus()),
        bus_range: has_unlawful_buses(records, roots, ends, function),
    }
}

/// The fault of the first function, in slot order, that isn't in its place.
pub fn first_place_fault(records: &[Record], roots: &Roots) -> Option<Fault>
    // function 0 of a device is found by halving
    requires rising { RiseBySlot records.now }
    // a device number above 31 would make a slot's number one of the next bus
    requires slots { All (λ r. IsSlot r.slot) records.now }
    ensures { MatchOption result (All (IsInPlace (buses_of roots.now) records.now) records.now)
        (IsSomePlaceFault (buses_of roots.now) records.now) }
{
    let ends = least_subordinates(records);
    for function in records {
        match place_fault(records, roots, &ends, function) {
            Some(fault) => return Some(fault),
            None => {}
        }
    }
    None
}
