//! The outline of a system: its records in slot order, its root buses, and who is where and how one gets there.
ghost use Rattle.std.specs.Prelude.{◌≡◌, ◌<◌, ◌-◌, ◌^◌, ℕ, map, length, min, IfOk, OnOk, MatchOption, MatchResult, slice_index_or, List};
ghost use Rattle.std.specs.List.{All, AllPairs, Contains, filter, flat_map};
ghost use Rattle.std.specs.List.Sorted.{IsPermutation};
ghost use Rattle.pci_spec.specs.System.{System, is_bridge, window_space};
ghost use Rattle.pci_spec.specs.Decoded.{HasRecords};
ghost use Rattle.pci_spec.specs.Bus.{IsNested};
ghost use Rattle.pci_spec.specs.Slot.{IsSlot};
ghost use Rattle.pci_tree.specs.PlaceFaults.{IsPlaceRefusal};
ghost use Rattle.pci_function.specs.Fault.{fault_of};
ghost use Rattle.pci_base.specs.declared.range.Range.{Range as RangeValue};
ghost use Rattle.pci_base.specs.WindowKinds.{kind_value};
ghost use Rattle.pci_base.specs.Space.{space_of, is_prefetch};
ghost use Rattle.pci_tree.specs.Roots.{buses_of};
ghost use Rattle.pci_tree.specs.Ranges.{IsCanonical};
ghost use Rattle.pci_tree.specs.BusNumbers.{IsInPlace};
ghost use Rattle.pci_function.specs.Values.{record_value};
ghost use Rattle.pci_tree.specs.Regions.{AreRegionsOf, IsLawful, regions_of, region_number};
ghost use Rattle.pci_tree.specs.Ways.{is_bridging, slots_of};
ghost use Rattle.pci_tree.specs.Outline.{RiseBySlot, IsOutline, IsPathTo, IsReachTo, IsBefore, AreSortedRegionsOf};

use super::bus::{has_slot, on_bus};
use super::buses::first_place_fault;
use super::path::{bridge_to_bus, is_led_to, path};
use super::reach::{Reach, reaches};
use super::region::{Region, add_regions, count_regions};
use super::roots::Roots;
use arrayvec::ArrayVec;
use pci_base::memory::OutOfMemory;
use pci_base::range::Range;
use pci_base::slot::{BUSES, Slot};
use pci_base::space::Space;
use pci_base::window_kind::WindowKind;
use pci_function::fault::Fault;
use pci_function::record::Record;
use std::alloc::{Allocator, Global};
use std::marker::Model;

/// The records of a system's functions in slot order, with the root buses.
#[derive(Drop)]
pub struct Outline<A: Allocator = Global> {
    records: Vec<Record, A>,
    roots: Roots,
    /// At each bus the index of the bridge that leads there.
    bridge_to_bus: [Option<usize>; BUSES],
}

impl<A: Allocator> Model for Outline<A> {
    ghost use Rattle.std.specs.Prelude.{map};
    ghost use Rattle.pci_function.specs.Values.{record_value};
    ghost use Rattle.pci_tree.specs.Roots.{buses_of};
    ghost use Rattle.pci_tree.specs.Ways.{IsBridgeToBus};
    ghost use Rattle.pci_tree.specs.Outline.{Tree, IsOutline};

    ghost Value = { Tree };

    ghost view = { λ o. record {
      roots = buses_of o.roots;
      records = map record_value o.records.items;
    } };

    ghost invariant = { λ o. IsOutline (buses_of o.roots) o.records.items
        × IsBridgeToBus o.records.items o.bridge_to_bus };
}

impl<A: Allocator> Outline<A> {
    /// The outline of records.
    fn of(records: Vec<Record, A>, roots: Roots) -> Outline<A>
        requires { IsOutline (buses_of roots) records.items }
        ensures roots { result.roots ≡ buses_of roots }
        ensures records { result.records ≡ map record_value records.items }
    {
        let bridge_to_bus = bridge_to_bus(&records);
        Outline {
            records,
            roots,
            bridge_to_bus,
        }
    }

    /// The outline of records in slot order, where each function is in its place; otherwise the fault of the first
    /// function that isn't: 50 `LoneFunction`, 57 `BusRange`, 58 `Orphan`.
    pub fn placed(records: Vec<Record, A>, roots: Roots) -> Result<Outline<A>, Fault>
        // a device number above 31 would make a slot's number one of the next bus
        requires slots { All (λ r. IsSlot r.slot) records.items }
        // the functions of a bus are found by halving, to look for function 0 and bridges there
        requires rising { RiseBySlot records.items }
        // who gets where is worked out by ranges that each have an address
        requires lawful { All IsLawful records.items }
        ensures { MatchResult result (λ o. (o.roots ≡ buses_of roots)
            × (o.records ≡ map record_value records.items)
            × All (IsInPlace (buses_of roots) records.items) records.items)
            (λ e. IsPlaceRefusal (buses_of roots) (map record_value records.items) (fault_of e)) }
    {
        match first_place_fault(&records, &roots) {
            Some(fault) => Err(fault),
            None => Ok(Outline::of(records, roots)),
        }
    }

    /// The root buses.
    pub fn roots(&self) -> Roots
        ensures { buses_of result ≡ self.now.roots }
    {
        self.roots
    }

    /// The records, in slot order.
    pub fn records(&self) -> &[Record]
        ensures value { map record_value result.now ≡ self.now.records }
        // in slot order a bridge stands before what is behind it, and planning goes by that
        ensures rising { RiseBySlot result.now }
        // a size is the last address less the first, so that must not be below it
        ensures lawful { All IsLawful result.now }
        ensures nested { (s : System) → HasRecords s self.now.records → IsNested self.now.roots s }
    {
        self.records.as_slice()
    }
}

impl<A: Allocator + Copy> Outline<A> {
    /// The bridges, in slot order.
    pub fn bridges(&self) -> Result<Vec<Slot, A>, OutOfMemory>
        // an outline has no image, so this is said of every system with its records
        ensures { IfOk result (λ v. (s : System) → HasRecords s self.now.records
            → v.items ≡ map (λ f. f.slot) (filter is_bridge s)) }
    {
        bridges_among(*self.records.allocator(), &self.records)
    }

    /// The enabled regions of a bus and space that claim an address, by slot and register. A closed window isn't one.
    pub fn regions(&self, bus: u8, space: Space) -> Result<Vec<Region, A>, OutOfMemory>
        ensures { IfOk result (λ v. (s : System) → HasRecords s self.now.records
            → AreRegionsOf s bus (space_of space) v.items) }
    {
        if !is_led_to(&self.bridge_to_bus, &self.roots, bus) {
            return Ok(Vec::new(*self.records.allocator()));
        }
        let part = on_bus(&self.records, bus);
        regions_among(*self.records.allocator(), part, space)
    }

    /// The regions of a bus and space, each once, by first address, then by slot and register.
    pub fn sorted(&self, bus: u8, space: Space) -> Result<Vec<Region, A>, OutOfMemory>
        ensures { IfOk result (λ v. (s : System) → HasRecords s self.now.records
            → AreSortedRegionsOf s bus (space_of space) v.items) }
    {
        let mut regions = self.regions(bus, space)?;
        sort_by_first(&mut regions)?;
        Ok(regions)
    }

    /// The bridges between a root and a function, from the root on, or None where no function has the slot.
    pub fn path(&self, slot: Slot) -> Option<ArrayVec<Slot, 255>>
        ensures { MatchOption result (Contains (map (λ r. r.slot) self.now.records) slot → ⊥)
            (λ v. (s : System)
            → HasRecords s self.now.records → IsPathTo self.now.roots s v.items slot.bus) }
    {
        if !has_slot(&self.records, slot) {
            return None;
        }
        path(&self.records, &self.bridge_to_bus, &self.roots, slot.bus())
    }

    /// For each bus the addresses of a kind of access that get there from a root.
    pub fn reaches(&self, kind: WindowKind) -> Result<Vec<Reach<A>, A>, OutOfMemory>
        ensures size { IfOk result (λ v. length v.items ≡ 256) }
        // judging looks for addresses in these lists by halving
        ensures canonical { IfOk result (λ v. All IsCanonical v.items) }
        // handed on with the lists: there is one way to each bus, along which a fault is looked for
        ensures nested { (s : System) → HasRecords s self.now.records → IsNested self.now.roots s }
        ensures exact { IfOk result (λ v. (s : System) (bus : ℕ) (d : List RangeValue)
            → HasRecords s self.now.records → bus < 256
            → IsReachTo self.now.roots s (window_space (kind_value kind))
            (is_prefetch (kind_value kind)) bus (slice_index_or v.items bus d)) }
    {
        reaches(
            *self.records.allocator(),
            &self.records,
            &self.bridge_to_bus,
            &self.roots,
            kind,
        )
    }

    /// The addresses of a space that get to a bus from a root, `prefetch` saying that they are a prefetchable BAR's: ranges
    /// that rise, with an address between each two. To a root gets the whole space, to a bus that no bridge leads to none.
    pub fn reach(&self, bus: u8, space: Space, prefetch: bool) -> Result<Vec<Range, A>, OutOfMemory>
        ensures { IfOk result (λ v. (s : System) → HasRecords s self.now.records
            → IsReachTo self.now.roots s (space_of space) prefetch bus v.items) }
    {
        let mut all = self.reaches(space.kind(prefetch))?;
        let reach = all.swap_remove(bus as usize);
        Ok(reach.into_ranges())
    }
}

/// Sorts regions that stand by slot and register by first address; those with one first address stay in their order.
fn sort_by_first<A: Allocator + Copy>(regions: &mut Vec<Region, A>) -> Result<(), OutOfMemory>
    ensures permutation { IsPermutation regions.old.items regions.new.items }
    ensures sorted { OnOk result (AllPairs
        (λ p q. region_number p < region_number q) regions.old.items
        → AllPairs IsBefore regions.new.items) }
{
    match regions.sort_by_key(|region| region.first) {
        Ok(()) => Ok(()),
        Err(_) => Err(OutOfMemory),
    }
}

/// The slots of the bridges among some records.
fn bridges_among<A: Allocator>(alloc: A, records: &[Record]) -> Result<Vec<Slot, A>, OutOfMemory>
    ensures { IfOk result (λ v. v.items ≡ slots_of (filter is_bridging records.now)) }
{
    let mut bridges = Vec::new(alloc);
    for function in records {
        if function.bridge.is_some() {
            bridges.push(function.slot)?;
        }
    }
    Ok(bridges)
}

/// How many regions some records have, as far as that is a `usize`.
fn room_for(records: &[Record], space: Space) -> usize
    ensures { result ≡ min
        (length (flat_map (λ r. regions_of r (space_of space)) records.now)) (2 ^ 64 - 1) }
{
    let mut room: usize = 0;
    for function in records {
        room = room.saturating_add(count_regions(function, space));
    }
    room
}

/// The regions of some records, in their order.
fn regions_among<A: Allocator>(
    alloc: A,
    records: &[Record],
    space: Space,
) -> Result<Vec<Region, A>, OutOfMemory>
    ensures { IfOk result
        (λ v. v.items ≡ flat_map (λ r. regions_of r (space_of space)) records.now) }
{
    let Ok(mut regions) = Vec::with_capacity(alloc, room_for(records, space)) else {
        return Err(OutOfMemory);
    };
    for function in records {
        add_regions(&mut regions, function, space)?;
    }
    Ok(regions)
}
