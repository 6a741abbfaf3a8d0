//! An admitted dump and its probe, with the outline of the system that they make.
ghost use Rattle.std.specs.Prelude.{◌≡◌, map, IfOk, MatchOption};
ghost use Rattle.std.specs.List.{Contains, filter};
ghost use Rattle.pci_spec.specs.Text.{slots_of};
ghost use Rattle.pci_spec.specs.System.{system_of, is_bridge};
ghost use Rattle.pci_spec.specs.Decoded.{HasRecords};
ghost use Rattle.pci_base.specs.Space.{space_of};
ghost use Rattle.pci_tree.specs.Regions.{AreRegionsOf};
ghost use Rattle.pci_tree.specs.Outline.{IsPathTo, IsReachTo, AreSortedRegionsOf};
ghost use Rattle.pci_tree.specs.Admission.{IsAdmitted};

use super::outline::Outline;
use super::region::Region;
use arrayvec::ArrayVec;
use pci_base::memory::OutOfMemory;
use pci_base::range::Range;
use pci_base::slot::Slot;
use pci_base::space::Space;
use pci_dump::dump::Dump;
use std::alloc::{Allocator, Global};
use std::marker::Model;

/// A dump and a probe that were admitted.
#[derive(Drop)]
pub struct Admitted<A: Allocator = Global> {
    dump: Dump<A>,
    probe: Dump<A>,
    outline: Outline<A>,
}

impl<A: Allocator> Model for Admitted<A> {
    ghost use Rattle.pci_spec.specs.System.{system_of};
    ghost use Rattle.pci_spec.specs.Decoded.{HasRecords};
    ghost use Rattle.pci_tree.specs.Admission.{Admission, IsAdmitted};

    ghost Value = { Admission };

    ghost view = { λ a. record { roots = a.outline.roots; dump = a.dump; probe = a.probe } };

    ghost invariant = { λ a. IsAdmitted record {
      roots = a.outline.roots;
      dump = a.dump;
      probe = a.probe;
    } × HasRecords (system_of a.dump a.probe) a.outline.records };
}

impl<A: Allocator> Admitted<A> {
    /// A dump and a probe, with the outline of the system that they make.
    pub(crate) fn of(dump: Dump<A>, probe: Dump<A>, outline: Outline<A>) -> Admitted<A>
        requires admitted { IsAdmitted record { roots = outline.roots; dump = dump; probe = probe } }
        requires records { HasRecords (system_of dump probe) outline.records }
        ensures { result ≡ record { roots = outline.roots; dump = dump; probe = probe } }
    {
        Admitted {
            dump,
            probe,
            outline,
        }
    }

    /// Lends the dump.
    pub fn dump(&self) -> &Dump<A>
        ensures { result.now ≡ self.now.dump }
    {
        &self.dump
    }

    /// Lends the probe.
    pub fn probe(&self) -> &Dump<A>
        ensures { result.now ≡ self.now.probe }
    {
        &self.probe
    }

    /// Lends the outline.
    pub fn outline(&self) -> &Outline<A>
        ensures roots { result.now.roots ≡ self.now.roots }
        // by it what is found in the outline is said of the dump and the probe themselves
        ensures records { HasRecords (system_of self.now.dump self.now.probe) result.now.records }
        // who judges or plans need not look for faults 20 to 58 again
        ensures admitted { IsAdmitted self.now }
    {
        &self.outline
    }
}

impl<A: Allocator + Copy> Admitted<A> {
    /// The bridges, in slot order.
    pub fn bridges(&self) -> Result<Vec<Slot, A>, OutOfMemory>
        ensures { IfOk result (λ v. v.items
            ≡ map (λ f. f.slot) (filter is_bridge (system_of self.now.dump self.now.probe))) }
    {
        self.outline().bridges()
    }

    /// The enabled regions of a bus and space that claim an address, by slot and register. A closed window isn't one.
    pub fn regions(&self, bus: u8, space: Space) -> Result<Vec<Region, A>, OutOfMemory>
        ensures { IfOk result (λ v. AreRegionsOf (system_of self.now.dump self.now.probe) bus
            (space_of space) v.items) }
    {
        self.outline().regions(bus, space)
    }

    /// The regions of a bus and space, each once, by first address, then by slot and register.
    pub fn sorted(&self, bus: u8, space: Space) -> Result<Vec<Region, A>, OutOfMemory>
        ensures { IfOk result (λ v. AreSortedRegionsOf (system_of self.now.dump self.now.probe) bus
            (space_of space) v.items) }
    {
        self.outline().sorted(bus, space)
    }

    /// The bridges between a root and a function, from the root on, or None where no function has the slot.
    pub fn path(&self, slot: Slot) -> Option<ArrayVec<Slot, 255>>
        ensures { MatchOption result (Contains (slots_of self.now.dump) slot → ⊥)
            (λ v. IsPathTo self.now.roots
            (system_of self.now.dump self.now.probe) v.items slot.bus) }
    {
        self.outline().path(slot)
    }

    /// The addresses of a space that get to a bus from a root, `prefetch` saying that they are a prefetchable BAR's: ranges
    /// that rise, with an address between each two. To a root gets the whole space, to a bus that no bridge leads to none.
    pub fn reach(&self, bus: u8, space: Space, prefetch: bool) -> Result<Vec<Range, A>, OutOfMemory>
        ensures { IfOk result (λ v. IsReachTo self.now.roots
            (system_of self.now.dump self.now.probe) (space_of space) prefetch bus v.items) }
    {
        self.outline().reach(bus, space, prefetch)
    }
}
