//! The place of each item: largest first from the pool's or the window's first address on.
ghost use Rattle.std.specs.Prelude.{◌≡◌, OnOk, length};
ghost use Rattle.pci_spec.specs.System.{Part as PartValue};
ghost use Rattle.plan_spec.specs.PlanPromise.{CanBePlanned};
ghost use Rattle.pci_base.specs.WindowKinds.{kind_value};
ghost use Rattle.pci_place.specs.Pools.{pools_value};
ghost use Rattle.pci_place.specs.Above.{AreAboves, system_in};
ghost use Rattle.pci_place.specs.Needs.{AreNeeds};
ghost use Rattle.pci_place.specs.Items.{part_value, IsPart};
ghost use Rattle.pci_place.specs.Places.{first_in, HasPlaces, KeepsOthers};
ghost use Rattle.pci_place.specs.Sorting.{SortedClass};

use super::pools::Pools;
use super::room::raised;
use crate::above::Above;
use crate::item::{Item, Part, items_of, sort_items};
use crate::need::Needs;
use pci_base::memory::OutOfMemory;
use pci_base::slot::BUSES;
use pci_base::window_kind::{ByKind, WindowKind};
use pci_tree::admitted::Admitted;
use std::alloc::Allocator;

/// The first addresses of a function's parts, where they are placed.
#[derive(Debug, Drop)]
pub struct Places {
    /// By Base Address register.
    pub bars: [u64; 6],
    pub rom: u64,
    pub windows: ByKind<u64>,
}

impl Places {
    pub const NONE: Places = Places {
        bars: [0; 6],
        rom: 0,
        windows: ByKind {
            io: 0,
            memory: 0,
            prefetchable: 0,
        },
    };

    /// Sets the first address of a part.
    fn set(&mut self, class: WindowKind, part: Part, first: u64)
        requires { IsPart part }
        ensures set { first_in self.new (part_value (kind_value class) part) ≡ first }
        ensures others { (other : PartValue) → (other ≡ part_value (kind_value class) part → ⊥)
            → first_in self.new other ≡ first_in self.old other }
    {
        match part {
            Part::Bar(n) => self.bars[usize::from(n)] = first,
            Part::Rom => self.rom = first,
            Part::Window { .. } => match class {
                WindowKind::Io => self.windows.io = first,
                WindowKind::Memory => self.windows.memory = first,
                WindowKind::Prefetchable => self.windows.prefetchable = first,
            },
        }
    }
}

/// Places sorted items one after another, a group from its start on. A bridge stands in a lower group than what is behind
/// it, or on a root, so the first address of its window is known when that group begins.
fn place_sorted(items: &[Item], class: WindowKind, start: u128, places: &mut [Places])
    requires { SortedClass (kind_value class) (length places.old) start items.now }
    ensures placed { (of : SortedClass (kind_value class) (length places.old) start items.now)
        → HasPlaces of.roots of.system of.pools (kind_value class) places.new }
    ensures others { (of : SortedClass (kind_value class) (length places.old) start items.now)
        → KeepsOthers of.system of.pools (kind_value class) places.old places.new }
{
    let mut starts = [0u128; BUSES];
    let mut group = 0;
    let mut next = start;
    for item in items {
        if item.group != group {
            group = item.group;
            next = starts[usize::from(group)];
        }
        places[item.function].set(class, item.part, next as u64);
        if let Part::Window { secondary } = item.part {
            starts[usize::from(secondary)] = next;
        }
        next += item.size;
    }
}

/// Places everything of a class.
pub fn place_class<A: Allocator + Copy, B: Allocator>(
    alloc: A,
    admitted: &Admitted<B>,
    pools: &Pools,
    class: WindowKind,
    aboves: &[Above; BUSES],
    needs: &Needs,
    places: &mut [Places],
) -> Result<(), OutOfMemory>
    // what fits its pool ends below 2^64, so each place can be kept in 64 bits
    requires plannable { CanBePlanned admitted.now.roots (system_in admitted.now)
        (pools_value pools.now) }
    // which windows lead to a BAR decides its class
    requires aboves { AreAboves (system_in admitted.now) aboves.now }
    // a window is as large as what is behind it, so all of that has to be counted
    requires needs { AreNeeds admitted.now.roots (system_in admitted.now) (pools_value pools.now)
        (kind_value class) needs.now }
    // a function's place stands where its record does
    requires count { length places.old ≡ length (system_in admitted.now) }
    ensures placed { OnOk result (HasPlaces admitted.now.roots (system_in admitted.now)
        (pools_value pools.now) (kind_value class) places.new) }
    // the classes are placed one after another, all in one table
    ensures others { OnOk result (KeepsOthers (system_in admitted.now) (pools_value pools.now)
        (kind_value class) places.old places.new) }
{
    let pool = pools.of(class);
    let mut items = items_of(alloc, admitted, pools, class, aboves, needs)?;
    sort_items(&mut items)?;
    let sorted = items.as_slice();
    if sorted.is_empty() {
        return Ok(());
    }
    let start = raised(needs.greatest, pool.first);
    place_sorted(sorted, class, start, places);
    Ok(())
}
