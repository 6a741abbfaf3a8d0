//! The places of items, by function in slot order.
ghost use Rattle.std.specs.Prelude.{◌≡◌, ◌<◌, IfOk, Some, length};
ghost use Rattle.pci_spec.specs.System.{Part as PartValue};
ghost use Rattle.pci_base.specs.WindowKinds.{kind_value};
ghost use Rattle.pci_first_fit.specs.Own.{class_part};
ghost use Rattle.pci_first_fit.specs.PlaceTables.{IsItemPart, part_place, placed, ArePlaceless, PlacesSame};

use crate::item::{Item, Part};
use pci_base::memory::OutOfMemory;
use pci_base::window_kind::{ByKind, WindowKind};
use std::alloc::Allocator;

/// The first address that each part of a function gets; None for what gets none.
#[derive(Debug, Drop)]
pub struct Places {
    /// By Base Address register.
    pub bars: [Option<u64>; 6],
    pub rom: Option<u64>,
    pub windows: ByKind<Option<u64>>,
}

/// No part gets any.
const NONE: Places = Places {
    bars: [None; 6],
    rom: None,
    windows: ByKind {
        io: None,
        memory: None,
        prefetchable: None,
    },
};

impl Places {
    /// The place of an item of a class.
    fn get(&self, class: WindowKind, part: Part) -> Option<u64>
        ensures { result ≡ part_place self.now (class_part (kind_value class) part) }
    {
        match part {
            Part::Bar(n) => match self.bars.get(usize::from(n)) {
                Some(at) => *at,
                None => None,
            },
            Part::Rom => self.rom,
            Part::Window => *self.windows.get(class),
        }
    }

    /// Sets the place of an item of a class.
    fn set(&mut self, class: WindowKind, part: Part, at: u64)
        requires { IsItemPart part }
        ensures set { part_place self.new (class_part (kind_value class) part) ≡ Some at }
        ensures others { (other : PartValue) → (other ≡ class_part (kind_value class) part → ⊥)
            → part_place self.new other ≡ part_place self.old other }
    {
        match part {
            Part::Bar(n) => self.bars[usize::from(n)] = Some(at),
            Part::Rom => self.rom = Some(at),
            Part::Window => match class {
                WindowKind::Io => self.windows.io = Some(at),
                WindowKind::Memory => self.windows.memory = Some(at),
                WindowKind::Prefetchable => self.windows.prefetchable = Some(at),
            },
        }
    }
}

/// A table in which no part gets a place.
pub fn no_places<A: Allocator>(alloc: A, functions: usize) -> Result<Vec<Places, A>, OutOfMemory>
    // a function's entry stands where its record does
    ensures count { IfOk result (λ table. length table.items ≡ functions) }
    ensures none { IfOk result (λ table. ArePlaceless table.items) }
{
    let mut table = Vec::new(alloc);
    for _ in 0..functions {
        table.push(NONE)?;
    }
    Ok(table)
}

/// The place that a table tells of an item of a class.
pub fn place_of(table: &[Places], class: WindowKind, item: &Item) -> Option<u64>
    ensures { result ≡ placed table.now item.now.function
        (class_part (kind_value class) item.now.part) }
{
    match table.get(item.function) {
        Some(places) => places.get(class, item.part),
        None => None,
    }
}

/// Puts the place of an item of a class into a table.
pub fn put(table: &mut [Places], class: WindowKind, item: &Item, at: u64)
    // there is an entry for the function
    requires function { item.now.function < length table.old }
    // no header has more BAR registers, and the entry has no place for more
    requires part { IsItemPart item.now.part }
    ensures count { length table.new ≡ length table.old }
    ensures place { placed table.new item.now.function (class_part (kind_value class) item.now.part)
        ≡ Some at }
    // places are put one after another
    ensures others { PlacesSame table.old table.new item.now.function
        (class_part (kind_value class) item.now.part) }
{
    table[item.function].set(class, item.part, at);
}
