//! The addresses that parts of functions get.
ghost use Rattle.std.specs.Prelude.{◌≡◌, Some, None, length, map};
ghost use Rattle.std.specs.Option.{option_map};
ghost use Rattle.std.specs.List.{All};
ghost use Rattle.pci_spec.specs.System.{System, IsSystem, Part as PartValue};
ghost use Rattle.settle_spec.specs.Places.{placed_of, first_lack};
ghost use Rattle.pci_base.specs.WindowKinds.{kind_value};
ghost use Rattle.pci_first_fit.specs.Own.{class_part};
ghost use Rattle.pci_first_fit.specs.Placings.{at_places};
ghost use Rattle.pci_settle_places.specs.Candidates.{IsWithin, HasAddressAndAlignment, HasPart, candidate_value};
ghost use Rattle.pci_settle_places.specs.BusPlaces.{bus_placing};
ghost use Rattle.pci_settle_places.specs.Places.{IsPlacesPart, place_range_in, AreEndingAt, NotesOf, AreNotable};

use crate::bus::BusPlaces;
use crate::candidate::Candidate;
use pci_base::range::Range;
use pci_base::window_kind::{ByKind, WindowKind};
use pci_first_fit::item::Part;
use std::alloc::Allocator;

/// The addresses of a function's parts; None for what isn't placed.
#[derive(Debug, Drop)]
pub struct Places {
    /// By Base Address register.
    pub bars: [Option<Range>; 6],
    pub rom: Option<Range>,
    pub windows: ByKind<Option<Range>>,
}

impl Places {
    pub const NONE: Places = Places {
        bars: [None; 6],
        rom: None,
        windows: ByKind {
            io: None,
            memory: None,
            prefetchable: None,
        },
    };

    /// Sets the addresses of a part.
    fn set(&mut self, class: WindowKind, part: Part, range: Range)
        requires { IsPlacesPart part }
        ensures set { place_range_in self.new (class_part (kind_value class) part) ≡ Some range }
        ensures others { (other : PartValue) → (other ≡ class_part (kind_value class) part → ⊥)
            → place_range_in self.new other ≡ place_range_in self.old other }
    {
        match part {
            Part::Bar(n) => self.bars[usize::from(n)] = Some(range),
            Part::Rom => self.rom = Some(range),
            Part::Window => match class {
                WindowKind::Io => self.windows.io = Some(range),
                WindowKind::Memory => self.windows.memory = Some(range),
                WindowKind::Prefetchable => self.windows.prefetchable = Some(range),
            },
        }
    }
}

/// Notes where items are placed, by function and part. What is listed first counts, so it is noted last.
fn note(candidates: &[Candidate], firsts: &[u64], table: &mut [Places])
    requires functions { All (IsWithin (length table.old)) candidates.now }
    requires lawful { All HasAddressAndAlignment candidates.now }
    requires parts { All (λ c. IsPlacesPart c.item.part) candidates.now }
    requires count { length firsts.now ≡ length candidates.now }
    requires ends { AreEndingAt candidates.now firsts.now }
    ensures noted { (s : System) → IsSystem s → length s ≡ length table.old
        → All (HasPart s) candidates.now
        → NotesOf s (at_places (map (candidate_value s) candidates.now) firsts.now) table.old
        table.new }
{
    for done in 0..candidates.len() {
        let index = candidates.len() - 1 - done;
        let candidate = candidates[index];
        let first = firsts[index];
        let last = first + (candidate.item.extent.size - 1);
        let range = Range { first, last };
        table[candidate.item.function].set(candidate.class, candidate.item.part, range);
    }
}

/// Notes where the items of a bus are placed, where all of them are. The answer is the first that has no place.
pub fn note_bus<A: Allocator>(bus: &BusPlaces<A>, table: &mut [Places]) -> Option<Candidate>
    // each item names a part of a function that the table has
    requires { AreNotable (length table.old) bus.now.candidates.items bus.now.places.items
        bus.now.lack }
    ensures noted { (s : System) → IsSystem s → length s ≡ length table.old
        → All (HasPart s) bus.now.candidates.items
        → NotesOf s (placed_of (bus_placing s bus.now.candidates.items bus.now.places.items bus.now.lack))
        table.old table.new }
    ensures lack { (s : System) → option_map (candidate_value s) result
        ≡ first_lack (bus_placing s bus.now.candidates.items bus.now.places.items bus.now.lack) None }
{
    let candidates = bus.candidates.as_slice();
    match bus.lack {
        Some(index) => Some(candidates[index]),
        None => {
            note(candidates, bus.places.as_slice(), table);
            None
        }
    }
}
