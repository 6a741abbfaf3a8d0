//! What gets to each bus, by the kind of access.
ghost use Rattle.std.specs.Prelude.{◌≡◌, IfOk, slice_index_or, []};
ghost use Rattle.pci_base.specs.WindowKinds.{kind_value};
ghost use Rattle.pci_tree.specs.Ranges.{IsCanonical};
ghost use Rattle.pci_check.specs.Stops.{AreReachesOf, AlwaysNested, reaches_by};

use pci_base::memory::OutOfMemory;
use pci_base::range::Range;
use pci_base::space::Space;
use pci_base::window_kind::{ByKind, WindowKind};
use pci_tree::outline::Outline;
use pci_tree::reach::Reach;
use std::alloc::{Allocator, Global};
use std::marker::Model;

/// For each bus the addresses that get there.
#[derive(Drop)]
pub struct Reached<A: Allocator = Global> {
    reaches: ByKind<Vec<Reach<A>, A>>,
}

impl<A: Allocator> Model for Reached<A> {
    ghost use Rattle.pci_check.specs.Stops.{Reaches, AreWholeReaches};

    ghost Value = { Reaches };

    ghost view = { λ r. record {
      io = r.reaches.io.items;
      memory = r.reaches.memory.items;
      prefetch = r.reaches.prefetchable.items;
    } };

    ghost invariant = { λ r. AreWholeReaches record {
      io = r.reaches.io.items;
      memory = r.reaches.memory.items;
      prefetch = r.reaches.prefetchable.items;
    } };
}

impl<A: Allocator + Copy> Reached<A> {
    /// What gets to each bus of an outline.
    pub fn of(outline: &Outline<A>) -> Result<Reached<A>, OutOfMemory>
        ensures exact { IfOk result (λ r. AreReachesOf outline.now r) }
        // `first_unreached` asks for it: who works out the reaches learns it with them
        ensures nested { IfOk result (λ r. AlwaysNested outline.now) }
    {
        let io = outline.reaches(WindowKind::Io)?;
        let memory = outline.reaches(WindowKind::Memory)?;
        let prefetchable = outline.reaches(WindowKind::Prefetchable)?;
        Ok(Reached {
            reaches: ByKind {
                io,
                memory,
                prefetchable,
            },
        })
    }

    /// The addresses of a kind of access that get to a bus.
    pub fn ranges(&self, bus: u8, kind: WindowKind) -> &[Range]
        ensures same { result.now ≡ slice_index_or (reaches_by self.now (kind_value kind)) bus [] }
        // callers look for addresses in them by halving
        ensures canonical { IsCanonical result.now }
    {
        let reaches = self.reaches.get(kind).as_slice();
        reaches[usize::from(bus)].ranges()
    }
}
