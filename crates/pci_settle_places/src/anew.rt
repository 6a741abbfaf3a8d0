//! The new places of all that is placed where nothing stands.
ghost use Rattle.std.specs.Prelude.{IfOk, IfErr};
ghost use Rattle.pci_place.specs.Above.{system_in};
ghost use Rattle.pci_first_fit.specs.Slots.{demand_value};
ghost use Rattle.pci_settle_places.specs.Anew.{AreNewPlaces, IsUnplaced};

use crate::candidate::Candidate;
use crate::place::place;
use crate::places::Places;
use pci_base::memory::Refused;
use pci_base::window_kind::WindowKind;
use pci_first_fit::list::Lists;
use pci_first_fit::over::Left;
use pci_tree::admitted::Admitted;
use std::alloc::Allocator;

/// What can't be placed.
#[derive(Clone, Copy, Debug)]
pub enum Unplaced {
    /// The first item on the roots that has no place in its ranges: of I/O, or else of memory.
    Lacks(Candidate),
    /// The new window of this function, counted in slot order, would have 2^64 addresses or more.
    TooLarge { class: WindowKind, function: usize },
}

/// The addresses that all parts get where nothing stands, by function in slot order, or what can't be placed: in I/O
/// space, or else in memory.
pub fn place_anew<A: Allocator + Copy, B: Allocator>(
    alloc: A,
    admitted: &Admitted<B>,
    lists: &Lists,
) -> Result<Vec<Places, A>, Refused<Unplaced>>
    ensures places { IfOk result (λ table. AreNewPlaces admitted.now.roots (system_in admitted.now)
        (demand_value lists.now) table.items) }
    ensures fault { IfErr result (IsUnplaced admitted.now.roots (system_in admitted.now)
        (demand_value lists.now)) }
{
    let nothing = Left {
        over: &[],
        kept: &[],
        grown: &[],
        places: &[],
    };
    place(alloc, admitted, lists, &nothing)
}
