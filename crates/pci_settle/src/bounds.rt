//! What settling may not change.
ghost use Rattle.std.specs.Prelude.{◌≡◌, length};
ghost use Rattle.settle_spec.specs.Lists.{Request};
ghost use Rattle.settle_spec.specs.Kept.{Kept as Keeping};
ghost use Rattle.pci_place.specs.Above.{system_in};
ghost use Rattle.pci_first_fit.specs.Slots.{demand_value};
ghost use Rattle.pci_settle.specs.Requests.{IsAskedOf};
ghost use Rattle.pci_settle.specs.Told.{IsTableOf};
ghost use Rattle.pci_settle.specs.Bounded.{HasBounds, AreBounds, kept_fault};

use crate::fixed::fixed_without;
use crate::lack::SettleFault;
use crate::told::{Told, first_cut};
use pci_first_fit::kept::Kept;
use pci_first_fit::list::Lists;
use pci_tree::admitted::Admitted;
use std::alloc::Allocator;

/// Functions that may not be written, and told ranges.
#[derive(Clone, Copy)]
pub struct Bounds<'f, 't> {
    /// Of each slot, by its number, whether its function may not be written.
    pub fixed: &'f [bool],
    pub told: Told<'t>,
}

/// The fault 75 with the lowest line whose range stands and doesn't stay, or the fault 74 with the first part of a fixed
/// function that doesn't. `table` is what stays, by function in slot order.
pub fn first_without<A: Allocator>(
    admitted: &Admitted<A>,
    lists: &Lists,
    bounds: &Bounds,
    table: &[Kept],
) -> Option<SettleFault>
    requires bounds { HasBounds bounds.now }
    // a function's entry stands where its record does
    requires table { length table.now ≡ length (system_in admitted.now) }
    ensures { (q : Request) (keep : Keeping) → IsAskedOf q admitted.now.roots (demand_value lists.now)
        → AreBounds q (system_in admitted.now) bounds.now
        → IsTableOf (system_in admitted.now) keep.stays table.now
        → result ≡ kept_fault q (system_in admitted.now) keep }
{
    let cut = first_cut(admitted, &bounds.told, table);
    if cut.is_some() {
        return cut;
    }
    fixed_without(admitted, lists, bounds.fixed, table)
}
