//! I/O BARs behind bridges without an I/O window.
ghost use Rattle.std.specs.Prelude.{◌≡◌, MatchOption};
ghost use Rattle.std.specs.List.{list_any};
ghost use Rattle.pci_spec.specs.Slot.{Slot as SlotValue};
ghost use Rattle.plan_spec.specs.Plan.{LacksWindow};
ghost use Rattle.plan_spec.specs.PlanPromise.{IsFirstLacking};
ghost use Rattle.pci_place.specs.Above.{AreAboves, system_in};
ghost use Rattle.pci_place.specs.Classes.{is_io_kind};

use crate::above::Above;
use pci_base::slot::{BUSES, Slot};
use pci_function::record::Record;
use pci_image::bar::BarKind;
use pci_tree::admitted::Admitted;
use std::alloc::Allocator;

/// Whether a function has an I/O BAR.
pub fn has_io_bar(function: &Record) -> bool
    ensures { result ≡ list_any (λ bar. is_io_kind bar.kind) function.now.bars.items }
{
    for bar in function.bars.as_slice() {
        if bar.kind == BarKind::Io {
            return true;
        }
    }
    false
}

/// The first function, by slot, that has an I/O BAR behind a bridge without an I/O window.
pub fn first_lacking<A: Allocator>(admitted: &Admitted<A>, aboves: &[Above; BUSES]) -> Option<Slot>
    // a table that lacks a bridge would let an I/O BAR be placed where none gets to it
    requires { AreAboves (system_in admitted.now) aboves.now }
    ensures { MatchOption result
        ((slot : SlotValue) → LacksWindow (system_in admitted.now) slot → ⊥)
        (IsFirstLacking (system_in admitted.now)) }
{
    for record in admitted.outline().records() {
        let above = aboves[record.slot.bus() as usize];
        if !above.io && has_io_bar(record) {
            return Some(record.slot);
        }
    }
    None
}
