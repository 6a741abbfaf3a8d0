//! Settling where windows grow.
ghost use Rattle.std.specs.Prelude.{◌≡◌, IfOk, IfErr, length, map};
ghost use Rattle.settle_spec.specs.Kept.{growing as growing_kept};
ghost use Rattle.pci_place.specs.Above.{system_in};
ghost use Rattle.pci_first_fit.specs.Slots.{demand_value};
ghost use Rattle.pci_kept.specs.Known.{asked_by_rules};
ghost use Rattle.pci_grow.specs.Growing.{AreGrown, grown_value};
ghost use Rattle.pci_settle.specs.Bounded.{HasBounds, AreBounds};
ghost use Rattle.pci_settle.specs.Ended.{ended_value, IsEndOfSettling};
ghost use Rattle.pci_settle.specs.Endings.{IsNotGrown};

use crate::bounds::{Bounds, first_without};
use crate::ended::Ended;
use crate::io::fault_of_window;
use crate::lack::SettleFault;
use crate::settle::settle_held;
use crate::told::{copy_of, first_unreached};
use pci_base::memory::Refused;
use pci_first_fit::list::Lists;
use pci_grow::growing::{Grown, growing};
use pci_kept::open_windows::open_windows;
use pci_kept::rules::Rules;
use pci_tree::admitted::Admitted;
use std::alloc::Allocator;

/// What is kept where windows grow. A bridge is named whose new window would be too large.
#[inline(never)]
fn grown_windows<A: Allocator + Copy, B: Allocator>(
    alloc: A,
    admitted: &Admitted<B>,
    lists: &Lists,
    rules: &Rules,
) -> Result<Grown<A>, Refused<SettleFault>>
    ensures grown { IfOk result (λ grown. AreGrown
        (asked_by_rules admitted.now.roots (demand_value lists.now) rules.now) (system_in admitted.now)
        (grown_value grown)) }
    ensures fault { IfErr result (IsNotGrown admitted.now
        (asked_by_rules admitted.now.roots (demand_value lists.now) rules.now)) }
{
    match growing(alloc, admitted, lists, rules) {
        Ok(grown) => Ok(grown),
        Err(Refused::Memory) => Err(Refused::Memory),
        Err(Refused::Fault(window)) => Err(Refused::Fault(fault_of_window(admitted, window))),
    }
}

/// Settles where windows grow. The fault says that this can't be done, and need not be the first one.
#[inline(never)]
pub fn settle_grown<A: Allocator + Copy, B: Allocator>(
    alloc: A,
    admitted: &Admitted<B>,
    lists: &Lists,
    rules: &Rules,
    bounds: &Bounds,
) -> Result<Ended<A>, Refused<SettleFault>>
    requires has { HasBounds bounds.now }
    requires told { bounds.now.told.ranges ≡ lists.now.told }
    requires bounds { AreBounds (asked_by_rules admitted.now.roots (demand_value lists.now) rules.now)
        (system_in admitted.now) bounds.now }
    ensures titles { IfOk result
        (λ x. map (λ b. b.title) x.settled.dump ≡ map (λ b. b.title) admitted.now.dump) }
    ensures places { IfOk result (λ x. length x.places.items ≡ length (system_in admitted.now)) }
    ensures staying { IfOk result (λ x. length x.staying.items ≡ length (system_in admitted.now)) }
    ensures told { IfOk result (λ x. length x.standing.items ≡ length lists.now.told.ranges.now) }
    ensures ends { IfOk result (λ x. IsEndOfSettling
        (asked_by_rules admitted.now.roots (demand_value lists.now) rules.now)
        (growing_kept (asked_by_rules admitted.now.roots (demand_value lists.now) rules.now)
        (system_in admitted.now)) admitted.now (ended_value x)) }
    ensures refusal { IfErr result (λ e. IsNotGrown admitted.now
        (asked_by_rules admitted.now.roots (demand_value lists.now) rules.now) e) }
{
    let outline = admitted.outline();
    let over = open_windows(outline.records(), rules.anew);
    if let Some(fault) = first_unreached(&bounds.told) {
        return Err(Refused::Fault(fault));
    }
    let grown = grown_windows(alloc, admitted, lists, rules)?;
    let stay = grown.stays.as_slice();
    // what stays stands, too
    if let Some(fault) = first_without(admitted, lists, bounds, stay) {
        return Err(Refused::Fault(fault));
    }
    let left = grown.left(&over);
    let held = settle_held(alloc, admitted, lists, bounds, &left, stay)?;
    Ok(Ended {
        settled: held.settled,
        places: held.places,
        staying: grown.stays,
        grown: grown.coming,
        standing: copy_of(alloc, bounds.told.standing)?,
    })
}
