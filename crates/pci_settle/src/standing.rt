//! Settling where no window grows: where all is placed anew, and beside what stays as it stands.
ghost use Rattle.std.specs.Prelude.{◌≡◌, [], IsTrue, IfOk, IfErr, length, map};
ghost use Rattle.settle_spec.specs.Lists.{Request};
ghost use Rattle.settle_spec.specs.Kept.{as_it_stands};
ghost use Rattle.pci_place.specs.Above.{system_in};
ghost use Rattle.pci_first_fit.specs.Slots.{demand_value};
ghost use Rattle.pci_kept.specs.Flags.{AreFlags};
ghost use Rattle.pci_kept.specs.Known.{asked_by_rules};
ghost use Rattle.pci_kept.specs.Staying.{AreStaying};
ghost use Rattle.pci_settle.specs.Requests.{IsAskedOf, CanStay};
ghost use Rattle.pci_settle.specs.Bounded.{HasBounds, AreBounds};
ghost use Rattle.pci_settle.specs.Ended.{ended_value, IsEndOfSettling};
ghost use Rattle.pci_settle.specs.Endings.{IsTooLargeAsked, IsEndedBy, kept_after, IsEndedAfter};

use crate::bounds::{Bounds, first_without};
use crate::ended::Ended;
use crate::fixed::fixed_without;
use crate::io::{fault_of_window, place_io_unfixed};
use crate::lack::SettleFault;
use crate::settle::settle_held;
use crate::told::{Told, copy_of, first_unreached};
use pci_base::memory::Refused;
use pci_first_fit::kept::{Kept, nothing_kept};
use pci_first_fit::list::Lists;
use pci_first_fit::over::Left;
use pci_kept::open_windows::open_windows;
use pci_kept::pass::standing;
use pci_kept::rules::Rules;
use pci_kept::staying::staying;
use pci_tree::admitted::Admitted;
use std::alloc::Allocator;

/// Settles where all is placed anew, so that no window grows.
#[inline(never)]
pub fn settle_all<A: Allocator + Copy, B: Allocator>(
    alloc: A,
    admitted: &Admitted<B>,
    lists: &Lists,
    fixed: &[bool],
) -> Result<Ended<A>, Refused<SettleFault>>
    requires flags { length fixed.now ≡ 65536 }
    // else told ranges and the windows over them stand
    requires untold { lists.now.told.ranges.now ≡ [] }
    ensures titles { IfOk result
        (λ x. map (λ b. b.title) x.settled.dump ≡ map (λ b. b.title) admitted.now.dump) }
    ensures places { IfOk result (λ x. length x.places.items ≡ length (system_in admitted.now)) }
    ensures staying { IfOk result (λ x. length x.staying.items ≡ length (system_in admitted.now)) }
    ensures told { IfOk result (λ x. length x.standing.items ≡ length lists.now.told.ranges.now) }
    ensures ends { IfOk result (λ x. (q : Request)
        → IsAskedOf q admitted.now.roots (demand_value lists.now)
        → IsTrue q.anew
        → AreFlags q.fixed fixed.now
        → IsEndOfSettling q (kept_after q (system_in admitted.now)) admitted.now (ended_value x)) }
    ensures refusal { IfErr result (λ e. (q : Request)
        → IsAskedOf q admitted.now.roots (demand_value lists.now)
        → IsTrue q.anew
        → AreFlags q.fixed fixed.now → IsEndedAfter admitted.now q e) }
{
    let outline = admitted.outline();
    let none = nothing_kept(alloc, outline.records().len())?;
    let kept = none.as_slice();
    // what doesn't stand doesn't stay
    if let Some(fault) = fixed_without(admitted, lists, fixed, kept) {
        return Err(Refused::Fault(fault));
    }
    let left = Left {
        over: &[],
        kept: &[],
        grown: &[],
        places: &[],
    };
    let bounds = Bounds {
        fixed,
        told: Told {
            ranges: lists.told,
            lines: &[],
            standing: &[],
        },
    };
    let held = settle_held(alloc, admitted, lists, &bounds, &left, kept)?;
    Ok(Ended {
        settled: held.settled,
        places: held.places,
        staying: none,
        grown: Vec::new(alloc),
        standing: Vec::new(alloc),
    })
}

/// Which parts stay where no window grows. Beside an open window of all addresses the bridge is named whose new window would be
/// too large; where nothing is fixed or told, what has no place in I/O is named before.
#[inline(never)]
fn staying_parts<A: Allocator + Copy, B: Allocator>(
    alloc: A,
    admitted: &Admitted<B>,
    lists: &Lists,
    rules: &Rules,
) -> Result<Vec<Kept, A>, Refused<SettleFault>>
    ensures stay { IfOk result (λ table. AreStaying
        (asked_by_rules admitted.now.roots (demand_value lists.now) rules.now) (system_in admitted.now)
        table.items) }
    ensures fault { IfErr result (IsTooLargeAsked admitted.now
        (asked_by_rules admitted.now.roots (demand_value lists.now) rules.now)) }
{
    match staying(alloc, admitted, lists, rules) {
        Ok(table) => Ok(table),
        Err(Refused::Memory) => Err(Refused::Memory),
        Err(Refused::Fault(window)) => {
            place_io_unfixed(alloc, admitted, lists, rules)?;
            Err(Refused::Fault(fault_of_window(admitted, window)))
        }
    }
}

/// Settles beside what stays as it stands: no window grows.
#[inline(never)]
pub fn settle_standing<A: Allocator + Copy, B: Allocator>(
    alloc: A,
    admitted: &Admitted<B>,
    lists: &Lists,
    rules: &Rules,
    bounds: &Bounds,
) -> Result<Ended<A>, Refused<SettleFault>>
    requires has { HasBounds bounds.now }
    requires told { bounds.now.told.ranges ≡ lists.now.told }
    requires bounds { AreBounds (asked_by_rules admitted.now.roots (demand_value lists.now) rules.now)
        (system_in admitted.now) bounds.now }
    // else `settle_all` settles
    requires rest { CanStay (asked_by_rules admitted.now.roots (demand_value lists.now) rules.now) }
    ensures titles { IfOk result
        (λ x. map (λ b. b.title) x.settled.dump ≡ map (λ b. b.title) admitted.now.dump) }
    ensures places { IfOk result (λ x. length x.places.items ≡ length (system_in admitted.now)) }
    ensures staying { IfOk result (λ x. length x.staying.items ≡ length (system_in admitted.now)) }
    ensures told { IfOk result (λ x. length x.standing.items ≡ length lists.now.told.ranges.now) }
    ensures ends { IfOk result (λ x. IsEndOfSettling
        (asked_by_rules admitted.now.roots (demand_value lists.now) rules.now)
        (as_it_stands (asked_by_rules admitted.now.roots (demand_value lists.now) rules.now)
        (system_in admitted.now)) admitted.now (ended_value x)) }
    ensures refusal { IfErr result (λ e. IsEndedBy admitted.now
        (asked_by_rules admitted.now.roots (demand_value lists.now) rules.now)
        (as_it_stands (asked_by_rules admitted.now.roots (demand_value lists.now) rules.now)
        (system_in admitted.now)) e) }
{
    let outline = admitted.outline();
    let over = open_windows(outline.records(), rules.anew);
    if let Some(fault) = first_unreached(&bounds.told) {
        return Err(Refused::Fault(fault));
    }
    let stand = standing(alloc, admitted, lists, rules)?;
    if let Some(fault) = fixed_without(admitted, lists, bounds.fixed, stand.as_slice()) {
        return Err(Refused::Fault(fault));
    }
    let table = staying_parts(alloc, admitted, lists, rules)?;
    let stay = table.as_slice();
    if let Some(fault) = first_without(admitted, lists, bounds, stay) {
        return Err(Refused::Fault(fault));
    }
    let left = Left {
        over: &over,
        kept: stay,
        grown: &[],
        places: &[],
    };
    let held = settle_held(alloc, admitted, lists, bounds, &left, stay)?;
    Ok(Ended {
        settled: held.settled,
        places: held.places,
        staying: table,
        grown: Vec::new(alloc),
        standing: copy_of(alloc, bounds.told.standing)?,
    })
}
