//! What has no place in I/O, where new windows of memory are too large to tell what stays in a window of all addresses.
ghost use Rattle.std.specs.Prelude.{◌≡◌, ◌==◌, ◌&&◌, [], None, IfOk, IfErr, OnOk, length};
ghost use Rattle.pci_spec.specs.Window.{IoWindow};
ghost use Rattle.pci_spec.specs.System.{Io};
ghost use Rattle.plan_spec.specs.Plan.{same_class};
ghost use Rattle.settle_spec.specs.Kept.{as_it_stands};
ghost use Rattle.pci_base.specs.WindowKinds.{kind_value};
ghost use Rattle.pci_place.specs.Above.{system_in};
ghost use Rattle.pci_first_fit.specs.Slots.{demand_value};
ghost use Rattle.pci_settle_places.specs.Spaces.{space_lack};
ghost use Rattle.pci_kept.specs.Known.{asked_by_rules};
ghost use Rattle.pci_kept.specs.Staying.{AreStaying, asked_in_io};
ghost use Rattle.pci_settle.specs.Lacks.{IsOfSystem, IsSettleFaultOf, too_large, unplaced_class};
ghost use Rattle.pci_settle.specs.Endings.{IsLack, IsLargeInIo, IsUnfixedLack};

use crate::lack::{SettleFault, fault_of};
use pci_base::memory::Refused;
use pci_base::slot::Slot;
use pci_base::window_kind::WindowKind;
use pci_first_fit::kept::Kept;
use pci_first_fit::list::Lists;
use pci_first_fit::over::Left;
use pci_kept::open_windows::open_windows;
use pci_kept::rules::Rules;
use pci_kept::staying::staying_in_io;
use pci_kept::windows::TooLarge;
use pci_settle_places::anew::Unplaced;
use pci_settle_places::place::place;
use pci_tree::admitted::Admitted;
use std::alloc::Allocator;

/// The fault of a bridge whose new window is too large.
pub fn fault_of_window<A: Allocator>(admitted: &Admitted<A>, window: TooLarge) -> SettleFault
    // the fault names a function that is there
    requires { IsOfSystem (system_in admitted.now) (too_large window) }
    ensures { IsSettleFaultOf (system_in admitted.now) (too_large window) result }
{
    let unplaced = Unplaced::TooLarge {
        class: window.class,
        function: window.function,
    };
    fault_of(admitted, unplaced)
}

/// Which parts of I/O stay.
fn io_staying<A: Allocator + Copy, B: Allocator>(
    alloc: A,
    admitted: &Admitted<B>,
    lists: &Lists,
    rules: &Rules,
) -> Result<Vec<Kept, A>, Refused<SettleFault>>
    ensures stay { IfOk result (λ table. AreStaying
        (asked_in_io admitted.now.roots (demand_value lists.now) rules.now) (system_in admitted.now)
        table.items) }
    ensures fault { IfErr result (IsLargeInIo admitted.now
        (asked_in_io admitted.now.roots (demand_value lists.now) rules.now)) }
{
    match staying_in_io(alloc, admitted, lists, rules) {
        Ok(table) => Ok(table),
        Err(Refused::Memory) => Err(Refused::Memory),
        Err(Refused::Fault(window)) => Err(Refused::Fault(fault_of_window(admitted, window))),
    }
}

/// Whether what can't be placed is of I/O.
fn is_of_io(unplaced: Unplaced) -> bool
    ensures { result ≡ same_class (kind_value (unplaced_class unplaced)) IoWindow }
{
    let class = match unplaced {
        Unplaced::Lacks(candidate) => candidate.class,
        Unplaced::TooLarge { class, function: _ } => class,
    };
    class == WindowKind::Io
}

/// Whether all of I/O has its place on the roots, or the fault where something has none. The lists of memory are left out: what
/// has a place in I/O hangs on none of them, and without them no part in memory stands.
#[inline(never)]
fn place_io<A: Allocator + Copy, B: Allocator>(
    alloc: A,
    admitted: &Admitted<B>,
    lists: &Lists,
    rules: &Rules,
) -> Result<(), Refused<SettleFault>>
    ensures room { OnOk result (space_lack
        (asked_by_rules admitted.now.roots (demand_value lists.now) rules.now) (system_in admitted.now)
        (as_it_stands (asked_by_rules admitted.now.roots (demand_value lists.now) rules.now)
        (system_in admitted.now)) Io admitted.now.roots ≡ None) }
    ensures fault { IfErr result (IsLack admitted.now
        (asked_by_rules admitted.now.roots (demand_value lists.now) rules.now)
        (as_it_stands (asked_by_rules admitted.now.roots (demand_value lists.now) rules.now)
        (system_in admitted.now))) }
{
    let outline = admitted.outline();
    let table = io_staying(alloc, admitted, lists, rules)?;
    let over = open_windows(outline.records(), rules.anew);
    let left = Left {
        over: &over,
        kept: table.as_slice(),
        grown: &[],
        places: &[],
    };
    match place(alloc, admitted, &lists.io_alone(), &left) {
        Ok(_) => Ok(()),
        Err(Refused::Memory) => Err(Refused::Memory),
        Err(Refused::Fault(unplaced)) => {
            if is_of_io(unplaced) {
                return Err(Refused::Fault(fault_of(admitted, unplaced)));
            }
            Ok(())
        }
    }
}

/// Whether nothing is told and nothing is fixed.
fn is_free(lists: &Lists, fixed: &[Slot]) -> bool
    ensures { result ≡ (length fixed.now == 0 && length lists.now.told.ranges.now == 0) }
{
    fixed.is_empty() && lists.told.as_slice().is_empty()
}

/// Where nothing is fixed or told, what has no place in I/O is the fault. Where something is, what of it doesn't stay would come
/// before, and isn't known.
pub fn place_io_unfixed<A: Allocator + Copy, B: Allocator>(
    alloc: A,
    admitted: &Admitted<B>,
    lists: &Lists,
    rules: &Rules,
) -> Result<(), Refused<SettleFault>>
    ensures room { OnOk result (rules.now.fixed.now ≡ [] → lists.now.told.ranges.now ≡ [] → space_lack
        (asked_by_rules admitted.now.roots (demand_value lists.now) rules.now) (system_in admitted.now)
        (as_it_stands (asked_by_rules admitted.now.roots (demand_value lists.now) rules.now)
        (system_in admitted.now)) Io admitted.now.roots ≡ None) }
    ensures fault { IfErr result (IsUnfixedLack admitted.now
        (asked_by_rules admitted.now.roots (demand_value lists.now) rules.now)) }
{
    if !is_free(lists, rules.fixed) {
        return Ok(());
    }
    place_io(alloc, admitted, lists, rules)?;
    Ok(())
}
