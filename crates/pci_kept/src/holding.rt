//! Which parts hold: those that stand, with room for what is behind them.
ghost use Rattle.std.specs.Prelude.{◌≡◌, ◌+◌, ◌<◌, Some, IfOk, OnOk, length, slice_get};
ghost use Rattle.std.specs.List.{All};
ghost use Rattle.std.specs.List.Sorted.{IsNonDecreasingBy};
ghost use Rattle.pci_spec.specs.System.{Function};
ghost use Rattle.settle_spec.specs.Lists.{Request};
ghost use Rattle.pci_base.specs.WindowKinds.{kind_value};
ghost use Rattle.pci_place.specs.Above.{AreAboves, system_in};
ghost use Rattle.pci_first_fit.specs.Buses.{classing_value};
ghost use Rattle.pci_first_fit.specs.Lines.{AreLineRows};
ghost use Rattle.pci_kept.specs.Passing.{CanBeNoted, AreStanding};
ghost use Rattle.pci_kept.specs.Windows.{AreAllLawful};
ghost use Rattle.pci_kept.specs.Rooms.{region_bus};
ghost use Rattle.pci_kept.specs.Holding.{IsAsking, IsHeldFrom, IsWindowHolding, AreHolding};

use super::region::Region;
use crate::room::has_places;
use crate::taken_on::Takers;
use pci_base::memory::OutOfMemory;
use pci_base::slot::BUSES;
use pci_base::window_kind::{ByKind, WindowKind};
use pci_first_fit::extent::Extent;
use pci_first_fit::kept::Kept;
use pci_first_fit::lines::Line;
use pci_first_fit::listing::{Classing, Listing};
use pci_first_fit::over::open_range;
use std::alloc::Allocator;

/// What is behind windows.
#[derive(Drop)]
pub struct Behind<'a, 's, 'b, 'r, 'l, B: Allocator> {
    /// What the classes of BARs are told by.
    pub classing: &'b Classing<'a, 's, B>,
    /// The new windows over each bus, by class.
    pub windows: &'b ByKind<[Option<Extent>; BUSES]>,
    /// The parts of all functions, by rising slots.
    pub regions: &'r [Region],
    /// All told ranges, by rising levels of their buses.
    pub lines: &'l [Line],
}

/// Whether a window of a function stands, and has a place for each item behind it that doesn't keep its place.
fn window_holds<A: Allocator + Copy, B: Allocator>(
    alloc: A,
    behind: &Behind<B>,
    function: usize,
    class: WindowKind,
    table: &[Kept],
) -> Result<bool, OutOfMemory>
    requires above { AreAboves (system_in behind.now.classing.now.admitted.now)
        behind.now.classing.now.aboves.now }
    requires lawful { AreAllLawful behind.now.windows.now }
    requires order { IsNonDecreasingBy region_bus behind.now.regions.now }
    requires lines { AreLineRows behind.now.lines.now }
    requires ready { All (CanBeNoted (length table.now)) behind.now.regions.now }
    requires function { function < length table.now }
    requires count { length table.now ≡ length (system_in behind.now.classing.now.admitted.now) }
    ensures { IfOk result (λ holds. (q : Request) → (f : Function)
        → IsAsking (classing_value behind.now.classing.now) behind.now.windows.now
        behind.now.regions.now behind.now.lines.now q
        → slice_get (system_in behind.now.classing.now.admitted.now) function ≡ Some f
        → IsHeldFrom q (system_in behind.now.classing.now.admitted.now) table.now (function + 1)
        → IsWindowHolding q (system_in behind.now.classing.now.admitted.now) table.now f
        (kind_value class) holds) }
{
    if !table[function].window(class) {
        return Ok(false);
    }
    let records = behind.classing.admitted.outline().records();
    let Some(bridge) = &records[function].bridge else {
        return Ok(false);
    };
    let Some(range) = open_range(&bridge.windows, class) else {
        return Ok(false);
    };
    let listing = Listing {
        classing: behind.classing,
        class,
        windows: behind.windows.get(class),
        kept: table,
    };
    let takers = Takers {
        regions: behind.regions,
        lines: behind.lines,
    };
    let room = has_places(alloc, &listing, bridge.secondary, range, &takers)?;
    Ok(room)
}

/// Notes which windows of a bridge hold, where it is noted of all that is behind it.
fn hold_bridge<A: Allocator + Copy, B: Allocator>(
    alloc: A,
    behind: &Behind<B>,
    function: usize,
    table: &mut [Kept],
) -> Result<(), OutOfMemory>
    requires above { AreAboves (system_in behind.now.classing.now.admitted.now)
        behind.now.classing.now.aboves.now }
    requires lawful { AreAllLawful behind.now.windows.now }
    requires order { IsNonDecreasingBy region_bus behind.now.regions.now }
    requires lines { AreLineRows behind.now.lines.now }
    requires ready { All (CanBeNoted (length table.old)) behind.now.regions.now }
    requires function { function < length table.old }
    requires count { length table.old ≡ length (system_in behind.now.classing.now.admitted.now) }
    ensures { OnOk result ((q : Request) → (f : Function)
        → IsAsking (classing_value behind.now.classing.now) behind.now.windows.now
        behind.now.regions.now behind.now.lines.now q
        → slice_get (system_in behind.now.classing.now.admitted.now) function ≡ Some f
        → IsHeldFrom q (system_in behind.now.classing.now.admitted.now) table.old (function + 1)
        → IsHeldFrom q (system_in behind.now.classing.now.admitted.now) table.new function) }
{
    let io = window_holds(alloc, behind, function, WindowKind::Io, table)?;
    let memory = window_holds(alloc, behind, function, WindowKind::Memory, table)?;
    let prefetchable = window_holds(alloc, behind, function, WindowKind::Prefetchable, table)?;
    table[function].windows = ByKind {
        io,
        memory,
        prefetchable,
    };
    Ok(())
}

/// Notes in a table of what stands what holds. What is behind a bridge has higher slots than the bridge, so one pass from
/// the highest slot down notes it before the windows of the bridge are looked at.
pub fn hold_all<A: Allocator + Copy, B: Allocator>(
    alloc: A,
    behind: &Behind<B>,
    table: &mut [Kept],
) -> Result<(), OutOfMemory>
    // which windows lead to a BAR decides its class
    requires above { AreAboves (system_in behind.now.classing.now.admitted.now)
        behind.now.classing.now.aboves.now }
    // places are looked for by sizes and alignments
    requires lawful { AreAllLawful behind.now.windows.now }
    // the parts of a bus stand in a row, whose ends are found by halving
    requires order { IsNonDecreasingBy region_bus behind.now.regions.now }
    // so do the told ranges of a bus
    requires lines { AreLineRows behind.now.lines.now }
    // each part names a function that the table has
    requires ready { All (CanBeNoted (length table.old)) behind.now.regions.now }
    // a function's entry stands where its record does
    requires count { length table.old ≡ length (system_in behind.now.classing.now.admitted.now) }
    ensures { OnOk result ((q : Request)
        → IsAsking (classing_value behind.now.classing.now) behind.now.windows.now
        behind.now.regions.now behind.now.lines.now q
        → AreStanding q (system_in behind.now.classing.now.admitted.now) table.old
        → AreHolding q (system_in behind.now.classing.now.admitted.now) table.new) }
{
    let records = behind.classing.admitted.outline().records();
    for done in 0..records.len() {
        let function = records.len() - 1 - done;
        if records[function].bridge.is_some() {
            hold_bridge(alloc, behind, function, table)?;
        }
    }
    Ok(())
}
