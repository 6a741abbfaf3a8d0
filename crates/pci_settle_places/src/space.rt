//! The places of all items of a space, bus by bus.
ghost use Rattle.std.specs.Prelude.{◌≡◌, ◌<◌, IfOk, OnOk, IsFalse, length};
ghost use Rattle.pci_spec.specs.Bus.{is_root};
ghost use Rattle.pci_base.specs.Space.{space_of};
ghost use Rattle.pci_tree.specs.Roots.{buses_of};
ghost use Rattle.pci_place.specs.Above.{AreAboves, system_in};
ghost use Rattle.pci_first_fit.specs.Lists.{lists_value};
ghost use Rattle.pci_first_fit.specs.Slots.{demand_value};
ghost use Rattle.pci_first_fit.specs.Own.{AreTerms};
ghost use Rattle.pci_kept.specs.Held.{AreByLevel};
ghost use Rattle.pci_first_fit.specs.Lines.{AreLineRows};
ghost use Rattle.pci_settle_places.specs.Stretches.{AreStretches};
ghost use Rattle.pci_settle_places.specs.Candidates.{AreSpaceWindows, HasWindowsIn, KnowsWindows, KnowsRequest, pass_value};
ghost use Rattle.pci_settle_places.specs.BusPlaces.{AreToldEnding};
ghost use Rattle.pci_settle_places.specs.Spaces.{grown_by, IsFirstRoot, AreNotedOnRoots, AreNotedBehind, HasNoPlaceInSpace, KeepsOtherSpace, AreSpacePlacesIn};
ghost use Rattle.pci_settle_places.specs.Staying.{place_setting_value};

use crate::bus::place_bus;
use crate::candidate::Candidate;
use crate::column::{add_column, column_behind, root_lists};
use crate::places::{Places, note_bus};
use crate::setting::Pass;
use crate::window::{BridgeWindows, plain_window, prefetch_window};
use pci_base::memory::OutOfMemory;
use pci_base::slot::BUSES;
use pci_first_fit::bus::kept_by;
use pci_first_fit::list::{Lists, is_root};
use pci_first_fit::table::{UNTOLD, ranges_told};
use pci_function::record::Bridge;
use pci_tree::roots::Roots;
use std::alloc::Allocator;

/// The lowest root bus.
fn first_root(roots: &Roots) -> Option<u8>
    ensures { IsFirstRoot (buses_of roots.now) result }
{
    for bus in 0..BUSES {
        let bus = bus as u8;
        if is_root(roots, bus) {
            return Some(bus);
        }
    }
    None
}

/// Places what is on the roots: each item in the ranges that its own root has, off what stays on the roots and those
/// before it. Notes it where all has a place; the answer is the first item that has none.
fn place_on_roots<A: Allocator + Copy, B: Allocator>(
    alloc: A,
    pass: &Pass<B>,
    lists: &Lists,
    table: &mut [Places],
) -> Result<Option<Candidate>, OutOfMemory>
    requires above { AreAboves (system_in pass.now.setting.now.admitted.now)
        pass.now.setting.now.aboves.now }
    requires terms { AreTerms (demand_value lists.now) pass.now.setting.now.terms }
    requires held { AreByLevel pass.now.setting.now.staying.held.now }
    requires lines { AreLineRows pass.now.setting.now.staying.lines.now }
    requires stretches { AreStretches pass.now.setting.now.staying.lines.now pass.now.setting.now.staying.stretches.now }
    requires lawful { AreSpaceWindows pass.now.windows.now }
    requires known { KnowsWindows (pass_value pass.now) }
    requires count { length table.old ≡ length (system_in pass.now.setting.now.admitted.now) }
    ensures noted { IfOk result (AreNotedOnRoots (pass_value pass.now)
        (lists_value lists.now) table.old table.new) }
{
    let outline = pass.setting.admitted.outline();
    let roots = outline.roots();
    let Some(root) = first_root(&roots) else {
        return Ok(None);
    };
    let all = root_lists(alloc, &roots, pass.space, lists)?;
    let columns = all.as_slice();
    // no window is over a root
    let places = place_bus(alloc, pass, root, columns, &UNTOLD)?;
    Ok(note_bus(&places, table))
}

/// Places what is on the bus behind a bridge in the windows that the bridge keeps or has in the table, or where that is told,
/// and notes it.
fn place_behind<A: Allocator + Copy, B: Allocator>(
    alloc: A,
    pass: &Pass<B>,
    function: usize,
    bridge: &Bridge,
    table: &mut [Places],
) -> Result<(), OutOfMemory>
    requires function { function < length table.old }
    // on a root items have lists of their own
    requires behind { IsFalse (is_root pass.now.setting.now.admitted.now.roots bridge.now.secondary) }
    requires above { AreAboves (system_in pass.now.setting.now.admitted.now)
        pass.now.setting.now.aboves.now }
    requires held { AreByLevel pass.now.setting.now.staying.held.now }
    requires lines { AreLineRows pass.now.setting.now.staying.lines.now }
    requires stretches { AreStretches pass.now.setting.now.staying.lines.now pass.now.setting.now.staying.stretches.now }
    requires lawful { AreSpaceWindows pass.now.windows.now }
    requires known { KnowsWindows (pass_value pass.now) }
    requires count { length table.old ≡ length (system_in pass.now.setting.now.admitted.now) }
    // the places that are told end in 64 bits
    requires ending { AreToldEnding (pass_value pass.now) bridge.now.secondary
        (grown_by pass.now.setting.now.staying function) }
    ensures noted { OnOk result (AreNotedBehind (pass_value pass.now)
        function bridge.now table.old table.new) }
{
    let places = &table[function];
    let setting = pass.setting;
    let left = setting.staying.left;
    let grown = ranges_told(left.grown, function);
    let staying = BridgeWindows {
        kept: kept_by(left.kept, function),
        grown,
    };
    let column = column_behind(
        alloc,
        plain_window(&staying, bridge, places, pass.space),
        prefetch_window(&staying, bridge, places, pass.space),
    )?;
    let mut lists = Vec::new(alloc);
    add_column(&mut lists, column)?;
    let places = place_bus(alloc, pass, bridge.secondary, lists.as_slice(), grown)?;
    // in a window that stays or is new all that is behind it has a place
    note_bus(&places, table);
    Ok(())
}

/// Places all in a space that doesn't stay, and notes it in `table`. What is behind a bridge has higher
/// slots than the bridge, so one pass in slot order finds the places of a bridge's windows before what is in them.
///
/// The answer is None where all on the roots has a place, else the first that has none.
pub fn place_space<A: Allocator + Copy, B: Allocator>(
    alloc: A,
    pass: &Pass<B>,
    lists: &Lists,
    table: &mut [Places],
) -> Result<Option<Candidate>, OutOfMemory>
    // which windows lead to a BAR decides its class
    requires above { AreAboves (system_in pass.now.setting.now.admitted.now)
        pass.now.setting.now.aboves.now }
    // whether prefetchable memory may lie above 4 GB is told by the lists
    requires terms { AreTerms (demand_value lists.now) pass.now.setting.now.terms }
    // what stays on a bus, and what lines hold there, is found by halving
    requires held { AreByLevel pass.now.setting.now.staying.held.now }
    requires lines { AreLineRows pass.now.setting.now.staying.lines.now }
    requires stretches { AreStretches pass.now.setting.now.staying.lines.now pass.now.setting.now.staying.stretches.now }
    // places are looked for by sizes and alignments
    requires lawful { AreSpaceWindows pass.now.windows.now }
    // a new window is as large as what is behind it, which is worked out before
    requires windows { HasWindowsIn (pass_value pass.now) }
    // what stays is worked out before, for the same lists
    requires known { KnowsRequest (place_setting_value pass.now.setting.now) (lists_value lists.now) }
    // a function's places stand where its record does
    requires count { length table.old ≡ length (system_in pass.now.setting.now.admitted.now) }
    // what isn't placed keeps its entry, which is none
    requires none { HasNoPlaceInSpace (system_in pass.now.setting.now.admitted.now) (space_of pass.now.space)
        table.old }
    ensures placed { IfOk result (AreSpacePlacesIn (pass_value pass.now)
        (lists_value lists.now) table.new) }
    // both spaces are placed in one table
    ensures others { OnOk result (KeepsOtherSpace (system_in pass.now.setting.now.admitted.now)
        (space_of pass.now.space) table.old table.new) }
{
    let outline = pass.setting.admitted.outline();
    let records = outline.records();
    let lack = place_on_roots(alloc, pass, lists, table)?;
    if lack.is_some() {
        return Ok(lack);
    }
    for function in 0..records.len() {
        if let Some(bridge) = &records[function].bridge {
            place_behind(alloc, pass, function, bridge, table)?;
        }
    }
    Ok(None)
}
