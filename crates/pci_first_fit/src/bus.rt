//! What is placed on a bus in a class.
ghost use Rattle.std.specs.Prelude.{◌≡◌, ◌+◌, ◌<◌, ℕ, IfOk, OnOk, IsTrue, None, slice_index_or};
ghost use Rattle.std.specs.List.{All};
ghost use Rattle.pci_spec.specs.System.{Part};
ghost use Rattle.pci_spec.specs.Bus.{is_root, are_siblings};
ghost use Rattle.pci_place.specs.Above.{AreAboves, system_in};
ghost use Rattle.pci_first_fit.specs.Kept.{kept_of, nothing_kept};
ghost use Rattle.pci_first_fit.specs.Buses.{window_behind, AreWindows, listing_value, AreBelow, AreItemsOnBus, AreInTurn};
ghost use Rattle.pci_first_fit.specs.Turns.{HasExtent};

use crate::extent::Extent;
use crate::item::{Item, sort_items};
use crate::kept::Kept;
use crate::list::is_root;
use crate::listing::Listing;
use crate::over::{Over, open_over};
use crate::own::{Situation, add_items};
use pci_base::memory::OutOfMemory;
use pci_base::slot::BUSES;
use pci_function::record::Bridge;
use pci_tree::bus::first_from;
use std::alloc::Allocator;

/// The new window of a bridge, by the bus behind it.
fn window_behind(windows: &[Option<Extent>; BUSES], bridge: Option<Bridge>) -> Option<Extent>
    ensures { result ≡ window_behind windows.now bridge }
{
    match bridge {
        None => None,
        Some(bridge) => windows[bridge.secondary as usize],
    }
}

/// What of a function keeps its place, by a table that may be empty.
pub fn kept_by(table: &[Kept], function: usize) -> &Kept
    ensures { (part : Part) → kept_of result.now part
        ≡ kept_of (slice_index_or table.now function nothing_kept) part }
{
    match table.get(function) {
        Some(kept) => kept,
        None => &Kept::NONE,
    }
}

/// Adds the items of the functions on one bus, which stand in a row.
fn add_bus<A: Allocator, B: Allocator>(
    items: &mut Vec<Item, A>,
    listing: &Listing<B>,
    bus: u8,
) -> Result<(), OutOfMemory>
    requires { AreAboves (system_in listing.now.classing.now.admitted.now)
        listing.now.classing.now.aboves.now }
    // of the items of a bus, one of which this is, those on lower buses were there
    ensures { OnOk result ((on : ℕ)
        → IsTrue (are_siblings listing.now.classing.now.admitted.now.roots on bus)
        → AreBelow (listing_value listing.now on) bus items.old.items
        → AreBelow (listing_value listing.now on) (bus + 1) items.new.items) }
{
    let classing = listing.classing;
    let records = classing.admitted.outline().records();
    let probes = classing.admitted.probe().blocks();
    let over = Over {
        above: classing.aboves[bus as usize],
        windows: open_over(classing.overs, bus),
    };
    let first = first_from(records, bus as u16);
    let end = first_from(records, bus as u16 + 1);
    for function in first..end {
        let record = &records[function];
        let block = &probes[function];
        let situation = Situation {
            function,
            probe: &block.image,
            class: listing.class,
            over: &over,
            terms: classing.terms,
            window: window_behind(listing.windows, record.bridge),
            kept: kept_by(listing.kept, function),
        };
        add_items(items, record, &situation)?;
    }
    Ok(())
}

/// Adds the items of the functions on all roots.
fn add_roots<A: Allocator, B: Allocator>(
    items: &mut Vec<Item, A>,
    listing: &Listing<B>,
) -> Result<(), OutOfMemory>
    requires { AreAboves (system_in listing.now.classing.now.admitted.now)
        listing.now.classing.now.aboves.now }
    ensures { OnOk result ((on : ℕ)
        → IsTrue (is_root listing.now.classing.now.admitted.now.roots on)
        → AreBelow (listing_value listing.now on) 0 items.old.items
        → AreBelow (listing_value listing.now on) 256 items.new.items) }
{
    let roots = listing.classing.admitted.outline().roots();
    for bus in 0..BUSES {
        let bus = bus as u8;
        if is_root(&roots, bus) {
            add_bus(items, listing, bus)?;
        }
    }
    Ok(())
}

/// The items of a bus in a class, in slot and register order; what keeps its place is no item. All roots are one bus.
pub fn items_on<A: Allocator, B: Allocator>(
    alloc: A,
    listing: &Listing<B>,
    bus: u8,
) -> Result<Vec<Item, A>, OutOfMemory>
    // which windows lead to a BAR decides its class
    requires { AreAboves (system_in listing.now.classing.now.admitted.now)
        listing.now.classing.now.aboves.now }
    ensures items { IfOk result (λ items. AreItemsOnBus (listing_value listing.now bus) items.items) }
    // a window around them is laid out from what has addresses and alignments
    ensures lawful { AreWindows listing.now.windows.now → IfOk result (λ items. All HasExtent items.items) }
{
    let mut items = Vec::new(alloc);
    if is_root(&listing.classing.admitted.outline().roots(), bus) {
        add_roots(&mut items, listing)?;
    } else {
        add_bus(&mut items, listing, bus)?;
    }
    Ok(items)
}

/// The items of a bus in a class in the order in which they are placed; what keeps its place is no item.
pub fn items_in_turn<A: Allocator + Copy, B: Allocator>(
    alloc: A,
    listing: &Listing<B>,
    bus: u8,
) -> Result<Vec<Item, A>, OutOfMemory>
    // which windows lead to a BAR decides its class
    requires { AreAboves (system_in listing.now.classing.now.admitted.now)
        listing.now.classing.now.aboves.now }
    ensures turn { IfOk result (λ items. AreInTurn (listing_value listing.now bus) items.items) }
    // places are looked for by sizes and alignments
    ensures lawful { AreWindows listing.now.windows.now → IfOk result (λ items. All HasExtent items.items) }
{
    let mut items = items_on(alloc, listing, bus)?;
    sort_items(&mut items)?;
    Ok(items)
}
