//! Whether a window has room for what is behind it.
ghost use Rattle.std.specs.Prelude.{◌≡◌, Bool, IfOk, length, map};
ghost use Rattle.std.specs.List.{All};
ghost use Rattle.std.specs.List.Sorted.{IsNonDecreasingBy};
ghost use Rattle.pci_spec.specs.System.{Function};
ghost use Rattle.settle_spec.specs.Lists.{Request};
ghost use Rattle.settle_spec.specs.Parts.{FunctionPart as RegionValue};
ghost use Rattle.settle_spec.specs.Items.{has_places};
ghost use Rattle.pci_base.specs.WindowKinds.{kind_value};
ghost use Rattle.pci_place.specs.Above.{AreAboves, system_in};
ghost use Rattle.pci_first_fit.specs.Buses.{AreWindows, listing_value};
ghost use Rattle.pci_first_fit.specs.Lines.{AreLineRows};
ghost use Rattle.pci_kept.specs.Passing.{CanBeNoted};
ghost use Rattle.pci_kept.specs.Rooms.{region_bus, wanted_value, IsRoomOf};

use crate::behind::behind_each;
use crate::taken_on::{Takers, taken_on};
use pci_base::memory::OutOfMemory;
use pci_base::range::Range;
use pci_base::space::Space;
use pci_first_fit::bus::items_in_turn;
use pci_first_fit::item::Item;
use pci_first_fit::listing::Listing;
use pci_first_fit::placing::{Search, Wanted, place_all};
use std::alloc::Allocator;

/// What is wanted for each item: its extent in the one list.
fn wanted_of<A: Allocator>(alloc: A, items: &[Item]) -> Result<Vec<Wanted, A>, OutOfMemory>
    ensures { IfOk result (λ wanted. wanted.items ≡ map wanted_value items.now) }
{
    let mut wanted = Vec::new(alloc);
    for item in items {
        wanted.push(Wanted {
            extent: item.extent,
            list: 0,
            at: None,
        })?;
    }
    Ok(wanted)
}

/// Whether a window has a place for each item on the bus behind it that doesn't keep its place: off those that do, and off
/// told ranges, also off those behind a new window.
pub fn has_places<A: Allocator + Copy, B: Allocator>(
    alloc: A,
    listing: &Listing<B>,
    bus: u8,
    range: Range,
    takers: &Takers,
) -> Result<bool, OutOfMemory>
    // which windows lead to a BAR decides its class
    requires above { AreAboves (system_in listing.now.classing.now.admitted.now)
        listing.now.classing.now.aboves.now }
    // places are looked for by sizes and alignments
    requires lawful { AreWindows listing.now.windows.now }
    // the parts of a bus stand in a row, whose ends are found by halving
    requires order { IsNonDecreasingBy region_bus takers.now.regions.now }
    // so do the told ranges of a bus
    requires lines { AreLineRows takers.now.lines.now }
    // each part names a function that the table has
    requires ready { All (CanBeNoted (length listing.now.kept.now)) takers.now.regions.now }
    ensures { IfOk result (λ room. (q : Request) → (keeps : RegionValue → Bool) → (b : Function)
        → IsRoomOf (listing_value listing.now bus) takers.now.regions.now takers.now.lines.now range
        q keeps b
        → room ≡ has_places q (system_in listing.now.classing.now.admitted.now) keeps b
        (kind_value listing.now.class)) }
{
    let items = items_in_turn(alloc, listing, bus)?;
    let wanted = wanted_of(alloc, items.as_slice())?;
    let mut places = vec![in alloc; 0; wanted.len()]?;
    let space = Space::of(listing.class);
    let mut taken = taken_on(alloc, takers, bus, space, listing.kept)?;
    let records = listing.classing.admitted.outline().records();
    let behind = behind_each(
        alloc,
        records,
        takers.lines,
        listing.class,
        items.as_slice(),
    )?;
    let mut window = Vec::new(alloc);
    window.push(range)?;
    let mut lists = Vec::new(alloc);
    lists.push(window)?;
    let search = Search {
        lists: lists.as_slice(),
        behind: behind.as_slice(),
    };
    let lack = place_all(
        alloc,
        &search,
        &mut taken,
        wanted.as_slice(),
        places.as_mut_slice(),
    )?;
    Ok(lack.is_none())
}
