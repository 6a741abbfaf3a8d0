//! How large a new window is: as large as what is in it, raised to a page. Over a slot it has a spare behind its items.
ghost use Rattle.std.specs.Prelude.{◌<◌, ◌≤◌, ◌+◌, ◌^◌, IfOk, IfSome, SomeIff, [], ◌∷◌, map, max, min, length, ◌≡◌};
ghost use Rattle.std.specs.List.{All, AllPairs};
ghost use Rattle.std.specs.List.Sorted.{IsPermutation};
ghost use Rattle.pci_spec.specs.Window.{page_size};
ghost use Rattle.plan_spec.specs.Plan.{greatest};
ghost use Rattle.settle_spec.specs.FirstPlace.{least_number};
ghost use Rattle.settle_spec.specs.Spares.{spare_extent, with_spare};
ghost use Rattle.settle_spec.specs.Items.{PlacingItem as ItemValue, in_turn, laid_out, end_of as end_behind, extent_around};
ghost use Rattle.settle_spec.specs.PlacingLaws.{HasLowerRank};
ghost use Rattle.pci_base.specs.WindowKinds.{kind_value};
ghost use Rattle.pci_first_fit.specs.Spots.{extent_value, IsExtent, AreRisingRanges};
ghost use Rattle.pci_first_fit.specs.Placings.{item_extent};
ghost use Rattle.pci_first_fit.specs.Slots.{spare_by};
ghost use Rattle.pci_first_fit.specs.Turns.{extent_of_item, HasExtent, IsValued};
ghost use Rattle.pci_first_fit.specs.Windows.{laid_last, IsLaidBy, alignments, highests, IsAround, IsSpareAdded};

use crate::extent::Extent;
use crate::item::{Item, sort_items};
use crate::spot::{first_spot, raised};
use pci_base::memory::OutOfMemory;
use pci_base::range::Range;
use pci_base::window_kind::WindowKind;
use std::alloc::Allocator;

/// Lays an extent out from 0 on, off what is taken, and answers the end of its last address; None where that is
/// above all addresses of 64 bits.
fn laid_next<A: Allocator>(
    taken: &mut Vec<Range, A>,
    extent: Extent,
) -> Result<Option<u64>, OutOfMemory>
    requires extent { IsExtent extent }
    requires listed { AreRisingRanges taken.old.items }
    ensures end { IfOk result (λ end. SomeIff end
        (laid_last taken.old.items extent + 1 < 2 ^ 64) (laid_last taken.old.items extent + 1)) }
    ensures laid { IfOk result (IsLaidBy taken.old.items taken.new.items extent) }
    ensures listed { AreRisingRanges taken.new.items }
{
    let Some(spot) = first_spot(taken.as_slice(), 0, extent) else {
        return Ok(None);
    };
    let last = spot.at + (extent.size - 1);
    taken.insert(
        spot.index,
        Range {
            first: spot.at,
            last,
        },
    )?;
    Ok(last.checked_add(1))
}

/// The greater of two addresses.
pub fn later(a: u64, b: u64) -> u64
    ensures { result ≡ max a b }
{
    if a < b { b } else { a }
}

/// The lesser of two addresses.
fn earlier(a: u64, b: u64) -> u64
    ensures { result ≡ min a b }
{
    if a < b { a } else { b }
}

/// The end of what is laid out from 0 on, each extent off those before it; None where that is above all addresses of
/// 64 bits.
fn end_of<A: Allocator>(alloc: A, extents: &[Extent]) -> Result<Option<u64>, OutOfMemory>
    requires { All IsExtent extents.now }
    ensures { IfOk result (λ end. SomeIff end
        (end_behind (laid_out [] (map extent_value extents.now)) < 2 ^ 64)
        (end_behind (laid_out [] (map extent_value extents.now)))) }
{
    let mut taken: Vec<Range, A> = Vec::new(alloc);
    let mut end = 0;
    for extent in extents {
        match laid_next(&mut taken, *extent)? {
            Some(next) => end = later(end, next),
            None => return Ok(None),
        }
    }
    Ok(Some(end))
}

/// The greatest alignment of some extents and a page.
fn alignment_around(page: u64, extents: &[Extent]) -> u64
    ensures { result ≡ max page (greatest (alignments (map extent_value extents.now))) }
{
    let mut alignment = page;
    for extent in extents {
        alignment = later(alignment, extent.alignment);
    }
    alignment
}

/// The least of an address and the highest ones that some extents may have.
fn highest_around(highest: u64, extents: &[Extent]) -> u64
    ensures { result ≡ least_number (highest ∷ highests (map extent_value extents.now)) }
{
    let mut least = highest;
    for extent in extents {
        least = earlier(least, extent.highest);
    }
    least
}

/// The extent of a new window around others, which lies no higher than `highest`, nor than any of them may; None where it
/// would have 2^64 addresses or more.
pub fn extent_around<A: Allocator>(
    alloc: A,
    class: WindowKind,
    highest: u64,
    extents: &[Extent],
) -> Result<Option<Extent>, OutOfMemory>
    // each has addresses, so a window around some has, too
    requires { All IsExtent extents.now }
    ensures around { IfOk result (IsAround
        (extent_around (page_size (kind_value class)) highest
        (map extent_value extents.now))) }
    ensures some { 0 < length extents.now → IfOk result (λ window. IfSome window IsExtent) }
{
    let page = class.page_size();
    let Some(end) = end_of(alloc, extents)? else {
        return Ok(None);
    };
    let Some(size) = raised(end, page) else {
        return Ok(None);
    };
    Ok(Some(Extent {
        size,
        alignment: alignment_around(page, extents),
        highest: highest_around(highest, extents),
    }))
}

/// The extents of items.
fn extents_of<A: Allocator>(alloc: A, items: &[Item]) -> Result<Vec<Extent, A>, OutOfMemory>
    ensures { IfOk result (λ extents. extents.items ≡ map extent_of_item items.now) }
{
    let mut extents = Vec::new(alloc);
    for item in items {
        extents.push(item.extent)?;
    }
    Ok(extents)
}

/// The extent of a spare: whole pages, as aligned as the greatest power of two that divides their size. None where that is 2^64.
pub fn spare_extent(class: WindowKind, wanted: u64, highest: u64) -> Option<Extent>
    // a spare without addresses is none
    requires { 0 < wanted }
    ensures around { IsAround (spare_extent (kind_value class) wanted highest) result }
    ensures some { IfSome result IsExtent }
{
    let size = raised(wanted, class.page_size())?;
    Some(Extent {
        size,
        alignment: 1 << size.trailing_zeros(),
        highest,
    })
}

/// Adds the spare of a window to the extents of its items, where addresses are wanted behind them. False where it would have 2^64
/// addresses.
fn add_spare<A: Allocator>(
    extents: &mut Vec<Extent, A>,
    class: WindowKind,
    wanted: u64,
    highest: u64,
) -> Result<bool, OutOfMemory>
    requires { All IsExtent extents.old.items }
    ensures added { IfOk result (IsSpareAdded extents.old.items extents.new.items
        (spare_by (kind_value class) wanted highest)) }
    ensures lawful { All IsExtent extents.new.items }
    ensures some { length extents.old.items ≤ length extents.new.items }
{
    if wanted == 0 {
        return Ok(true);
    }
    let Some(spare) = spare_extent(class, wanted, highest) else {
        return Ok(false);
    };
    extents.push(spare)?;
    Ok(true)
}

/// The extent of a new window around the items of a bus, and around the spare of as many addresses as are wanted behind them.
/// The items stand in slot and register order, and are then in the order in which they are placed. None where the window would
/// have 2^64 addresses or more.
pub fn window_around<A: Allocator + Copy>(
    alloc: A,
    class: WindowKind,
    highest: u64,
    wanted: u64,
    items: &mut Vec<Item, A>,
) -> Result<Option<Extent>, OutOfMemory>
    // a window around what has no extent can't be laid out
    requires { All HasExtent items.old.items }
    // nothing is lost or doubled, also where there was no memory
    ensures permutation { IsPermutation items.old.items items.new.items }
    ensures turn { IfOk result (λ window. (value : Item → ItemValue) → IsValued value
        → AllPairs HasLowerRank (map value items.old.items)
        → map value items.new.items ≡ in_turn (map value items.old.items)) }
    ensures around { IfOk result (λ window. (value : Item → ItemValue) → IsValued value
        → AllPairs HasLowerRank (map value items.old.items)
        → IsAround (extent_around (page_size (kind_value class)) highest
        (with_spare (spare_by (kind_value class) wanted highest)
        (map item_extent (in_turn (map value items.old.items))))) window) }
    ensures some { 0 < length items.old.items
        → IfOk result (λ window. IfSome window IsExtent) }
{
    sort_items(items)?;
    let mut extents = extents_of(alloc, items.as_slice())?;
    if !add_spare(&mut extents, class, wanted, highest)? {
        return Ok(None);
    }
    extent_around(alloc, class, highest, extents.as_slice())
}
