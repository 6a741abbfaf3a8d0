//! What is inside a window: the regions that belong under it, and the runs of its addresses that are free.
ghost use Rattle.std.specs.Prelude.{◌≡◌, IfOk, MatchOption};
ghost use Rattle.std.specs.List.{filter};
ghost use Rattle.pci_spec.specs.System.{System};
ghost use Rattle.pci_spec.specs.Decoded.{HasRecords};
ghost use Rattle.pci_claims.specs.Values.{code_given_value, told_value};
ghost use Rattle.pci_base.specs.Space.{space_of};
ghost use Rattle.pci_spec.specs.Why.{IsRegionIn};
ghost use Rattle.pci_tree.specs.declared.region.Part.TheVariants.{Window};
ghost use Rattle.pci_map.specs.Values.{value_of, mapped_of};
ghost use Rattle.pci_map.specs.Mapped.{AreToldOn, IsSystemOf};
ghost use Rattle.pci_map.specs.Inside.{region_has, is_cut_by_isa, is_held_first, IsEarlierWindow, AreInsideWindow};

use super::above::in_place;
use super::bus_seats::seats_on;
use super::gaps::free_inside;
use super::mapped::Mapped;
use super::seat::{Seat, add_seat};
use pci_base::memory::OutOfMemory;
use pci_base::offset::{MEMORY_BASE, PREFETCHABLE_BASE};
use pci_base::range::Range;
use pci_base::space::Space;
use pci_claims::find::region_at;
use pci_claims::isa::{is_cut, is_isa_port};
use pci_tree::bus::record_at;
use pci_tree::outline::Outline;
use pci_tree::region::Region;
use std::alloc::{Allocator, Global};

/// What stands inside a window, or on a root bus.
#[derive(Drop)]
pub struct Inside<'g, A: Allocator = Global> {
    /// The bus behind its bridge, or the root bus itself.
    pub bus: u8,
    /// The regions that stand there, by first address, then by slot and register: what is out of place doesn't.
    pub regions: Vec<Seat<'g>, A>,
    /// The free runs of a window, or of what the host sends to a root bus, rising.
    pub runs: Vec<Range, A>,
}

/// Whether a region has an address.
pub fn has(region: &Region, address: u64) -> bool
    ensures { result ≡ region_has region.now address }
{
    region.first <= address && address <= region.last
}

/// Whether ISA Enable takes an address from a window, by whether it cuts the window.
pub fn takes(cut: bool, address: u64) -> bool
    ensures { result ≡ is_cut_by_isa cut address }
{
    cut && is_isa_port(address)
}

/// A window, and what of its addresses it doesn't claim first.
#[derive(Drop)]
struct Opening<'a> {
    window: &'a Region,
    /// The earlier window of the bridge, where there is one.
    earlier: Option<Region>,
    /// Whether ISA Enable cuts the window.
    cut: bool,
}

/// Whether a window claims the first address of a region, and the earlier window of the bridge doesn't hold it.
fn holds(opening: &Opening<'_>, seat: &Seat<'_>) -> bool
    ensures { result ≡ is_held_first opening.now.window.now opening.now.earlier opening.now.cut seat.now }
{
    let address = seat.first();
    if takes(opening.cut, address) {
        return false;
    }
    match &opening.earlier {
        None => has(opening.window, address),
        Some(other) => has(opening.window, address) && !has(other, address),
    }
}

/// The regions that a window holds, in their order.
fn held<'g, A: Allocator>(
    alloc: A,
    opening: &Opening<'_>,
    seats: &[Seat<'g>],
) -> Result<Vec<Seat<'g>, A>, OutOfMemory>
    ensures { IfOk result (λ v. v.items
        ≡ filter (is_held_first opening.now.window.now opening.now.earlier opening.now.cut) seats.now) }
{
    let Ok(mut out) = Vec::with_capacity(alloc, seats.len()) else {
        return Err(OutOfMemory);
    };
    for seat in seats {
        if holds(opening, seat) {
            add_seat(&mut out, seat)?;
        }
    }
    Ok(out)
}

/// The window of the same bridge with a lower register, that may hold addresses of a window too: the memory window
/// beside the prefetchable one.
fn earlier<A: Allocator, B: Allocator>(
    alloc: A,
    outline: &Outline<B>,
    space: Space,
    window: &Region,
) -> Result<Option<Region>, OutOfMemory>
    ensures { IfOk result (λ o. (s : System) → HasRecords s outline.now.records
        → IsEarlierWindow s (space_of space) window.now o) }
{
    match window.reg {
        PREFETCHABLE_BASE => region_at(alloc, outline, window.slot, MEMORY_BASE, space),
        _ => Ok(None),
    }
}

/// What is inside a window of an outline.
pub fn look_inside<'g, A: Allocator + Copy>(
    alloc: A,
    mapped: &Mapped<'_, 'g, A>,
    space: Space,
    window: &Region,
) -> Result<Option<Inside<'g, A>>, OutOfMemory>
    requires { AreToldOn (told_value mapped.now.told) mapped.now.outline.now mapped.now.on.now }
    // an outline has no image, so this is said of every system with its records
    ensures { IfOk result (λ o. (s : System)
        → IsSystemOf (told_value mapped.now.told) (code_given_value mapped.now.given) mapped.now.outline.now mapped.now.above.now s
        → IsRegionIn s (value_of (space_of space) window.now) → window.now.part ≡ Window
        → MatchOption o ⊥ (λ i. AreInsideWindow
        (mapped_of (told_value mapped.now.told) (code_given_value mapped.now.given) mapped.now.outline.now s (space_of space))
        window.now i.bus i.regions.items i.runs.items)) }
{
    let outline = mapped.outline;
    let Some(function) = record_at(outline.records(), window.slot) else {
        return Ok(None);
    };
    let Some(bridge) = function.bridge else {
        return Ok(None);
    };
    let bus = bridge.secondary;
    let given = &mapped.given;
    let earlier = earlier(alloc, outline, space, window)?;
    let all = seats_on(alloc, mapped, bus, space)?;
    let cut = is_cut(given, space, window);
    let runs = free_inside(alloc, given, space, window, all.as_slice())?;
    let opening = Opening {
        window,
        earlier,
        cut,
    };
    let held = held(alloc, &opening, all.as_slice())?;
    let regions = in_place(alloc, mapped.above, space, bus, held)?;
    Ok(Some(Inside { bus, regions, runs }))
}
