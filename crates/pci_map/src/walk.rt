//! The lines of a place, and of all that is inside it.
ghost use Rattle.std.specs.Prelude.{◌≡◌, ◌≤◌, ◌<◌, ◌+◌, ◌++◌, length, map, take, drop, IfOk, OnOk, IfSome, MatchOption};
ghost use Rattle.std.specs.List.{flat_map};
ghost use Rattle.std.specs.String.{string_bytes};
ghost use Rattle.pci_spec.specs.System.{System};
ghost use Rattle.judge_spec.specs.MapText.{free_line};
ghost use Rattle.pci_base.specs.Ranges.{decoded_range_of};
ghost use Rattle.pci_base.specs.Space.{space_of};
ghost use Rattle.pci_claims.specs.Values.{code_given_value, told_value};
ghost use Rattle.pci_map.specs.Values.{mapped_of};
ghost use Rattle.pci_map.specs.Seats.{IsSeatOn, AreSeatsOn};
ghost use Rattle.pci_map.specs.Mapped.{AreToldOn, IsSystemOf};
ghost use Rattle.pci_map.specs.Walk.{ahead, merged, ArePlacesWritten, IsSeated, IsNoWindow, HasInside};

use super::inside::{Inside, look_inside};
use super::line::{push_line, push_runs};
use super::mapped::Mapped;
use super::seat::Seat;
use pci_base::memory::OutOfMemory;
use pci_base::range::Range;
use pci_base::space::Space;
use pci_tree::region::Part;
use std::alloc::{AllocError, Allocator};

/// A walk through a space of an outline.
#[derive(Drop)]
pub struct Walk<'m, 'a, 'g, A: Allocator> {
    pub alloc: A,
    pub mapped: &'m Mapped<'a, 'g, A>,
    pub space: Space,
}

/// How many of the first runs begin before an address.
fn count_before(runs: &[Range], end: u64) -> usize
    ensures count { result ≡ ahead end runs.now }
    // so that they can be cut off
    ensures bound { result ≤ length runs.now }
{
    let mut count = 0;
    for run in runs {
        if end <= run.first {
            return count;
        }
        count += 1;
    }
    count
}

/// Appends the lines of the first runs, those that begin before an address, and gives the others.
fn push_before<'a, A: Allocator>(
    text: &mut String<A>,
    depth: u32,
    space: Space,
    runs: &'a [Range],
    end: u64,
) -> Result<&'a [Range], AllocError>
    ensures rest { IfOk result (λ rest. rest.now ≡ drop (ahead end runs.now) runs.now) }
    ensures lines { OnOk result (string_bytes text.new ≡ string_bytes text.old
        ++ flat_map (free_line depth (space_of space)) (map decoded_range_of (take (ahead end runs.now) runs.now))) }
{
    let (before, rest) = runs.split_at(count_before(runs, end));
    push_runs(text, depth, space, before)?;
    Ok(rest)
}

/// What is inside a region of a bus, if it is a window.
fn inside_of<'g, A: Allocator + Copy>(
    walk: &Walk<'_, '_, 'g, A>,
    bus: u8,
    seat: &Seat<'_>,
) -> Result<Option<Inside<'g, A>>, OutOfMemory>
    requires told { AreToldOn (told_value walk.now.mapped.now.told) walk.now.mapped.now.outline.now walk.now.mapped.now.on.now }
    // so the walk ends
    ensures deeper { IfOk result (λ o. IfSome o (λ i. bus < i.bus)) }
    ensures inside { IfOk result (λ o. (s : System)
        → IsSystemOf (told_value walk.now.mapped.now.told) (code_given_value walk.now.mapped.now.given) walk.now.mapped.now.outline.now walk.now.mapped.now.above.now s
        → IsSeatOn (told_value walk.now.mapped.now.told) s bus (space_of walk.now.space) seat.now
        → MatchOption o (IsNoWindow seat.now)
        (λ i. HasInside (mapped_of (told_value walk.now.mapped.now.told) (code_given_value walk.now.mapped.now.given) walk.now.mapped.now.outline.now s (space_of walk.now.space))
        seat.now i.bus i.regions.items i.runs.items)) }
{
    let Seat::Own(region) = seat else {
        return Ok(None);
    };
    if region.part != Part::Window {
        return Ok(None);
    }
    let Some(inside) = look_inside(walk.alloc, walk.mapped, walk.space, region)? else {
        return Ok(None);
    };
    // a bridge leads to a higher bus than its own
    if inside.bus <= bus {
        return Ok(None);
    }
    Ok(Some(inside))
}

/// Appends the line of a region of a bus, and below a window's what is inside.
#[cycle(place)]
fn push_seat<A: Allocator + Copy, B: Allocator>(
    walk: &Walk<'_, '_, '_, A>,
    text: &mut String<B>,
    bus: u8,
    depth: u32,
    seat: &Seat<'_>,
) -> Result<(), OutOfMemory>
    requires told { AreToldOn (told_value walk.now.mapped.now.told) walk.now.mapped.now.outline.now walk.now.mapped.now.on.now }
    // each window leads to a higher bus, so the depth can be counted
    requires deep { depth ≤ bus + 1 }
    ensures { OnOk result ((s : System)
        → IsSystemOf (told_value walk.now.mapped.now.told) (code_given_value walk.now.mapped.now.given) walk.now.mapped.now.outline.now walk.now.mapped.now.above.now s
        → IsSeatOn (told_value walk.now.mapped.now.told) s bus (space_of walk.now.space) seat.now
        → IsSeated (mapped_of (told_value walk.now.mapped.now.told) (code_given_value walk.now.mapped.now.given) walk.now.mapped.now.outline.now s (space_of walk.now.space)) depth seat.now
        (string_bytes text.old) (string_bytes text.new)) }
{
    push_line(text, &walk.mapped.given, depth, walk.space, seat)?;
    let Some(inside) = inside_of(walk, bus, seat)? else {
        return Ok(());
    };
    push_place(walk, text, depth + 1, &inside)
}

/// Appends the lines of what stands in a place, with what is inside each window below its line.
#[cycle(place)]
pub fn push_place<A: Allocator + Copy, B: Allocator>(
    walk: &Walk<'_, '_, '_, A>,
    text: &mut String<B>,
    depth: u32,
    place: &Inside<'_, A>,
) -> Result<(), OutOfMemory>
    requires told { AreToldOn (told_value walk.now.mapped.now.told) walk.now.mapped.now.outline.now walk.now.mapped.now.on.now }
    requires deep { depth ≤ place.now.bus + 1 }
    ensures { OnOk result ((s : System)
        → IsSystemOf (told_value walk.now.mapped.now.told) (code_given_value walk.now.mapped.now.given) walk.now.mapped.now.outline.now walk.now.mapped.now.above.now s
        → AreSeatsOn (told_value walk.now.mapped.now.told) s place.now.bus (space_of walk.now.space) place.now.regions.items
        → ArePlacesWritten (mapped_of (told_value walk.now.mapped.now.told) (code_given_value walk.now.mapped.now.given) walk.now.mapped.now.outline.now s (space_of walk.now.space)) depth
        (merged (space_of walk.now.space) place.now.regions.items place.now.runs.items)
        (string_bytes text.old) (string_bytes text.new)) }
{
    let space = walk.space;
    let mut left = place.runs.as_slice();
    for seat in place.regions.as_slice() {
        left = push_before(text, depth, space, left, seat.first())?;
        push_seat(walk, text, place.bus, depth, seat)?;
    }
    push_runs(text, depth, space, left)?;
    Ok(())
}
