//! The lines of what bridges take as no region of their own bus claims it.
ghost use Rattle.std.specs.Prelude.{◌≡◌, ℕ, [], ◌∷◌, length, IfOk, OnOk};
ghost use Rattle.std.specs.String.{string_bytes};
ghost use Rattle.std.specs.List.{Contains};
ghost use Rattle.pci_spec.specs.System.{System};
ghost use Rattle.judge_spec.specs.Given.{Given};
ghost use Rattle.judge_spec.specs.ToldClaims.{Told};
ghost use Rattle.pci_base.specs.Space.{space_of};
ghost use Rattle.judge_spec.specs.Map.{IsBelow};
ghost use Rattle.pci_tree.specs.Outline.{Tree};
ghost use Rattle.pci_claims.specs.Values.{code_given_value, told_value};
ghost use Rattle.pci_map.specs.Values.{mapped_of};
ghost use Rattle.pci_map.specs.Seats.{IsToldOfListedSlots, AreSeatsOn, AreFilteredSeats, seat_first};
ghost use Rattle.pci_map.specs.Left.{IsTreeOf};
ghost use Rattle.pci_map.specs.Ways.{AreAbove};
ghost use Rattle.pci_map.specs.Takers.{IsTakenFirst};
ghost use Rattle.pci_map.specs.Mapped.{AreToldOn, IsSystemWith};
ghost use Rattle.pci_map.specs.Buses.{IsTakenOf, AreTakingsTold};

use super::above::in_place;
use super::bus_seats::seats_on;
use super::inside::Inside;
use super::left::{Windows, is_taken_first};
use super::line::push_taking_heading;
use super::seat::{Seat, add_seat};
use super::takers::Taker;
use super::walk::{Walk, push_place};
use pci_base::memory::OutOfMemory;
use pci_base::space::Space;
use std::alloc::Allocator;

/// The regions behind a bridge that it takes and none of its windows claims, by their first addresses, in their order.
fn taken_first<'g, A: Allocator, B: Allocator>(
    alloc: A,
    windows: &Windows<B>,
    space: Space,
    seats: &[Seat<'g>],
) -> Result<Vec<Seat<'g>, A>, OutOfMemory>
    ensures { IfOk result (λ v. (told : Told) (given : Given) (t : Tree) (s : System) (bus : ℕ)
        → IsTreeOf t s → IsToldOfListedSlots told s → AreSeatsOn told s bus (space_of space) seats.now
        → (above : AreAbove given t.roots s bus windows.now)
        → AreFilteredSeats (λ q. IsTakenFirst given (space_of space) above.bridge.b (seat_first q)) (space_of space) seats.now v.items) }
{
    let Ok(mut out) = Vec::with_capacity(alloc, seats.len()) else {
        return Err(OutOfMemory);
    };
    for seat in seats {
        if is_taken_first(windows, space, seat.first()) {
            add_seat(&mut out, seat)?;
        }
    }
    Ok(out)
}

/// What a bridge takes: the regions behind it that stand in no window, and in their place.
fn look_behind<'g, A: Allocator + Copy>(
    walk: &Walk<'_, '_, 'g, A>,
    bus: u8,
    windows: &Windows<A>,
) -> Result<Inside<'g, A>, OutOfMemory>
    requires { AreToldOn (told_value walk.now.mapped.now.told) walk.now.mapped.now.outline.now walk.now.mapped.now.on.now }
    ensures bus { IfOk result (λ i. i.bus ≡ bus) }
    ensures runs { IfOk result (λ i. i.runs.items ≡ []) }
    ensures taken { IfOk result (λ i. (s : System)
        → IsSystemWith (told_value walk.now.mapped.now.told) (code_given_value walk.now.mapped.now.given) walk.now.mapped.now.outline.now walk.now.mapped.now.above.now walk.now.mapped.now.ways.now walk.now.mapped.now.takers.now s
        → (above : AreAbove (code_given_value walk.now.mapped.now.given) walk.now.mapped.now.outline.now.roots s bus windows.now)
        → IsTakenOf (mapped_of (told_value walk.now.mapped.now.told) (code_given_value walk.now.mapped.now.given) walk.now.mapped.now.outline.now s (space_of walk.now.space))
        above.bridge.b bus i.regions.items) }
{
    let all = seats_on(walk.alloc, walk.mapped, bus, walk.space)?;
    let taken = taken_first(walk.alloc, windows, walk.space, all.as_slice())?;
    let regions = in_place(walk.alloc, walk.mapped.above, walk.space, bus, taken)?;
    let runs = Vec::new(walk.alloc);
    Ok(Inside { bus, regions, runs })
}

/// Appends the lines of what a bridge takes below its heading, if there are any.
fn push_taking<A: Allocator + Copy, B: Allocator>(
    walk: &Walk<'_, '_, '_, A>,
    text: &mut String<B>,
    taker: Taker,
) -> Result<(), OutOfMemory>
    requires told { AreToldOn (told_value walk.now.mapped.now.told) walk.now.mapped.now.outline.now walk.now.mapped.now.on.now }
    // bus numbers index it
    requires ways { length walk.now.mapped.now.ways.now ≡ 256 }
    ensures { OnOk result ((s : System) (root : ℕ)
        → IsSystemWith (told_value walk.now.mapped.now.told) (code_given_value walk.now.mapped.now.given) walk.now.mapped.now.outline.now walk.now.mapped.now.above.now walk.now.mapped.now.ways.now walk.now.mapped.now.takers.now s
        → Contains walk.now.mapped.now.takers.now taker → IsBelow s root taker.slot
        → AreTakingsTold (mapped_of (told_value walk.now.mapped.now.told) (code_given_value walk.now.mapped.now.given) walk.now.mapped.now.outline.now s (space_of walk.now.space))
        root (taker ∷ []) (string_bytes text.old) (string_bytes text.new)) }
{
    let bus = taker.bus;
    let own = taker.slot.bus();
    // a bridge leads to a higher bus than its own
    if bus <= own {
        return Ok(());
    }
    let ways = walk.mapped.ways;
    // no bridge leads to a root bus
    let Some(windows) = &ways[bus as usize] else {
        return Ok(());
    };
    let place = look_behind(walk, bus, windows)?;
    if place.regions.is_empty() {
        return Ok(());
    }
    push_taking_heading(text, taker.slot)?;
    push_place(walk, text, 2, &place)
}

/// Appends the lines of what the bridges on a root bus or below take, by slot.
pub fn push_takings<A: Allocator + Copy, B: Allocator>(
    walk: &Walk<'_, '_, '_, A>,
    text: &mut String<B>,
    root: u8,
) -> Result<(), OutOfMemory>
    requires told { AreToldOn (told_value walk.now.mapped.now.told) walk.now.mapped.now.outline.now walk.now.mapped.now.on.now }
    requires ways { length walk.now.mapped.now.ways.now ≡ 256 }
    ensures { OnOk result ((s : System)
        → IsSystemWith (told_value walk.now.mapped.now.told) (code_given_value walk.now.mapped.now.given) walk.now.mapped.now.outline.now walk.now.mapped.now.above.now walk.now.mapped.now.ways.now walk.now.mapped.now.takers.now s
        → Contains walk.now.mapped.now.outline.now.roots root
        → AreTakingsTold (mapped_of (told_value walk.now.mapped.now.told) (code_given_value walk.now.mapped.now.given) walk.now.mapped.now.outline.now s (space_of walk.now.space))
        root walk.now.mapped.now.takers.now (string_bytes text.old) (string_bytes text.new)) }
{
    for taker in walk.mapped.takers {
        if taker.root == root {
            push_taking(walk, text, *taker)?;
        }
    }
    Ok(())
}
