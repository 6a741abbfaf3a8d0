//! What the host sends to the root above each bus, and which regions have addresses that it doesn't send there.
ghost use Rattle.std.specs.Prelude.{◌≡◌, map, IfOk, MatchBool};
ghost use Rattle.std.specs.List.{Contains};
ghost use Rattle.pci_spec.specs.System.{System, Function};
ghost use Rattle.pci_spec.specs.Decoded.{HasRecords};
ghost use Rattle.judge_spec.specs.Given.{Given as GivenValue};
ghost use Rattle.judge_spec.specs.ToldClaims.{Told as ToldValue};
ghost use Rattle.judge_spec.specs.ToldRegion.{IsToldIn};
ghost use Rattle.judge_spec.specs.Regions.{Own, OfLine};
ghost use Rattle.judge_spec.specs.Lines.{IsOutOfPlace};
ghost use Rattle.pci_base.specs.Space.{space_of};
ghost use Rattle.pci_function.specs.Values.{record_value};
ghost use Rattle.pci_tree.specs.Outline.{Tree};
ghost use Rattle.pci_tree.specs.Regions.{IsRegionOn};
ghost use Rattle.pci_claims.specs.Values.{code_given_value};
ghost use Rattle.pci_map.specs.Values.{value_of};
ghost use Rattle.pci_map.specs.Seats.{told_region_value, IsToldOfListedSlots, IsSeatOn, AreSeatsOn};
ghost use Rattle.pci_map.specs.Above.{IsOnlyRootAbove, AreRootsAbove, AreSentAbove, IsSeatOut, AreInPlace};

use super::addresses::Addresses;
use super::seat::{Seat, ToldRegion, add_seat};
use pci_base::memory::OutOfMemory;
use pci_base::range::Range;
use pci_base::slot::{BUSES, Slot};
use pci_base::space::Space;
use pci_claims::given::Given;
use pci_claims::outside::root_above;
use pci_function::record::Record;
use pci_tree::outline::Outline;
use pci_tree::region::{Part, Region};
use std::alloc::Allocator;

/// The root above the bus of a function.
pub fn root_over<A: Allocator + Copy>(outline: &Outline<A>, slot: Slot) -> u8
    ensures { (s : System) → HasRecords s outline.now.records → (f : Function) → Contains s f
        → f.slot ≡ slot → IsOnlyRootAbove outline.now.roots s slot.bus result }
{
    match outline.path(slot) {
        None => slot.bus(),
        Some(bridges) => root_above(bridges.as_slice(), slot.bus()),
    }
}

/// At the bus of each record of an outline the root above it.
fn roots_above<A: Allocator + Copy>(outline: &Outline<A>, records: &[Record]) -> [u8; BUSES]
    ensures { (s : System) → HasRecords s outline.now.records
        → HasRecords s (map record_value records.now) → AreRootsAbove outline.now.roots s result }
{
    let mut roots_above = [0; BUSES];
    let mut last = BUSES;
    for function in records {
        let bus = function.slot.bus() as usize;
        // the functions of a bus stand together
        if bus != last {
            roots_above[bus] = root_over(outline, function.slot);
            last = bus;
        }
    }
    roots_above
}

/// At each bus what the host sends to the root above it; nothing at all where no list is said of either space.
pub fn sent_above<A: Allocator + Copy>(
    alloc: A,
    given: &Given<'_>,
    outline: &Outline<A>,
) -> Result<Vec<Addresses<A>, A>, OutOfMemory>
    // an outline has no image, so this is said of every system with its records
    ensures { IfOk result (λ v. (s : System) → HasRecords s outline.now.records
        → AreSentAbove (code_given_value given.now) outline.now s v.items) }
{
    let records = outline.records();
    let mut above = Vec::new(alloc);
    if given.io.is_none() && given.memory.is_none() {
        return Ok(above);
    }
    let roots_above = roots_above(outline, records);
    for bus in 0..BUSES {
        above.push(Addresses::sent(alloc, given, roots_above[bus])?)?;
    }
    Ok(above)
}

/// Whether a region of a bus is a BAR or a ROM with an address to which no access of the host starts on the root above.
pub fn is_out_of_place<A: Allocator>(
    above: &[Addresses<A>],
    space: Space,
    bus: u8,
    region: &Region,
) -> bool
    ensures { (told : ToldValue) (given : GivenValue) (t : Tree) (s : System)
        → AreSentAbove given t s above.now → IsRegionOn s bus (space_of space) region.now
        → MatchBool result (IsOutOfPlace told given t.roots s (Own (value_of (space_of space) region.now)))
        (IsOutOfPlace told given t.roots s (Own (value_of (space_of space) region.now)) → ⊥) }
{
    // no list is said
    if above.len() <= bus as usize {
        return false;
    }
    if region.part == Part::Window {
        return false;
    }
    let range = Range {
        first: region.first,
        last: region.last,
    };
    !above[bus as usize].has_all(space, range)
}

/// Whether a told range isn't held, and has an address to which no access of the host starts on the root above its bus.
pub fn is_line_outside<A: Allocator>(above: &[Addresses<A>], line: &ToldRegion<'_>) -> bool
    ensures { (told : ToldValue) (given : GivenValue) (t : Tree) (s : System)
        → AreSentAbove given t s above.now → IsToldOfListedSlots told s → IsToldIn told s (told_region_value line.now)
        → MatchBool result (IsOutOfPlace told given t.roots s (OfLine (told_region_value line.now)))
        (IsOutOfPlace told given t.roots s (OfLine (told_region_value line.now)) → ⊥) }
{
    let bus = line.slot().bus() as usize;
    // no list is said
    if above.len() <= bus {
        return false;
    }
    if line.is_held() {
        return false;
    }
    !above[bus].has_all(line.space(), line.range())
}

/// Whether a region of a bus is out of place.
fn is_seat_outside<A: Allocator>(
    above: &[Addresses<A>],
    space: Space,
    bus: u8,
    seat: &Seat<'_>,
) -> bool
    ensures { (told : ToldValue) (given : GivenValue) (t : Tree) (s : System)
        → AreSentAbove given t s above.now → IsToldOfListedSlots told s
        → IsSeatOn told s bus (space_of space) seat.now
        → MatchBool result (IsSeatOut told given t.roots s (space_of space) seat.now)
        (IsSeatOut told given t.roots s (space_of space) seat.now → ⊥) }
{
    match seat {
        Seat::Own(region) => is_out_of_place(above, space, bus, region),
        Seat::OfLine(line) => is_line_outside(above, line),
    }
}

/// The regions of a bus that aren't out of place, in their order.
pub fn in_place<'g, A: Allocator, B: Allocator>(
    alloc: A,
    above: &[Addresses<B>],
    space: Space,
    bus: u8,
    seats: Vec<Seat<'g>, A>,
) -> Result<Vec<Seat<'g>, A>, OutOfMemory>
    ensures { IfOk result (λ v. (told : ToldValue) (given : GivenValue) (t : Tree) (s : System)
        → AreSentAbove given t s above.now → IsToldOfListedSlots told s
        → AreSeatsOn told s bus (space_of space) seats.entry.items
        → AreInPlace told given t.roots s (space_of space) seats.entry.items v.items) }
{
    if above.is_empty() {
        return Ok(seats);
    }
    let Ok(mut out) = Vec::with_capacity(alloc, seats.len()) else {
        return Err(OutOfMemory);
    };
    for seat in seats.as_slice() {
        if !is_seat_outside(above, space, bus, seat) {
            add_seat(&mut out, seat)?;
        }
    }
    Ok(out)
}
