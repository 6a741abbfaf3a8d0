//! The addresses of a range that no region of a bus claims, and what is free on a root bus.
ghost use Rattle.std.specs.Prelude.{◌≡◌, ℕ, map, IsFalse, IfOk};
ghost use Rattle.std.specs.List.{All};
ghost use Rattle.std.specs.Option.{is_some};
ghost use Rattle.pci_spec.specs.System.{System};
ghost use Rattle.pci_spec.specs.Why.{AreRuns};
ghost use Rattle.judge_spec.specs.Given.{ranges_said};
ghost use Rattle.judge_spec.specs.ToldClaims.{Told};
ghost use Rattle.judge_spec.specs.Lines.{IsFreeOn};
ghost use Rattle.pci_base.specs.Ranges.{decoded_range_of};
ghost use Rattle.pci_base.specs.Space.{space_of};
ghost use Rattle.pci_claims.specs.Values.{code_given_value};
ghost use Rattle.pci_map.specs.Gaps.{is_cut_seat, AreClaimedBy, AreClaimsOf, AreClaimed, AreFreeInside};
ghost use Rattle.pci_map.specs.Seats.{seat_range, AreSortedSeatsOf};

use super::seat::Seat;
use pci_base::memory::OutOfMemory;
use pci_base::range::Range;
use pci_base::space::Space;
use pci_claims::claim::own;
use pci_claims::gaps::free_runs;
use pci_claims::gather::{common, gathered};
use pci_claims::given::Given;
use pci_claims::isa::{is_cut, kept};
use pci_claims::sent::sent_to;
use pci_tree::region::Region;
use std::alloc::Allocator;

/// Whether ISA Enable takes addresses of a space from a region of a bus.
fn is_seat_cut(given: &Given<'_>, space: Space, seat: &Seat<'_>) -> bool
    ensures { result ≡ is_cut_seat (code_given_value given.now) (space_of space) seat.now }
{
    match seat {
        Seat::Own(region) => is_cut(given, space, region),
        Seat::OfLine(_) => false,
    }
}

/// Whether ISA Enable takes addresses of a space from one of some regions.
fn any_cut(given: &Given<'_>, space: Space, seats: &[Seat<'_>]) -> bool
    ensures { IsFalse result
        → All (λ q. IsFalse (is_cut_seat (code_given_value given.now) (space_of space) q)) seats.now }
{
    for seat in seats {
        if is_seat_cut(given, space, seat) {
            return true;
        }
    }
    false
}

/// The addresses of regions, in their order.
fn ranges_of<A: Allocator>(alloc: A, seats: &[Seat<'_>]) -> Result<Vec<Range, A>, OutOfMemory>
    ensures { IfOk result (λ v. v.items ≡ map seat_range seats.now) }
{
    let Ok(mut out) = Vec::with_capacity(alloc, seats.len()) else {
        return Err(OutOfMemory);
    };
    for seat in seats {
        out.push(seat.range())?;
    }
    Ok(out)
}

/// What a region of a bus claims of a space.
fn claims_of_one<A: Allocator + Copy>(
    alloc: A,
    given: &Given<'_>,
    space: Space,
    seat: &Seat<'_>,
) -> Result<Vec<Range, A>, OutOfMemory>
    ensures { IfOk result
        (λ v. AreClaimsOf (code_given_value given.now) (space_of space) seat.now v.items) }
{
    match seat {
        Seat::Own(region) => own(alloc, given, region, space),
        Seat::OfLine(line) => {
            let mut out = Vec::new(alloc);
            out.push(line.range())?;
            Ok(out)
        }
    }
}

/// What regions claim of a space, region by region.
fn claims_of<A: Allocator + Copy>(
    alloc: A,
    given: &Given<'_>,
    space: Space,
    seats: &[Seat<'_>],
) -> Result<Vec<Range, A>, OutOfMemory>
    ensures { IfOk result
        (λ v. AreClaimedBy (code_given_value given.now) (space_of space) seats.now v.items) }
{
    let mut out = Vec::new(alloc);
    for seat in seats {
        let more = claims_of_one(alloc, given, space, seat)?;
        out.extend_from_slice(&more)?;
    }
    Ok(out)
}

/// The addresses of a space that the regions of a bus claim, as ranges by first address: the regions stand so, too.
fn claimed<A: Allocator + Copy>(
    alloc: A,
    given: &Given<'_>,
    space: Space,
    seats: &[Seat<'_>],
) -> Result<Vec<Range, A>, OutOfMemory>
    ensures { IfOk result (λ v. (told : Told) (s : System) (bus : ℕ)
        → AreSortedSeatsOf told s bus (space_of space) seats.now
        → AreClaimed told (code_given_value given.now) s bus (space_of space) v.items) }
{
    if any_cut(given, space, seats) {
        gathered(claims_of(alloc, given, space, seats)?)
    } else {
        ranges_of(alloc, seats)
    }
}

/// What a window claims and no region of the bus behind its bridge, as ranges: the regions stand by first address.
pub fn free_inside<A: Allocator + Copy>(
    alloc: A,
    given: &Given<'_>,
    space: Space,
    window: &Region,
    seats: &[Seat<'_>],
) -> Result<Vec<Range, A>, OutOfMemory>
    ensures { IfOk result (λ v. (told : Told) (s : System) (bus : ℕ)
        → AreSortedSeatsOf told s bus (space_of space) seats.now
        → AreFreeInside told (code_given_value given.now) s bus (space_of space) window.now v.items) }
{
    let range = Range {
        first: window.first,
        last: window.last,
    };
    let claimed = claimed(alloc, given, space, seats)?;
    let runs = free_runs(alloc, range, &claimed)?;
    if is_cut(given, space, window) {
        let joined = gathered(runs)?;
        kept(alloc, &joined)
    } else {
        Ok(runs)
    }
}

/// Whether a list is said of a space.
fn is_said(given: &Given<'_>, space: Space) -> bool
    ensures { result ≡ is_some (ranges_said (code_given_value given.now) (space_of space)) }
{
    match space {
        Space::Io => given.io.is_some(),
        Space::Mem => given.memory.is_some(),
    }
}

/// What the host sends to a root bus by a list and no region there claims, as ranges: the regions stand by first address.
pub fn free_on_root<A: Allocator + Copy>(
    alloc: A,
    given: &Given<'_>,
    space: Space,
    root: u8,
    seats: &[Seat<'_>],
) -> Result<Vec<Range, A>, OutOfMemory>
    ensures { IfOk result (λ v. (told : Told) (s : System)
        → AreSortedSeatsOf told s root (space_of space) seats.now
        → AreRuns (IsFreeOn told (code_given_value given.now) s root (space_of space)) (map decoded_range_of v.items)) }
{
    if !is_said(given, space) {
        return Ok(Vec::new(alloc));
    }
    let sent = sent_to(alloc, given, space, root)?;
    let claimed = claimed(alloc, given, space, seats)?;
    let unclaimed = gathered(free_runs(alloc, space.whole(), &claimed)?)?;
    common(alloc, &sent, &unclaimed)
}
