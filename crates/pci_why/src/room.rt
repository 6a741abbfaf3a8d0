//! What there is on a bus for a region that would move. It is listed once for the regions of a bus that follow each other in
//! a list of faults.
ghost use Rattle.std.specs.Prelude.{◌≡◌, ◌↔◌, IsTrue, IfOk, OnOk, MatchOption};
ghost use Rattle.judge_spec.specs.Given.{Given as GivenValue};
ghost use Rattle.judge_spec.specs.Told.{IsTold};
ghost use Rattle.judge_spec.specs.ToldClaims.{Told as ToldValue};
ghost use Rattle.pci_base.specs.Space.{space_of, kind_in};
ghost use Rattle.pci_tree.specs.Outline.{Tree};
ghost use Rattle.pci_claims.specs.Values.{code_given_value, told_value};
ghost use Rattle.pci_claims.specs.AllClaims.{IsClaimsBoard};
ghost use Rattle.pci_claims.specs.ToldOn.{AreOnIn};
ghost use Rattle.pci_why.specs.Free.{AreClaimsBesideInEach};
ghost use Rattle.pci_why.specs.Rooms.{IsRoomKept, AreRoomsKept, IsRoomFor};

use super::judged::Judged;
use pci_base::memory::OutOfMemory;
use pci_base::range::Range;
use pci_base::space::Space;
use pci_claims::all_claims::claims_among;
use pci_claims::board::Board;
use pci_claims::claim::Claim;
use pci_claims::reach::reach_of;
use pci_claims::root_claims::claims_of_roots;
use pci_tree::region::Region;
use std::alloc::{Allocator, Global};
use std::marker::Model;

/// A region that would move.
#[derive(Clone, Copy, Debug, PartialEq, Eq)]
pub struct Moving {
    pub region: Region,
    pub space: Space,
    /// Whether it is a BAR of 64 bits.
    pub wide: bool,
}

/// What there is on a bus for a region.
#[derive(Drop)]
pub struct Room<A: Allocator = Global> {
    bus: u8,
    reach: Vec<Range, A>,
    claims: Vec<Claim<A>, A>,
}

impl<A: Allocator> Model for Room<A> {
    ghost use Rattle.pci_tree.specs.Ranges.{IsCanonical};
    ghost use Rattle.pci_why.specs.Rooms.{RoomValue};

    ghost Value = { RoomValue };

    ghost view = { λ r. record { bus = r.bus; reach = r.reach.items; claims = r.claims.items } };

    ghost invariant = { λ r. IsCanonical r.reach.items };
}

impl<A: Allocator> Room<A> {
    ghost use Rattle.pci_tree.specs.Ranges.{IsCanonical};

    /// The addresses that get to the bus: ranges that rise, with an address between each two.
    pub fn reach(&self) -> &[Range]
        ensures value { result.now ≡ self.now.reach }
        // what is in two lists is found in one walk along both
        ensures canonical { IsCanonical result.now }
    {
        &self.reach
    }

    /// The claims of the regions that can clash with one of the bus.
    pub fn claims(&self) -> &[Claim<A>]
        ensures { result.now ≡ self.now.claims }
    {
        &self.claims
    }
}

/// What was looked at last for each kind of access.
#[derive(Drop)]
pub struct Rooms<'a, A: Allocator = Global> {
    /// Of each told range whether it is on.
    pub on: &'a [bool],
    pub io: Option<Room<A>>,
    pub mem: Option<Room<A>>,
    pub pref: Option<Room<A>>,
}

/// Nothing was looked at.
pub fn no_rooms<'a, A: Allocator>(on: &'a [bool]) -> Rooms<'a, A>
    ensures { (told : ToldValue) (given : GivenValue) (t : Tree) → IsTold told.ranges
        → AreOnIn told t on.now
        → AreRoomsKept told given t result.on.now result.io result.mem result.pref }
{
    Rooms {
        on,
        io: None,
        mem: None,
        pref: None,
    }
}

/// The claims of the regions that can clash with one of a bus: those of the bus, or where that is a root bus those of all
/// root buses, as accesses to one address may start on several of them.
fn claims_beside<A: Allocator + Copy>(
    alloc: A,
    board: &Board<'_, '_, A>,
    bus: u8,
    space: Space,
) -> Result<Vec<Claim<A>, A>, OutOfMemory>
    requires { IsClaimsBoard (told_value board.now.told) board.now.outline.now board.now.on.now
        board.now.bridges.now }
    ensures { IfOk result (λ v. AreClaimsBesideInEach (told_value board.now.told)
        (code_given_value board.now.given) board.now.outline.now bus (space_of space) v.items) }
{
    if board.outline.roots().has(bus) {
        claims_of_roots(alloc, board, space)
    } else {
        claims_among(alloc, board, bus, space)
    }
}

/// What there is for a region on its bus. None where no function has its slot.
fn room_of<A: Allocator + Copy>(
    alloc: A,
    on: &[bool],
    judged: &Judged<'_, A>,
    moving: &Moving,
) -> Result<Option<Room<A>>, OutOfMemory>
    requires told { IsTold judged.now.told.now.ranges.now }
    requires on { AreOnIn (told_value judged.now.told.now) judged.now.outline.now on.now }
    ensures { IfOk result (λ o. IsRoomFor (told_value judged.now.told.now)
        (code_given_value judged.now.given.now) judged.now.outline.now moving.now.region.slot
        (kind_in (space_of moving.now.space) moving.now.region.prefetch) o) }
{
    let slot = moving.region.slot;
    let kind = moving.space.kind(moving.region.prefetch);
    let Some(reach) = reach_of(alloc, judged.given, judged.outline, slot, kind)? else {
        return Ok(None);
    };
    let bus = slot.bus();
    let bridges = judged.outline.bridges()?;
    let board = Board {
        outline: judged.outline,
        given: *judged.given,
        told: *judged.told,
        on,
        bridges: &bridges,
    };
    let claims = claims_beside(alloc, &board, bus, moving.space)?;
    Ok(Some(Room { bus, reach, claims }))
}

/// Whether what was looked at is on a bus.
fn is_on<A: Allocator>(kept: &Option<Room<A>>, bus: u8) -> bool
    ensures { IsTrue result ↔ MatchOption kept.now ⊥ (λ room. room.bus ≡ bus) }
{
    match kept {
        None => false,
        Some(room) => room.bus == bus,
    }
}

/// Looks at what there is for a region on its bus, unless that was looked at last.
pub fn make_ready<A: Allocator + Copy>(
    alloc: A,
    kept: &mut Option<Room<A>>,
    on: &[bool],
    judged: &Judged<'_, A>,
    moving: &Moving,
) -> Result<(), OutOfMemory>
    requires told { IsTold judged.now.told.now.ranges.now }
    requires on { AreOnIn (told_value judged.now.told.now) judged.now.outline.now on.now }
    // else it would be of another kind, or of other functions
    requires kept { IsRoomKept (told_value judged.now.told.now) (code_given_value judged.now.given.now)
        judged.now.outline.now (kind_in (space_of moving.now.space) moving.now.region.prefetch) kept.old }
    ensures { OnOk result (IsRoomFor (told_value judged.now.told.now)
        (code_given_value judged.now.given.now) judged.now.outline.now moving.now.region.slot
        (kind_in (space_of moving.now.space) moving.now.region.prefetch) kept.new) }
{
    if is_on(kept, moving.region.slot.bus()) {
        return Ok(());
    }
    *kept = room_of(alloc, on, judged, moving)?;
    Ok(())
}
