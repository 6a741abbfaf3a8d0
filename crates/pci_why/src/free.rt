//! What is free for a region that would move: the addresses that get to its bus, and that no other region claims.
ghost use Rattle.std.specs.Prelude.{◌≡◌, ◌↔◌, IsTrue, IfOk};
ghost use Rattle.pci_base.specs.Space.{space_of};
ghost use Rattle.pci_tree.specs.Ranges.{IsCanonical};
ghost use Rattle.pci_why.specs.Free.{may_stand_at, IsOther, AreOfOthers};
ghost use Rattle.pci_why.specs.Fits.{AreFreeIn};

use super::missed::outside;
use super::room::{Moving, Room};
use pci_base::memory::OutOfMemory;
use pci_base::range::Range;
use pci_base::slot::Slot;
use pci_claims::claim::{Claim, is_same, may_share};
use pci_claims::gather::{common, gathered};
use std::alloc::Allocator;

/// Whether a region of a function may share an address with the region of a claim.
fn may_both<A: Allocator>(claim: &Claim<A>, slot: Slot, register: u16) -> bool
    ensures { result ≡ may_stand_at slot register claim.now }
{
    may_share(slot, register, claim.slot(), claim.register())
        || (claim.is_held() && claim.slot() == slot)
}

/// Whether a claim is of another region than the one of a function that is named, and may not share an address with it.
fn is_other<A: Allocator>(claim: &Claim<A>, slot: Slot, reg: u8) -> bool
    ensures { IsTrue result ↔ IsOther slot reg claim.now }
{
    let register = u16::from(reg);
    !is_same(claim.slot(), claim.register(), slot, register) && !may_both(claim, slot, register)
}

/// What others answer than the region that is named.
fn pieces_of_others<A: Allocator>(
    alloc: A,
    claims: &[Claim<A>],
    slot: Slot,
    reg: u8,
) -> Result<Vec<Range, A>, OutOfMemory>
    ensures { IfOk result (λ v. AreOfOthers claims.now slot reg v.items) }
{
    let mut out = Vec::new(alloc);
    for claim in claims {
        if is_other(claim, slot, reg) {
            out.extend_from_slice(claim.pieces())?;
        }
    }
    Ok(out)
}

/// The addresses that a region could have, by what there is on its bus: those that get there, and that no other region
/// claims which can clash with it. They are ranges that rise, with an address between each two.
pub fn free_in<A: Allocator + Copy>(
    alloc: A,
    room: &Room<A>,
    moving: &Moving,
) -> Result<Vec<Range, A>, OutOfMemory>
    // places are looked for in them from the lowest on
    ensures canonical { IfOk result (λ v. IsCanonical v.items) }
    ensures exact { IfOk result (λ v. AreFreeIn room.now (space_of moving.now.space)
        moving.now.region v.items) }
{
    let slot = moving.region.slot;
    let reg = moving.region.reg;
    let taken = gathered(pieces_of_others(alloc, room.claims(), slot, reg)?)?;
    let others_left = outside(alloc, moving.space.whole(), &taken)?;
    common(alloc, room.reach(), &others_left)
}
