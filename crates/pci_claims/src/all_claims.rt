//! All claims of a bus: those of its BARs, ROMs, windows, legacy parts and palette parts, and those of told ranges.
ghost use Rattle.std.specs.Prelude.{◌≡◌, ◌==◌, ◌<◌, ◌≤◌, length, IfOk, OnOk};
ghost use Rattle.std.specs.List.{AllWithin};
ghost use Rattle.pci_base.specs.Space.{space_of};
ghost use Rattle.pci_tree.specs.Ranges.{IsCanonical};
ghost use Rattle.judge_spec.specs.Told.{IsTold};
ghost use Rattle.pci_claims.specs.Values.{code_given_value, told_value};
ghost use Rattle.pci_claims.specs.BusClaims.{AreMoreClaims};
ghost use Rattle.pci_claims.specs.AllClaims.{AreClaimsInEach, IsClaimsBoard, IsStretchOf, AreRangeClaims};

use super::board::Board;
use super::bus_claims::{register_claims, sort};
use super::claim::{Arriving, Claim, told_claim_of};
use super::reach::reach_to;
use pci_base::memory::OutOfMemory;
use pci_base::space::Space;
use pci_dump::told_range::ToldRange;
use std::alloc::Allocator;

/// A part of a list, from one index to before another.
#[derive(Clone, Copy, Debug, PartialEq, Eq)]
pub struct Stretch {
    pub first: usize,
    pub end: usize,
}

impl Stretch {
    /// Whether it has no index.
    pub fn is_empty(self) -> bool
        ensures { result ≡ self.first == self.end }
    {
        self.first == self.end
    }
}

/// The index of the first told range on this bus or a higher one.
fn first_from(ranges: &[ToldRange], bus: u16) -> usize
    // they stand by slot, so it is found by halving
    requires { IsTold ranges.now }
    ensures bound { result ≤ length ranges.now }
    ensures before { AllWithin (λ r. r.slot.bus < bus) ranges.now 0 result }
    ensures after { AllWithin (λ r. bus ≤ r.slot.bus) ranges.now result (length ranges.now) }
{
    ranges.partition_point(|range| u16::from(range.slot.bus()) < bus)
}

/// The told ranges of a bus.
pub fn ranges_of(ranges: &[ToldRange], bus: u8) -> Stretch
    // they stand by slot, so those of a bus stand in a row
    requires { IsTold ranges.now }
    ensures { IsStretchOf ranges.now bus result }
{
    let first = first_from(ranges, u16::from(bus));
    let end = first_from(ranges, u16::from(bus) + 1);
    Stretch { first, end }
}

/// Adds what told ranges that are on answer of the addresses that get to their bus.
pub(crate) fn add_range_claims<A: Allocator + Copy>(
    alloc: A,
    claims: &mut Vec<Claim<A>, A>,
    board: &Board<'_, '_, A>,
    stretch: Stretch,
    arriving: &Arriving,
) -> Result<(), OutOfMemory>
    requires told { IsTold board.now.told.ranges.now }
    requires on { length board.now.on.now ≡ length board.now.told.ranges.now }
    requires low { stretch.first ≤ stretch.end }
    requires high { stretch.end ≤ length board.now.told.ranges.now }
    requires canonical { IsCanonical arriving.now.reach.now }
    ensures { OnOk result (AreMoreClaims (AreRangeClaims board.now.told.ranges.now board.now.on.now
        stretch.first stretch.end (space_of arriving.now.space) arriving.now.reach.now)
        claims.old.items claims.new.items) }
{
    let space = arriving.space;
    let reach = arriving.reach;
    for i in stretch.first..stretch.end {
        let range = &board.told.ranges[i];
        if board.on[i] && range.is_in(space) {
            let claim = told_claim_of(alloc, range, 256 + i as u16, reach)?;
            claims.push(claim)?;
        }
    }
    Ok(())
}

/// The claims of a bus and a space, by slot and register: of each BAR, ROM, window, legacy part and palette part of a
/// function there that claims an address of the space, and of each told range that is on, the addresses that it answers of
/// those that get to the bus.
pub fn claims_among<A: Allocator + Copy>(
    alloc: A,
    board: &Board<'_, '_, A>,
    bus: u8,
    space: Space,
) -> Result<Vec<Claim<A>, A>, OutOfMemory>
    // looked for once, for all buses
    requires { IsClaimsBoard (told_value board.now.told) board.now.outline.now board.now.on.now
        board.now.bridges.now }
    ensures { IfOk result (λ v. AreClaimsInEach (told_value board.now.told)
        (code_given_value board.now.given) board.now.outline.now bus (space_of space) v.items) }
{
    let mut claims = register_claims(alloc, board, bus, space)?;
    let stretch = ranges_of(board.told.ranges, bus);
    if stretch.is_empty() {
        return Ok(claims);
    }
    let reach = reach_to(alloc, &board.given, board.outline, bus, space)?;
    let arriving = Arriving {
        space,
        reach: &reach,
    };
    add_range_claims(alloc, &mut claims, board, stretch, &arriving)?;
    sort(&mut claims)?;
    Ok(claims)
}
