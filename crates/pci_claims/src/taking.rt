//! What bridges take as no region of their bus claims it (PCI 3.0, 3.6.1: subtractive decoding).
ghost use Rattle.std.specs.Prelude.{◌≡◌, ◌≤◌, [], map, IfOk, OnOk};
ghost use Rattle.std.specs.List.{All};
ghost use Rattle.pci_spec.specs.System.{System};
ghost use Rattle.pci_base.specs.Space.{space_of};
ghost use Rattle.pci_tree.specs.Trees.{HasTree};
ghost use Rattle.judge_spec.specs.Unclaimed.{IsTakingBridge, AreTaking};
ghost use Rattle.pci_claims.specs.Values.{code_given_value, taking_value, told_value};
ghost use Rattle.pci_claims.specs.AllClaims.{IsClaimsBoard};
ghost use Rattle.pci_claims.specs.Taking.{OneHas, IsLeft, IsAnswered, AreMorePieces, AreOtherClaimsOn, AreClaimedOn, AreUnclaimedRuns};

use super::all_claims::{add_range_claims, ranges_of};
use super::board::Board;
use super::bus_claims::part_claims;
use super::claim::{Arriving, Claim, own};
use super::gaps::free_runs;
use super::gather::gathered;
use super::given::{Given, TakingBridge};
use super::isa::is_cut;
use super::sent::all_of;
use pci_base::memory::OutOfMemory;
use pci_base::range::Range;
use pci_base::slot::Slot;
use pci_base::space::Space;
use pci_tree::region::Region;
use std::alloc::{Allocator, Global};
use std::marker::Model;
use std::slice;

/// A bridge that takes what no region of its bus claims, and the ranges of addresses that none claims.
#[derive(Drop)]
pub struct Taking<A: Allocator = Global> {
    slot: Slot,
    io: Vec<Range, A>,
    memory: Vec<Range, A>,
}

impl<A: Allocator> Model for Taking<A> {
    ghost use Rattle.std.specs.Prelude.{map};
    ghost use Rattle.pci_base.specs.Ranges.{decoded_range_of};
    ghost use Rattle.judge_spec.specs.Given.{TakingBridge as BridgeValue};

    ghost Value = { BridgeValue };

    ghost view = { λ t. record {
      slot = t.slot;
      io = map decoded_range_of t.io.items;
      memory = map decoded_range_of t.memory.items;
    } };
}

impl<A: Allocator> Taking<A> {
    /// The bridge with its ranges.
    pub fn lent(&self) -> TakingBridge<'_>
        ensures { taking_value result ≡ self.now }
    {
        TakingBridge {
            slot: self.slot,
            io: &self.io,
            memory: &self.memory,
        }
    }
}

/// Adds the addresses of a region of a space that ISA Enable doesn't take.
fn add_own<A: Allocator + Copy>(
    out: &mut Vec<Range, A>,
    given: &Given<'_>,
    region: &Region,
    space: Space,
) -> Result<(), OutOfMemory>
    ensures { OnOk result (AreMorePieces (IsLeft (code_given_value given.now) (space_of space) region.now)
        out.old.items out.new.items) }
{
    if is_cut(given, space, region) {
        let pieces = own(*out.allocator(), given, region, space)?;
        out.extend_from_slice(&pieces)?;
        return Ok(());
    }
    // ranges are sorted and joined, for which none may be empty
    if region.last < region.first {
        return Ok(());
    }
    out.push(Range {
        first: region.first,
        last: region.last,
    })?;
    Ok(())
}

/// The addresses of regions of a space that ISA Enable doesn't take, region by region.
fn own_pieces<A: Allocator + Copy>(
    alloc: A,
    given: &Given<'_>,
    regions: &[Region],
    space: Space,
) -> Result<Vec<Range, A>, OutOfMemory>
    ensures { IfOk result (λ v. AreMorePieces (OneHas (IsLeft (code_given_value given.now) (space_of space))
        regions.now) [] v.items) }
{
    let Ok(mut out) = Vec::with_capacity(alloc, regions.len()) else {
        return Err(OutOfMemory);
    };
    for region in regions {
        add_own(&mut out, given, region, space)?;
    }
    Ok(out)
}

/// What legacy parts, palette parts and told ranges of a bus claim of a space, whether or not any access gets there.
fn other_claims<A: Allocator + Copy>(
    alloc: A,
    board: &Board<'_, '_, A>,
    bus: u8,
    space: Space,
) -> Result<Vec<Claim<A>, A>, OutOfMemory>
    requires { IsClaimsBoard (told_value board.now.told) board.now.outline.now board.now.on.now
        board.now.bridges.now }
    ensures { IfOk result (λ v. (s : System) → HasTree board.now.outline.now s
        → AreOtherClaimsOn (told_value board.now.told) (code_given_value board.now.given) s bus (space_of space) v.items) }
{
    let whole = all_of(alloc, space)?;
    let arriving = Arriving {
        space,
        reach: &whole,
    };
    let mut claims = part_claims(alloc, board, bus, &arriving)?;
    let stretch = ranges_of(board.told.ranges, bus);
    add_range_claims(alloc, &mut claims, board, stretch, &arriving)?;
    Ok(claims)
}

/// Adds the addresses of some claims, claim by claim.
fn add_pieces<A: Allocator>(out: &mut Vec<Range, A>, claims: &[Claim<A>]) -> Result<(), OutOfMemory>
    ensures { OnOk result (AreMorePieces (OneHas IsAnswered claims.now) out.old.items out.new.items) }
{
    for claim in claims {
        out.extend_from_slice(claim.pieces())?;
    }
    Ok(())
}

/// The addresses of a space that regions of a bus claim, told ranges among them.
fn claimed_on<A: Allocator + Copy>(
    alloc: A,
    board: &Board<'_, '_, A>,
    bus: u8,
    space: Space,
) -> Result<Vec<Range, A>, OutOfMemory>
    requires { IsClaimsBoard (told_value board.now.told) board.now.outline.now board.now.on.now
        board.now.bridges.now }
    // they are sorted and joined, for which none may be empty
    ensures lawful { IfOk result (λ v. All (λ r. r.first ≤ r.last) v.items) }
    ensures exact { IfOk result (λ v. (s : System) → HasTree board.now.outline.now s
        → AreClaimedOn (told_value board.now.told) (code_given_value board.now.given) s bus (space_of space) v.items) }
{
    let regions = board.outline.regions(bus, space)?;
    let mut pieces = own_pieces(alloc, &board.given, &regions, space)?;
    let others = other_claims(alloc, board, bus, space)?;
    add_pieces(&mut pieces, &others)?;
    Ok(pieces)
}

/// The addresses of a space that no region of a bus claims: ranges that rise, with an address between each two.
fn unclaimed_on<A: Allocator + Copy>(
    alloc: A,
    board: &Board<'_, '_, A>,
    bus: u8,
    space: Space,
) -> Result<Vec<Range, A>, OutOfMemory>
    requires { IsClaimsBoard (told_value board.now.told) board.now.outline.now board.now.on.now
        board.now.bridges.now }
    ensures { IfOk result (λ v. (s : System) → HasTree board.now.outline.now s
        → AreUnclaimedRuns (told_value board.now.told) (code_given_value board.now.given) s bus (space_of space) v.items) }
{
    let claimed = gathered(claimed_on(alloc, board, bus, space)?)?;
    free_runs(alloc, space.whole(), &claimed)
}

/// What the bridge at a slot takes.
fn taking_at<A: Allocator + Copy>(
    alloc: A,
    board: &Board<'_, '_, A>,
    slot: Slot,
) -> Result<Taking<A>, OutOfMemory>
    requires { IsClaimsBoard (told_value board.now.told) board.now.outline.now board.now.on.now
        board.now.bridges.now }
    ensures { IfOk result (λ t. (s : System) → HasTree board.now.outline.now s
        → IsTakingBridge (told_value board.now.told) (code_given_value board.now.given) s slot t) }
{
    let io = unclaimed_on(alloc, board, slot.bus(), Space::Io)?;
    let memory = unclaimed_on(alloc, board, slot.bus(), Space::Mem)?;
    Ok(Taking { slot, io, memory })
}

/// What the bridges at some slots take, in their order: of each space the greatest runs of addresses that no BAR, ROM or
/// window, no legacy part or palette part, and no told range of their bus claims. Their own windows are among these.
pub fn taking_bridges<A: Allocator + Copy>(
    alloc: A,
    board: &Board<'_, '_, A>,
    slots: &[Slot],
) -> Result<Vec<Taking<A>, A>, OutOfMemory>
    // looked for once, for all buses
    requires { IsClaimsBoard (told_value board.now.told) board.now.outline.now board.now.on.now
        board.now.bridges.now }
    ensures { IfOk result (λ v. (s : System) → HasTree board.now.outline.now s
        → AreTaking (told_value board.now.told) (code_given_value board.now.given) s slots.now v.items) }
{
    let mut out = Vec::new(alloc);
    for slot in slots {
        let taking = taking_at(alloc, board, *slot)?;
        out.push(taking)?;
    }
    Ok(out)
}

/// These bridges with their ranges.
pub fn all_lent<'a, A: Allocator, B: Allocator>(
    alloc: A,
    taking: &'a [Taking<B>],
) -> Result<Vec<TakingBridge<'a>, A>, OutOfMemory>
    ensures { IfOk result (λ v. map taking_value v.items ≡ taking.now) }
{
    let mut out = Vec::new(alloc);
    for bridge in taking {
        out.extend_from_slice(slice::from_ref(&bridge.lent()))?;
    }
    Ok(out)
}
