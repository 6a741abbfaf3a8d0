//! All clashes: one for each region that answers an address with one before it on its bus.
ghost use Rattle.std.specs.Prelude.{◌≡◌, ◌<◌, ◌++◌, length, map, IfOk, OnOk};
ghost use Rattle.pci_base.specs.Space.{space_of};
ghost use Rattle.pci_faults.specs.Shares.{AreWithin};
ghost use Rattle.pci_claims.specs.Values.{code_given_value, told_value};
ghost use Rattle.pci_claims.specs.AllClaims.{IsClaimsBoard};
ghost use Rattle.pci_faults.specs.Clashes.{claim_name, claims_clash, AreClashesAdded, IsOnBusIn};
ghost use Rattle.pci_faults.specs.Named.{AreAllClashes};

use super::meetings::meetings;
use super::named::{Clash, Name};
use super::quiet::is_bus_quiet;
use super::region_order::sort_clashes;
use crate::shares::{Among, Share};
use pci_base::memory::OutOfMemory;
use pci_base::slot::BUSES;
use pci_base::space::Space;
use pci_claims::all_claims::claims_among;
use pci_claims::board::Board;
use pci_claims::claim::Claim;
use std::alloc::Allocator;

/// The region of a claim.
pub(crate) fn name_of<A: Allocator>(claim: &Claim<A>) -> Name
    ensures { result ≡ claim_name claim.now }
{
    Name {
        slot: claim.slot(),
        register: claim.register(),
    }
}

/// The clash that two claims of a list tell of.
fn clash<A: Allocator>(claims: &[Claim<A>], bus: u8, space: Space, share: Share) -> Clash
    requires first { share.first < length claims.now }
    requires second { share.second < length claims.now }
    ensures { result ≡ claims_clash bus space claims.now share }
{
    Clash {
        bus,
        space,
        address: share.address,
        first: name_of(&claims[share.first]),
        second: name_of(&claims[share.second]),
    }
}

/// Adds the clashes that claims of a list tell of.
fn add_told<A: Allocator>(
    out: &mut Vec<Clash, A>,
    claims: &[Claim<A>],
    bus: u8,
    space: Space,
    shares: &[Share],
) -> Result<(), OutOfMemory>
    // a share names two of the claims by their index
    requires { AreWithin (length claims.now) shares.now }
    ensures { OnOk result
        (out.new.items ≡ out.old.items ++ map (claims_clash bus space claims.now) shares.now) }
{
    for share in shares {
        out.push(clash(claims, bus, space, *share))?;
    }
    Ok(())
}

/// Adds the clashes of a bus in a space.
fn add_clashes_in<A: Allocator + Copy>(
    alloc: A,
    out: &mut Vec<Clash, A>,
    board: &Board<'_, '_, A>,
    bus: u8,
    space: Space,
) -> Result<(), OutOfMemory>
    requires { IsClaimsBoard (told_value board.now.told) board.now.outline.now board.now.on.now
        board.now.bridges.now }
    ensures { OnOk result (AreClashesAdded (IsOnBusIn bus (space_of space))
        (told_value board.now.told) (code_given_value board.now.given) board.now.outline.now
        out.old.items out.new.items) }
{
    // so it is on most buses, and lists of claims cost more
    if is_bus_quiet(alloc, board, bus, space)? {
        return Ok(());
    }
    let claims = claims_among(alloc, board, bus, space)?;
    let shares = meetings(alloc, &claims, Among::Bus(bus))?;
    add_told(out, &claims, bus, space, &shares)
}

/// Adds the clashes of a bus.
fn add_clashes_on<A: Allocator + Copy>(
    alloc: A,
    out: &mut Vec<Clash, A>,
    board: &Board<'_, '_, A>,
    bus: u8,
) -> Result<(), OutOfMemory>
    requires { IsClaimsBoard (told_value board.now.told) board.now.outline.now board.now.on.now
        board.now.bridges.now }
    ensures { OnOk result (AreClashesAdded (λ b sp. b ≡ bus) (told_value board.now.told)
        (code_given_value board.now.given) board.now.outline.now out.old.items out.new.items) }
{
    add_clashes_in(alloc, out, board, bus, Space::Io)?;
    add_clashes_in(alloc, out, board, bus, Space::Mem)
}

/// Adds the clashes of all buses.
fn add_clashes<A: Allocator + Copy>(
    alloc: A,
    out: &mut Vec<Clash, A>,
    board: &Board<'_, '_, A>,
) -> Result<(), OutOfMemory>
    requires { IsClaimsBoard (told_value board.now.told) board.now.outline.now board.now.on.now
        board.now.bridges.now }
    ensures { OnOk result (AreClashesAdded (λ b sp. Unit {0}) (told_value board.now.told)
        (code_given_value board.now.given) board.now.outline.now out.old.items out.new.items) }
{
    for bus in 0..BUSES {
        add_clashes_on(alloc, out, board, bus as u8)?;
    }
    Ok(())
}

/// All clashes of the systems with these records and root buses, with what is given and told: 61 of each region that answers
/// an address with one before it on its bus, by slot and register, where the two may not share it; with the least such
/// address and the first region that answers it. Two regions may share an address: two of a window, the legacy part and the
/// palette part of one bridge, two held ranges, and a held range and a region of its function. They stand in the order in
/// which judging looks for them.
pub fn all_clashes<A: Allocator + Copy>(
    alloc: A,
    board: &Board<'_, '_, A>,
) -> Result<Vec<Clash, A>, OutOfMemory>
    requires { IsClaimsBoard (told_value board.now.told) board.now.outline.now board.now.on.now
        board.now.bridges.now }
    ensures { IfOk result (λ v. AreAllClashes (told_value board.now.told) (code_given_value board.now.given)
        board.now.outline.now v.items) }
{
    let mut clashes = Vec::new(alloc);
    add_clashes(alloc, &mut clashes, board)?;
    sort_clashes(&mut clashes)?;
    Ok(clashes)
}
