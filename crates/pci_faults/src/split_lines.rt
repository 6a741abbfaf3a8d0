//! All splits: one for each region of a root bus that answers an address with one before it on another root.
ghost use Rattle.std.specs.Prelude.{◌≡◌, ◌<◌, ◌++◌, length, map, IfOk, OnOk};
ghost use Rattle.pci_base.specs.Space.{space_of};
ghost use Rattle.pci_faults.specs.Shares.{AreWithin};
ghost use Rattle.pci_claims.specs.Values.{code_given_value, told_value};
ghost use Rattle.pci_claims.specs.AllClaims.{IsClaimsBoard};
ghost use Rattle.pci_faults.specs.Splits.{claims_split, AreSplitsAdded, IsSplitIn};
ghost use Rattle.pci_faults.specs.Named.{AreAllSplits};

use super::clash_lines::name_of;
use super::meetings::meetings;
use super::named::Split;
use super::quiet::are_roots_quiet;
use super::region_order::sort_splits;
use crate::shares::{Among, Share};
use pci_base::memory::OutOfMemory;
use pci_base::space::Space;
use pci_claims::board::Board;
use pci_claims::claim::Claim;
use pci_claims::root_claims::claims_of_roots;
use std::alloc::Allocator;

/// The split that two claims of a list tell of.
fn split<A: Allocator>(claims: &[Claim<A>], space: Space, share: Share) -> Split
    requires first { share.first < length claims.now }
    requires second { share.second < length claims.now }
    ensures { result ≡ claims_split space claims.now share }
{
    Split {
        space,
        address: share.address,
        first: name_of(&claims[share.first]),
        second: name_of(&claims[share.second]),
    }
}

/// Adds the splits that claims of a list tell of.
fn add_told<A: Allocator>(
    out: &mut Vec<Split, A>,
    claims: &[Claim<A>],
    space: Space,
    shares: &[Share],
) -> Result<(), OutOfMemory>
    // a share names two of the claims by their index
    requires { AreWithin (length claims.now) shares.now }
    ensures { OnOk result
        (out.new.items ≡ out.old.items ++ map (claims_split space claims.now) shares.now) }
{
    for share in shares {
        out.push(split(claims, space, *share))?;
    }
    Ok(())
}

/// Adds the splits of a space.
fn add_splits_in<A: Allocator + Copy>(
    alloc: A,
    out: &mut Vec<Split, A>,
    board: &Board<'_, '_, A>,
    space: Space,
) -> Result<(), OutOfMemory>
    requires { IsClaimsBoard (told_value board.now.told) board.now.outline.now board.now.on.now
        board.now.bridges.now }
    ensures { OnOk result (AreSplitsAdded (IsSplitIn (space_of space)) (told_value board.now.told)
        (code_given_value board.now.given) board.now.outline.now out.old.items out.new.items) }
{
    if are_roots_quiet(alloc, board, space)? {
        return Ok(());
    }
    let claims = claims_of_roots(alloc, board, space)?;
    let shares = meetings(alloc, &claims, Among::Roots)?;
    add_told(out, &claims, space, &shares)
}

/// Adds the splits of both spaces.
fn add_splits<A: Allocator + Copy>(
    alloc: A,
    out: &mut Vec<Split, A>,
    board: &Board<'_, '_, A>,
) -> Result<(), OutOfMemory>
    requires { IsClaimsBoard (told_value board.now.told) board.now.outline.now board.now.on.now
        board.now.bridges.now }
    ensures { OnOk result (AreSplitsAdded (λ sp. Unit {0}) (told_value board.now.told)
        (code_given_value board.now.given) board.now.outline.now out.old.items out.new.items) }
{
    add_splits_in(alloc, out, board, Space::Io)?;
    add_splits_in(alloc, out, board, Space::Mem)
}

/// All splits of the systems with these records and root buses, with what is given and told: 62 of each region on a root bus
/// that answers an address with one before it, by slot and register, on another root, where accesses to it start on both
/// and not both are held ranges; with the least such address and the first region that answers it. They stand in the order
/// in which judging looks for them.
pub fn all_splits<A: Allocator + Copy>(
    alloc: A,
    board: &Board<'_, '_, A>,
) -> Result<Vec<Split, A>, OutOfMemory>
    requires { IsClaimsBoard (told_value board.now.told) board.now.outline.now board.now.on.now
        board.now.bridges.now }
    ensures { IfOk result (λ v. AreAllSplits (told_value board.now.told) (code_given_value board.now.given)
        board.now.outline.now v.items) }
{
    let mut splits = Vec::new(alloc);
    add_splits(alloc, &mut splits, board)?;
    sort_splits(&mut splits)?;
    Ok(splits)
}
