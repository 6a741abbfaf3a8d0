//! Regions that have to be sent and reached: the enabled BARs and ROMs, and the told ranges that are on and that aren't
//! held.
ghost use Rattle.std.specs.Prelude.{◌≡◌, IfOk, OnOk};
ghost use Rattle.std.specs.List.Sorted.{IsNonDecreasingBy, IsPermutation};
ghost use Rattle.judge_spec.specs.ToldAllFaults.{region_number};
ghost use Rattle.pci_claims.specs.Values.{told_value};
ghost use Rattle.pci_claims.specs.AllClaims.{IsClaimsBoard};
ghost use Rattle.pci_faults.specs.Needed.{needed_place, AreAllNeeded, AreToldNeeded};

use super::bars_and_roms::add_bars_and_roms;
use super::named::Name;
use super::told_needed::add_told;
use pci_base::memory::OutOfMemory;
use pci_base::range::Range;
use pci_base::space::Space;
use pci_claims::board::Board;
use std::alloc::Allocator;

/// A region that has to be sent and reached, and its addresses.
#[derive(Clone, Copy, Debug, PartialEq, Eq)]
pub struct Needed {
    pub name: Name,
    pub space: Space,
    /// Whether a prefetchable window passes it, too.
    pub prefetch: bool,
    pub range: Range,
}

/// The place of a region in the order of slots and registers, below 2^29.
fn place(name: Name) -> u32
    ensures { result ≡ region_number name.slot name.register }
{
    u32::from(name.slot.number()) * 8192 + u32::from(name.register)
}

/// Sorts regions by slot and register.
fn sort<A: Allocator>(list: &mut Vec<Needed, A>) -> Result<(), OutOfMemory>
    ensures permutation { IsPermutation list.old.items list.new.items }
    ensures sorted { OnOk result (IsNonDecreasingBy needed_place list.new.items) }
{
    match list.sort_by_key(|needed| place(needed.name)) {
        Ok(()) => Ok(()),
        Err(_) => Err(OutOfMemory),
    }
}

/// The told ranges that have to be sent and reached, by slot and register.
pub fn told_needed<A: Allocator + Copy>(
    alloc: A,
    board: &Board<'_, '_, A>,
) -> Result<Vec<Needed, A>, OutOfMemory>
    requires { IsClaimsBoard (told_value board.now.told) board.now.outline.now board.now.on.now
        board.now.bridges.now }
    ensures { IfOk result
        (λ v. AreToldNeeded (told_value board.now.told) board.now.outline.now v.items) }
{
    let mut list = Vec::new(alloc);
    add_told(&mut list, &board.told, board.on)?;
    sort(&mut list)?;
    Ok(list)
}

/// All regions that have to be sent and reached, by slot and register.
pub fn all_needed<A: Allocator + Copy>(
    alloc: A,
    board: &Board<'_, '_, A>,
) -> Result<Vec<Needed, A>, OutOfMemory>
    requires { IsClaimsBoard (told_value board.now.told) board.now.outline.now board.now.on.now
        board.now.bridges.now }
    ensures { IfOk result
        (λ v. AreAllNeeded (told_value board.now.told) board.now.outline.now v.items) }
{
    let mut list = Vec::new(alloc);
    add_bars_and_roms(&mut list, board.outline)?;
    add_told(&mut list, &board.told, board.on)?;
    sort(&mut list)?;
    Ok(list)
}
