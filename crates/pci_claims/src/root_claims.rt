//! The claims of all root buses.
ghost use Rattle.std.specs.Prelude.{IfOk};
ghost use Rattle.pci_base.specs.Space.{space_of};
ghost use Rattle.pci_claims.specs.Values.{code_given_value, told_value};
ghost use Rattle.pci_claims.specs.AllClaims.{IsClaimsBoard};
ghost use Rattle.pci_claims.specs.RootClaims.{AreRootClaimsInEach};

use super::all_claims::claims_among;
use super::board::Board;
use super::claim::Claim;
use pci_base::memory::OutOfMemory;
use pci_base::slot::BUSES;
use pci_base::space::Space;
use std::alloc::Allocator;

/// The claims of all root buses in a space, by slot and register.
pub fn claims_of_roots<A: Allocator + Copy>(
    alloc: A,
    board: &Board<'_, '_, A>,
    space: Space,
) -> Result<Vec<Claim<A>, A>, OutOfMemory>
    // looked for once, for all buses
    requires { IsClaimsBoard (told_value board.now.told) board.now.outline.now board.now.on.now
        board.now.bridges.now }
    ensures { IfOk result (λ v. AreRootClaimsInEach (told_value board.now.told)
        (code_given_value board.now.given) board.now.outline.now (space_of space) v.items) }
{
    let roots = board.outline.roots();
    let mut all = Vec::new(alloc);
    for bus in 0..BUSES {
        if roots.has(bus as u8) {
            let mut claims = claims_among(alloc, board, bus as u8, space)?;
            all.append(&mut claims)?;
        }
    }
    Ok(all)
}
