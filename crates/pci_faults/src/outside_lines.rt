//! All regions outside the host's ranges: one fault for each BAR, ROM or told range with an address to which no access
//! starts on the root above it.
ghost use Rattle.std.specs.Prelude.{IfOk, MatchOption};
ghost use Rattle.pci_claims.specs.Values.{code_given_value, told_value};
ghost use Rattle.pci_claims.specs.AllClaims.{IsClaimsBoard};
ghost use Rattle.pci_faults.specs.Named.{AreAllOutside};
ghost use Rattle.pci_faults.specs.OutsideLines.{IsNeverOutside, IsOutsideLine, AreOutsideLines};

use super::named::Outside;
use super::needed::{Needed, all_needed};
use pci_base::memory::OutOfMemory;
use pci_claims::board::Board;
use pci_claims::given::Given;
use pci_claims::outside::{least_unsent, root_above};
use pci_tree::outline::Outline;
use std::alloc::Allocator;

/// The address that a fault 63 of a region names: the least one to which no access starts on the root above it. None where
/// there is no such address.
fn least_outside_host<A: Allocator + Copy>(
    alloc: A,
    given: &Given<'_>,
    outline: &Outline<A>,
    one: &Needed,
) -> Result<Option<u64>, OutOfMemory>
    ensures { IfOk result (λ o. MatchOption o
        (IsNeverOutside (code_given_value given.now) outline.now one.now)
        (λ a. IsOutsideLine (code_given_value given.now) outline.now one.now a)) }
{
    let slot = one.name.slot;
    match outline.path(slot) {
        None => Ok(None),
        Some(bridges) => {
            let root = root_above(bridges.as_slice(), slot.bus());
            least_unsent(alloc, given, one.space, root, one.range)
        }
    }
}

/// The faults 63 of some regions, in their order.
fn outside_among<A: Allocator + Copy>(
    alloc: A,
    given: &Given<'_>,
    outline: &Outline<A>,
    list: &[Needed],
) -> Result<Vec<Outside, A>, OutOfMemory>
    ensures { IfOk result
        (λ v. AreOutsideLines (code_given_value given.now) outline.now list.now v.items) }
{
    let mut out = Vec::new(alloc);
    for one in list {
        if let Some(address) = least_outside_host(alloc, given, outline, one)? {
            out.push(Outside {
                region: one.name,
                space: one.space,
                address,
            })?;
        }
    }
    Ok(out)
}

/// All faults 63 of the systems with these records and root buses, with what is given and told. A region that has to be
/// sent has one where on the root above it no access starts to some address of it. The fault names the least such address.
/// They stand in the order in which judging looks for them.
pub fn all_outside<A: Allocator + Copy>(
    alloc: A,
    board: &Board<'_, '_, A>,
) -> Result<Vec<Outside, A>, OutOfMemory>
    requires { IsClaimsBoard (told_value board.now.told) board.now.outline.now board.now.on.now
        board.now.bridges.now }
    ensures { IfOk result (λ v. AreAllOutside (told_value board.now.told)
        (code_given_value board.now.given) board.now.outline.now v.items) }
{
    let given = &board.given;
    // all is sent to each root bus
    if given.io.is_none() && given.memory.is_none() {
        return Ok(Vec::new(alloc));
    }
    let list = all_needed(alloc, board)?;
    outside_among(alloc, given, board.outline, &list)
}
