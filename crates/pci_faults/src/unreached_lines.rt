//! All unreached regions: one fault for each BAR, ROM or told range with an address that the host sends to the root above
//! it and that a bridge on the way from there doesn't pass.
ghost use Rattle.std.specs.Prelude.{IfOk, IsTrue};
ghost use Rattle.pci_spec.specs.System.{Io};
ghost use Rattle.pci_check.specs.Judgement.{AreHome};
ghost use Rattle.pci_check.specs.Stops.{AreReachesOf, AlwaysNested};
ghost use Rattle.pci_claims.specs.Values.{code_given_value, told_value};
ghost use Rattle.pci_claims.specs.AllClaims.{IsClaimsBoard};
ghost use Rattle.pci_faults.specs.Named.{AreAllUnreached};
ghost use Rattle.pci_faults.specs.Stopped.{NeverCut};
ghost use Rattle.pci_faults.specs.UnreachedLines.{AreUnreachedLines};

use super::first_unreached::{are_any_cut, stop_of_lost};
use super::named::Unreached;
use super::needed::{Needed, all_needed, told_needed};
use pci_base::memory::OutOfMemory;
use pci_base::slot::BUSES;
use pci_base::space::Space;
use pci_check::reached::Reached;
use pci_check::unreached::first_unreached;
use pci_claims::board::Board;
use pci_claims::given::Given;
use pci_tree::outline::Outline;
use std::alloc::Allocator;

/// The faults 60 of some regions, in their order.
fn unreached_among<A: Allocator + Copy>(
    alloc: A,
    given: &Given<'_>,
    outline: &Outline<A>,
    reached: &Reached<A>,
    list: &[Needed],
) -> Result<Vec<Unreached, A>, OutOfMemory>
    requires reached { AreReachesOf outline.now reached.now }
    requires nested { AlwaysNested outline.now }
    ensures { IfOk result
        (λ v. AreUnreachedLines (code_given_value given.now) outline.now list.now v.items) }
{
    let mut out = Vec::new(alloc);
    for one in list {
        if let Some(stop) = stop_of_lost(alloc, given, outline, reached, one)? {
            out.push(Unreached {
                region: one.name,
                space: one.space,
                address: stop.address,
                bridge: stop.bridge,
            })?;
        }
    }
    Ok(out)
}

/// Whether the windows on the way to each BAR and ROM pass all of it.
fn are_home<A: Allocator + Copy>(
    outline: &Outline<A>,
    reached: &Reached<A>,
) -> Result<bool, OutOfMemory>
    requires reached { AreReachesOf outline.now reached.now }
    requires nested { AlwaysNested outline.now }
    ensures { IfOk result (λ home. IsTrue home → AreHome outline.now) }
{
    for bus in 0..BUSES {
        let io = outline.regions(bus as u8, Space::Io)?;
        let memory = outline.regions(bus as u8, Space::Mem)?;
        if let Some(_) = first_unreached(outline, reached, bus as u8, &io, &memory) {
            return Ok(false);
        }
    }
    Ok(true)
}

/// The same, where ISA Enable takes nothing from a window.
fn are_all_home<A: Allocator + Copy>(
    given: &Given<'_>,
    outline: &Outline<A>,
    reached: &Reached<A>,
) -> Result<bool, OutOfMemory>
    requires reached { AreReachesOf outline.now reached.now }
    requires nested { AlwaysNested outline.now }
    ensures { IfOk result (λ home. IsTrue home
        → AreHome outline.now × NeverCut (code_given_value given.now) Io) }
{
    if are_any_cut(given, Space::Io) {
        Ok(false)
    } else {
        are_home(outline, reached)
    }
}

/// All faults 60 of the systems with these records and root buses, with what is given and told. A region that has to be
/// reached has one where a bridge on the way to it doesn't pass some address that the host sends to the root above. The
/// fault names the first such bridge and the least address that this one doesn't pass. They stand in the order in which
/// judging looks for them.
pub fn all_unreached<A: Allocator + Copy>(
    alloc: A,
    board: &Board<'_, '_, A>,
) -> Result<Vec<Unreached, A>, OutOfMemory>
    requires { IsClaimsBoard (told_value board.now.told) board.now.outline.now board.now.on.now
        board.now.bridges.now }
    ensures { IfOk result (λ v. AreAllUnreached (told_value board.now.told)
        (code_given_value board.now.given) board.now.outline.now v.items) }
{
    let given = &board.given;
    let reached = Reached::of(board.outline)?;
    // so it is on most boards, and what else is given only adds to what windows pass
    if are_all_home(given, board.outline, &reached)? {
        let list = told_needed(alloc, board)?;
        return unreached_among(alloc, given, board.outline, &reached, &list);
    }
    let list = all_needed(alloc, board)?;
    unreached_among(alloc, given, board.outline, &reached, &list)
}
