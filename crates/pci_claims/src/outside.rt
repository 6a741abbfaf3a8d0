//! Addresses to which no access starts on a root bus, and the root bus above a function.
ghost use Rattle.std.specs.Prelude.{ℕ, IfOk, MatchOption};
ghost use Rattle.pci_base.specs.Space.{space_of};
ghost use Rattle.pci_tree.specs.Ranges.{Holds};
ghost use Rattle.pci_claims.specs.Values.{code_given_value};
ghost use Rattle.pci_claims.specs.Outside.{IsSent, IsLeastUnsent, IsRootOfPath};

use super::given::Given;
use super::sent::sent_to;
use pci_base::memory::OutOfMemory;
use pci_base::range::Range;
use pci_base::slot::Slot;
use pci_base::space::Space;
use pci_tree::ranges::least_outside;
use std::alloc::Allocator;

/// The least address of a range to which no access starts on a root bus.
pub fn least_unsent<A: Allocator + Copy>(
    alloc: A,
    given: &Given<'_>,
    space: Space,
    root: u8,
    range: Range,
) -> Result<Option<u64>, OutOfMemory>
    ensures { IfOk result (λ o. MatchOption o ((a : ℕ) → Holds range a
        → IsSent (code_given_value given.now) (space_of space) root a)
        (λ a. IsLeastUnsent (code_given_value given.now) (space_of space) root range a)) }
{
    if range.last < range.first {
        return Ok(None);
    }
    let sent = sent_to(alloc, given, space, root)?;
    Ok(least_outside(range, &sent))
}

/// The root bus that a path begins at, the path ending at a bus.
pub fn root_above(path: &[Slot], end: u8) -> u8
    ensures { IsRootOfPath path.now end result }
{
    if path.is_empty() { end } else { path[0].bus() }
}
