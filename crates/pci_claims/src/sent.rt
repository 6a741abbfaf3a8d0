//! What the host sends to a root bus.
ghost use Rattle.std.specs.Prelude.{◌≡◌, ◌≤◌, ◌↔◌, ℕ, map, MatchOption, IfOk};
ghost use Rattle.std.specs.Option.{option_map};
ghost use Rattle.pci_tree.specs.Ranges.{Holds};
ghost use Rattle.pci_base.specs.Space.{space_of};
ghost use Rattle.judge_spec.specs.Given.{is_for, ranges_said};
ghost use Rattle.pci_tree.specs.Reaches.{IsWhole};
ghost use Rattle.pci_claims.specs.Values.{host_value, code_given_value};
ghost use Rattle.pci_claims.specs.Sent.{IsSentTo, IsPartAt, ArePartsOf};

use super::gather::gathered;
use super::given::Given;
use pci_base::memory::OutOfMemory;
use pci_base::range::{Range, RootRange};
use pci_base::space::Space;
use pci_tree::ranges::meet;
use std::alloc::Allocator;

/// Whether a root bus is the one that is said, or none is.
pub fn is_for(said: Option<u8>, root: u8) -> bool
    ensures { result ≡ is_for said root }
{
    match said {
        None => true,
        Some(bus) => bus == root,
    }
}

/// The part of a range that is of a space and for a root bus.
fn part_of(range: RootRange, space: Space, root: u8) -> Option<Range>
    ensures { MatchOption result ((a : ℕ) → IsPartAt range (space_of space) root a → ⊥)
        (λ m. (m.first ≤ m.last)
        × ((a : ℕ) → Holds m a ↔ IsPartAt range (space_of space) root a)) }
{
    if is_for(range.root, root) {
        meet(space.whole(), range.range)
    } else {
        None
    }
}

/// The parts of ranges that are of a space and for a root bus.
fn parts<A: Allocator>(
    alloc: A,
    ranges: &[RootRange],
    space: Space,
    root: u8,
) -> Result<Vec<Range, A>, OutOfMemory>
    ensures { IfOk result (λ v. ArePartsOf ranges.now (space_of space) root v.items) }
{
    let mut out = Vec::new(alloc);
    for range in ranges {
        if let Some(m) = part_of(*range, space, root) {
            out.push(m)?;
        }
    }
    Ok(out)
}

/// The ranges that are said of a space.
pub fn ranges_said<'a>(given: &Given<'a>, space: Space) -> Option<&'a [RootRange]>
    ensures { ranges_said (code_given_value given.now) (space_of space)
        ≡ option_map (λ rs. map host_value rs.now) result }
{
    match space {
        Space::Io => given.io,
        Space::Mem => given.memory,
    }
}

/// All addresses of a space.
pub(crate) fn all_of<A: Allocator>(alloc: A, space: Space) -> Result<Vec<Range, A>, OutOfMemory>
    ensures { IfOk result (λ v. IsWhole (space_of space) v.items) }
{
    let mut out = Vec::new(alloc);
    out.push(space.whole())?;
    Ok(out)
}

/// The addresses of a space that the host sends to a root bus.
pub fn sent_to<A: Allocator + Copy>(
    alloc: A,
    given: &Given<'_>,
    space: Space,
    root: u8,
) -> Result<Vec<Range, A>, OutOfMemory>
    ensures { IfOk result (λ v. IsSentTo (code_given_value given.now) (space_of space) root v.items) }
{
    match ranges_said(given, space) {
        None => all_of(alloc, space),
        Some(ranges) => gathered(parts(alloc, ranges, space, root)?),
    }
}
