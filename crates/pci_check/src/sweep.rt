//! Of regions sorted by first address: the least address that two of them claim, and the two least that do.
ghost use Rattle.std.specs.Prelude.{◌<◌, ◌≤◌, ◌↔◌, ◌⊎◌, ℕ, length, IsTrue, IfSome, MatchOption};
ghost use Rattle.std.specs.List.Sorted.{IsNonDecreasingBy, IsPermutation};
ghost use Rattle.pci_spec.specs.JudgingLaws.{region_number};
ghost use Rattle.pci_tree.specs.declared.region.Region.{Region};
ghost use Rattle.pci_tree.specs.Ranges.{Covers, IsCanonical};
ghost use Rattle.pci_tree.specs.Regions.{region_number as number_of};
ghost use Rattle.pci_check.specs.Sweep.{Spans, ReachesAddress, IsLeastMet, IsTwice, IsLeastTwice, Follows, IsLesser, IsClaimant, IsLeastClaimant, AreTwoLeast, StandByFirst, AreDistinct, IsUnshared, IsFirstOverlap};

use pci_base::range::Range;
use pci_base::slot::Slot;
use pci_tree::ranges::least_from;
use pci_tree::region::Region;
use std::alloc::Allocator;

/// The least address of `allowed` that the region claims, up to what is reached.
fn least_met(allowed: &[Range], region: &Region, reached: Option<u64>) -> Option<u64>
    requires { IsCanonical allowed.now }
    ensures { MatchOption result
        ((a : ℕ) → Spans region.now a → ReachesAddress reached a → Covers allowed.now a → ⊥)
        (λ a. IsLeastMet allowed.now region.now reached a) }
{
    let Some(most) = reached else {
        return None;
    };
    let last = if region.last < most {
        region.last
    } else {
        most
    };
    match least_from(allowed, region.first) {
        None => None,
        Some(a) => if a <= last { Some(a) } else { None },
    }
}

/// What is reached with one more region, which ends at `last`.
fn extended(reached: Option<u64>, last: u64) -> Option<u64>
    ensures { (a : ℕ) → ReachesAddress result a ↔ (ReachesAddress reached a ⊎ (a ≤ last)) }
{
    match reached {
        None => Some(last),
        Some(most) => if most < last { Some(last) } else { Some(most) },
    }
}

/// The least address of `allowed` that two regions claim, where the regions stand by first address.
///
/// What a region shares with those before it begins at its own first address and ends at the greatest
/// last address so far. So one number has to be kept, and the first region that shares an allowed
/// address has the least of all.
fn first_shared_address(regions: &[Region], allowed: &[Range]) -> Option<u64>
    requires { IsCanonical allowed.now }
    ensures { MatchOption result ((a : ℕ) → Covers allowed.now a → IsTwice regions.now a → ⊥)
        (λ a. StandByFirst regions.now → IsLeastTwice regions.now allowed.now a) }
{
    let mut reached = None;
    for (i, region) in regions.iter().enumerate() {
        if let Some(a) = least_met(allowed, region, reached) {
            return Some(a);
        }
        reached = extended(reached, region.last);
    }
    None
}

/// Whether a slot and a register stand before others.
fn comes_first(slot: Slot, reg: u8, other_slot: Slot, other_reg: u8) -> bool
    ensures { IsTrue result ↔ (region_number slot reg < region_number other_slot other_reg) }
{
    slot < other_slot || (slot == other_slot && reg < other_reg)
}

/// Whether a region stands before another one, by slot and then by register.
pub fn is_before(one: &Region, other: &Region) -> bool
    ensures { IsTrue result ↔ (number_of one.now < number_of other.now) }
{
    comes_first(one.slot, one.reg, other.slot, other.reg)
}

/// Whether a region claims the address, and stands after the one at an index, where one is given.
fn claims_after(regions: &[Region], region: &Region, a: u64, after: Option<usize>) -> bool
    requires { IfSome after (λ k. k < length regions.now) }
    ensures { IsTrue result ↔ (Spans region.now a × Follows regions.now after region.now) }
{
    let follows = match after {
        None => true,
        Some(k) => is_before(&regions[k], region),
    };
    follows && region.first <= a && a <= region.last
}

/// Of the best region so far, where there is one, and the one at `i` the lesser.
fn lesser(regions: &[Region], best: Option<usize>, i: usize) -> usize
    requires within { i < length regions.now }
    requires best { IfSome best (λ k. k < length regions.now) }
    ensures { IsLesser regions.now best i result }
{
    match best {
        None => i,
        Some(k) => if is_before(&regions[k], &regions[i]) {
            k
        } else {
            i
        },
    }
}

/// The index of the least region that claims the address and stands after the one at an index, where one is
/// given.
fn least_claimant(regions: &[Region], a: u64, after: Option<usize>) -> Option<usize>
    requires { IfSome after (λ k. k < length regions.now) }
    ensures { MatchOption result
        ((k : ℕ) → k < length regions.now → IsClaimant regions.now a after k → ⊥)
        (λ k. IsLeastClaimant (length regions.now) regions.now a after k) }
{
    let mut best = None;
    for (i, region) in regions.iter().enumerate() {
        if claims_after(regions, region, a, after) {
            best = Some(lesser(regions, best, i));
        }
    }
    best
}

/// The indices of the two least regions that claim the address.
fn two_least(regions: &[Region], a: u64) -> Option<(usize, usize)>
    ensures { MatchOption result (AreDistinct regions.now → IsTwice regions.now a → ⊥)
        (λ p. AreTwoLeast regions.now a p.0 p.1) }
{
    match least_claimant(regions, a, None) {
        None => None,
        Some(first) => match least_claimant(regions, a, Some(first)) {
            None => None,
            Some(second) => Some((first, second)),
        },
    }
}

/// Sorts regions by first address, in place.
fn sort<A: Allocator>(regions: &mut Vec<Region, A>)
    ensures permutation { IsPermutation regions.old.items regions.new.items }
    ensures sorted { IsNonDecreasingBy (λ r. r.first) regions.new.items }
{
    regions.sort_unstable_by_key(|region| region.first);
}

/// An address that two regions claim, and which they are.
#[derive(Clone, Copy, Debug, PartialEq, Eq)]
pub struct Overlap {
    pub address: u64,
    pub first: Region,
    pub second: Region,
}

/// The least address of `allowed` that two regions claim, with the two least regions that do, by slot and register. Where
/// no two regions have one slot and register, None says that there is no such address. It sorts the regions.
pub fn first_overlap<A: Allocator>(
    regions: &mut Vec<Region, A>,
    allowed: &[Range],
) -> Option<Overlap>
    // looked up by halving, so these have to rise; regions are sorted here
    requires { IsCanonical allowed.now }
    ensures { MatchOption result
        (AreDistinct regions.old.items → (a : ℕ) → IsUnshared regions.old.items allowed.now a)
        (λ v. IsFirstOverlap regions.old.items allowed.now v.address v.first v.second) }
{
    if regions.len() < 2 {
        return None;
    }
    sort(regions);
    match first_shared_address(regions, allowed) {
        None => None,
        Some(address) => match two_least(regions, address) {
            None => None,
            Some((first, second)) => Some(Overlap {
                address,
                first: regions[first],
                second: regions[second],
            }),
        },
    }
}
