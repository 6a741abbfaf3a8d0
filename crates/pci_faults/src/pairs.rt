//! Claims that meet, found by looking at each pair.
ghost use Rattle.std.specs.Prelude.{◌≡◌, ◌<◌, ◌≤◌, ℕ, length, IfOk, MatchOption};
ghost use Rattle.pci_faults.specs.Shares.{AreWithin};
ghost use Rattle.pci_faults.specs.declared.shares.Among.TheVariants.{Roots};
ghost use Rattle.pci_faults.specs.Clashes.{AreOnTwoBuses, Meet, IsLeastOfTwo, IsFoundBelow, lesser, AreMeetings};

use crate::shares::{Among, Share};
use pci_base::memory::OutOfMemory;
use pci_claims::claim::{Claim, least_at_odds};
use std::alloc::Allocator;

/// The one with the lesser address, or of two with one address the one that was found before.
fn lesser(found: Option<Share>, share: Share) -> Share
    ensures { result ≡ lesser found share }
{
    match found {
        Some(before) if before.address <= share.address => before,
        _ => share,
    }
}

/// The least address that two claims answer and may not share, where they are on two buses.
fn least_of_buses<A: Allocator>(first: &Claim<A>, second: &Claim<A>) -> Option<u64>
    ensures { MatchOption result ((a : ℕ) → AreOnTwoBuses first.now second.now a → ⊥)
        (λ a. IsLeastOfTwo Roots first.now second.now a) }
{
    if first.slot().bus() == second.slot().bus() {
        return None;
    }
    least_at_odds(first, second)
}

/// The least address at which two claims meet: two of a bus where they may not share it, two of the root buses where they
/// are on two of them.
fn least_meeting<A: Allocator>(among: Among, first: &Claim<A>, second: &Claim<A>) -> Option<u64>
    ensures { MatchOption result ((a : ℕ) → Meet among first.now second.now a → ⊥)
        (λ a. IsLeastOfTwo among first.now second.now a) }
{
    match among {
        Among::Bus(_) => least_at_odds(first, second),
        Among::Roots => least_of_buses(first, second),
    }
}

/// The least address at which the claim at `i` meets one of those before it, and the first of these, `found` being what
/// those before the one at `from` have.
pub fn meeting_from<A: Allocator>(
    claims: &[Claim<A>],
    among: Among,
    from: usize,
    i: usize,
    found: Option<Share>,
) -> Option<Share>
    requires index { i < length claims.now }
    requires begin { from ≤ i }
    requires found { IsFoundBelow among from claims.now i found }
    ensures { IsFoundBelow among i claims.now i result }
{
    let mut found = found;
    for k in from..i {
        if let Some(address) = least_meeting(among, &claims[k], &claims[i]) {
            let share = Share {
                address,
                first: k,
                second: i,
            };
            found = Some(lesser(found, share));
        }
    }
    found
}

/// For each claim that meets one before it the least address at which it does, and the first of those before it that answer
/// this one.
pub fn by_pairs<A: Allocator + Copy>(
    alloc: A,
    claims: &[Claim<A>],
    among: Among,
) -> Result<Vec<Share, A>, OutOfMemory>
    // whoever tells them takes the claims by these
    ensures within { IfOk result (λ v. AreWithin (length claims.now) v.items) }
    ensures exact { IfOk result (λ v. AreMeetings among claims.now v.items) }
{
    let mut out = Vec::new(alloc);
    for i in 0..claims.len() {
        if let Some(share) = meeting_from(claims, among, 0, i, None) {
            out.push(share)?;
        }
    }
    Ok(out)
}
