//! Claims that meet. Of a list by slot and register, each claim is looked up among the owners of what those before it
//! answer.
ghost use Rattle.std.specs.Prelude.{◌≡◌, ◌<◌, ◌≤◌, ℕ, length, false, IfOk, IsTrue, OnOk, MatchOption};
ghost use Rattle.pci_spec.specs.Slot.{IsSlot};
ghost use Rattle.pci_tree.specs.Ranges.{Covers, IsCanonical};
ghost use Rattle.pci_faults.specs.Owners.{Owns};
ghost use Rattle.pci_faults.specs.Shares.{AreWithin};
ghost use Rattle.pci_faults.specs.Clashes.{claim_at, IsFoundBelow, AreMeetings};
ghost use Rattle.pci_faults.specs.Owned.{claim_group_at, ClaimGroupsRise, AreClaimsBefore, AreLesserClaims, AreGiven, IsFirstOwnedPiece, AreClaimsOwned, AreBothOwned, IsOwnedShare, is_sooner, sooner, IsLone, IsLoneAt, IsLeastOfBoth, IsLeastOwned};

use super::pairs::{by_pairs, meeting_from};
use crate::owners::{Found, Owners};
use crate::shares::{Among, Share};
use pci_base::memory::OutOfMemory;
use pci_base::range::Range;
use pci_claims::claim::Claim;
use std::alloc::Allocator;

/// The register that names the told range of line 1.
const FIRST_TOLD: u16 = 256;

/// The group of the claim at an index. Claims of two groups may not share an address unless both are held: on a bus they
/// are of two functions, over the root buses of two buses.
fn group<A: Allocator>(claims: &[Claim<A>], k: usize, among: Among) -> u16
    requires { k < length claims.now }
    ensures group { result ≡ claim_group_at among claims.now k }
    ensures slot { IsSlot (claim_at claims.now k).slot }
{
    let number = claims[k].slot().number();
    match among {
        Among::Bus(_) => number,
        // the bus
        Among::Roots => number / 256,
    }
}

/// Whether no claim is of a lesser group than one before it.
fn do_groups_rise<A: Allocator>(claims: &[Claim<A>], among: Among) -> bool
    ensures { IsTrue result → ClaimGroupsRise among claims.now }
{
    let mut last = 0;
    for k in 0..claims.len() {
        let next = group(claims, k, among);
        if next < last {
            return false;
        }
        last = next;
    }
    true
}

/// Gives the addresses of some ranges that have no owner to one.
fn add_pieces<A: Allocator + Copy>(
    owners: &mut Owners<A>,
    pieces: &[Range],
    owner: usize,
) -> Result<(), OutOfMemory>
    requires { IsCanonical pieces.now }
    ensures { OnOk result (AreGiven pieces.now owner owners.old owners.new) }
{
    for piece in pieces {
        owners.add(*piece, owner)?;
    }
    Ok(())
}

/// The least address of some ranges that has an owner.
fn first_owned<A: Allocator + Copy>(owners: &Owners<A>, pieces: &[Range]) -> Option<Found>
    requires { IsCanonical pieces.now }
    ensures { MatchOption result ((a i : ℕ) → Covers pieces.now a → Owns owners.now a i → ⊥)
        (λ f. IsFirstOwnedPiece owners.now pieces.now f) }
{
    for piece in pieces {
        if let Some(found) = owners.first_from(piece.first) {
            if found.address <= piece.last {
                return Some(found);
            }
        }
    }
    None
}

/// The owners of addresses: the first claim that answers each, of held ranges and of other regions, as two held ranges may
/// share an address.
#[derive(Drop)]
struct Answering<A: Allocator> {
    plain: Owners<A>,
    held: Owners<A>,
}

/// Adds the claims from `added` on that are of lesser groups than the one at `i`, and answers how many are added.
fn add_lesser<A: Allocator + Copy>(
    owners: &mut Answering<A>,
    claims: &[Claim<A>],
    among: Among,
    added: usize,
    i: usize,
) -> Result<usize, OutOfMemory>
    requires index { i < length claims.now }
    requires within { added ≤ i }
    requires rise { ClaimGroupsRise among claims.now }
    requires before { AreClaimsBefore added i among claims.now }
    requires owned { AreBothOwned added claims.now owners.old.plain owners.old.held }
    ensures { IfOk result (λ n. AreLesserClaims n i among claims.now
        × AreBothOwned n claims.now owners.new.plain owners.new.held) }
{
    let mut n = added;
    while n < i && group(claims, n, among) < group(claims, i, among) {
        if claims[n].is_held() {
            add_pieces(&mut owners.held, claims[n].pieces(), n)?;
        } else {
            add_pieces(&mut owners.plain, claims[n].pieces(), n)?;
        }
        n += 1;
    }
    Ok(n)
}

/// The least address of the claim at `i` that has an owner, and this one.
fn owned_share<A: Allocator + Copy>(
    owners: &Owners<A>,
    claims: &[Claim<A>],
    i: usize,
) -> Option<Share>
    requires { i < length claims.now }
    ensures { IsOwnedShare owners.now claims.now i result }
{
    match first_owned(owners, claims[i].pieces()) {
        None => None,
        Some(found) => Some(Share {
            address: found.address,
            first: found.owner,
            second: i,
        }),
    }
}

/// Whether one address is less than another, or is the same and has the lesser index.
fn is_sooner(s: Share, t: Share) -> bool
    ensures { result ≡ is_sooner s t }
{
    s.address < t.address || (s.address == t.address && s.first < t.first)
}

/// The sooner of what was found among claims of two kinds.
fn sooner(found: Option<Share>, other: Option<Share>) -> Option<Share>
    ensures { result ≡ sooner found other }
{
    let Some(s) = found else {
        return other;
    };
    match other {
        Some(t) if is_sooner(t, s) => other,
        _ => found,
    }
}

/// The least address of the claim at `i` that has an owner, and the first claim that answers it.
fn least_of_both<A: Allocator + Copy>(
    plain: &Owners<A>,
    held: &Owners<A>,
    claims: &[Claim<A>],
    i: usize,
) -> Option<Share>
    requires { i < length claims.now }
    ensures { IsLeastOfBoth plain.now held.now claims.now i result }
{
    sooner(owned_share(plain, claims, i), owned_share(held, claims, i))
}

/// The least address at which the claim at `i` meets one of those that have owners, and the first of these.
fn least_owned<A: Allocator + Copy>(
    owners: &Answering<A>,
    claims: &[Claim<A>],
    i: usize,
) -> Option<Share>
    requires { i < length claims.now }
    ensures { IsLeastOwned owners.now.plain owners.now.held claims.now i result }
{
    // two held ranges may share an address
    if claims[i].is_held() {
        owned_share(&owners.plain, claims, i)
    } else {
        least_of_both(&owners.plain, &owners.held, claims, i)
    }
}

/// The least address at which the claim at `i` meets one before it, and the first of these. What the first `added` claims
/// answer has owners: they are of lesser groups, and the others of its own.
fn least_before<A: Allocator + Copy>(
    owners: &Answering<A>,
    claims: &[Claim<A>],
    among: Among,
    added: usize,
    i: usize,
) -> Option<Share>
    requires index { i < length claims.now }
    requires lesser { AreLesserClaims added i among claims.now }
    requires owned { AreBothOwned added claims.now owners.now.plain owners.now.held }
    ensures { IsFoundBelow among i claims.now i result }
{
    let found = least_owned(owners, claims, i);
    // a held range may share an address with others of its function
    if claims[i].is_held() {
        return found;
    }
    match among {
        // a window, the legacy part and the palette part of one bridge may share an address
        Among::Bus(_) => meeting_from(claims, among, added, i, found),
        // two regions of one bus are never split
        Among::Roots => found,
    }
}

/// Whether the claim at an index is of a told range that isn't held, on a bus. It may share an address only with held ranges
/// of its function.
fn is_lone<A: Allocator>(claims: &[Claim<A>], k: usize, among: Among) -> bool
    requires { k < length claims.now }
    ensures { IsTrue result → IsLoneAt among claims.now k }
{
    match among {
        Among::Bus(_) => FIRST_TOLD <= claims[k].register() && !claims[k].is_held(),
        Among::Roots => false,
    }
}

/// Adds the claims from `from` up to the one at `i` that aren't held.
fn add_before<A: Allocator + Copy>(
    owners: &mut Owners<A>,
    claims: &[Claim<A>],
    from: usize,
    i: usize,
) -> Result<(), OutOfMemory>
    requires index { i < length claims.now }
    requires from { from ≤ i }
    requires owned { AreClaimsOwned false from claims.now owners.old }
    ensures { OnOk result (AreClaimsOwned false i claims.now owners.new) }
{
    for k in from..i {
        if !claims[k].is_held() {
            add_pieces(owners, claims[k].pieces(), k)?;
        }
    }
    Ok(())
}

/// The same as `by_pairs`, of claims whose groups rise.
fn by_owners<A: Allocator + Copy>(
    alloc: A,
    claims: &[Claim<A>],
    among: Among,
) -> Result<Vec<Share, A>, OutOfMemory>
    requires { ClaimGroupsRise among claims.now }
    ensures within { IfOk result (λ v. AreWithin (length claims.now) v.items) }
    ensures exact { IfOk result (λ v. AreMeetings among claims.now v.items) }
{
    let mut out = Vec::new(alloc);
    let mut owners = Answering {
        plain: Owners::new(alloc),
        held: Owners::new(alloc),
    };
    let mut added = 0;
    // a function may have many told ranges, so they aren't compared in pairs
    let mut all = Owners::new(alloc);
    let mut in_all = 0;
    for i in 0..claims.len() {
        added = add_lesser(&mut owners, claims, among, added, i)?;
        let found = if is_lone(claims, i, among) {
            add_before(&mut all, claims, in_all, i)?;
            in_all = i;
            least_of_both(&all, &owners.held, claims, i)
        } else {
            least_before(&owners, claims, among, added, i)
        };
        if let Some(share) = found {
            out.push(share)?;
        }
    }
    Ok(out)
}

/// For each claim that meets one before it the least address at which it does, and the first of those before it that answer
/// this one. They are found quickly where the claims stand by slot and register.
pub fn meetings<A: Allocator + Copy>(
    alloc: A,
    claims: &[Claim<A>],
    among: Among,
) -> Result<Vec<Share, A>, OutOfMemory>
    // whoever tells them takes the claims by these
    ensures within { IfOk result (λ v. AreWithin (length claims.now) v.items) }
    ensures exact { IfOk result (λ v. AreMeetings among claims.now v.items) }
{
    if do_groups_rise(claims, among) {
        by_owners(alloc, claims, among)
    } else {
        by_pairs(alloc, claims, among)
    }
}
