//! Of regions by slot and register: the least address that each shares with one before it, and with which.
ghost use Rattle.std.specs.Prelude.{◌≡◌, ◌<◌, ◌≤◌, ℕ, length, IfOk, IfSome, MatchOption};
ghost use Rattle.pci_tree.specs.Ranges.{Covers, IsCanonical, IsLeastFrom};
ghost use Rattle.pci_faults.specs.Shares.{group_at, GroupsRise, IsShared, IsLeastShared, AreShares, AreOwned, AreOfLesserGroups, AreLesser, AreWithin};
ghost use Rattle.pci_faults.specs.declared.shares.Among.{Among as AmongValue};

use super::owners::Owners;
use pci_base::memory::OutOfMemory;
use pci_base::range::Range;
use pci_tree::ranges::least_from;
use pci_tree::region::Region;
use std::alloc::Allocator;

/// Among which regions one looks for two that claim an address.
#[derive(Clone, Copy, Debug, PartialEq, Eq)]
pub enum Among {
    /// Those of a bus: any two of them.
    Bus(u8),
    /// Those of the root buses: two on different buses.
    Roots,
}

/// The least address that a region shares with one before it, and the least that claims this address. Both are
/// told by their indices.
#[derive(Clone, Copy, Debug, PartialEq, Eq)]
pub struct Share {
    pub address: u64,
    pub first: usize,
    pub second: usize,
}

/// The regions of which some may share an address, and among which addresses that is looked for.
#[derive(Clone, Copy)]
struct Compared<'a> {
    regions: &'a [Region],
    allowed: &'a [Range],
    among: Among,
}

/// The group of the region at an index: regions of two groups are apart.
fn group(compared: &Compared, k: usize) -> usize
    requires { k < length compared.now.regions.now }
    ensures { result ≡ group_at compared.now.among compared.now.regions.now k }
{
    match compared.among {
        Among::Bus(_) => k,
        Among::Roots => usize::from(compared.regions[k].slot.bus()),
    }
}

/// The addresses of a region from the least one of `allowed` on.
fn opened(region: &Region, allowed: &[Range]) -> Option<Range>
    requires { IsCanonical allowed.now }
    ensures { MatchOption result
        ((a : ℕ) → region.now.first ≤ a → a ≤ region.now.last → Covers allowed.now a → ⊥)
        (λ r. (r.first ≤ r.last) × IsLeastFrom allowed.now region.now.first r.first
        × (r.last ≡ region.now.last)) }
{
    let last = region.last;
    let Some(first) = least_from(allowed, region.first) else {
        return None;
    };
    if first <= last {
        Some(Range { first, last })
    } else {
        None
    }
}

/// Adds the regions from `added` on that are of lesser groups than the one at `i`, and answers how many are added.
fn add_lesser<A: Allocator + Copy>(
    owners: &mut Owners<A>,
    compared: &Compared,
    added: usize,
    i: usize,
) -> Result<usize, OutOfMemory>
    requires canonical { IsCanonical compared.now.allowed.now }
    requires index { i < length compared.now.regions.now }
    requires within { added ≤ i }
    requires owned { AreOwned added compared.now.regions.now compared.now.allowed.now owners.old }
    ensures { IfOk result (λ n. (n ≤ i)
        × AreOwned n compared.now.regions.now compared.now.allowed.now owners.new
        × (GroupsRise compared.now.among compared.now.regions.now
        → AreOfLesserGroups added i compared.now.among compared.now.regions.now
        → AreLesser n i compared.now.among compared.now.regions.now)) }
{
    let regions = compared.regions;
    let mut n = added;
    while n < i && group(compared, n) < group(compared, i) {
        if let Some(range) = opened(&regions[n], compared.allowed) {
            owners.add(range, n)?;
        }
        n += 1;
    }
    Ok(n)
}

/// What the region at `i` shares with those that have owners' addresses.
fn share_at<A: Allocator + Copy>(owners: &Owners<A>, compared: &Compared, i: usize) -> Option<Share>
    requires canonical { IsCanonical compared.now.allowed.now }
    requires index { i < length compared.now.regions.now }
    ensures within { (n : ℕ) → n ≤ i
        → AreOwned n compared.now.regions.now compared.now.allowed.now owners.now
        → IfSome result (λ s. (s.first < s.second) × (s.second ≡ i)) }
    ensures least { (by : AmongValue) (n : ℕ) → AreLesser n i by compared.now.regions.now
        → AreOwned n compared.now.regions.now compared.now.allowed.now owners.now
        → MatchOption result
        ((a first : ℕ) → IsShared by compared.now.regions.now compared.now.allowed.now a first i
        → ⊥)
        (λ s. (s.second ≡ i)
        × IsLeastShared by compared.now.regions.now compared.now.allowed.now s) }
{
    let regions = compared.regions;
    let Some(range) = opened(&regions[i], compared.allowed) else {
        return None;
    };
    match owners.first_from(range.first) {
        Some(found) if found.address <= range.last => Some(Share {
            address: found.address,
            first: found.owner,
            second: i,
        }),
        _ => None,
    }
}

/// The least address of `allowed` that each region shares with one before it, where it is apart from this one; those
/// that share none are left out. The regions stand by slot and register.
pub fn shares<A: Allocator + Copy>(
    alloc: A,
    regions: &[Region],
    allowed: &[Range],
    among: Among,
) -> Result<Vec<Share, A>, OutOfMemory>
    // what two regions have in common is looked for among these by halving
    requires canonical { IsCanonical allowed.now }
    // whoever tells them takes the regions by these
    ensures within { IfOk result (λ out. AreWithin (length regions.now) out.items) }
    // what the order of the regions is, a caller knows of each system that has them
    ensures exact { IfOk result (λ out. GroupsRise among regions.now
        → AreShares among regions.now allowed.now out.items) }
{
    let mut out = Vec::new(alloc);
    let mut owners = Owners::new(alloc);
    let compared = Compared {
        regions,
        allowed,
        among,
    };
    let mut added = 0;
    for i in 0..regions.len() {
        added = add_lesser(&mut owners, &compared, added, i)?;
        if let Some(share) = share_at(&owners, &compared, i) {
            out.push(share)?;
        }
    }
    Ok(out)
}
