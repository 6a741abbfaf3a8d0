//! Whose each address is, where regions are added one by one: that of the first which claimed it.
ghost use Rattle.std.specs.Prelude.{◌≡◌, ◌<◌, ◌≤◌, ◌⊎◌, ◌↔◌, ℕ, OnOk, MatchOption};
ghost use Rattle.pci_faults.specs.Owners.{OwnedRangeHas, Owns, IsFirstOwned, IsRangeAdded};

use pci_base::memory::OutOfMemory;
use pci_base::range::Range;
use std::alloc::{Allocator, Global};
use std::collections::BTreeMap;
use std::marker::Model;

/// A range of addresses with one owner, which stands under its last address.
#[derive(Clone, Copy, Debug, PartialEq, Eq)]
struct Owned {
    first: u64,
    owner: usize,
}

/// An address that has an owner, and the last one that has it with this address.
#[derive(Clone, Copy, Debug, PartialEq, Eq)]
pub struct Found {
    pub address: u64,
    pub last: u64,
    pub owner: usize,
}

/// The owners of addresses.
#[derive(Drop)]
pub struct Owners<A: Allocator = Global> {
    // by their last addresses; no two of them have an address in common
    ranges: BTreeMap<u64, Owned, A>,
}

impl<A: Allocator> Model for Owners<A> {
    ghost use Rattle.pci_faults.specs.Owners.{OwnedRanges, OwnedRangesAreApart};

    ghost Value = { OwnedRanges };

    ghost view = { λ o. o.ranges.entries };

    ghost invariant = { λ o. OwnedRangesAreApart o.ranges.entries };
}

impl<A: Allocator + Copy> Owners<A> {
    /// No address has an owner.
    pub fn new(alloc: A) -> Owners<A>
        ensures { (a i : ℕ) → Owns result a i → ⊥ }
    {
        Owners {
            ranges: BTreeMap::new(alloc),
        }
    }

    /// The first address from `from` on that has an owner.
    pub fn first_from(&self, from: u64) -> Option<Found>
        ensures { MatchOption result ((a i : ℕ) → from ≤ a → Owns self.now a i → ⊥)
            (λ f. IsFirstOwned self.now from f) }
    {
        let (last, range) = self.ranges.range(from..).next()?;
        let address = if range.first < from {
            from
        } else {
            range.first
        };
        Some(Found {
            address,
            last: *last,
            owner: range.owner,
        })
    }

    /// Gives a range in which no address has an owner to one.
    fn fill(&mut self, range: Range, owner: usize) -> Result<(), OutOfMemory>
        requires some { range.first ≤ range.last }
        requires free { (a i : ℕ) → OwnedRangeHas range a → Owns self.old a i → ⊥ }
        ensures { OnOk result ((a i : ℕ)
            → Owns self.new a i ↔ (Owns self.old a i ⊎ (OwnedRangeHas range a × (i ≡ owner)))) }
    {
        let owned = Owned {
            first: range.first,
            owner,
        };
        match self.ranges.insert(range.last, owned) {
            Ok(_) => Ok(()),
            Err(_) => Err(OutOfMemory),
        }
    }

    /// Gives the addresses from one up to another, this one left out, to an owner.
    fn fill_up_to(&mut self, first: u64, end: u64, owner: usize) -> Result<(), OutOfMemory>
        requires { (a i : ℕ) → first ≤ a → a < end → Owns self.old a i → ⊥ }
        ensures { OnOk result ((a i : ℕ)
            → Owns self.new a i ↔ (Owns self.old a i ⊎ (((first ≤ a) × (a < end)) × (i ≡ owner)))) }
    {
        if first < end {
            let last = end - 1;
            self.fill(Range { first, last }, owner)?;
        }
        Ok(())
    }

    /// Gives the addresses of a range that have no owner to one.
    pub fn add(&mut self, range: Range, owner: usize) -> Result<(), OutOfMemory>
        // an empty range has no address to give
        requires { range.first ≤ range.last }
        ensures { OnOk result (IsRangeAdded self.old self.new range owner) }
    {
        let mut first = range.first;
        loop {
            match self.first_from(first) {
                Some(found) if found.address <= range.last => {
                    self.fill_up_to(first, found.address, owner)?;
                    if range.last <= found.last {
                        return Ok(());
                    }
                    first = found.last + 1;
                }
                _ => {
                    let last = range.last;
                    return self.fill(Range { first, last }, owner);
                }
            }
        }
    }
}
