//! The region at a slot and register of an outline.
ghost use Rattle.std.specs.Prelude.{◌≡◌, ◌≤◌, IfOk, IfSome, MatchOption, IsTrue, ◌↔◌};
ghost use Rattle.pci_spec.specs.System.{System};
ghost use Rattle.pci_spec.specs.Decoded.{HasRecords};
ghost use Rattle.pci_base.specs.Space.{space_of};
ghost use Rattle.pci_claims.specs.Found.{IsRegionAt, HasNoRegionAt, IsFoundIn, NoneClaims};

use pci_base::memory::OutOfMemory;
use pci_base::slot::Slot;
use pci_base::space::Space;
use pci_function::record::Record;
use pci_tree::bus::record_at;
use pci_tree::outline::Outline;
use pci_tree::region::{Region, add_regions};
use std::alloc::Allocator;

/// Whether a region is at a register, and has an address.
fn is_at(region: &Region, reg: u8) -> bool
    ensures { IsTrue result ↔ ((region.now.reg ≡ reg) × (region.now.first ≤ region.now.last)) }
{
    region.reg == reg && region.first <= region.last
}

/// The region of a function and a space at a register.
fn region_of<A: Allocator>(
    alloc: A,
    function: &Record,
    reg: u8,
    space: Space,
) -> Result<Option<Region>, OutOfMemory>
    ensures { IfOk result (λ o. MatchOption o (HasNoRegionAt function.now (space_of space) reg)
        (λ q. IsRegionAt function.now (space_of space) reg q)) }
{
    let mut regions = Vec::new(alloc);
    add_regions(&mut regions, function, space)?;
    for region in &regions {
        if is_at(region, reg) {
            return Ok(Some(*region));
        }
    }
    Ok(None)
}

/// The enabled region of a space at a slot and register, where there is one that claims an address.
pub fn region_at<A: Allocator, B: Allocator>(
    alloc: A,
    outline: &Outline<B>,
    slot: Slot,
    reg: u8,
    space: Space,
) -> Result<Option<Region>, OutOfMemory>
    // so that its addresses can be counted
    ensures some { IfOk result (λ o. IfSome o (λ q. q.first ≤ q.last)) }
    ensures found { IfOk result (λ o. (s : System) → HasRecords s outline.now.records
        → MatchOption o (NoneClaims s slot reg (space_of space))
        (λ q. IsFoundIn s slot reg (space_of space) q)) }
{
    match record_at(outline.records(), slot) {
        None => Ok(None),
        Some(function) => region_of(alloc, function, reg, space),
    }
}
