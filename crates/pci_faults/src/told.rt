//! Faults of regions that share an address.
ghost use Rattle.std.specs.Prelude.{◌≡◌, ◌<◌, ◌++◌, length, map, OnOk};
ghost use Rattle.pci_faults.specs.Shares.{AreWithin};
ghost use Rattle.pci_faults.specs.Lines.{share_fault};

use super::shares::{Among, Share};
use pci_base::memory::OutOfMemory;
use pci_base::space::Space;
use pci_function::fault::Fault;
use pci_tree::region::Region;
use std::alloc::Allocator;

/// The fault that two regions of a list share an address.
fn fault(regions: &[Region], among: Among, space: Space, share: Share) -> Fault
    requires first { share.first < length regions.now }
    requires second { share.second < length regions.now }
    ensures { result ≡ share_fault among space regions.now share }
{
    let first = regions[share.first];
    let second = regions[share.second];
    match among {
        Among::Bus(bus) => Fault::Clash {
            bus,
            space,
            address: share.address,
            first: first.slot,
            first_reg: first.reg,
            second: second.slot,
            second_reg: second.reg,
        },
        Among::Roots => Fault::Split {
            space,
            address: share.address,
            first: first.slot,
            first_reg: first.reg,
            second: second.slot,
            second_reg: second.reg,
        },
    }
}

/// Adds the faults of what regions share.
pub fn add_told<A: Allocator>(
    out: &mut Vec<Fault, A>,
    regions: &[Region],
    among: Among,
    space: Space,
    shares: &[Share],
) -> Result<(), OutOfMemory>
    // a share names two of the regions by their index
    requires { AreWithin (length regions.now) shares.now }
    ensures { OnOk result
        (out.new.items ≡ out.old.items ++ map (share_fault among space regions.now) shares.now) }
{
    for share in shares {
        out.push(fault(regions, among, space, *share))?;
    }
    Ok(())
}
