//! Splits: two regions on two root buses that claim one address.
ghost use Rattle.std.specs.Prelude.{◌≡◌, ◌++◌, IfOk, MatchOption};
ghost use Rattle.pci_tree.specs.Roots.{buses_of};
ghost use Rattle.pci_base.specs.Space.{space_of};
ghost use Rattle.pci_check.specs.Clashes.{AreRootsListed, NoneSplitIn, IsSplitFaultIn, NoneSplit, IsSplitFault};

use super::sweep::{Overlap, first_overlap};
use pci_base::memory::OutOfMemory;
use pci_base::slot::BUSES;
use pci_base::space::Space;
use pci_function::fault::Fault;
use pci_tree::outline::Outline;
use pci_tree::region::Region;
use pci_tree::roots::Roots;
use std::alloc::Allocator;

/// One list behind another; the second itself where the first is empty, as with one root bus.
fn joined<A: Allocator>(
    all: Vec<Region, A>,
    more: Vec<Region, A>,
) -> Result<Vec<Region, A>, OutOfMemory>
    ensures { IfOk result (λ v. v.items ≡ all.items ++ more.items) }
{
    if all.is_empty() {
        return Ok(more);
    }
    let mut all = all;
    match all.extend_from_slice(more.as_slice()) {
        Ok(()) => Ok(all),
        Err(_) => Err(OutOfMemory),
    }
}

/// The regions of all root buses that claim some address of a space.
pub fn of_roots<A: Allocator + Copy>(
    alloc: A,
    outline: &Outline<A>,
    roots: &Roots,
    space: Space,
) -> Result<Vec<Region, A>, OutOfMemory>
    // the caller has them at hand, and they are not read off the outline again
    requires { buses_of roots.now ≡ outline.now.roots }
    ensures { IfOk result (λ v. AreRootsListed outline.now (space_of space) v.items) }
{
    let mut all = Vec::new(alloc);
    for bus in 0..BUSES {
        if roots.has(bus as u8) {
            let regions = outline.regions(bus as u8, space)?;
            all = joined(all, regions)?;
        }
    }
    Ok(all)
}

/// The split of a space at the least address, with the two least regions that claim it.
fn split_in<A: Allocator + Copy>(
    alloc: A,
    outline: &Outline<A>,
    roots: &Roots,
    space: Space,
) -> Result<Option<Fault>, OutOfMemory>
    requires { buses_of roots.now ≡ outline.now.roots }
    ensures { IfOk result (λ o. MatchOption o (NoneSplitIn outline.now (space_of space))
        (λ fault. IsSplitFaultIn outline.now (space_of space) fault)) }
{
    let mut regions = of_roots(alloc, outline, roots, space)?;
    let whole = [space.whole()];
    match first_overlap(&mut regions, &whole) {
        None => Ok(None),
        Some(
            Overlap {
                address,
                first,
                second,
            },
        ) => Ok(Some(Fault::Split {
            space,
            address,
            first: first.slot,
            first_reg: first.reg,
            second: second.slot,
            second_reg: second.reg,
        })),
    }
}

/// The first split, where no regions clash: in I/O before memory.
pub fn first_split<A: Allocator + Copy>(
    alloc: A,
    outline: &Outline<A>,
    roots: &Roots,
) -> Result<Option<Fault>, OutOfMemory>
    // the buses that the outline was made for: on others the host starts no access
    requires { buses_of roots.now ≡ outline.now.roots }
    // the first fault only where 60 and 61 aren't there, which are looked for before
    ensures { IfOk result
        (λ o. MatchOption o (NoneSplit outline.now) (λ fault. IsSplitFault outline.now fault)) }
{
    if let Some(fault) = split_in(alloc, outline, roots, Space::Io)? {
        return Ok(Some(fault));
    }
    split_in(alloc, outline, roots, Space::Mem)
}
