//! What can keep a place in some ranges from being free: only what shares an address with one of them.
ghost use Rattle.std.specs.Prelude.{◌≡◌, ◌++◌, OnOk};
ghost use Rattle.std.specs.List.{filter};
ghost use Rattle.pci_first_fit.specs.Spots.{is_near as shares_address};

use crate::list::are_apart;
use pci_base::memory::OutOfMemory;
use pci_base::range::Range;
use std::alloc::Allocator;

/// Whether a range shares an address with one of those in which a place is looked for.
fn is_near(ranges: &[Range], other: Range) -> bool
    ensures { result ≡ shares_address ranges.now other }
{
    ranges.iter().any(|range| !are_apart(other, *range))
}

/// Adds those of some ranges that share an address with one in which a place is looked for.
pub fn add_near<A: Allocator>(
    out: &mut Vec<Range, A>,
    ranges: &[Range],
    others: &[Range],
) -> Result<(), OutOfMemory>
    ensures { OnOk result (out.new.items
        ≡ out.old.items ++ filter (shares_address ranges.now) others.now) }
{
    for other in others {
        if is_near(ranges, *other) {
            out.push(*other)?;
        }
    }
    Ok(())
}
