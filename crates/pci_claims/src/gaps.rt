//! The addresses of a range that no claimed range has.
ghost use Rattle.std.specs.Prelude.{◌≡◌, ◌++◌, IfOk, OnOk};
ghost use Rattle.pci_claims.specs.Gaps.{between, gaps};

use pci_base::memory::OutOfMemory;
use pci_base::range::Range;
use std::alloc::Allocator;

/// Adds the addresses of a range from `from` on and before `end`, if there are any.
fn add_between<A: Allocator>(
    out: &mut Vec<Range, A>,
    range: Range,
    from: u128,
    end: u128,
) -> Result<(), OutOfMemory>
    ensures { OnOk result (out.new.items ≡ out.old.items ++ between range from end) }
{
    let first = from.max(u128::from(range.first));
    let end = end.min(u128::from(range.last) + 1);
    if first < end {
        out.push(Range {
            first: first as u64,
            last: (end - 1) as u64,
        })?;
    }
    Ok(())
}

/// The addresses of a range that no claimed range has, as ranges: the claimed ones stand by first address.
pub fn free_runs<A: Allocator>(
    alloc: A,
    range: Range,
    claimed: &[Range],
) -> Result<Vec<Range, A>, OutOfMemory>
    ensures { IfOk result (λ v. v.items ≡ gaps range 0 claimed.now) }
{
    let mut out = Vec::new(alloc);
    let mut from = 0;
    for claim in claimed {
        add_between(&mut out, range, from, u128::from(claim.first))?;
        from = from.max(u128::from(claim.last) + 1);
    }
    add_between(&mut out, range, from, u128::from(range.last) + 1)?;
    Ok(out)
}
