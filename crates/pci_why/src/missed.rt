//! The addresses of a range, or of several, that no range of a list has.
ghost use Rattle.std.specs.Prelude.{◌+◌, ◌<◌, ℕ, IfOk, OnOk};
ghost use Rattle.pci_tree.specs.Ranges.{Holds, Covers, IsCanonical};
ghost use Rattle.pci_tree.specs.Passing.{IsPush};
ghost use Rattle.pci_why.specs.Missed.{IsBetween, IsOutsideRange, IsWithout};

use pci_base::memory::OutOfMemory;
use pci_base::range::Range;
use pci_claims::gather::common;
use std::alloc::Allocator;

/// Adds the addresses of a range from `from` on and before `end` to ranges that lie below.
fn add_between<A: Allocator>(
    out: &mut Vec<Range, A>,
    range: Range,
    from: u128,
    end: u128,
) -> Result<(), OutOfMemory>
    requires canonical { IsCanonical out.old.items }
    requires below { (a : ℕ) → Covers out.old.items a → a + 1 < from }
    ensures { OnOk result (IsPush out.old.items out.new.items (IsBetween range from end)) }
{
    let first = from.max(u128::from(range.first));
    let end = end.min(u128::from(range.last) + 1);
    if first < end {
        out.push(Range {
            first: first as u64,
            last: (end - 1) as u64,
        })?;
    }
    Ok(())
}

/// The addresses of a range that no range of a list has: ranges that rise, with an address between each two.
pub fn outside<A: Allocator>(
    alloc: A,
    range: Range,
    ranges: &[Range],
) -> Result<Vec<Range, A>, OutOfMemory>
    // the runs between them are found in one walk
    requires { IsCanonical ranges.now }
    ensures { IfOk result (λ v. IsOutsideRange range ranges.now v.items) }
{
    let mut out = Vec::new(alloc);
    let mut from = 0;
    for next in ranges {
        add_between(&mut out, range, from, u128::from(next.first))?;
        from = u128::from(next.last) + 1;
    }
    let end = u128::from(range.last) + 1;
    add_between(&mut out, range, from, end)?;
    Ok(out)
}

/// From the first address of ranges that rise to the last.
fn bounds(ranges: &[Range]) -> Range
    ensures { IsCanonical ranges.now → (a : ℕ) → Covers ranges.now a → Holds result a }
{
    if ranges.is_empty() {
        return Range { first: 0, last: 0 };
    }
    Range {
        first: ranges[0].first,
        last: ranges[ranges.len() - 1].last,
    }
}

/// The addresses of some ranges that no range of another list has: ranges that rise, with an address between each two.
pub fn without<A: Allocator + Copy>(
    alloc: A,
    addresses: &[Range],
    ranges: &[Range],
) -> Result<Vec<Range, A>, OutOfMemory>
    // found in one walk along both
    requires first { IsCanonical addresses.now }
    requires second { IsCanonical ranges.now }
    ensures { IfOk result (λ v. IsWithout addresses.now ranges.now v.items) }
{
    let left = outside(alloc, bounds(addresses), ranges)?;
    common(alloc, addresses, &left)
}
