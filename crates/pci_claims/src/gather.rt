//! Lists of ranges that rise with a gap between two: made from any ranges, and what two of them have in common.
ghost use Rattle.std.specs.Prelude.{◌≡◌, ◌+◌, ◌<◌, ◌≤◌, nat_lt, ℕ, IfOk, OnOk};
ghost use Rattle.std.specs.List.{All};
ghost use Rattle.std.specs.List.Sorted.{IsNonDecreasingBy, IsPermutation};
ghost use Rattle.pci_tree.specs.Ranges.{Holds, Covers, IsCanonical};
ghost use Rattle.pci_tree.specs.Passing.{IsPush};
ghost use Rattle.pci_claims.specs.Gathered.{IsGathered, IsCommon, IsJoined};

use pci_base::memory::OutOfMemory;
use pci_base::range::Range;
use pci_tree::ranges::{first_not_before, meet};
use std::alloc::Allocator;

/// Sorts ranges by their first addresses.
fn sort<A: Allocator>(ranges: &mut Vec<Range, A>) -> Result<(), OutOfMemory>
    ensures permutation { IsPermutation ranges.old.items ranges.new.items }
    ensures sorted { OnOk result (IsNonDecreasingBy (λ r. r.first) ranges.new.items) }
{
    match ranges.sort_by_key(|r| r.first) {
        Ok(()) => Ok(()),
        Err(_) => Err(OutOfMemory),
    }
}

/// Whether a range begins behind the address after another.
fn is_apart(r: Range, s: Range) -> bool
    ensures { result ≡ nat_lt (r.last + 1) s.first }
{
    r.last < s.first && 1 < s.first - r.last
}

/// A range and one that begins in it or just behind it.
fn joined(r: Range, s: Range) -> Range
    ensures { IsJoined r s result }
{
    let last = if r.last < s.last { s.last } else { r.last };
    Range {
        first: r.first,
        last,
    }
}

/// The addresses of ranges that rise by their first addresses.
fn merged<A: Allocator>(alloc: A, ranges: &[Range]) -> Result<Vec<Range, A>, OutOfMemory>
    requires lawful { All (λ r. r.first ≤ r.last) ranges.now }
    requires sorted { IsNonDecreasingBy (λ r. r.first) ranges.now }
    ensures { IfOk result (λ v. IsGathered ranges.now v.items) }
{
    let mut out = Vec::new(alloc);
    if ranges.is_empty() {
        return Ok(out);
    }
    let mut open = ranges[0];
    for i in 1..ranges.len() {
        let r = ranges[i];
        if is_apart(open, r) {
            out.push(open)?;
            open = r;
        } else {
            open = joined(open, r);
        }
    }
    out.push(open)?;
    Ok(out)
}

/// The addresses of some ranges.
pub fn gathered<A: Allocator + Copy>(ranges: Vec<Range, A>) -> Result<Vec<Range, A>, OutOfMemory>
    // an empty range has no place among those that rise
    requires { All (λ r. r.first ≤ r.last) ranges.items }
    ensures { IfOk result (λ v. IsGathered ranges.items v.items) }
{
    let mut ranges = ranges;
    sort(&mut ranges)?;
    let alloc = *ranges.allocator();
    merged(alloc, &ranges)
}

/// Adds what a range and a list have in common to ranges that lie below the range.
fn add_common<A: Allocator>(
    out: &mut Vec<Range, A>,
    r: Range,
    ss: &[Range],
) -> Result<(), OutOfMemory>
    requires canonical { IsCanonical out.old.items }
    requires second { IsCanonical ss.now }
    requires below { (a : ℕ) → Covers out.old.items a → a + 1 < r.first }
    ensures { OnOk result
        (IsPush out.old.items out.new.items (λ a. Holds r a × Covers ss.now a)) }
{
    let from = first_not_before(ss, r.first);
    for i in from..ss.len() {
        match meet(r, ss[i]) {
            None => return Ok(()),
            Some(m) => out.push(m)?,
        }
    }
    Ok(())
}

/// The addresses that two lists have in common.
pub fn common<A: Allocator>(
    alloc: A,
    rs: &[Range],
    ss: &[Range],
) -> Result<Vec<Range, A>, OutOfMemory>
    // both rise, so one walk along the two meets all, and what is met rises too
    requires first { IsCanonical rs.now }
    requires second { IsCanonical ss.now }
    ensures { IfOk result (λ v. IsCommon rs.now ss.now v.items) }
{
    let mut out = Vec::new(alloc);
    for r in rs {
        add_common(&mut out, *r, ss)?;
    }
    Ok(out)
}
