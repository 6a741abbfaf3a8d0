//! Inclusive ranges of addresses, and lists of them that rise with a gap between two.
ghost use Rattle.std.specs.Prelude.{◌<◌, ◌≤◌, ◌↔◌, ℕ, length, MatchOption};
ghost use Rattle.std.specs.List.{AllWithin};
ghost use Rattle.pci_tree.specs.Ranges.{Holds, Covers, IsCanonical, IsLeastOutside, IsLeastFrom};

use pci_base::range::Range;

/// The addresses that two ranges have in common.
pub fn meet(r: Range, s: Range) -> Option<Range>
    // what is in common is never an empty range, since no list of ranges may have one
    ensures { MatchOption result ((a : ℕ) → Holds r a → Holds s a → ⊥)
        (λ m. (m.first ≤ m.last) × ((a : ℕ) → Holds m a ↔ (Holds r a × Holds s a))) }
{
    let first = if r.first < s.first { s.first } else { r.first };
    let last = if r.last < s.last { r.last } else { s.last };
    if first <= last {
        Some(Range { first, last })
    } else {
        None
    }
}

/// The index of the first range that doesn't end before the address.
pub fn first_not_before(rs: &[Range], a: u64) -> usize
    // found by halving, so their ends have to rise
    requires { IsCanonical rs.now }
    ensures bound { result ≤ length rs.now }
    ensures before { AllWithin (λ r. r.last < a) rs.now 0 result }
    ensures after { AllWithin (λ r. a ≤ r.last) rs.now result (length rs.now) }
{
    rs.partition_point(|r| r.last < a)
}

/// The least address of `r` that no range of `rs` has.
pub fn least_outside(r: Range, rs: &[Range]) -> Option<u64>
    // of an empty range its first address would be answered, which it hasn't
    requires lawful { r.first ≤ r.last }
    // ranges have a gap behind them, so the address after one is in none
    requires canonical { IsCanonical rs.now }
    ensures { MatchOption result ((a : ℕ) → Holds r a → Covers rs.now a)
        (λ a. IsLeastOutside r rs.now a) }
{
    let k = first_not_before(rs, r.first);
    if k == rs.len() {
        return Some(r.first);
    }
    let s = rs[k];
    if r.first < s.first {
        Some(r.first)
    } else if r.last <= s.last {
        None
    } else {
        Some(s.last + 1)
    }
}

/// The least address from `from` on that a range of `rs` has.
pub fn least_from(rs: &[Range], from: u64) -> Option<u64>
    // the range is found by halving, so they have to rise
    requires { IsCanonical rs.now }
    ensures { MatchOption result ((a : ℕ) → from ≤ a → Covers rs.now a → ⊥)
        (λ a. IsLeastFrom rs.now from a) }
{
    let k = first_not_before(rs, from);
    if k == rs.len() {
        return None;
    }
    let s = rs[k];
    if s.first < from {
        Some(from)
    } else {
        Some(s.first)
    }
}
