//! The least place at which a region could stand.
ghost use Rattle.std.specs.Prelude.{◌≡◌, ◌+◌, ◌<◌, ◌≤◌, ◌%◌, ◌^◌, ℕ, IfSome, MatchOption, max};
ghost use Rattle.pci_tree.specs.Ranges.{IsCanonical};
ghost use Rattle.pci_why.specs.Places.{IsPlaceReached, IsLeastPlaceFrom};

use pci_base::range::Range;

/// The least multiple of a number from another one on.
fn multiple_from(from: u128, count: u128) -> u128
    requires some { 0 < count }
    requires small { count ≤ 2 ^ 64 }
    requires from { from ≤ 2 ^ 64 }
    ensures multiple { result % count ≡ 0 }
    ensures from { from ≤ result }
    ensures below { result < from + count }
    ensures least { (n : ℕ) → from ≤ n → n % count ≡ 0 → result ≤ n }
{
    let over = from % count;
    if over == 0 {
        from
    } else {
        from + (count - over)
    }
}

/// The first address of a range, or a greater number.
fn start_in(range: &Range, from: u128) -> u128
    requires { from ≤ 2 ^ 64 }
    ensures start { result ≡ max from range.now.first }
    ensures small { result ≤ 2 ^ 64 }
{
    from.max(u128::from(range.first))
}

/// The least multiple of `count` from `from` on, such that one range has that many addresses from there on, all of them
/// below `end`.
pub fn least_from(ranges: &[Range], from: u128, count: u128, end: u128) -> Option<u128>
    // there is no multiple of 0 to go on to
    requires some { 0 < count }
    // 128 bits hold the sum of two such numbers
    requires small { count ≤ 2 ^ 64 }
    requires from { from ≤ 2 ^ 64 }
    // so that its last address is one
    ensures below { IfSome result (λ p. p + count ≤ end) }
    ensures least { IsCanonical ranges.now → MatchOption result
        ((p : ℕ) → from ≤ p → IsPlaceReached ranges.now count end p → ⊥)
        (λ p. IsLeastPlaceFrom ranges.now count end from p) }
{
    for range in ranges {
        let past = u128::from(range.last) + 1;
        let first = multiple_from(start_in(range, from), count);
        if first + count <= end.min(past) {
            return Some(first);
        }
    }
    None
}
