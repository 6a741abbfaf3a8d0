//! What a bridge misses of what is sent to a region.
ghost use Rattle.std.specs.Prelude.{ℕ, MatchOption};
ghost use Rattle.pci_tree.specs.Ranges.{Holds, Covers, IsCanonical};
ghost use Rattle.pci_faults.specs.Missed.{IsLeastMissed};

use pci_base::range::Range;
use pci_tree::ranges::{least_outside, meet};

/// The least address of a range that is sent, and that a bridge doesn't pass.
pub fn least_missed(range: Range, sent: &[Range], passed: &[Range]) -> Option<u64>
    // both rise, so the first address that is found is the least
    requires sent { IsCanonical sent.now }
    requires passed { IsCanonical passed.now }
    ensures { MatchOption result
        ((a : ℕ) → Holds range a → Covers sent.now a → Covers passed.now a)
        (λ a. IsLeastMissed range sent.now passed.now a) }
{
    for s in sent {
        if let Some(m) = meet(range, *s) {
            if let Some(a) = least_outside(m, passed) {
                return Some(a);
            }
        }
    }
    None
}
