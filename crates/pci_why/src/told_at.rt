//! The told range that a slot and a register name.
ghost use Rattle.std.specs.Prelude.{◌≡◌, ◌↔◌, IsTrue, MatchOption};
ghost use Rattle.pci_spec.specs.Fault.{named_region};
ghost use Rattle.judge_spec.specs.Told.{ToldRange as RangeValue};
ghost use Rattle.judge_spec.specs.ToldClaims.{IsRangeAt};
ghost use Rattle.pci_base.specs.Space.{space_of};
ghost use Rattle.pci_claims.specs.Values.{told_value};

use super::judged::{RegionName, TOLD_FROM};
use pci_base::slot::Slot;
use pci_claims::told::Told;
use pci_dump::told_range::ToldRange;

/// Whether a told range is of the function at a slot.
fn is_at(range: &ToldRange, slot: Slot) -> bool
    ensures { IsTrue result ↔ (range.now.slot ≡ slot) }
{
    range.slot == slot
}

/// The told range of a space that a slot and a register name.
pub fn told_at<'a>(told: &Told<'a>, name: RegionName) -> Option<&'a ToldRange>
    ensures { MatchOption result
        ((r : RangeValue) → IsRangeAt (told_value told.now) (named_region name.slot name.register) r
        → r.space ≡ space_of name.space → ⊥)
        (λ r. IsRangeAt (told_value told.now) (named_region name.slot name.register) r.now
        × (r.now.space ≡ space_of name.space)) }
{
    if name.register < TOLD_FROM {
        return None;
    }
    let ranges = told.ranges;
    let index = usize::from(name.register - TOLD_FROM);
    if index >= ranges.len() {
        return None;
    }
    let range = &ranges[index];
    if is_at(range, name.slot) && range.is_in(name.space) {
        Some(range)
    } else {
        None
    }
}
