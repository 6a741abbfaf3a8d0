//! The told ranges that have to be sent and reached: those that are on and that aren't held.
ghost use Rattle.std.specs.Prelude.{◌≡◌, ◌&&◌, OnOk, length, not};
ghost use Rattle.pci_tree.specs.Outline.{Tree};
ghost use Rattle.judge_spec.specs.Told.{IsTold};
ghost use Rattle.judge_spec.specs.ToldClaims.{is_marked_held};
ghost use Rattle.pci_claims.specs.Values.{told_value};
ghost use Rattle.pci_faults.specs.Needed.{AreNeededAppended, IsNeededRange, IsOfRange};
ghost use Rattle.pci_claims.specs.ToldOn.{AreOnIn};

use super::named::Name;
use super::needed::Needed;
use pci_base::memory::OutOfMemory;
use pci_base::range::Range;
use pci_claims::told::Told;
use pci_dump::told_range::ToldRange;
use std::alloc::Allocator;

/// The register of the told range of line 1.
const FIRST_REGISTER: u16 = 256;

/// Whether a told range that is on or off has to be sent and reached.
fn is_needed(range: &ToldRange, is_on: bool) -> bool
    ensures { result ≡ (not (is_marked_held range.now.mark) && is_on) }
{
    !range.is_held() && is_on
}

/// A told range with a register, as a region that has to be sent and reached.
fn needed_of(range: &ToldRange, register: u16) -> Needed
    ensures { IsNeededRange range.now register result }
{
    Needed {
        name: Name {
            slot: range.slot,
            register,
        },
        space: range.space,
        prefetch: range.prefetchable,
        range: Range {
            first: range.first,
            last: range.last,
        },
    }
}

/// Adds those that have to be sent and reached, `on` telling of each told range whether it is on.
pub fn add_told<A: Allocator>(
    out: &mut Vec<Needed, A>,
    told: &Told<'_>,
    on: &[bool],
) -> Result<(), OutOfMemory>
    // line 4096 has the last register
    requires told { IsTold told.now.ranges.now }
    requires on { length on.now ≡ length told.now.ranges.now }
    ensures { OnOk result ((t : Tree) → AreOnIn (told_value told.now) t on.now
        → AreNeededAppended (IsOfRange (told_value told.now)) t out.old.items out.new.items) }
{
    for (index, range) in told.ranges.iter().enumerate() {
        if is_needed(range, on[index]) {
            out.push(needed_of(range, FIRST_REGISTER + index as u16))?;
        }
    }
    Ok(())
}
