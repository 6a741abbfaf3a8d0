//! What functions answer beside their BARs and ROMs: told ranges that stand and are marked `command`.
ghost use Rattle.std.specs.Prelude.{◌≡◌, length};
ghost use Rattle.pci_base.specs.Space.{space_of};
ghost use Rattle.pci_settle_places.specs.Answers as answers;
ghost use Rattle.pci_settle_places.specs.Answers.{is_answering};

use pci_base::slot::Slot;
use pci_base::space::Space;
use pci_dump::told_list::first_of_slot;
use pci_dump::told_range::{Mark, ToldRange};
use pci_first_fit::own::Terms;
use pci_first_fit::told::ToldRanges;

/// What tells which functions have something to answer: which of their I/O BARs are left, and the told ranges that stand.
#[derive(Clone, Copy)]
pub struct Answering<'a> {
    pub terms: Terms<'a>,
    pub told: ToldRanges<'a>,
    /// Of each told range whether it stands.
    pub standing: &'a [bool],
}

/// Whether a told range is marked `command`, and of a space.
fn is_command_in(space: Space, range: &ToldRange) -> bool
    ensures { result ≡ answers.is_command_in (space_of space) range.now }
{
    let is_in = match space {
        Space::Io => range.space == Space::Io,
        Space::Mem => range.space == Space::Mem,
    };
    range.mark == Mark::Command && is_in
}

/// Whether the function at a slot has a told range of a space that stands and is marked `command`.
pub fn is_answering(answering: &Answering, slot: Slot, space: Space) -> bool
    // a told range has its flag by its index
    requires { length answering.now.standing.now ≡ length answering.now.told.ranges.now }
    ensures { result ≡ is_answering answering.now.told.ranges.now answering.now.standing.now
        (space_of space) slot }
{
    let ranges = answering.told.as_slice();
    for index in first_of_slot(ranges, slot)..ranges.len() {
        let range = &ranges[index];
        if range.slot != slot {
            return false;
        }
        let stands = answering.standing[index];
        if stands && is_command_in(space, range) {
            return true;
        }
    }
    false
}
