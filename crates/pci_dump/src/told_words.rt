//! The words of a line.
ghost use Rattle.std.specs.Prelude.{◌≡◌, ◌≤◌, length};
ghost use Rattle.judge_spec.specs.Told.{is_name_byte};
ghost use Rattle.judge_spec.specs.ToldText.{space_word, mark_word};
ghost use Rattle.pci_base.specs.Space.{space_of};
ghost use Rattle.pci_dump.specs.ToldMarks.{mark_of};

use super::told_range::Mark;
use pci_base::space::Space;

/// `io`, `mem`, or `pref` for memory that a prefetchable window passes, too.
pub(crate) fn space_word(space: Space, prefetchable: bool) -> &'static [u8]
    ensures word { result.now ≡ space_word (space_of space) prefetchable }
    ensures short { length result.now ≤ 7 }
{
    match space {
        Space::Io => b"io",
        Space::Mem => { if prefetchable { b"pref" } else { b"mem" } }
    }
}

/// `command`, `always` or `held`.
pub(crate) fn mark_word(mark: Mark) -> &'static [u8]
    ensures word { result.now ≡ mark_word (mark_of mark) }
    ensures short { length result.now ≤ 7 }
{
    match mark {
        Mark::Command => b"command",
        Mark::Always => b"always",
        Mark::Held => b"held",
    }
}

/// Whether a byte may stand in a name: printable ASCII without the space.
pub(crate) fn is_name_byte(byte: u8) -> bool
    ensures { result ≡ is_name_byte byte }
{
    0x21 <= byte && byte <= 0x7e
}
