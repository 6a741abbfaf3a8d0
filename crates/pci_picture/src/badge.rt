//! What the tree shows of a fault beside a function.
ghost use Rattle.std.specs.Prelude.{◌≡◌};
ghost use Rattle.std.specs.List.{find};
ghost use Rattle.std.specs.Option.{option_map};
ghost use Rattle.pci_picture.specs.Badges.{first_slot_of};
ghost use Rattle.pci_picture.specs.Lines.{is_slot, words_in_line};

use super::reading::slot_number;

/// What the tree shows of a fault beside a function.
#[derive(Clone, Copy, PartialEq, Eq)]
pub struct Badge {
    /// The number of the function's slot.
    pub slot: u32,
    pub number: u8,
    /// Whether the fault names it as the bridge.
    pub is_bridge: bool,
}

impl Badge {
    ghost use Rattle.pci_picture.specs.Ranks.{rank_of_badge};

    /// Its place among all: by slot, then by number, and last as a bridge.
    pub fn rank(&self) -> u64
        ensures { result ≡ rank_of_badge self.now }
    {
        u64::from(self.slot) * 512 + u64::from(self.number) * 2 + u64::from(self.is_bridge)
    }
}

/// The first slot of a line.
fn slot_in(line: &[u8]) -> Option<&[u8]>
    ensures { option_map (λ slot. slot.now) result ≡ find is_slot (words_in_line line.now) }
{
    line.split(|byte| *byte == b' ')
        .filter(|word| !word.is_empty())
        .find(|word| slot_number(word).is_some())
}

/// The number of the first slot of a line.
pub fn first_slot(line: &[u8]) -> Option<u32>
    ensures { result ≡ first_slot_of (words_in_line line.now) }
{
    slot_number(slot_in(line)?)
}
