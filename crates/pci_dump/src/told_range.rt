//! A range of addresses that a function answers, and of which a text tells.
ghost use Rattle.std.specs.Prelude.{◌≡◌, ◌↔◌, IsTrue};
ghost use Rattle.judge_spec.specs.ToldClaims.{is_marked_held};
ghost use Rattle.judge_spec.specs.ToldForm.{blank};
ghost use Rattle.pci_base.specs.Space.{space_of};

use arrayvec::ArrayVec;
use pci_base::slot::Slot;
use pci_base::space::Space;
use std::marker::Model;

/// The most bytes of a name.
pub const NAME_MAX: usize = 32;

/// When a range is answered.
#[derive(Clone, Copy, Debug, PartialEq, Eq)]
pub enum Mark {
    /// While the function's Command enables the space.
    Command,
    /// Whatever its Command says.
    Always,
    /// Somebody at the slot answers it, and nothing else is known of whom.
    Held,
}

/// Addresses that a function answers, from the first to the last.
#[derive(Debug, Drop)]
pub struct ToldRange {
    pub slot: Slot,
    pub space: Space,
    /// A prefetchable window passes it, too, as it does a prefetchable BAR.
    pub prefetchable: bool,
    pub first: u64,
    pub last: u64,
    pub mark: Mark,
    /// 1 to 32 bytes of printable ASCII (21h to 7Eh) for the reader; empty where there is no name.
    pub name: ArrayVec<u8, NAME_MAX>,
}

impl Model for ToldRange {
    ghost use Rattle.judge_spec.specs.Told.{ToldRange as RangeValue};
    ghost use Rattle.pci_base.specs.Space.{space_of};
    ghost use Rattle.pci_dump.specs.ToldMarks.{mark_of};

    ghost Value = { RangeValue };

    ghost view = { λ r. record {
      slot = r.slot;
      space = space_of r.space;
      prefetchable = r.prefetchable;
      first = r.first;
      last = r.last;
      mark = mark_of r.mark;
      name = r.name.items;
    } };
}

impl ToldRange {
    /// Address 0 of I/O space at 00:00.0, without a name: a place to read a range into.
    pub(crate) fn blank() -> ToldRange
        ensures { result ≡ blank }
    {
        ToldRange {
            slot: Slot::default(),
            space: Space::Io,
            prefetchable: false,
            first: 0,
            last: 0,
            mark: Mark::Command,
            name: ArrayVec::new(),
        }
    }

    /// Whether it is a held range.
    pub fn is_held(&self) -> bool
        ensures { result ≡ is_marked_held self.now.mark }
    {
        matches!(self.mark, Mark::Held)
    }

    /// Whether it is of a space.
    pub fn is_in(&self, space: Space) -> bool
        ensures { IsTrue result ↔ (self.now.space ≡ space_of space) }
    {
        match self.space {
            Space::Io => matches!(space, Space::Io),
            Space::Mem => matches!(space, Space::Mem),
        }
    }
}
