//! One access of a numbering, as a log has it.
ghost use Rattle.std.specs.Prelude.{◌≡◌, ◌+◌, ◌*◌, ◌==◌, ◌&&◌};
ghost use Rattle.pci_number.specs.Logs.{is_same, slot_of_access};

use crate::number::Numbering;
use crate::stop::NotTaken;
use pci_base::slot::Slot;

/// A byte is read.
pub const READ: u8 = 0;

/// A byte is written.
pub const WRITE: u8 = 1;

/// An access to a byte of a function.
#[repr(C)]
#[derive(Clone, Copy, Debug, PartialEq, Eq)]
pub struct Access {
    pub bus: u8,
    /// Eight times the device number, and the function number.
    pub place: u8,
    /// The byte offset.
    pub offset: u8,
    /// `READ` or `WRITE`.
    pub kind: u8,
    /// What is written, or what was read; 0 of a read that wasn't made yet.
    pub value: u8,
}

/// What follows from the accesses that were made.
#[derive(Clone, Copy, Debug, PartialEq, Eq)]
pub enum Step {
    /// This access is to be made next.
    Next(Access),
    /// All accesses were made.
    Done(Numbering),
    /// The last write read back otherwise. No access is to be made any more.
    Stuck(NotTaken),
}

/// What follows, and how many accesses of the log were those of the numbering.
#[derive(Clone, Copy, Debug, PartialEq, Eq)]
pub struct Stepped {
    pub used: usize,
    pub step: Step,
}

impl Access {
    /// An access to a function's byte.
    pub fn to(slot: Slot, offset: u8, kind: u8, value: u8) -> Access
        ensures slot { slot_of_access result ≡ slot }
        ensures offset { result.offset ≡ offset }
        ensures kind { result.kind ≡ kind }
        ensures value { result.value ≡ value }
    {
        Access {
            bus: slot.bus(),
            place: slot.dev() * 8 + slot.fun(),
            offset,
            kind,
            value,
        }
    }

    /// Whether it is the access that is wanted. It doesn't count what a read showed.
    pub fn is(&self, wanted: &Access) -> bool
        ensures { result ≡ is_same self.now wanted.now }
    {
        self.bus == wanted.bus
            && self.place == wanted.place
            && self.offset == wanted.offset
            && self.kind == wanted.kind
            && (wanted.kind == READ || self.value == wanted.value)
    }
}
