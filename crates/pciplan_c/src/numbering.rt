//! Numbering a board's buses, one access at a time, as C has it.
ghost use Rattle.std.specs.Prelude.{◌≡◌, ◌≤◌};
ghost use Rattle.pciplan_c.specs.Numbering.{stepped_of};

use pci_base::slot::Slot;
use pci_number::access::{Access, READ, Step, Stepped, WRITE};
use pci_number::number::Numbering;

/// All bridges have their numbers.
pub const NUMBERED: u8 = 0;

/// The numbers ran out.
pub const NO_BUS: u8 = 1;

/// The last write read back otherwise.
pub const STUCK: u8 = 2;

/// An access is to be made.
pub const ACCESS: u8 = 3;

/// What follows from the accesses that were made. The access is the next one; or that of the first bridge without a number; or
/// the write that read back otherwise.
#[repr(C)]
#[derive(Clone, Copy, Debug, PartialEq, Eq)]
pub struct NumberStep {
    pub access: Access,
    /// How many accesses of the log were those of the numbering.
    pub used: usize,
    /// The last bus that a bridge leads to, or the root where there is no bridge.
    pub highest: u8,
}

/// Puts what follows as C has it, and answers of which kind it is.
pub fn put_step(stepped: &Stepped, into: &mut NumberStep) -> u8
    ensures says { stepped_of result into.new ≡ stepped.now }
    ensures known { result ≤ 3 }
{
    into.used = stepped.used;
    into.highest = 0;
    match stepped.step {
        Step::Done(Numbering::Numbered { highest }) => {
            into.access = Access::to(Slot::default(), 0, READ, 0);
            into.highest = highest;
            NUMBERED
        }
        Step::Done(Numbering::NoBus { slot, highest }) => {
            into.access = Access::to(slot, 0, READ, 0);
            into.highest = highest;
            NO_BUS
        }
        Step::Next(access) => {
            into.access = access;
            ACCESS
        }
        Step::Stuck(told) => {
            into.access = Access::to(told.slot, told.offset, WRITE, told.number);
            STUCK
        }
    }
}
