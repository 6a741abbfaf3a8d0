//! Why a plan isn't put onto a machine, or not to its end.
ghost use Rattle.std.specs.Prelude.{◌≡◌, Some};

use pci_base::slot::Slot;
use std::fmt;

/// Why a plan isn't put onto a machine, or not to its end.
#[derive(Clone, Copy, Debug, PartialEq, Eq)]
pub enum ApplyFault {
    /// 80: the register at the offset of the function at the slot isn't as the plan starts from. Nothing was written.
    Changed(Slot, u8),
    /// 81: an access failed, or a function of the plan isn't there. Exactly the first `done` writes were made, none of them
    /// while functions are still compared with the plan's start.
    Port { done: usize },
    /// 82: the last of the first `done` writes reads back otherwise. No more were made.
    Stuck { done: usize },
}

impl ApplyFault {
    ghost use Rattle.pci_plan.specs.ApplyText.{apply_fault_number};

    /// The fault's number, 80 to 82.
    pub fn number(&self) -> u8
        ensures { result ≡ apply_fault_number self.now }
    {
        match self {
            ApplyFault::Changed(..) => 80,
            ApplyFault::Port { .. } => 81,
            ApplyFault::Stuck { .. } => 82,
        }
    }
}

/// The fault's number, its name and what it names.
impl fmt::Display for ApplyFault {
    ghost use Rattle.pci_plan.specs.ApplyText.{apply_fault_text};

    ghost output = { λ f. Some (apply_fault_text f) };

    fn fmt<W: fmt::Write>(&self, f: &mut fmt::Formatter<W>) -> fmt::Result {
        match *self {
            ApplyFault::Changed(slot, offset) => write!(f, "80 Changed {slot} {offset:02x}"),
            ApplyFault::Port { done } => write!(f, "81 Port {done}"),
            ApplyFault::Stuck { done } => write!(f, "82 Stuck {done}"),
        }
    }
}
