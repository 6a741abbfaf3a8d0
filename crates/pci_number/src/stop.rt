//! Why numbering stopped.
ghost use Rattle.std.specs.Prelude.{◌≡◌};

use crate::port::AccessFailed;
use pci_base::slot::Slot;

/// A write of a bus number that read back otherwise.
#[derive(Clone, Copy, Debug, PartialEq, Eq)]
pub struct NotTaken {
    /// The bridge.
    pub slot: Slot,
    /// The byte: 18h, 19h or 1Ah.
    pub offset: u8,
    /// What was written.
    pub number: u8,
}

/// Why numbering stopped. No write was made after that.
#[derive(Clone, Copy, Debug, PartialEq, Eq)]
pub enum Stop {
    /// A write read back otherwise.
    Stuck(NotTaken),
    /// An access failed.
    Port,
}

impl From<AccessFailed> for Stop {
    ghost use Rattle.pci_number.specs.declared.stop.Stop.TheVariants.{Port};

    ghost from_gives = { λ _ stop. stop ≡ Port };

    fn from(_failed: AccessFailed) -> Stop {
        Stop::Port
    }
}
