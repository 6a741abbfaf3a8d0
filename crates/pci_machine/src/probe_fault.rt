//! Why no probe is derived for a dump.
ghost use Rattle.std.specs.Prelude.{◌≡◌, Some};
ghost use Rattle.pci_spec.specs.ProbeOf.{probe_fault_number, probe_fault_text};

use super::derive_fault::DeriveFault;
use pci_base::slot::Slot;
use pci_image::fault::ImageFault;
use std::fmt;

/// Why no probe is derived for a dump, with the function and, as a byte offset, the register.
#[derive(Clone, Copy, Debug, PartialEq, Eq)]
pub enum ProbeFault {
    /// 30: only one of dump and sizes lists the slot.
    SlotsDiffer(Slot),
    /// 20: the vendor reads FFFFh, so no function answers (PCI 3.0, 6.2.1).
    NoVendor(Slot),
    /// 21: the header is neither of type 0 nor of type 1.
    HeaderKind(Slot),
    /// 32: no size is told of a BAR or of a ROM that is on, or, of an exact probe, of any register.
    NoSize(Slot, u8),
    /// 33: the register shows 0, and what is told of it has another encoding or size.
    OtherSize(Slot, u8),
}

impl ProbeFault {
    ghost use Rattle.pci_machine.specs.ProbeFault.{probe_fault_at, fault_value};

    /// The fault's number: 20, 21, 30, 32 or 33.
    pub fn number(self) -> u8
        ensures { result ≡ probe_fault_number (fault_value self) }
    {
        match self {
            ProbeFault::NoVendor(_) => 20,
            ProbeFault::HeaderKind(_) => 21,
            ProbeFault::SlotsDiffer(_) => 30,
            ProbeFault::NoSize(..) => 32,
            ProbeFault::OtherSize(..) => 33,
        }
    }

    /// The fault of the function at a slot.
    pub(crate) fn at(slot: Slot, fault: DeriveFault) -> ProbeFault
        ensures { fault_value result ≡ probe_fault_at slot fault }
    {
        match fault {
            DeriveFault::Header(ImageFault::HeaderKind) => ProbeFault::HeaderKind(slot),
            DeriveFault::Header(_) => ProbeFault::NoVendor(slot),
            DeriveFault::NoSize(register) => ProbeFault::NoSize(slot, register),
            DeriveFault::OtherSize(register) => ProbeFault::OtherSize(slot, register),
        }
    }
}

/// The fault's number, name, slot and register, as in `32 NoSize 00:01.0 10`.
impl fmt::Display for ProbeFault {
    ghost use Rattle.pci_machine.specs.ProbeFault.{fault_value};

    ghost output = { λ f. Some (probe_fault_text (fault_value f)) };

    fn fmt<W: fmt::Write>(&self, f: &mut fmt::Formatter<W>) -> fmt::Result {
        match *self {
            ProbeFault::NoVendor(slot) => write!(f, "20 NoVendor {slot}"),
            ProbeFault::HeaderKind(slot) => write!(f, "21 HeaderKind {slot}"),
            ProbeFault::SlotsDiffer(slot) => write!(f, "30 SlotsDiffer {slot}"),
            ProbeFault::NoSize(slot, register) => write!(f, "32 NoSize {slot} {register:02x}"),
            ProbeFault::OtherSize(slot, register) => write!(
                f,
                "33 OtherSize {slot} {register:02x}"
            ),
        }
    }
}
