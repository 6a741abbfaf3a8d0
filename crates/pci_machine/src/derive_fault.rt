//! Why no probe is derived for a function.
ghost use Rattle.std.specs.Prelude.{◌≡◌};

use pci_image::fault::ImageFault;

/// Why no probe is derived for a function. A register is named by its byte offset.
#[derive(Clone, Copy, Debug, PartialEq, Eq)]
pub enum DeriveFault {
    /// 20 `NoVendor` or 21 `HeaderKind`: the function's header isn't decoded.
    Header(ImageFault),
    /// 32: no size is told of the register, and none may be assumed.
    NoSize(u8),
    /// 33: the register shows 0, and what is told of it has another encoding or size.
    OtherSize(u8),
}

impl DeriveFault {
    ghost use Rattle.pci_machine.specs.DeriveFault.{derive_fault_number};

    /// The number of the fault.
    pub fn number(self) -> u8
        ensures { result ≡ derive_fault_number self }
    {
        match self {
            DeriveFault::Header(fault) => fault.number(),
            DeriveFault::NoSize(_) => 32,
            DeriveFault::OtherSize(_) => 33,
        }
    }
}
