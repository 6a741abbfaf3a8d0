//! Why a function isn't sized.
ghost use Rattle.std.specs.Prelude.{◌≡◌};

use crate::port::PortError;
use pci_image::fault::ImageFault;

/// Why a function isn't sized.
#[derive(Clone, Copy, Debug, PartialEq, Eq)]
pub enum SizeFault {
    /// 20 `NoVendor` or 21 `HeaderKind`: the function's header isn't decoded. Nothing was written.
    Header(ImageFault),
    /// 43: the access at a byte offset was refused. Without the old Command nothing was written;
    /// with it the decode bits that can be written are clear, and address registers may be open.
    Port {
        offset: u8,
        fault: PortError,
        command: Option<u16>,
    },
    /// 44: a decode bit of Command can't be cleared. All is as it was.
    Stuck,
}

impl SizeFault {
    ghost use Rattle.pci_machine.specs.SizeOutcome.{size_fault_number};

    /// The number of the fault.
    pub fn number(self) -> u8
        ensures { result ≡ size_fault_number self }
    {
        match self {
            SizeFault::Header(fault) => fault.number(),
            SizeFault::Port { .. } => 43,
            SizeFault::Stuck => 44,
        }
    }
}
