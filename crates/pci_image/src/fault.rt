//! What is wrong with the image and the read backs of one function.
ghost use Rattle.std.specs.Prelude.{◌≡◌};
ghost use Rattle.pci_image.specs.Faults.{image_fault_number};

/// Why the registers of a function are refused. A register is named by its byte offset, a
/// capability by the place of its first byte.
#[derive(Clone, Copy, Debug, PartialEq, Eq)]
pub enum ImageFault {
    /// 20: the vendor reads FFFFh, so no function answers (PCI 3.0, 6.2.1).
    NoVendor,
    /// 21: the header is of a layout that isn't decoded.
    HeaderKind,
    /// 22: a memory BAR of a reserved type.
    BarType(u8),
    /// 23: a BAR whose read back is of no lawful size, or whose value doesn't go with it.
    BarMask(u8),
    /// 24: a 64-bit BAR in the header's last BAR register.
    BarPair(u8),
    /// 25: an expansion ROM whose read back is of no lawful size, or whose value doesn't go with it.
    RomMask(u8),
    /// 26: a bridge window whose read backs or values are none of those that are decoded.
    WindowMask(u8),
    /// 27: the capability list leads to a place below 40h.
    CapRange(u8),
    /// 28: the capability list comes to a place twice.
    CapLoop(u8),
    /// 29: the body of a capability passes the end of the image.
    CapCut(u8),
}

impl ImageFault {
    /// The number of the fault, 20 to 29.
    pub fn number(self) -> u8
        ensures { result ≡ image_fault_number self }
    {
        match self {
            ImageFault::NoVendor => 20,
            ImageFault::HeaderKind => 21,
            ImageFault::BarType(_) => 22,
            ImageFault::BarMask(_) => 23,
            ImageFault::BarPair(_) => 24,
            ImageFault::RomMask(_) => 25,
            ImageFault::WindowMask(_) => 26,
            ImageFault::CapRange(_) => 27,
            ImageFault::CapLoop(_) => 28,
            ImageFault::CapCut(_) => 29,
        }
    }
}
