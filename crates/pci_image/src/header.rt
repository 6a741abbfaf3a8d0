//! The two layouts of a configuration header (PCI 3.0, 6.1; Bridge 1.2, 3.2).
ghost use Rattle.std.specs.Prelude.{◌≡◌};
ghost use Rattle.pci_spec.specs.Header.{class_code};

use super::fault::ImageFault;
use super::layout::Layout;
use super::register::rom_register;
use pci_base::image::Image;
use pci_base::offset::{BASE_CLASS, INTERFACE, SUB_CLASS, VENDOR_ID};

/// An image with a type 0 header: a device.
#[derive(Clone, Copy, Debug, PartialEq, Eq)]
pub struct Header0<'a> {
    image: &'a Image,
}

/// An image with a type 1 header: a PCI-to-PCI bridge.
#[derive(Clone, Copy, Debug, PartialEq, Eq)]
pub struct Header1<'a> {
    image: &'a Image,
}

/// The header of an image, which it borrows.
#[derive(Clone, Copy, Debug, PartialEq, Eq)]
pub enum Header<'a> {
    Type0(Header0<'a>),
    Type1(Header1<'a>),
}

/// The Vendor ID of a function that doesn't answer (6.2.1).
pub const NO_VENDOR: u16 = 0xffff;

/// Base class, sub-class and programming interface, as one number of 24 bits (6.2.1).
pub fn class_code(image: &Image) -> u32
    ensures { result ≡ class_code image.now.0 }
{
    let interface = u32::from(image.u8(INTERFACE));
    let sub_class = u32::from(image.u8(SUB_CLASS));
    let base_class = u32::from(image.u8(BASE_CLASS));
    interface + sub_class * 0x100 + base_class * 0x1_0000
}

impl<'a> Header<'a> {
    ghost use Rattle.std.specs.Prelude.{◌≡◌, IsOk, IfOk, IfErr, IsFalse, ◌↔◌, ◌≤◌};
    ghost use Rattle.pci_spec.specs.Header.{bar_count, rom_register};
    ghost use Rattle.pci_spec.specs.Fault.{has_no_vendor};
    ghost use Rattle.pci_image.specs.Header.{HasHeader, IsHeaderOf, header_layout};
    ghost use Rattle.pci_image.specs.Layouts.{layout_number};
    ghost use Rattle.pci_image.specs.Faults.{IsImageFaultIn, image_fault_number};

    /// The header of an image.
    ///
    /// # Errors
    ///
    /// 20 `NoVendor` where no function answers, else 21 `HeaderKind` where the layout is neither 0
    /// nor 1.
    pub fn of(image: &'a Image) -> Result<Header<'a>, ImageFault>
        ensures lawful { IsOk result ↔ HasHeader image.entry.now.0 }
        ensures header { IfOk result (IsHeaderOf image.entry.now) }
        // 20 and 21 alone, which ask nothing of a probe: the image stands in for one
        ensures fault { IfErr result (λ f. IsImageFaultIn image.entry.now.0 image.entry.now.0 f
            × (image_fault_number f ≤ 21)) }
        // an empty slot reads all ones: its layout is no fault of its own
        ensures first { IfErr result
            (λ f. f ≡ ImageFault.HeaderKind → IsFalse (has_no_vendor image.entry.now.0)) }
    {
        if image.u16(VENDOR_ID) == NO_VENDOR {
            return Err(ImageFault::NoVendor);
        }
        match Layout::of(image) {
            Some(Layout::Device) => Ok(Header::Type0(Header0 { image })),
            Some(Layout::Bridge) => Ok(Header::Type1(Header1 { image })),
            None => Err(ImageFault::HeaderKind),
        }
    }

    /// Its layout.
    pub fn layout(&self) -> Layout
        ensures { layout_number result ≡ header_layout self.now }
    {
        match self {
            Header::Type0(_) => Layout::Device,
            Header::Type1(_) => Layout::Bridge,
        }
    }

    /// How many Base Address registers the header has.
    pub fn bar_count(&self) -> u8
        ensures { result ≡ bar_count (header_layout self.now) }
    {
        self.layout().bar_count()
    }

    /// The offset of the header's Expansion ROM Base Address register.
    pub fn rom_register(&self) -> u8
        ensures { result ≡ rom_register (header_layout self.now) }
    {
        rom_register(self.layout())
    }
}

impl<'a> Header0<'a> {
    /// The image with this header.
    pub fn image(&self) -> &'a Image
        ensures { result.now ≡ self.now.image.now }
    {
        self.image
    }
}

impl<'a> Header1<'a> {
    /// The image with this header.
    pub fn image(&self) -> &'a Image
        ensures { result.now ≡ self.now.image.now }
    {
        self.image
    }
}
