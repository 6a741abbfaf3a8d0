//! The first line of a function: its slot and its identity, Command and Status.
ghost use Rattle.std.specs.Prelude.{◌≡◌, ◌<◌, ◌++◌, OnOk};
ghost use Rattle.std.specs.String.{string_bytes};
ghost use Rattle.pci_spec.specs.Header as header;
ghost use Rattle.pci_spec.specs.Listing.{header_line};

use crate::hex_text::{end_line, push_decimal, push_hex, push_slot, push_word};
use pci_base::image::Image;
use pci_base::offset::{COMMAND, DEVICE_ID, STATUS, VENDOR_ID};
use pci_base::slot::Slot;
use pci_image::header::class_code;
use pci_image::layout::Layout;
use std::alloc::{AllocError, Allocator};

/// Who made the function, and what it is (PCI 3.0, 6.2.1).
#[derive(Clone, Copy)]
struct Identity {
    vendor: u16,
    device: u16,
    class: u32,
}

impl Identity {
    ghost use Rattle.pci_listing.specs.HeaderLines.{identity_text};

    /// Appends the identity, as `vendor 1234 device 5678 class 000000`.
    fn push_to<A: Allocator>(self, text: &mut String<A>) -> Result<(), AllocError>
        ensures { OnOk result
            (string_bytes text.new ≡ string_bytes text.old ++ identity_text self) }
    {
        text.push_str("vendor ")?;
        push_word(text, self.vendor)?;
        text.push_str(" device ")?;
        push_word(text, self.device)?;
        text.push_str(" class ")?;
        push_hex(text, u64::from(self.class), 6)
    }
}

/// The first line of a function, as
/// `00:02.0 type 0 vendor 1234 device 5678 class 000000 command 0002 status 0010`.
#[derive(Clone, Copy)]
pub struct HeaderLine {
    slot: Slot,
    layout: Layout,
    identity: Identity,
    command: u16,
    status: u16,
}

impl HeaderLine {
    ghost use Rattle.pci_image.specs.Layouts.{layout_number};
    ghost use Rattle.pci_listing.specs.HeaderLines.{header_line_text};

    /// The line of a function with this image, whose header has this layout.
    pub fn of(slot: Slot, layout: Layout, image: &Image) -> HeaderLine
        // a device's line and a bridge's have other fields
        requires { layout_number layout ≡ header.layout image.now.0 }
        ensures { header_line_text result ≡ header_line slot image.now.0 }
    {
        HeaderLine {
            slot,
            layout,
            identity: Identity {
                vendor: image.u16(VENDOR_ID),
                device: image.u16(DEVICE_ID),
                class: class_code(image),
            },
            command: image.u16(COMMAND),
            status: image.u16(STATUS),
        }
    }

    /// Appends the line.
    pub fn push_to<A: Allocator>(self, text: &mut String<A>) -> Result<(), AllocError>
        ensures { OnOk result
            (string_bytes text.new ≡ string_bytes text.old ++ header_line_text self) }
    {
        push_slot(text, self.slot)?;
        text.push_str(" type ")?;
        push_decimal(text, self.layout.number())?;
        text.push_str(" ")?;
        self.identity.push_to(text)?;
        text.push_str(" command ")?;
        push_word(text, self.command)?;
        text.push_str(" status ")?;
        push_word(text, self.status)?;
        end_line(text)
    }
}
