//! The lines of capabilities (PCI 3.0, 6.7).
ghost use Rattle.std.specs.Prelude.{◌≡◌, ◌<◌, ◌++◌, [], ◌∷◌, codes, OnOk};
ghost use Rattle.std.specs.String.{string_bytes};
ghost use Rattle.std.specs.Int.{bit_at};
ghost use Rattle.pci_spec.specs.Text.{hex_byte};
ghost use Rattle.pci_spec.specs.Listing.{flag_text, vectors_text, capability_line};
ghost use Rattle.pci_listing.specs.CapabilityLines.{power_support_text, power_state_text, message_control_text};

use crate::hex_text::{end_line, push_byte, push_decimal, push_hex, push_word};
use pci_base::image::Image;
use pci_base::offset::{
    MESSAGE_ADDRESS, MESSAGE_CONTROL, MESSAGE_DATA, MESSAGE_UPPER_ADDRESS, POWER_CAPABILITIES,
    POWER_CONTROL, WIDE_MESSAGE_DATA,
};
use pci_image::capability::{Cap, VECTOR_MASKING_BIT, WIDE_ADDRESS_BIT};
use std::alloc::{AllocError, Allocator};

/// Power Management Capabilities: the version in bits 2:0, D1 and D2 support, and in bits 15:11 the
/// states that PME# is asserted from (Power Management 1.2, 3.2.3).
const VERSIONS: u16 = 8;

const D1_SUPPORT: u32 = 9;

const D2_SUPPORT: u32 = 10;

const PME_SUPPORT: u32 = 11;

/// Power Management Control/Status: the power state in bits 1:0, PME enable and PME status (Power
/// Management 1.2, 3.2.4).
const POWER_STATES: u16 = 4;

const PME_ENABLE: u32 = 8;

const PME_STATUS: u32 = 15;

/// Message Control: MSI enable, and the codes of the vectors capable and enabled (PCI 3.0, 6.8.1.3).
const MSI_ENABLE: u32 = 0;

const CAPABLE_CODE: u32 = 1;

const ENABLED_CODE: u32 = 4;

const VECTOR_CODES: u16 = 8;

/// A bit of a register as the number 0 or 1.
fn flag(register: u16, bit: u32) -> u16
    requires { bit < 16 }
    ensures { result ≡ bit_at register bit }
{
    (register >> bit) % 2
}

/// Appends a bit of a register as a digit.
fn push_flag<A: Allocator>(text: &mut String<A>, register: u16, bit: u32) -> Result<(), AllocError>
    requires { bit < 16 }
    ensures { OnOk result
        (string_bytes text.new ≡ string_bytes text.old ++ flag_text register bit) }
{
    text.push_str(if flag(register, bit) == 1 { "1" } else { "0" })
}

/// A number of vectors by its code.
fn vectors_text(code: u16) -> &'static str
    ensures { result.now ≡ vectors_text code }
{
    match code {
        0 => "1",
        1 => "2",
        2 => "4",
        3 => "8",
        4 => "16",
        5 => "32",
        _ => "reserved",
    }
}

/// Appends which power states a function supports.
fn push_support<A: Allocator>(text: &mut String<A>, capabilities: u16) -> Result<(), AllocError>
    ensures { OnOk result
        (string_bytes text.new ≡ string_bytes text.old ++ power_support_text capabilities) }
{
    let version = (capabilities % VERSIONS) as u8;
    let pme = (capabilities >> PME_SUPPORT) as u8;
    text.push_str("version ")?;
    push_decimal(text, version)?;
    text.push_str(" d1 ")?;
    push_flag(text, capabilities, D1_SUPPORT)?;
    text.push_str(" d2 ")?;
    push_flag(text, capabilities, D2_SUPPORT)?;
    text.push_str(" pme ")?;
    push_byte(text, pme)
}

/// Appends the power state that a function is in.
fn push_state<A: Allocator>(text: &mut String<A>, control: u16) -> Result<(), AllocError>
    ensures { OnOk result
        (string_bytes text.new ≡ string_bytes text.old ++ (power_state_text control ++ 10 ∷ [])) }
{
    let state = (control % POWER_STATES) as u8;
    text.push_str("state ")?;
    push_decimal(text, state)?;
    text.push_str(" enable ")?;
    push_flag(text, control, PME_ENABLE)?;
    text.push_str(" status ")?;
    push_flag(text, control, PME_STATUS)?;
    end_line(text)
}

/// Appends what Message Control says.
fn push_control<A: Allocator>(text: &mut String<A>, control: u16) -> Result<(), AllocError>
    ensures { OnOk result
        (string_bytes text.new ≡ string_bytes text.old ++ message_control_text control) }
{
    let capable = vectors_text((control >> CAPABLE_CODE) % VECTOR_CODES);
    let enabled = vectors_text((control >> ENABLED_CODE) % VECTOR_CODES);
    text.push_str("on ")?;
    push_flag(text, control, MSI_ENABLE)?;
    text.push_str(" capable ")?;
    text.push_str(capable)?;
    text.push_str(" enabled ")?;
    text.push_str(enabled)?;
    text.push_str(" wide ")?;
    push_flag(text, control, WIDE_ADDRESS_BIT)?;
    text.push_str(" mask ")?;
    push_flag(text, control, VECTOR_MASKING_BIT)
}

/// Appends the place of a capability and its kind.
fn push_place<A: Allocator>(
    text: &mut String<A>,
    place: u8,
    kind: &'static str,
) -> Result<(), AllocError>
    ensures { OnOk result (string_bytes text.new
        ≡ string_bytes text.old ++ (codes "  cap " ++ (hex_byte place ++ kind.now))) }
{
    text.push_str("  cap ")?;
    push_byte(text, place)?;
    text.push_str(kind)
}

/// The line of a capability, at its place.
#[derive(Clone, Copy)]
pub enum CapabilityLine {
    /// Power management, by its two registers, as
    /// `cap 40 power version 2 d1 0 d2 0 pme 00 state 0 enable 0 status 0`.
    Power {
        place: u8,
        capabilities: u16,
        control: u16,
    },
    /// Message signaled interrupts, as
    /// `cap 50 msi on 0 capable 1 enabled 1 wide 1 mask 0 address 00000000fee00000 data 4041`.
    Message {
        place: u8,
        control: u16,
        address: u64,
        value: u16,
    },
    /// Any other, as `cap 40 raw 09`.
    Raw {
        place: u8,
        id: u8,
    },
}

impl CapabilityLine {
    ghost use Rattle.pci_image.specs.Caps.{place_of};
    ghost use Rattle.pci_listing.specs.CapabilityLines.{capability_line_text, IsListed};

    /// The line of a capability that the list of this image comes to.
    pub fn of(image: &Image, cap: Cap<'_>) -> CapabilityLine
        // fields are read at offsets from the entry, which lie in the image then
        requires { IsListed image.now.0 cap }
        ensures { capability_line_text result ≡ capability_line image.now.0 (place_of cap.entry) }
    {
        match cap {
            Cap::Power { place, .. } => CapabilityLine::Power {
                place,
                capabilities: image.u16(place + POWER_CAPABILITIES),
                control: image.u16(place + POWER_CONTROL),
            },
            Cap::Msi { place, .. } => CapabilityLine::of_message(image, place),
            Cap::Raw { place, .. } => CapabilityLine::Raw {
                place,
                id: image.u8(place),
            },
        }
    }
}

impl CapabilityLine {
    ghost use Rattle.std.specs.Prelude.{◌+◌, ◌%◌, ◌≤◌};
    ghost use Rattle.pci_spec.specs.Capability.{message_control, msi_length};
    ghost use Rattle.pci_spec.specs.Listing.{message_line, message_address, message_value};
    ghost use Rattle.pci_listing.specs.CapabilityLines.{capability_line_text};

    /// The line of an MSI capability at this place.
    fn of_message(image: &Image, place: u8) -> CapabilityLine
        requires aligned { place % 4 ≡ 0 }
        requires fits { place + msi_length (message_control image.now.0 place) ≤ 256 }
        ensures { capability_line_text result
            ≡ message_line place (message_control image.now.0 place)
            (message_address image.now.0 place) (message_value image.now.0 place) }
    {
        let control = image.u16(place + MESSAGE_CONTROL);
        let lower = u64::from(image.u32(place + MESSAGE_ADDRESS));
        let (address, value) = if flag(control, WIDE_ADDRESS_BIT) == 1 {
            let upper = u64::from(image.u32(place + MESSAGE_UPPER_ADDRESS));
            (
                lower + upper * (1 << 32),
                image.u16(place + WIDE_MESSAGE_DATA),
            )
        } else {
            (lower, image.u16(place + MESSAGE_DATA))
        };
        CapabilityLine::Message {
            place,
            control,
            address,
            value,
        }
    }

    /// Appends the line.
    pub fn push_to<A: Allocator>(self, text: &mut String<A>) -> Result<(), AllocError>
        ensures { OnOk result
            (string_bytes text.new ≡ string_bytes text.old ++ capability_line_text self) }
    {
        match self {
            CapabilityLine::Power {
                place,
                capabilities,
                control,
            } => {
                push_place(text, place, " power ")?;
                push_support(text, capabilities)?;
                text.push_str(" ")?;
                push_state(text, control)
            }
            CapabilityLine::Message {
                place,
                control,
                address,
                value,
            } => {
                push_place(text, place, " msi ")?;
                push_control(text, control)?;
                text.push_str(" address ")?;
                push_hex(text, address, 16)?;
                text.push_str(" data ")?;
                push_word(text, value)?;
                end_line(text)
            }
            CapabilityLine::Raw { place, id } => {
                push_place(text, place, " raw ")?;
                push_byte(text, id)?;
                end_line(text)
            }
        }
    }
}
