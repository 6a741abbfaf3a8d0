//! The capabilities list (PCI 3.0, 6.7).
ghost use Rattle.std.specs.Prelude.{◌≡◌, ◌<◌, ◌≤◌, ◌+◌, ◌%◌, ◌/◌, ◌*◌, ◌↔◌, [], length, IsOk, IfOk, OnOk, IfErr, IsTrue, map, All};
ghost use Rattle.pci_spec.specs.Capability.{body_length, msi_length, pointer, pointer_at, HasChain, IsChain};
ghost use Rattle.pci_image.specs.Caps.{place_of, body_of, IsCapIn, IsChainFaultIn, IsFirstAlong};

use super::fault::ImageFault;
use super::place_set::PlaceSet;
use arrayvec::ArrayVec;
use pci_base::image::Image;
use pci_base::offset::{CAPABILITIES_POINTER, MESSAGE_CONTROL, STATUS};

/// A capability: its place, which is the byte offset of its ID, and its body, which is the image's
/// own bytes from there.
#[derive(Clone, Copy, Debug, PartialEq, Eq)]
pub enum Cap<'a> {
    /// Power management, ID 01h, 8 bytes (Power Management 1.2, 3.2).
    Power { place: u8, body: &'a [u8] },
    /// Message signaled interrupts, ID 05h, 10 to 24 bytes (PCI 3.0, 6.8.1).
    Msi { place: u8, body: &'a [u8] },
    /// Any other ID, with its first four bytes.
    Raw { place: u8, body: &'a [u8] },
}

/// Fills the places of a list that no capability takes yet.
impl Default for Cap<'_> {
    fn default() -> Self {
        Cap::Raw {
            place: 0,
            body: &[],
        }
    }
}

/// Bit 4 of Status: there is a capabilities list (6.2.3).
const CAPABILITIES_LIST: u16 = 1 << 4;

/// The bits of a pointer; its two low bits are reserved (6.7).
const POINTER_BITS: u8 = 0xfc;

/// The first offset behind the header.
const FIRST_PLACE: u8 = 0x40;

/// The ID of power management (Power Management 1.2, 3.2.1).
pub const POWER_MANAGEMENT: u8 = 0x01;

/// The ID of message signaled interrupts.
const MESSAGE_SIGNALED_INTERRUPTS: u8 = 0x05;

/// The bit number of 64-bit Address Capable in Message Control (6.8.1.3).
pub const WIDE_ADDRESS_BIT: u32 = 7;

/// The bit number of Per-vector Masking Capable in Message Control (6.8.1.3).
pub const VECTOR_MASKING_BIT: u32 = 8;

const WIDE_ADDRESS: u16 = 1 << WIDE_ADDRESS_BIT;

const VECTOR_MASKING: u16 = 1 << VECTOR_MASKING_BIT;

/// The pointer at an offset, without its reserved bits.
fn pointer_at(image: &Image, off: u8) -> u8
    ensures { result ≡ pointer_at image.now.0 off }
{
    image.u8(off) & POINTER_BITS
}

/// The first pointer of the list, 0 where there is no list.
fn first_pointer(image: &Image) -> u8
    ensures { result ≡ pointer image.now.0 0 }
{
    if image.u16(STATUS) & CAPABILITIES_LIST == 0 {
        0
    } else {
        pointer_at(image, CAPABILITIES_POINTER)
    }
}

/// The bytes of an MSI capability, by its Message Control.
fn msi_length(control: u16) -> u8
    ensures value { result ≡ msi_length control }
    ensures small { result ≤ 24 }
{
    match (control & WIDE_ADDRESS != 0, control & VECTOR_MASKING != 0) {
        (false, false) => 10,
        (true, false) => 14,
        (false, true) => 20,
        (true, true) => 24,
    }
}

/// The bytes of the capability at a place, by its ID.
fn length_at(image: &Image, place: u8) -> u8
    requires { place % 4 ≡ 0 }
    ensures { result ≡ body_length image.now.0 place }
{
    match image.u8(place) {
        POWER_MANAGEMENT => 8,
        MESSAGE_SIGNALED_INTERRUPTS => msi_length(image.u16(place + MESSAGE_CONTROL)),
        _ => 4,
    }
}

/// Whether the body of the capability at a place ends within the image.
fn ends_within(image: &Image, place: u8) -> bool
    requires { place % 4 ≡ 0 }
    ensures { IsTrue result ↔ (place + body_length image.now.0 place ≤ 256) }
{
    usize::from(place) + usize::from(length_at(image, place)) <= image.0.len()
}

impl<'a> Cap<'a> {
    /// The byte offset of its ID.
    pub fn place(&self) -> u8
        ensures { result ≡ place_of self.now }
    {
        match self {
            Cap::Power { place, .. } | Cap::Msi { place, .. } | Cap::Raw { place, .. } => *place,
        }
    }

    /// The capability's own bytes.
    pub fn body(&self) -> &'a [u8]
        ensures { result.now ≡ body_of self.now }
    {
        match self {
            Cap::Power { body, .. } | Cap::Msi { body, .. } | Cap::Raw { body, .. } => body,
        }
    }

    /// The capability at a place.
    fn at(image: &'a Image, place: u8) -> Cap<'a>
        requires aligned { place % 4 ≡ 0 }
        requires fits { place + body_length image.now.0 place ≤ 256 }
        ensures { (place_of result ≡ place) × IsCapIn image.entry.now.0 result }
    {
        let start = usize::from(place);
        let end = start + usize::from(length_at(image, place));
        let body = &image.0[start..end];
        match image.u8(place) {
            POWER_MANAGEMENT => Cap::Power { place, body },
            MESSAGE_SIGNALED_INTERRUPTS => Cap::Msi { place, body },
            _ => Cap::Raw { place, body },
        }
    }
}

/// The places of a function's capabilities, along its list: each is the byte offset of an ID. A
/// function without a list has none.
///
/// A list has at most 48 places, since each is a multiple of four from 40h to FCh.
///
/// # Errors
///
/// For the first place of the list that is refused: 27 `CapRange` where it is below 40h; else 28
/// `CapLoop` where the list came to it before; else 29 `CapCut` where the capability's body passes
/// the end of the image.
pub fn places(image: &Image) -> Result<ArrayVec<u8, 48>, ImageFault>
    ensures lawful { IsOk result ↔ HasChain image.now.0 }
    ensures chain { IfOk result (λ v. IsChain image.now.0 v.items) }
    ensures fault { IfErr result (IsChainFaultIn image.now.0) }
    ensures first { IfErr result (IsFirstAlong image.now.0) }
{
    let mut found = ArrayVec::new();
    add_places(image, &mut found)?;
    Ok(found)
}

/// Adds the places of a function's capabilities to a list of none, as [`places`] gives them.
///
/// # Errors
///
/// As of [`places`]. Those before the refused one were added.
pub fn add_places(image: &Image, found: &mut ArrayVec<u8, 48>) -> Result<(), ImageFault>
    // there is room for the places of one list, and for no others besides
    requires none { found.old.items ≡ [] }
    ensures lawful { IsOk result ↔ HasChain image.now.0 }
    // all places, as the power state is looked for at each of them
    ensures chain { OnOk result (IsChain image.now.0 found.new.items) }
    ensures fault { IfErr result (IsChainFaultIn image.now.0) }
    ensures first { IfErr result (IsFirstAlong image.now.0) }
{
    let mut met = PlaceSet::new();
    let mut place = first_pointer(image);
    while place != 0 {
        if place < FIRST_PLACE {
            return Err(ImageFault::CapRange(place));
        }
        if met.has(place) {
            return Err(ImageFault::CapLoop(place));
        }
        if !ends_within(image, place) {
            return Err(ImageFault::CapCut(place));
        }
        met.insert(place);
        found.push(place);
        place = pointer_at(image, place + 1);
    }
    Ok(())
}

/// The capabilities of a function, at the places of its list.
///
/// # Errors
///
/// As of [`places`].
pub fn chain(image: &Image) -> Result<ArrayVec<Cap<'_>, 48>, ImageFault>
    ensures lawful { IsOk result ↔ HasChain image.now.0 }
    ensures places { IfOk result (λ v. IsChain image.now.0 (map place_of v.items)) }
    // the listing prints these bytes, so they have to be the image's own
    ensures bodies { IfOk result (λ v. All (IsCapIn image.now.0) v.items) }
    ensures fault { IfErr result (IsChainFaultIn image.now.0) }
    ensures first { IfErr result (IsFirstAlong image.now.0) }
{
    let places = places(image)?;
    let mut found = ArrayVec::new();
    for &place in places.as_slice() {
        found.push(Cap::at(image, place));
    }
    Ok(found)
}
