//! Whether a bridge has a hot-plug slot (PCI 3.0, 6.7; PCI Express Base 3.0, 7.8.2 and 7.8.9; SHPC
//! 1.0).
ghost use Rattle.std.specs.Prelude.{◌≡◌, ◌+◌, ◌*◌, ◌/◌, ◌<◌, ◌≤◌, ◌&&◌, IfOk};
ghost use Rattle.pci_spec.specs.Number.{byte_at, has_bit};
ghost use Rattle.pci_number.specs.SpareBuses.{is_hot_plug, has_hot_plug_slot, spare_room};
ghost use Rattle.pci_number.specs.Stops.{failures_of_access};
ghost use Rattle.pci_number.specs.Spare.{IsSaidThere};
ghost use Rattle.pci_number.specs.Accesses.{most_of_room};

use crate::port::{AccessFailed, BoardPort};
use pci_base::offset::{CAPABILITIES_POINTER, STATUS};
use pci_base::slot::Slot;

/// The Capability IDs of a Standard Hot-Plug Controller and of PCI Express (PCI 3.0, appendix H).
pub const HOT_PLUG_CONTROLLER: u8 = 0x0c;

pub const EXPRESS: u8 = 0x10;

/// Where the upper byte of PCI Express Capabilities, and Slot Capabilities, stand in a PCI Express
/// capability.
pub const EXPRESS_CAPABILITIES_HIGH: u8 = 0x03;

pub const SLOT_CAPABILITIES: u8 = 0x14;

/// From here on Slot Capabilities would begin behind the 256 bytes.
pub const NO_SLOT_FROM: u8 = 0xec;

/// The first place behind the header.
pub const FIRST_PLACE: u8 = 0x40;

/// The most places that a list can have without coming to one twice.
pub const MOST_PLACES: u8 = 48;

/// The place that a pointer leads to: its two low bits are reserved.
pub fn place_of(pointer: u8) -> u8
    ensures { result ≡ pointer / 4 * 4 }
{
    pointer / 4 * 4
}

/// Whether the port of a PCI Express capability has a slot, and that is Hot-Plug Capable.
fn has_slot<P: BoardPort>(port: &mut P, slot: Slot, place: u8) -> Result<bool, AccessFailed>
    // Slot Capabilities begin within the 256 bytes
    requires { place < 236 }
    ensures slot { IfOk result (λ has. IsSaidThere (P.board port.old) slot (λ image.
        has ≡ (has_bit (byte_at image (place + 3)) 0 && has_bit (byte_at image (place + 20)) 6))) }
    ensures same { P.board port.new ≡ P.board port.old }
    ensures same_history { P.history port.new ≡ P.history port.old }
    ensures no_write { P.last_write port.new ≡ P.last_write port.old }
    ensures counted { P.failures port.new ≡ P.failures port.old + failures_of_access result }
    ensures no_more { P.writes port.new ≡ P.writes port.old }
    ensures bounded { P.accesses port.new ≤ P.accesses port.old + 2 }
{
    let express = port.read(slot, place + EXPRESS_CAPABILITIES_HIGH)?;
    let capabilities = port.read(slot, place + SLOT_CAPABILITIES)?;
    Ok(express % 2 == 1 && capabilities / 64 % 2 == 1)
}

/// Whether the capability at a place is that of a hot-plug slot.
fn is_hot_plug<P: BoardPort>(port: &mut P, slot: Slot, place: u8) -> Result<bool, AccessFailed>
    ensures is { IfOk result (λ is. IsSaidThere (P.board port.old) slot (λ image.
        is ≡ is_hot_plug image place)) }
    ensures same { P.board port.new ≡ P.board port.old }
    ensures same_history { P.history port.new ≡ P.history port.old }
    ensures no_write { P.last_write port.new ≡ P.last_write port.old }
    ensures counted { P.failures port.new ≡ P.failures port.old + failures_of_access result }
    ensures no_more { P.writes port.new ≡ P.writes port.old }
    ensures bounded { P.accesses port.new ≤ P.accesses port.old + 3 }
{
    let id = port.read(slot, place)?;
    if id == HOT_PLUG_CONTROLLER {
        return Ok(true);
    }
    if id != EXPRESS || NO_SLOT_FROM <= place {
        return Ok(false);
    }
    has_slot(port, slot, place)
}

/// Whether a capability of a bridge's list is that of a hot-plug slot. A list that leads back to
/// itself ends after 48 places.
fn has_hot_plug_slot<P: BoardPort>(port: &mut P, slot: Slot) -> Result<bool, AccessFailed>
    ensures has { IfOk result (λ has. IsSaidThere (P.board port.old) slot (λ image.
        has ≡ has_hot_plug_slot image)) }
    ensures same { P.board port.new ≡ P.board port.old }
    ensures same_history { P.history port.new ≡ P.history port.old }
    ensures no_write { P.last_write port.new ≡ P.last_write port.old }
    ensures counted { P.failures port.new ≡ P.failures port.old + failures_of_access result }
    ensures no_more { P.writes port.new ≡ P.writes port.old }
    ensures bounded { P.accesses port.new ≤ P.accesses port.old + most_of_room }
{
    let status = port.read(slot, STATUS)?;
    if status / 16 % 2 == 0 {
        return Ok(false);
    }
    let mut place = place_of(port.read(slot, CAPABILITIES_POINTER)?);
    for n in 0..MOST_PLACES {
        if place < FIRST_PLACE {
            return Ok(false);
        }
        if is_hot_plug(port, slot, place)? {
            return Ok(true);
        }
        place = place_of(port.read(slot, place + 1)?);
    }
    Ok(false)
}

/// How many buses are kept free behind a bridge: so many where it has a hot-plug slot.
pub fn room_of<P: BoardPort>(port: &mut P, slot: Slot, spare: u8) -> Result<u8, AccessFailed>
    ensures room { IfOk result (λ n. IsSaidThere (P.board port.old) slot (λ image.
        n ≡ spare_room spare image)) }
    // looking writes nothing, so what was found still stands
    ensures same { P.board port.new ≡ P.board port.old }
    ensures same_history { P.history port.new ≡ P.history port.old }
    ensures no_write { P.last_write port.new ≡ P.last_write port.old }
    ensures counted { P.failures port.new ≡ P.failures port.old + failures_of_access result }
    ensures no_more { P.writes port.new ≡ P.writes port.old }
    ensures bounded { P.accesses port.new ≤ P.accesses port.old + most_of_room }
{
    if spare == 0 {
        return Ok(0);
    }
    if has_hot_plug_slot(port, slot)? {
        Ok(spare)
    } else {
        Ok(0)
    }
}
