//! What is at a place of a bus.
ghost use Rattle.std.specs.Prelude.{◌≡◌, ◌+◌, ◌/◌, ◌%◌, ◌<◌, ◌≤◌, IfOk};
ghost use Rattle.pci_number.specs.Stops.{failures_of_access};
ghost use Rattle.pci_number.specs.Steps.{IsLooked};
ghost use Rattle.pci_number.specs.Accesses.{most_of_look};

use crate::port::{AccessFailed, BoardPort};
use pci_base::offset::{HEADER_TYPE, VENDOR_ID};
use pci_base::slot::Slot;

/// How many places a bus has: 32 devices of 8 functions (PCI 3.0, 3.2.2.3.4).
pub const PLACES: u16 = 256;

/// The Vendor ID that is read where no function answers (PCI 3.0, 6.2.1).
const NO_VENDOR: u16 = 0xffff;

/// What a look finds: whether a bridge is there, and whether the device has more functions.
#[derive(Clone, Copy)]
pub struct Found {
    pub bridge: bool,
    pub more: bool,
}

/// The slot at a place of a bus.
pub fn slot_at(bus: u8, place: u16) -> Slot
    // a bus has 32 devices of 8 functions each
    requires { place < 256 }
    ensures { result ≡ record { bus = bus; device = place / 8; function = place % 8 } }
{
    match Slot::new(bus, (place / 8) as u8, (place % 8) as u8) {
        Some(slot) => slot,
        None => Slot::default(),
    }
}

/// Looks whether a bridge is at a slot. Functions above 0 are looked at where function 0 said that
/// there are more.
pub fn look<P: BoardPort>(port: &mut P, slot: Slot, more: bool) -> Result<Found, AccessFailed>
    ensures looked { IfOk result (IsLooked (P.board port.old) slot more) }
    // looking writes nothing, so what was found still stands
    ensures same { P.board port.new ≡ P.board port.old }
    ensures same_history { P.history port.new ≡ P.history port.old }
    ensures no_write { P.last_write port.new ≡ P.last_write port.old }
    ensures counted { P.failures port.new ≡ P.failures port.old + failures_of_access result }
    ensures no_more { P.writes port.new ≡ P.writes port.old }
    ensures bounded { P.accesses port.new ≤ P.accesses port.old + most_of_look }
{
    let first = slot.fun() == 0;
    if !first && !more {
        return Ok(Found {
            bridge: false,
            more,
        });
    }
    let low = port.read(slot, VENDOR_ID)?;
    let high = port.read(slot, VENDOR_ID + 1)?;
    let vendor = u16::from(low) + u16::from(high) * 256;
    if vendor == NO_VENDOR {
        return Ok(Found {
            bridge: false,
            more: if first { false } else { more },
        });
    }
    let header = port.read(slot, HEADER_TYPE)?;
    Ok(Found {
        bridge: header % 128 == 1,
        more: if first { header / 128 % 2 == 1 } else { more },
    })
}
