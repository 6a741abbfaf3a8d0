//! Whether a bridge has a hot-plug slot, by the registers that a dump shows (PCI 3.0, 6.7; PCI
//! Express Base 3.0, 7.8.2 and 7.8.9; SHPC 1.0).
ghost use Rattle.std.specs.Prelude.{◌≡◌};
ghost use Rattle.pci_number.specs.SpareBuses.{is_hot_plug, has_hot_plug_slot};

use crate::spare::{
    EXPRESS, EXPRESS_CAPABILITIES_HIGH, FIRST_PLACE, HOT_PLUG_CONTROLLER, MOST_PLACES,
    NO_SLOT_FROM, SLOT_CAPABILITIES, place_of,
};
use pci_base::image::Image;
use pci_base::offset::{CAPABILITIES_POINTER, STATUS};

/// Whether the capability at a place is that of a hot-plug slot.
fn is_hot_plug(image: &Image, place: u8) -> bool
    ensures { result ≡ is_hot_plug image.now.0 place }
{
    let id = image.u8(place);
    if id == HOT_PLUG_CONTROLLER {
        return true;
    }
    if id != EXPRESS || NO_SLOT_FROM <= place {
        return false;
    }
    let express = image.u8(place + EXPRESS_CAPABILITIES_HIGH);
    let capabilities = image.u8(place + SLOT_CAPABILITIES);
    express % 2 == 1 && capabilities / 64 % 2 == 1
}

/// Whether a capability of the list is that of a hot-plug slot. A list that leads back to itself
/// ends after 48 places.
pub fn has_hot_plug_slot(image: &Image) -> bool
    ensures { result ≡ has_hot_plug_slot image.now.0 }
{
    if image.u8(STATUS) / 16 % 2 == 0 {
        return false;
    }
    let mut place = place_of(image.u8(CAPABILITIES_POINTER));
    for n in 0..MOST_PLACES {
        if place < FIRST_PLACE {
            return false;
        }
        if is_hot_plug(image, place) {
            return true;
        }
        place = place_of(image.u8(place + 1));
    }
    false
}
