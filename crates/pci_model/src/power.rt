//! Functions that aren't in D0.
ghost use Rattle.std.specs.Prelude.{◌↔◌, ℕ, List, IsTrue};
ghost use Rattle.pci_spec.specs.Slot.{Slot as SlotValue};
ghost use Rattle.pci_spec.specs.Fault.{IsNotInD0};
ghost use Rattle.pci_spec.specs.Order.{Profile};
ghost use Rattle.judge_spec.specs.Bytes.{switched_off};
ghost use Rattle.judge_spec.specs.Taken.{HasNoOwnFaultBefore, IsAsleep, IsWhere};

use super::bytes::switch_off;
use super::words::Words;
use pci_base::image::Image;
use pci_base::slot::Slot;
use pci_function::examine::examine;
use pci_function::profile::is_not_in_d0;
use pci_image::capability::places;

/// The phase of profiles.
const PROFILE: u8 = 3;

/// Whether the registers and the capabilities list of a function decode.
fn decodes(slot: Slot, image: &Image, probe: &Image) -> bool
    ensures { IsTrue result ↔ HasNoOwnFaultBefore Profile record
        { slot = slot; image = image.now.0; probe = probe.now.0 } }
{
    match examine(slot, image, probe) {
        Ok(_) => true,
        Err(fault) => PROFILE <= fault.phase(),
    }
}

/// Whether a function whose registers and list decode is in another power state than D0.
fn shows_sleep(image: &Image) -> bool
    ensures { (slot : SlotValue) (probe : List ℕ)
        → HasNoOwnFaultBefore Profile record { slot = slot; image = image.now.0; probe = probe }
        → (IsTrue result ↔ IsNotInD0 image.now.0) }
{
    match places(image) {
        Ok(places) => is_not_in_d0(image, places.as_slice()),
        // That is a fault of an earlier phase.
        Err(_) => false,
    }
}

/// Whether a function whose registers and list decode isn't in D0.
pub fn is_asleep(slot: Slot, image: &Image, probe: &Image) -> bool
    ensures { IsTrue result ↔ IsAsleep record
        { slot = slot; image = image.now.0; probe = probe.now.0 } }
{
    shows_sleep(image) && decodes(slot, image, probe)
}

/// Switches a function off that isn't in D0, where that counts.
pub fn take_asleep(slot: Slot, image: &mut Image, probe: &Image, words: Words)
    ensures { IsWhere
        (IsTrue words.power × IsAsleep record
        { slot = slot; image = image.old.0; probe = probe.now.0 })
        record { slot = slot; image = image.old.0; probe = probe.now.0 }
        record { slot = slot; image = switched_off image.old.0; probe = probe.now.0 }
        record { slot = slot; image = image.new.0; probe = probe.now.0 } }
{
    if words.power && is_asleep(slot, image, probe) {
        switch_off(image);
    }
}
