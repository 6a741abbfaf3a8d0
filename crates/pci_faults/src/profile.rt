//! Each fault of a function's profile.
ghost use Rattle.std.specs.Prelude.{◌↔◌, ℕ, List, IsTrue};
ghost use Rattle.pci_spec.specs.Slot.{Slot as SlotValue};
ghost use Rattle.pci_spec.specs.Fault.{IsNotInD0};
ghost use Rattle.pci_faults.specs.OwnLines.{HasNoneBefore, AreOwnLines};

use pci_base::image::Image;
use pci_base::slot::Slot;
use pci_function::fault::Fault;
use pci_function::profile::{
    ISA_ENABLE, SECONDARY_BUS_RESET, VGA_ENABLE, controls_bridge, is_not_in_d0,
    is_subtractive_bridge, snoops_palette,
};
use pci_image::capability::places;

/// Whether a function whose capabilities list ends is in another power state than D0.
fn is_asleep(image: &Image) -> bool
    ensures { (slot : SlotValue) (probe : List ℕ)
        → HasNoneBefore 3 record { slot = slot; image = image.now.0; probe = probe }
        → (IsTrue result ↔ IsNotInD0 image.now.0) }
{
    match places(image) {
        Ok(places) => is_not_in_d0(image, places.as_slice()),
        // That is a fault of an earlier phase.
        Err(_) => false,
    }
}

/// Of 51 to 56 each that a function has, in the order in which they are looked for, where none of an earlier phase is
/// one of the function.
pub fn profile_faults(slot: Slot, image: &Image) -> [Option<Fault>; 6]
    // the probe tells nothing of a profile
    ensures { (probe : List ℕ)
        → HasNoneBefore 3 record { slot = slot; image = image.now.0; probe = probe }
        → AreOwnLines 3 record { slot = slot; image = image.now.0; probe = probe } result }
{
    [
        snoops_palette(image).then_some(Fault::PaletteSnoop(slot)),
        controls_bridge(image, VGA_ENABLE).then_some(Fault::VgaEnable(slot)),
        controls_bridge(image, ISA_ENABLE).then_some(Fault::IsaEnable(slot)),
        is_subtractive_bridge(image).then_some(Fault::Subtractive(slot)),
        controls_bridge(image, SECONDARY_BUS_RESET).then_some(Fault::InReset(slot)),
        is_asleep(image).then_some(Fault::PowerState(slot)),
    ]
}
