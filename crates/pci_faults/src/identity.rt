//! The fault of a function's identity or probe.
ghost use Rattle.pci_faults.specs.OwnLines.{AreOwnLines};

use pci_base::image::Image;
use pci_base::slot::Slot;
use pci_function::fault::Fault;
use pci_function::profile::identity_fault;

/// Of 20, 21 and 31 the first that a function has.
pub fn identity_faults(slot: Slot, image: &Image, probe: &Image) -> [Option<Fault>; 1]
    ensures { AreOwnLines 1 record { slot = slot; image = image.now.0; probe = probe.now.0 } result }
{
    [identity_fault(slot, image, probe)]
}
