//! The registers of one function of a dump.
ghost use Rattle.std.specs.Prelude.{◌≡◌, ◌≤◌, IfOk, IfErr, OnOk};
ghost use Rattle.pci_spec.specs.Number.{byte_at, IsImage};
ghost use Rattle.pci_spec.specs.Registers as table;
ghost use Rattle.pci_spec.specs.Machine.{target_of};
ghost use Rattle.pci_spec.specs.Decoded.{IsDecodable};
ghost use Rattle.pci_spec.specs.Order.{phase_key, Decoding};
ghost use Rattle.pci_image.specs.Faults.{IsImageFaultIn, image_fault_number};
ghost use Rattle.pci_spec.specs.Port.{IsTarget};
ghost use Rattle.pci_function.specs.Fault.{image_fault_at};
ghost use Rattle.pci_function.specs.Profile.{IsFirstOf};

use crate::mask::{clearing_bytes, writable_bytes};
use crate::registers::ConfigSpace;
use pci_base::image::Image;
use pci_base::slot::Slot;
use pci_function::decode::decode;
use pci_image::fault::ImageFault;
use pci_image::layout::Layout;

/// The registers of the function at a slot, if its address registers decode. The fault is one of 20
/// to 26: of BARs the lowest, else that of the ROM, else of windows the lowest.
pub fn registers_of(slot: Slot, image: &Image, probe: &Image) -> Result<ConfigSpace, ImageFault>
    // which bytes are there, so each register can be read
    requires { IsImage image.now.0 }
    ensures made { IfOk result (λ registers. registers ≡ target_of record {
      slot = slot;
      image = image.now.0;
      probe = probe.now.0;
    }) }
    ensures decodable { OnOk result (IsDecodable record {
      slot = slot;
      image = image.now.0;
      probe = probe.now.0;
    }) }
    ensures lawful { IfOk result IsTarget }
    // no write changes the layout then, so what is a status register stays one
    ensures header { IfOk result (λ registers. byte_at registers.writable table.HEADER_TYPE ≡ 0) }
    ensures fault { IfErr result (IsImageFaultIn image.now.0 probe.now.0) }
    ensures number { IfErr result (λ fault. image_fault_number fault ≤ 26) }
    ensures first { IfErr result (λ e. IsFirstOf (phase_key Decoding) record {
      slot = slot;
      image = image.now.0;
      probe = probe.now.0;
    } (image_fault_at slot e)) }
{
    let _record = decode(slot, image, probe)?;
    let layout = Layout::or_device(image);
    Ok(ConfigSpace {
        slot,
        image: *image,
        writable: writable_bytes(layout, probe),
        clearing: clearing_bytes(layout),
    })
}
