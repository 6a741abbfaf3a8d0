//! What all address registers of a function read back.
ghost use Rattle.std.specs.Prelude.{◌≡◌, ◌+◌, ℕ, List, IsTrue, IfOk, IfErr, OnOk, OnErr};
ghost use Rattle.pci_spec.specs.Header as header;
ghost use Rattle.pci_spec.specs.Machine as machine;
ghost use Rattle.pci_spec.specs.Machine.{sized};
ghost use Rattle.pci_spec.specs.Port as ports;
ghost use Rattle.pci_spec.specs.Sizing.{function_at, DiffersInRegisters, is_address_register};
ghost use Rattle.pci_image.specs.declared.layout.Layout.{Layout};
ghost use Rattle.pci_image.specs.Layouts.{layout_number, is_of_bridge};
ghost use Rattle.pci_image.specs.Registers.{has_place};
ghost use Rattle.pci_machine.specs.Failing.{Fails, FirstFailed};
ghost use Rattle.pci_machine.specs.Outcome.{failures_of_stop};

use crate::access_at::AccessFault;
use crate::port::{ConfigPort, PortError};
use crate::read_back::read_back;
use pci_base::image::{IMAGE_LEN, Image, put};
use pci_base::slot::Slot;
use pci_base::window_kind::WindowKind;
use pci_image::layout::Layout;
use pci_image::register::{Register, Role, address_registers};

/// What the address registers of a function read back, in an image that has 0 elsewhere.
pub fn read_backs<P: ConfigPort>(
    port: &mut P,
    slot: Slot,
    layout: Layout,
) -> Result<Image, AccessFault>
    // so a stop means that the port failed
    requires there { IsTrue (ports.has_function (P.targets port.old) slot) }
    // no two functions are at one slot, so that one image alone is written
    requires lawful { ports.IsLawful (P.targets port.old) }
    // by the other layout a device's BARs would be taken for the registers of windows
    requires header { header.layout (function_at (P.targets port.old) slot).image
        ≡ layout_number layout }
    ensures read_backs { IfOk result
        (λ image. image.0 ≡ sized (function_at (P.targets port.old) slot)) }
    ensures kept { OnOk result (P.targets port.new ≡ P.targets port.old) }
    // the fault of sizing tells at which register it stopped
    ensures stop { IfErr result (λ stop. (stop.fault ≡ PortError.Failed)
        × IsTrue (is_address_register
        (header.layout (function_at (P.targets port.old) slot).image) stop.offset)) }
    ensures failed { IfErr result (λ stop.
        FirstFailed P.failures (Fails P.reads P.writes slot stop.offset) port.old port.new) }
    ensures left { OnErr result
        ((image : List ℕ) × (P.targets port.new ≡ ports.with_image (P.targets port.old) slot image)
        × DiffersInRegisters (function_at (P.targets port.old) slot).image image) }
    // by it a stop is told from what the function itself is refused for
    ensures counted { P.failures port.new ≡ P.failures port.old + failures_of_stop result }
    // Command is still to be put back, so the function has to be there
    ensures there { IsTrue (ports.has_function (P.targets port.new) slot) }
    ensures lawful { ports.IsLawful (P.targets port.new) }
{
    let mut bytes = [0; IMAGE_LEN];
    for register in address_registers(layout) {
        let ones = sizing_ones(*register);
        let value = read_back(port, slot, register.offset, register.width, ones)?;
        put(&mut bytes, register.offset, register.width, value);
    }
    Ok(Image(bytes))
}

/// What sizing writes to an address register: ones, but zeros to the bits of a ROM register below
/// its address (PCI 3.0, 6.2.5.1 and 6.2.5.2).
fn sizing_ones(register: Register) -> u32
    ensures { (layout : Layout) → IsTrue (has_place (is_of_bridge layout) register)
        → result ≡ machine.sizing_ones (layout_number layout) register.offset }
{
    match register.role {
        Role::Rom => 0xffff_f800,
        Role::Bounds(WindowKind::Io) => 0xffff,
        _ => 0xffff_ffff,
    }
}
