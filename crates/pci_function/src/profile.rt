//! What one function may not do: the standard lets it, but no system that is judged here may have it.
ghost use Rattle.std.specs.Prelude.{◌≡◌, ◌+◌, ◌≤◌, ◌↔◌, ◌==◌, IsTrue, IsFalse, IfSome, MatchOption};
ghost use Rattle.pci_spec.specs.Number.{has_bit};
ghost use Rattle.pci_spec.specs.Header.{command};
ghost use Rattle.pci_spec.specs.Capability.{body_length, IsChain};
ghost use Rattle.pci_spec.specs.Fault.{controls_bridge, is_subtractive_bridge, IsNotInD0, IsNotInD0At, IsPlainBridge, IsPlainImage};
ghost use Rattle.pci_spec.specs.Order.{phase_key, Identity, Profile};
ghost use Rattle.pci_function.specs.Fault.{fault_of};
ghost use Rattle.pci_function.specs.Profile.{IsAnswering, IsHereIn, IsFirstOf};

use super::fault::Fault;
use super::stray::stray_byte;
use pci_base::image::Image;
use pci_base::offset::{BRIDGE_CONTROL, COMMAND, POWER_CONTROL, VENDOR_ID};
use pci_base::slot::Slot;
use pci_image::capability::POWER_MANAGEMENT;
use pci_image::header::{NO_VENDOR, class_code};
use pci_image::layout::Layout;

/// The bit number of VGA palette snooping in Command (PCI 3.0, 6.2.2).
const PALETTE_SNOOP: u8 = 5;
/// The Class Code of a bridge that decodes subtractively (PCI 3.0, 6.2.1).
const SUBTRACTIVE: u32 = 0x06_0401;
/// The bit number of ISA Enable in Bridge Control (Bridge 1.2, 3.2.5).
pub const ISA_ENABLE: u8 = 2;

/// The bit number of VGA Enable in Bridge Control (Bridge 1.2, 3.2.5).
pub const VGA_ENABLE: u8 = 3;

/// The bit number of Secondary Bus Reset in Bridge Control (Bridge 1.2, 3.2.5).
pub const SECONDARY_BUS_RESET: u8 = 6;

/// Whether a register has a bit.
fn has_bit(register: u16, bit: u8) -> bool
    requires { bit ≤ 15 }
    ensures { result ≡ has_bit register bit }
{
    register >> bit & 1 == 1
}

/// Whether Command enables VGA palette snooping (PCI 3.0, 6.2.2).
pub fn snoops_palette(image: &Image) -> bool
    ensures { result ≡ has_bit (command image.now.0) PALETTE_SNOOP }
{
    has_bit(image.u16(COMMAND), PALETTE_SNOOP)
}

/// Whether a function is a bridge whose Bridge Control has a bit (Bridge 1.2, 3.2.5).
pub fn controls_bridge(image: &Image, bit: u8) -> bool
    // Bridge Control has 16 bits
    requires { bit ≤ 15 }
    ensures { result ≡ controls_bridge image.now.0 bit }
{
    Layout::of(image) == Some(Layout::Bridge) && has_bit(image.u16(BRIDGE_CONTROL), bit)
}

/// Whether a function is a bridge that takes what nothing else claims, by its Class Code (PCI 3.0, 6.2.1).
pub fn is_subtractive_bridge(image: &Image) -> bool
    ensures { result ≡ is_subtractive_bridge image.now.0 }
{
    Layout::of(image) == Some(Layout::Bridge) && class_code(image) == SUBTRACTIVE
}

/// The fault of a function's identity or probe: 20 `NoVendor`, else 21 `HeaderKind`, else 31 `StrayProbe` with the
/// first byte offset outside the address registers where the probe isn't 00.
pub fn identity_fault(slot: Slot, image: &Image, probe: &Image) -> Option<Fault>
    // apart from the later faults, as a pair of texts is refused for these alone
    ensures fault { MatchOption result (IsAnswering record {
      slot = slot;
      image = image.now.0;
      probe = probe.now.0;
    })
        (λ e. IsHereIn (phase_key Identity) record
        { slot = slot; image = image.now.0; probe = probe.now.0 } (fault_of e)) }
    // which bytes are stray hangs on the layout, so 31 is looked for last
    ensures first { IfSome result (λ e. IsFirstOf (phase_key Identity) record {
      slot = slot;
      image = image.now.0;
      probe = probe.now.0;
    } (fault_of e)) }
{
    if image.u16(VENDOR_ID) == NO_VENDOR {
        return Some(Fault::NoVendor(slot));
    }
    let Some(layout) = Layout::of(image) else {
        return Some(Fault::HeaderKind(slot));
    };
    match stray_byte(layout, probe) {
        None => None,
        Some(offset) => Some(Fault::StrayProbe(slot, offset)),
    }
}

/// The fault of a bridge's profile: 52 `VgaEnable`, else 53 `IsaEnable`, else 54 `Subtractive`, else 55 `InReset`.
fn bridge_fault(slot: Slot, image: &Image, probe: &Image) -> Option<Fault>
    ensures fault { MatchOption result (IsPlainBridge image.now.0)
        (λ e. IsHereIn (phase_key Profile) record
        { slot = slot; image = image.now.0; probe = probe.now.0 } (fault_of e)) }
    ensures first { IfSome result (λ e. IsFalse (has_bit (command image.now.0) PALETTE_SNOOP)
        → IsFirstOf (phase_key Profile) record {
          slot = slot;
          image = image.now.0;
          probe = probe.now.0;
        } (fault_of e)) }
{
    if Layout::of(image) != Some(Layout::Bridge) {
        return None;
    }
    let control = image.u16(BRIDGE_CONTROL);
    if has_bit(control, VGA_ENABLE) {
        return Some(Fault::VgaEnable(slot));
    }
    if has_bit(control, ISA_ENABLE) {
        return Some(Fault::IsaEnable(slot));
    }
    if class_code(image) == SUBTRACTIVE {
        return Some(Fault::Subtractive(slot));
    }
    if has_bit(control, SECONDARY_BUS_RESET) {
        return Some(Fault::InReset(slot));
    }
    None
}

/// Whether a capability is power management and shows another power state than D0.
fn is_not_in_d0_at(image: &Image, place: u8) -> bool
    requires { place + body_length image.now.0 place ≤ 256 }
    ensures { IsTrue result ↔ IsNotInD0At image.now.0 place }
{
    image.u8(place) == POWER_MANAGEMENT && image.u8(place + POWER_CONTROL) % 4 != 0
}

/// Whether one of the capabilities of a function shows another power state than D0.
pub fn is_not_in_d0(image: &Image, places: &[u8]) -> bool
    // each of them has its body within the image
    requires { IsChain image.now.0 places.now }
    ensures { IsTrue result ↔ IsNotInD0 image.now.0 }
{
    for &place in places {
        if is_not_in_d0_at(image, place) {
            return true;
        }
    }
    false
}

/// The fault of a function's profile, `places` being those of its capabilities: 51 `PaletteSnoop`; on a bridge 52
/// `VgaEnable`, 53 `IsaEnable`, 54 `Subtractive`, 55 `InReset`; 56 `PowerState`. The first of these is answered.
pub fn profile_fault(slot: Slot, image: &Image, probe: &Image, places: &[u8]) -> Option<Fault>
    // a place left out could hide that the function is in a lower power state
    requires { IsChain image.now.0 places.now }
    ensures fault { MatchOption result (IsPlainImage image.now.0)
        (λ e. IsHereIn (phase_key Profile) record
        { slot = slot; image = image.now.0; probe = probe.now.0 } (fault_of e)) }
    ensures first { IfSome result (λ e. IsFirstOf (phase_key Profile) record {
      slot = slot;
      image = image.now.0;
      probe = probe.now.0;
    } (fault_of e)) }
{
    if snoops_palette(image) {
        return Some(Fault::PaletteSnoop(slot));
    }
    match bridge_fault(slot, image, probe) {
        Some(fault) => return Some(fault),
        None => {}
    }
    if is_not_in_d0(image, places) {
        return Some(Fault::PowerState(slot));
    }
    None
}
