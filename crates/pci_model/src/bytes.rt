//! Images with some of their bytes changed.
ghost use Rattle.std.specs.Prelude.{◌≡◌, ◌+◌, ◌≤◌};
ghost use Rattle.judge_spec.specs.Words.{without_isa, without_snoop, without_vga};
ghost use Rattle.judge_spec.specs.Bytes as bytes;

use pci_base::image::Image;
use pci_base::offset::{
    BASE_ADDRESS, BRIDGE_CONTROL, BRIDGE_EXPANSION_ROM, COMMAND, EXPANSION_ROM, HEADER_TYPE,
    INTERFACE, PRIMARY_BUS, STATUS,
};
use pci_function::profile::{ISA_ENABLE, VGA_ENABLE, controls_bridge};

/// The bytes of a bridge's numbers and windows, 18h to 33h (Bridge 1.2, 3.2.5).
const BRIDGE_REGISTERS: u8 = 28;

/// The bytes of a device's six BARs (PCI 3.0, 6.1).
const BARS: u8 = 24;

/// The bytes of an expansion ROM register.
const ROM_REGISTER: u8 = 4;

/// Clears so many bytes from an offset on.
pub fn clear(image: &mut Image, off: u8, count: u8)
    // beyond the image there is nothing to clear
    requires { off + count ≤ 256 }
    ensures { image.new.0 ≡ bytes.cleared off count image.old.0 }
{
    for j in 0..count {
        image.0[usize::from(off) + usize::from(j)] = 0;
    }
}

/// Command without its bits 0 and 1, and Status without a capabilities list (PCI 3.0, 6.2.2 and 6.2.3).
pub fn switch_off(image: &mut Image)
    ensures { image.new.0 ≡ bytes.switched_off image.old.0 }
{
    let command = image.u8(COMMAND);
    let status = image.u8(STATUS);
    image.0[usize::from(COMMAND)] = command / 4 * 4;
    image.0[usize::from(STATUS)] = status / 32 * 32 + status % 16;
}

/// Clears VGA Enable of a bridge.
pub fn set_vga_aside(image: &mut Image)
    ensures { image.new.0 ≡ without_vga image.old.0 }
{
    if controls_bridge(image, VGA_ENABLE) {
        let control = image.u8(BRIDGE_CONTROL);
        image.0[usize::from(BRIDGE_CONTROL)] = control / 16 * 16 + control % 8;
    }
}

/// Clears ISA Enable of a bridge.
pub fn set_isa_aside(image: &mut Image)
    ensures { image.new.0 ≡ without_isa image.old.0 }
{
    if controls_bridge(image, ISA_ENABLE) {
        let control = image.u8(BRIDGE_CONTROL);
        image.0[usize::from(BRIDGE_CONTROL)] = control / 8 * 8 + control % 4;
    }
}

/// Clears VGA Palette Snoop, whatever the header is (PCI 3.0, 6.2.2).
pub fn set_snoop_aside(image: &mut Image)
    ensures { image.new.0 ≡ without_snoop image.old.0 }
{
    let command = image.u8(COMMAND);
    image.0[usize::from(COMMAND)] = command / 64 * 64 + command % 32;
}

/// Bridge Control without Secondary Bus Reset (Bridge 1.2, 3.2.5.18).
pub fn take_out_of_reset(image: &mut Image)
    ensures { image.new.0 ≡ bytes.out_of_reset image.old.0 }
{
    let control = image.u8(BRIDGE_CONTROL);
    image.0[usize::from(BRIDGE_CONTROL)] = control / 128 * 128 + control % 64;
}

/// The interface of a bridge that decodes its windows alone (PCI 3.0, appendix D).
pub fn make_positive(image: &mut Image)
    ensures { image.new.0 ≡ bytes.positive image.old.0 }
{
    image.0[usize::from(INTERFACE)] = 0;
}

/// A header of type 0 with the BARs of a bridge.
pub fn make_device(image: &mut Image)
    ensures { image.new.0 ≡ bytes.as_device image.old.0 }
{
    let header_type = image.u8(HEADER_TYPE);
    clear(image, PRIMARY_BUS, BRIDGE_REGISTERS);
    image.0[usize::from(HEADER_TYPE)] = header_type / 128 * 128;
}

/// What reads back of such a header.
pub fn make_device_read_backs(probe: &mut Image)
    ensures { probe.new.0 ≡ bytes.device_read_backs probe.old.0 }
{
    clear(probe, PRIMARY_BUS, BRIDGE_REGISTERS);
    clear(probe, BRIDGE_EXPANSION_ROM, ROM_REGISTER);
}

/// Status without a capabilities list (PCI 3.0, 6.2.3).
fn clear_list(image: &mut Image)
    ensures { image.new.0 ≡ bytes.without_list image.old.0 }
{
    let bits = image.u8(STATUS);
    image.0[usize::from(STATUS)] = bits / 32 * 32 + bits % 16;
}

/// Clears the address registers of a header of type 0.
pub fn clear_registers(image: &mut Image)
    ensures { image.new.0 ≡ bytes.without_registers image.old.0 }
{
    clear(image, BASE_ADDRESS, BARS);
    clear(image, EXPANSION_ROM, ROM_REGISTER);
}

/// A header of type 0 without address registers and without a capabilities list (PCI 3.0, 6.1 and 6.2.3).
pub fn make_bare_device(image: &mut Image)
    ensures { image.new.0 ≡ bytes.as_bare_device image.old.0 }
{
    let header_type = image.u8(HEADER_TYPE);
    clear_registers(image);
    image.0[usize::from(HEADER_TYPE)] = header_type / 128 * 128;
    clear_list(image);
}
