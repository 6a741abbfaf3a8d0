//! Which bits of the 256 bytes a write sets, and which a written one clears.
ghost use Rattle.std.specs.Prelude.{◌≡◌, ◌<◌, ◌==◌, IsTrue, if◌then◌else◌};
ghost use Rattle.pci_spec.specs.Number.{IsImage};
ghost use Rattle.pci_spec.specs.Machine.{Field, in_fields, bar_field, fields_of, cleared_fields, writable_by, clearing_by, without_low};
ghost use Rattle.pci_spec.specs.Number.{number_at};
ghost use Rattle.pci_spec.specs.Port as port;
ghost use Rattle.pci_image.specs.Layouts.{is_of_bridge};
ghost use Rattle.pci_image.specs.Registers.{is_readable, role_value};
ghost use Rattle.pci_machine.specs.Masks.{HasBits, AddsField, AddsFields};

use pci_base::image::{IMAGE_LEN, Image, byte_of};
use pci_base::offset::BASE_ADDRESS;
use pci_image::bar::{is_io, starts_bar};
use pci_image::layout::Layout;
use pci_image::register::{Register, Role, registers};

/// The bits of each byte that a write sets, by what the registers of a header read back.
pub fn writable_bytes(layout: Layout, probe: &Image) -> [u8; IMAGE_LEN]
    ensures bits { HasBits result (in_fields (writable_by (is_of_bridge layout) probe.now.0)) }
    ensures image { IsImage result }
{
    let mut bytes = [0; IMAGE_LEN];
    for register in registers(layout) {
        add_register(&mut bytes, *register, probe);
    }
    bytes
}

/// The bits of each byte that a written one clears, in a header.
pub fn clearing_bytes(layout: Layout) -> [u8; IMAGE_LEN]
    ensures bits { HasBits result (in_fields (clearing_by (is_of_bridge layout))) }
    ensures image { IsImage result }
{
    let mut bytes = [0; IMAGE_LEN];
    for register in registers(layout) {
        add_cleared(&mut bytes, *register);
    }
    bytes
}

/// Adds the bits of a register that a write sets.
fn add_register(bytes: &mut [u8; IMAGE_LEN], register: Register, probe: &Image)
    requires readable { IsTrue (is_readable register) }
    requires image { IsImage bytes.old }
    ensures added { AddsFields bytes.old bytes.new
        (fields_of probe.now.0 register.offset register.width (role_value register.role)) }
    ensures image { IsImage bytes.new }
{
    let Register {
        offset,
        width,
        role,
    } = register;
    match role {
        Role::Bar(n) => add(bytes, BASE_ADDRESS + 4 * n, 4, bar_bits(probe, n)),
        Role::Rom => {
            let read_back = probe.u32(offset);
            add(bytes, offset, 1, rom_enable(read_back));
            add(bytes, offset, width, read_back);
        }
        Role::Bounds(_) => {
            let half = width / 2;
            add_from(bytes, probe, offset, half, 16);
            add_from(bytes, probe, offset + half, half, 16);
        }
        Role::IoUpper => {
            let half = width / 2;
            add_from(bytes, probe, offset, half, 1);
            add_from(bytes, probe, offset + half, half, 1);
        }
        Role::PrefetchableBaseUpper | Role::PrefetchableLimitUpper => {
            add_from(bytes, probe, offset, width, 1);
        }
        Role::Control(bits) => add(bytes, offset, width, bits),
        Role::Status(_) => {}
    }
}

/// Adds the bits of a register that a written one clears.
fn add_cleared(bytes: &mut [u8; IMAGE_LEN], register: Register)
    requires readable { IsTrue (is_readable register) }
    requires image { IsImage bytes.old }
    ensures added { AddsFields bytes.old bytes.new
        (cleared_fields register.offset register.width (role_value register.role)) }
    ensures image { IsImage bytes.new }
{
    match register.role {
        Role::Status(bits) => add(bytes, register.offset, register.width, bits),
        _ => {}
    }
}

/// Adds the bits that a register reads back, but for what is below the step.
fn add_from(bytes: &mut [u8; IMAGE_LEN], probe: &Image, off: u8, width: u8, step: u32)
    requires access { IsTrue (port.is_access off width) }
    requires step { 0 < step }
    requires image { IsImage bytes.old }
    ensures added { AddsField bytes.old bytes.new record {
      offset = off;
      width = width;
      bits = without_low step (number_at probe.now.0 off width);
    } }
    ensures image { IsImage bytes.new }
{
    add(bytes, off, width, probe.number(off, width) / step * step);
}

/// Adds bits of a register.
fn add(bytes: &mut [u8; IMAGE_LEN], off: u8, width: u8, bits: u32)
    requires access { IsTrue (port.is_access off width) }
    requires image { IsImage bytes.old }
    ensures added { AddsField bytes.old bytes.new record { offset = off; width = width; bits = bits } }
    ensures image { IsImage bytes.new }
{
    for j in 0..width {
        bytes[usize::from(off + j)] |= byte_of(bits, j);
    }
}

/// The enable bit of a ROM register, if there is a ROM by what the register reads back.
fn rom_enable(read_back: u32) -> u32
    ensures { result ≡ (if read_back == 0 then 0 else 1) }
{
    if read_back == 0 { 0 } else { 1 }
}

/// The address bits of BAR register n: what it reads back, if it starts a BAR without the encoding
/// bits.
fn bar_bits(probe: &Image, n: u8) -> u32
    requires { n < 6 }
    ensures { result ≡ (bar_field probe.now.0 n).bits }
{
    let mask = probe.u32(BASE_ADDRESS + 4 * n);
    if !starts_bar(probe, n) {
        return mask;
    }
    let encodings = if is_io(u64::from(mask)) { 4 } else { 16 };
    mask / encodings * encodings
}
