//! The registers of a configuration header: a table for each layout (PCI 3.0, 6.1; Bridge 1.2, 3.2).
//!
//! Where the standards leave a function free, these are the bits of Command that most functions
//! have, and no capability can be written.
ghost use Rattle.std.specs.Prelude.{◌≡◌, ◌<◌, ℕ, false, map, slice_index_or, IsTrue, if◌then◌else◌};
ghost use Rattle.std.specs.List.{list_all, list_any};
ghost use Rattle.pci_spec.specs.Registers.{device_header, bridge_header};
ghost use Rattle.pci_spec.specs.Header as header;
ghost use Rattle.pci_image.specs.Layouts.{is_of_bridge};
ghost use Rattle.pci_image.specs.Registers.{register_value, is_readable, has_place};

use super::layout::Layout;
use pci_base::offset::{
    BASE_ADDRESS, BRIDGE_EXPANSION_ROM, COMMAND, EXPANSION_ROM, INTERRUPT_LINE, IO_BASE,
    IO_BASE_UPPER, MEMORY_BASE, PREFETCHABLE_BASE, PREFETCHABLE_BASE_UPPER,
    PREFETCHABLE_LIMIT_UPPER, PRIMARY_BUS, SECONDARY_BUS, SECONDARY_STATUS, STATUS,
    SUBORDINATE_BUS,
};
use pci_base::window_kind::WindowKind;

/// What a register is for.
#[derive(Clone, Copy, Debug, PartialEq, Eq)]
pub enum Role {
    /// Base Address register n.
    Bar(u8),
    /// The Expansion ROM Base Address register.
    Rom,
    /// Base and limit of a window, each half of the register. The low four bits of each are fixed
    /// (Bridge 1.2, 3.2.5).
    Bounds(WindowKind),
    /// The upper halves of I/O Base and I/O Limit, each half of the register.
    IoUpper,
    /// The upper half of Prefetchable Base.
    PrefetchableBaseUpper,
    /// The upper half of Prefetchable Limit.
    PrefetchableLimitUpper,
    /// It decodes no address, and a write sets these bits.
    Control(u32),
    /// A one clears these bits, and none can be set.
    Status(u32),
}

/// A register: its byte offset, its width in bytes, and what it is for.
#[derive(Clone, Copy, Debug, PartialEq, Eq)]
pub struct Register {
    pub offset: u8,
    pub width: u8,
    pub role: Role,
}

/// A row of a table.
macro_rules! register {
    ($offset:expr, $width:expr, $role:expr) => {
        Register {
            offset: $offset,
            width: $width,
            role: $role,
        }
    };
}

/// A type 0 header, first the registers that address decoding is set by.
const DEVICE: [Register; 10] = [
    register!(BASE_ADDRESS, 4, Role::Bar(0)), // PCI 3.0, 6.2.5.1
    register!(BASE_ADDRESS + 4, 4, Role::Bar(1)),
    register!(BASE_ADDRESS + 8, 4, Role::Bar(2)),
    register!(BASE_ADDRESS + 12, 4, Role::Bar(3)),
    register!(BASE_ADDRESS + 16, 4, Role::Bar(4)),
    register!(BASE_ADDRESS + 20, 4, Role::Bar(5)),
    register!(EXPANSION_ROM, 4, Role::Rom), // PCI 3.0, 6.2.5.2
    register!(COMMAND, 2, Role::Control(0x0547)), // PCI 3.0, 6.2.2
    register!(STATUS, 2, Role::Status(0xf900)), // PCI 3.0, 6.2.3
    register!(INTERRUPT_LINE, 1, Role::Control(0xff)), // PCI 3.0, 6.2.4
];

/// A type 1 header, likewise. I/O Base and Limit are two bytes, as Secondary Status stands behind
/// them.
const BRIDGE: [Register; 16] = [
    register!(BASE_ADDRESS, 4, Role::Bar(0)), // PCI 3.0, 6.2.5.1
    register!(BASE_ADDRESS + 4, 4, Role::Bar(1)),
    register!(IO_BASE, 2, Role::Bounds(WindowKind::Io)), // Bridge 1.2, 3.2.5
    register!(MEMORY_BASE, 4, Role::Bounds(WindowKind::Memory)),
    register!(PREFETCHABLE_BASE, 4, Role::Bounds(WindowKind::Prefetchable)),
    register!(PREFETCHABLE_BASE_UPPER, 4, Role::PrefetchableBaseUpper),
    register!(PREFETCHABLE_LIMIT_UPPER, 4, Role::PrefetchableLimitUpper),
    register!(IO_BASE_UPPER, 4, Role::IoUpper),
    register!(BRIDGE_EXPANSION_ROM, 4, Role::Rom),
    register!(COMMAND, 2, Role::Control(0x0547)), // PCI 3.0, 6.2.2
    register!(STATUS, 2, Role::Status(0xf900)), // PCI 3.0, 6.2.3
    register!(PRIMARY_BUS, 1, Role::Control(0xff)), // Bridge 1.2, 3.2.5
    register!(SECONDARY_BUS, 1, Role::Control(0xff)),
    register!(SUBORDINATE_BUS, 1, Role::Control(0xff)),
    register!(SECONDARY_STATUS, 2, Role::Status(0xf900)),
    register!(INTERRUPT_LINE, 1, Role::Control(0xff)), // PCI 3.0, 6.2.4
];

/// How many bytes a header has.
pub const HEADER_LEN: usize = 64;

/// In an address register.
const A: bool = true;

/// Elsewhere in a header.
const O: bool = false;

/// The bytes of a type 0 header that lie in address registers: the BARs and the expansion ROM
/// (PCI 3.0, 6.2.5).
static DEVICE_BYTES: [bool; HEADER_LEN] = [
    O, O, O, O, O, O, O, O, O, O, O, O, O, O, O, O, // 00
    A, A, A, A, A, A, A, A, A, A, A, A, A, A, A, A, // 10: BARs 0 to 3
    A, A, A, A, A, A, A, A, O, O, O, O, O, O, O, O, // 20: BARs 4 and 5
    A, A, A, A, O, O, O, O, O, O, O, O, O, O, O, O, // 30: the expansion ROM
];

/// Those of a type 1 header: the BARs, the I/O, memory and prefetchable windows with their upper
/// halves, and the expansion ROM (Bridge 1.2, 3.2.5).
static BRIDGE_BYTES: [bool; HEADER_LEN] = [
    O, O, O, O, O, O, O, O, O, O, O, O, O, O, O, O, // 00
    A, A, A, A, A, A, A, A, O, O, O, O, A, A, O, O, // 10: BARs 0 and 1; the I/O window at 1c
    A, A, A, A, A, A, A, A, A, A, A, A, A, A, A, A, // 20: the memory and prefetchable windows
    A, A, A, A, O, O, O, O, A, A, A, A, O, O, O, O, // 30: the I/O window; the expansion ROM at 38
];

/// The registers of a header that a write can change.
pub fn registers(layout: Layout) -> &'static [Register]
    // a machine in memory takes the bits that can be written from here
    ensures table { map register_value result.now
        ≡ (if is_of_bridge layout then bridge_header else device_header) }
    // so that each read back can be taken from a probe as one number
    ensures readable { IsTrue (list_all is_readable result.now) }
{
    match layout {
        Layout::Device => &DEVICE,
        Layout::Bridge => &BRIDGE,
    }
}

/// Those that address decoding is set by, by rising offset.
pub fn address_registers(layout: Layout) -> &'static [Register]
    // sizing, comparing and planning go by place and width
    ensures places { map (λ r. (r.offset, r.width)) result.now
        ≡ header.registers_by (is_of_bridge layout) }
    // who knows the role need not find it again by the offset
    ensures roles { IsTrue (list_all (has_place (is_of_bridge layout)) result.now) }
{
    match layout {
        Layout::Device => &DEVICE[..7],
        Layout::Bridge => &BRIDGE[..9],
    }
}

/// Which bytes of a header lie in one of those.
pub fn address_bytes(layout: Layout) -> &'static [bool; HEADER_LEN]
    // the same registers byte by byte: a probe is looked through for bytes outside them
    ensures { (offset : ℕ) → offset < 64
        → slice_index_or result.now offset false
        ≡ list_any (header.is_in_register offset) (header.registers_by (is_of_bridge layout)) }
{
    match layout {
        Layout::Device => &DEVICE_BYTES,
        Layout::Bridge => &BRIDGE_BYTES,
    }
}

/// The offset of the Expansion ROM Base Address register of a header.
pub fn rom_register(layout: Layout) -> u8
    ensures { result ≡ header.rom_place (is_of_bridge layout) }
{
    match layout {
        Layout::Device => EXPANSION_ROM,
        Layout::Bridge => BRIDGE_EXPANSION_ROM,
    }
}
