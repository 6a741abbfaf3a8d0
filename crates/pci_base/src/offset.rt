//! The byte offsets of registers: of those of a header from its start (PCI 3.0, 6.1; Bridge 1.2, 3.2), of those of a
//! capability from its place.

/// Vendor ID, two bytes (PCI 3.0, 6.2.1).
pub const VENDOR_ID: u8 = 0x00;

/// Device ID, two bytes (PCI 3.0, 6.2.1).
pub const DEVICE_ID: u8 = 0x02;

/// Command, two bytes (PCI 3.0, 6.2.2).
pub const COMMAND: u8 = 0x04;

/// Status, two bytes (PCI 3.0, 6.2.3).
pub const STATUS: u8 = 0x06;

/// The lowest byte of Class Code, the programming interface (PCI 3.0, 6.2.1).
pub const INTERFACE: u8 = 0x09;

/// The middle byte of Class Code, the sub-class (PCI 3.0, 6.2.1).
pub const SUB_CLASS: u8 = 0x0a;

/// The upper byte of Class Code, the base class (PCI 3.0, 6.2.1).
pub const BASE_CLASS: u8 = 0x0b;

/// Header Type, one byte (PCI 3.0, 6.2.1).
pub const HEADER_TYPE: u8 = 0x0e;

/// The first Base Address register; each further one follows four bytes later (PCI 3.0, 6.2.5.1).
pub const BASE_ADDRESS: u8 = 0x10;

/// The Expansion ROM Base Address register of a device (PCI 3.0, 6.2.5.2).
pub const EXPANSION_ROM: u8 = 0x30;

/// Capabilities Pointer, one byte (PCI 3.0, 6.7).
pub const CAPABILITIES_POINTER: u8 = 0x34;

/// Interrupt Line, one byte (PCI 3.0, 6.2.4).
pub const INTERRUPT_LINE: u8 = 0x3c;

/// Primary Bus Number of a bridge, one byte (Bridge 1.2, 3.2.5).
pub const PRIMARY_BUS: u8 = 0x18;

/// Secondary Bus Number of a bridge, one byte (Bridge 1.2, 3.2.5).
pub const SECONDARY_BUS: u8 = 0x19;

/// Subordinate Bus Number of a bridge, one byte (Bridge 1.2, 3.2.5).
pub const SUBORDINATE_BUS: u8 = 0x1a;

/// I/O Base of a bridge, one byte (Bridge 1.2, 3.2.5).
pub const IO_BASE: u8 = 0x1c;

/// I/O Limit of a bridge, one byte (Bridge 1.2, 3.2.5).
pub const IO_LIMIT: u8 = 0x1d;

/// Secondary Status of a bridge, two bytes (Bridge 1.2, 3.2.5).
pub const SECONDARY_STATUS: u8 = 0x1e;

/// Memory Base of a bridge, two bytes (Bridge 1.2, 3.2.5).
pub const MEMORY_BASE: u8 = 0x20;

/// Memory Limit of a bridge, two bytes (Bridge 1.2, 3.2.5).
pub const MEMORY_LIMIT: u8 = 0x22;

/// Prefetchable Memory Base of a bridge, two bytes (Bridge 1.2, 3.2.5).
pub const PREFETCHABLE_BASE: u8 = 0x24;

/// Prefetchable Memory Limit of a bridge, two bytes (Bridge 1.2, 3.2.5).
pub const PREFETCHABLE_LIMIT: u8 = 0x26;

/// Prefetchable Base Upper 32 Bits of a bridge (Bridge 1.2, 3.2.5).
pub const PREFETCHABLE_BASE_UPPER: u8 = 0x28;

/// Prefetchable Limit Upper 32 Bits of a bridge (Bridge 1.2, 3.2.5).
pub const PREFETCHABLE_LIMIT_UPPER: u8 = 0x2c;

/// I/O Base Upper 16 Bits of a bridge (Bridge 1.2, 3.2.5).
pub const IO_BASE_UPPER: u8 = 0x30;

/// I/O Limit Upper 16 Bits of a bridge (Bridge 1.2, 3.2.5).
pub const IO_LIMIT_UPPER: u8 = 0x32;

/// The Expansion ROM Base Address register of a bridge (Bridge 1.2, 3.2.5).
pub const BRIDGE_EXPANSION_ROM: u8 = 0x38;

/// Bridge Control, two bytes (Bridge 1.2, 3.2.5).
pub const BRIDGE_CONTROL: u8 = 0x3e;

/// Of power management: Power Management Capabilities, two bytes (Power Management 1.2, 3.2.3).
pub const POWER_CAPABILITIES: u8 = 2;

/// Of power management: Power Management Control/Status, two bytes (Power Management 1.2, 3.2.4).
pub const POWER_CONTROL: u8 = 4;

/// Of MSI: Message Control, two bytes (PCI 3.0, 6.8.1.3).
pub const MESSAGE_CONTROL: u8 = 2;

/// Of MSI: Message Address, four bytes (PCI 3.0, 6.8.1.4).
pub const MESSAGE_ADDRESS: u8 = 4;

/// Of MSI with an address of 64 bits: Message Upper Address, four bytes (PCI 3.0, 6.8.1.5).
pub const MESSAGE_UPPER_ADDRESS: u8 = 8;

/// Of MSI with an address of 32 bits: Message Data, two bytes (PCI 3.0, 6.8.1.6).
pub const MESSAGE_DATA: u8 = 8;

/// Of MSI with an address of 64 bits: Message Data, two bytes (PCI 3.0, 6.8.1.6).
pub const WIDE_MESSAGE_DATA: u8 = 12;
