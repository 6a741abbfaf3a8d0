use crate::rows::{Line, Registers, Row, rows};
use pci_base::image::Image;
use pci_image::fault::ImageFault;
use pci_image::layout::Layout;
use pci_image::register::{Register, Role};
use pci_machine::assuming::Assuming;
use pci_machine::derive::derive;
use pci_machine::derive_fault::DeriveFault;
use pci_machine::derive_register::register;
use pci_machine::derived::Derived;
use pci_machine::resource_line::ResourceLine;

/// Puts bytes in, from an offset on.
fn put(image: &mut [u8; 256], offset: u8, bytes: &[u8]) {
    for (place, byte) in image.iter_mut().skip(usize::from(offset)).zip(bytes) {
        *place = *byte;
    }
}

/// These bytes with registers put in.
pub fn with_registers(mut bytes: [u8; 256], registers: Registers) -> Image {
    for (offset, value) in registers {
        put(&mut bytes, *offset, &value.to_le_bytes());
    }
    Image(bytes)
}

/// What a function of vendor 1234h shows.
pub fn shown(registers: Registers) -> Image {
    let mut vendor = [0; 256];
    vendor[0] = 0x34;
    vendor[1] = 0x12;
    with_registers(vendor, registers)
}

/// Seven lines, of zeros but for these.
pub fn told(some: &[Line]) -> [ResourceLine; 7] {
    let mut lines = [ResourceLine::default(); 7];
    for (n, first, last, flags) in some {
        if *n < 7 {
            lines[*n] = ResourceLine {
                first: *first,
                last: *last,
                flags: *flags,
            };
        }
    }
    lines
}

/// What a row's function shows, and the seven lines that are told of it.
fn function(row: &Row) -> (Image, [ResourceLine; 7]) {
    (shown(row.0), told(row.1))
}

/// Whether these are the read backs that are derived of a row's function, and the registers that are assumed.
fn has_probe(row: &Row, registers: Registers, expected: &[u8]) -> bool {
    let (image, lines) = function(row);
    let mut probe = Image([0xff; 256]);
    match derive(&image, &lines, Assuming::Disabled, &mut probe) {
        Ok(assumed) => {
            probe == with_registers([0; 256], registers) && assumed.as_slice() == expected
        }
        Err(_) => false,
    }
}

/// Why a row's function has no probe.
fn fault_of(row: &Row, assuming: Assuming) -> Option<DeriveFault> {
    let (image, lines) = function(row);
    let mut probe = Image([0; 256]);
    derive(&image, &lines, assuming, &mut probe).err()
}

#[test]
fn functions_have_these_probes(rt: HostRuntime) {
    for row in rows() {
        match row.2 {
            Ok((registers, expected)) => assert!(rt; has_probe(row, registers, expected)),
            Err(fault) => assert!(rt; fault_of(row, Assuming::Disabled) == Some(fault)),
        }
    }
}

#[test]
fn an_exact_probe_has_nothing_assumed(rt: HostRuntime) {
    for row in rows() {
        let expected = match row.2 {
            Ok((_, assumed)) => assumed
                .first()
                .map(|register| DeriveFault::NoSize(*register)),
            Err(fault) => Some(fault),
        };
        assert!(rt; fault_of(row, Assuming::Nothing) == expected);
    }
}

#[test]
fn no_size_is_wanting_where_the_least_is_assumed(rt: HostRuntime) {
    for row in rows() {
        let number = fault_of(row, Assuming::Any).map(DeriveFault::number);
        assert!(rt; number != Some(32));
    }
}

#[test]
fn faults_have_these_numbers(rt: HostRuntime) {
    assert!(rt; DeriveFault::Header(ImageFault::HeaderKind).number() == 21);
    assert!(rt; DeriveFault::NoSize(0x10).number() == 32);
    assert!(rt; DeriveFault::OtherSize(0x10).number() == 33);
}

#[test]
fn a_register_is_derived_alone(rt: HostRuntime) {
    let mut lines = [ResourceLine::default(); 7];
    lines[0] = ResourceLine {
        first: 0,
        last: 0xffff,
        flags: 0x4_0200,
    };
    let first = Register {
        offset: 0x10,
        width: 4,
        role: Role::Bar(0),
    };
    let derived = register(&Image([0; 256]), &lines, Layout::Device, first);
    assert!(rt; derived == Derived::Known(0xffff_0000));
}
