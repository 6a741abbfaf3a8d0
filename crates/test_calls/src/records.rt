use pci_base::range::Range;
use pci_base::slot::Slot;
use pci_function::examine::examine;
use pci_function::fault::Fault;
use pci_image::bar::{Bar, BarKind};
use pci_image::fault::ImageFault;
use pci_image::rom::Rom;
use pci_tree::decode::decode;
use pci_tree::record::{Bridge, Record};
use std::test::Fail;
use test_support::registers::{Registers, bridge, device, list_at};

/// The record of a function at a slot.
fn decoded(slot: Slot, function: &Registers) -> Result<Record, Fail> {
    Ok(decode(slot, &function.image, &function.probe)?)
}

const BARS: [Bar; 2] = [
    Bar {
        reg: 0x10,
        kind: BarKind::Io,
        prefetch: false,
        first: 0xe000,
        last: 0xe0ff,
    },
    Bar {
        reg: 0x14,
        kind: BarKind::Mem32,
        prefetch: true,
        first: 0xfebf_f000,
        last: 0xfebf_ffff,
    },
];

const ROM: Rom = Rom {
    reg: 0x30,
    on: true,
    first: 0xfea0_0000,
    last: 0xfea1_ffff,
};

/// Whether a record is of that device.
fn is_device(found: &Record, slot: Slot) -> bool {
    found.slot == slot
        && found.command == 0x0103
        && found.bars.as_slice() == BARS.as_slice()
        && found.rom == Some(ROM)
        && found.bridge == None
}

#[test]
fn a_record_has_what_judging_needs(rt: HostRuntime) -> Result<(), Fail> {
    let slot = Slot::new(1, 2, 3).ok_or("a slot")?;
    let function = device()
        .byte(0x04, 0x03)
        .byte(0x05, 0x01)
        .register(0x10, 0x0000_e001, 0xffff_ff01)
        .register(0x14, 0xfebf_f008, 0xffff_f008)
        .register(0x30, 0xfea0_0001, 0xfffe_0000);
    assert!(rt; is_device(&decoded(slot, &function)?, slot));
    Ok(())
}

/// Whether a bridge has these bus numbers, and a memory window alone.
fn is_bridge(found: &Bridge) -> bool {
    let range = Range {
        first: 0xe000_0000,
        last: 0xe01f_ffff,
    };
    (found.primary, found.secondary, found.subordinate) == (1, 4, 9)
        && found.windows.mem.range() == Some(range)
        && found.windows.io == None
        && found.windows.pref == None
}

#[test]
fn a_bridge_has_its_bus_numbers_and_windows(rt: HostRuntime) -> Result<(), Fail> {
    let slot = Slot::new(1, 2, 3).ok_or("a slot")?;
    let function = bridge()
        .bytes(0x18, &[1, 4, 9])
        .register(0x20, 0xe010_e000, 0xfff0_fff0);
    assert!(rt; matches!(&decoded(slot, &function)?.bridge, Some(found) if is_bridge(found)));
    Ok(())
}

/// The fault of a function by itself.
fn fault_of(slot: Slot, function: &Registers) -> Option<Fault> {
    examine(slot, &function.image, &function.probe).err()
}

#[test]
fn the_first_fault_of_a_function_is_named(rt: HostRuntime) -> Result<(), Fail> {
    let slot = Slot::new(0, 0, 0).ok_or("a slot")?;
    let rows = [
        (
            device().bytes(0x00, &[0xff, 0xff]).byte(0x0e, 2),
            ImageFault::NoVendor,
        ),
        (device().byte(0x0e, 2), ImageFault::HeaderKind),
        // BARs before the ROM, by register
        (
            device()
                .register(0x10, 6, 0xfff0_0006)
                .register(0x30, 0, 0xfffe_0001),
            ImageFault::BarType(0x10),
        ),
        (
            device()
                .register(0x14, 0xfe00_1000, 0xfff0_0000)
                .register(0x18, 6, 0xfff0_0006),
            ImageFault::BarMask(0x14),
        ),
        // the ROM before windows
        (
            bridge().register(0x38, 0, 0xfffe_0001).register(0x20, 0, 0),
            ImageFault::RomMask(0x38),
        ),
        // windows before the list
        (
            bridge()
                .register(0x20, 0, 0)
                .byte(0x06, 0x10)
                .byte(0x34, 0x10),
            ImageFault::WindowMask(0x20),
        ),
        (list_at(0x10), ImageFault::CapRange(0x10)),
        (
            list_at(0x40).bytes(0x40, &[0x09, 0x40]),
            ImageFault::CapLoop(0x40),
        ),
    ];
    for (function, fault) in rows {
        assert!(rt;
            fault_of(slot, &function) == Some(Fault::of_image(slot, fault)),
            "{fault:?}"
        );
    }
    Ok(())
}
