use pci_image::fault::ImageFault;
use pci_image::rom::Rom;
use pci_image::rom::register::rom;
use test_support::registers::{bridge, device};

/// A register at 30h, its read back, whether the ROM that it is is on, and its range.
static ROMS: [(u32, u32, bool, u64, u64); 3] = [
    (0xfe00_0001, 0xffff_f800, true, 0xfe00_0000, 0xfe00_07ff),
    (0xfe00_0000, 0xffff_f800, false, 0xfe00_0000, 0xfe00_07ff),
    (0x0000_0000, 0xff00_0000, false, 0, 0xff_ffff),
];

#[test]
fn a_rom_has_the_range_that_its_comparator_answers(rt: HostRuntime) {
    for &(value, read_back, on, first, last) in &ROMS {
        let function = device().register(0x30, value, read_back);
        let expected = Rom {
            reg: 0x30,
            on,
            first,
            last,
        };
        assert!(rt;
            rom(&function.image, &function.probe) == Ok(Some(expected)),
            "{expected:?}"
        );
    }
}

#[test]
fn the_rom_register_is_the_one_of_its_header(rt: HostRuntime) {
    let none = device();
    assert!(rt; rom(&none.image, &none.probe) == Ok(None));
    let other = device().register(0x38, 0xfe00_0001, 0xffff_f800);
    assert!(rt; rom(&other.image, &other.probe) == Ok(None));
    let function = bridge().register(0x38, 0xffff_f801, 0xffff_f800);
    let expected = Rom {
        reg: 0x38,
        on: true,
        first: 0xffff_f800,
        last: 0xffff_ffff,
    };
    assert!(rt; rom(&function.image, &function.probe) == Ok(Some(expected)));
}

/// Values and read backs of a register that is no ROM.
static NO_ROMS: [(u32, u32); 7] = [
    // 1 KB and 32 MB
    (0, 0xffff_fc00),
    (0, 0xfe00_0000),
    // a hole, and the enable bit read back
    (0, 0xfff0_f000),
    (0, 0xffff_f801),
    // values outside the read back
    (0xfe00_0800, 0xffff_f000),
    (0x0000_0002, 0xffff_f000),
    (0x0000_0001, 0x0000_0000),
];

#[test]
fn a_register_that_is_no_rom_is_refused(rt: HostRuntime) {
    for &(value, read_back) in &NO_ROMS {
        let function = device().register(0x30, value, read_back);
        assert!(rt; rom(&function.image, &function.probe) == Err(ImageFault::RomMask(0x30)));
    }
    let bridge = bridge().register(0x38, 0, 0xffff_fc00);
    assert!(rt; rom(&bridge.image, &bridge.probe) == Err(ImageFault::RomMask(0x38)));
}

#[test]
fn a_rom_of_no_function_of_a_known_header_is_refused(rt: HostRuntime) {
    let vacant = device().bytes(0x00, &[0xff, 0xff]);
    assert!(rt; rom(&vacant.image, &vacant.probe) == Err(ImageFault::NoVendor));
    let other = device().byte(0x0e, 0x7f);
    assert!(rt; rom(&other.image, &other.probe) == Err(ImageFault::HeaderKind));
}
