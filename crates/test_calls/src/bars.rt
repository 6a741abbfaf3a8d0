use pci_image::bar::{Bar, BarKind, bars};
use pci_image::fault::ImageFault;
use test_support::registers::{Registers, bridge, device};

/// A BAR at register 10h.
fn bar(kind: BarKind, prefetch: bool, first: u64, last: u64) -> Bar {
    Bar {
        reg: 0x10,
        kind,
        prefetch,
        first,
        last,
    }
}

/// A device with registers at 10h and 14h, each with its read back.
fn with_pair(registers: [u32; 4]) -> Registers {
    let [low, low_read_back, high, high_read_back] = registers;
    device()
        .register(0x10, low, low_read_back)
        .register(0x14, high, high_read_back)
}

/// Whether a function's BARs are these.
fn lists(function: &Registers, expected: &[Bar]) -> bool {
    matches!(bars(&function.image, &function.probe), Ok(list) if list.as_slice() == expected)
}

/// A register at 10h, its read back, and the first and last address of the I/O BAR that it is: of 4,
/// 32 and 256 bytes, with and without bits 31:16.
static IO_BARS: [(u32, u32, u64, u64); 5] = [
    (0x0000_e001, 0xffff_fffd, 0xe000, 0xe003),
    (0x0000_e001, 0x0000_ffe1, 0xe000, 0xe01f),
    (0x0000_e011, 0xffff_fff1, 0xe010, 0xe01f),
    (0xffff_ff01, 0xffff_ff01, 0xffff_ff00, 0xffff_ffff),
    (0x0000_0101, 0x0000_ff01, 0x100, 0x1ff),
];

#[test]
fn an_io_bar_has_the_range_that_its_comparator_answers(rt: HostRuntime) {
    for &(value, read_back, first, last) in &IO_BARS {
        let function = device().register(0x10, value, read_back);
        let expected = bar(BarKind::Io, false, first, last);
        assert!(rt; lists(&function, &[expected]), "{expected:?}");
    }
}

/// Likewise of 32-bit memory, of 16 bytes, 1 MB and 2 GB, and whether it is prefetchable. Bit 3 of a
/// read back is no size.
static MEMORY_BARS: [(u32, u32, bool, u64, u64); 5] = [
    (0x0000_0008, 0xffff_fff8, true, 0, 0xf),
    (0xffff_fff0, 0xffff_fff0, false, 0xffff_fff0, 0xffff_ffff),
    (0xfe00_0008, 0xfff0_0008, true, 0xfe00_0000, 0xfe0f_ffff),
    (0x0000_0000, 0xfff0_0000, false, 0, 0xf_ffff),
    (0x8000_0000, 0x8000_0000, false, 0x8000_0000, 0xffff_ffff),
];

#[test]
fn a_32_bit_bar_has_the_range_that_its_comparator_answers(rt: HostRuntime) {
    for &(value, read_back, prefetch, first, last) in &MEMORY_BARS {
        let function = device().register(0x10, value, read_back);
        let expected = bar(BarKind::Mem32, prefetch, first, last);
        assert!(rt; lists(&function, &[expected]), "{expected:?}");
    }
}

/// The registers at 10h and 14h with their read backs, and the range of the prefetchable BAR that they are.
static WIDE_BARS: [([u32; 4], u64, u64); 6] = [
    (
        [0xf000_000c, 0xf000_000c, 0xffff_ffff, 0xffff_ffff],
        0xffff_ffff_f000_0000,
        0xffff_ffff_ffff_ffff,
    ),
    (
        [0x0000_000c, 0x0000_000c, 0x0000_0002, 0xffff_fffe],
        0x2_0000_0000,
        0x3_ffff_ffff,
    ),
    (
        [0xfff0_000c, 0xfff0_000c, 0xffff_ffff, 0xffff_ffff],
        0xffff_ffff_fff0_0000,
        0xffff_ffff_ffff_ffff,
    ),
    (
        [0x0000_000c, 0xf000_000c, 0x0000_0001, 0xffff_ffff],
        0x1_0000_0000,
        0x1_0fff_ffff,
    ),
    (
        [0xffff_fffc, 0xffff_fffc, 0xffff_ffff, 0xffff_ffff],
        0xffff_ffff_ffff_fff0,
        0xffff_ffff_ffff_ffff,
    ),
    (
        [0x0000_000c, 0x0000_000c, 0x8000_0000, 0x8000_0000],
        0x8000_0000_0000_0000,
        0xffff_ffff_ffff_ffff,
    ),
];

#[test]
fn a_64_bit_bar_takes_the_register_after_it(rt: HostRuntime) {
    for &(registers, first, last) in &WIDE_BARS {
        let function = with_pair(registers);
        let expected = bar(BarKind::Mem64, true, first, last);
        assert!(rt; lists(&function, &[expected]), "{expected:?}");
    }
}

#[test]
fn bars_are_listed_in_the_order_of_their_registers(rt: HostRuntime) {
    let function = device()
        .register(0x10, 0x0000_0004, 0xffff_f004)
        .register(0x14, 0x0000_0001, 0xffff_ffff)
        .register(0x1c, 0x0000_e001, 0x0000_ffe1)
        .register(0x20, 0x8000_0004, 0x8000_0004)
        .register(0x24, 0xffff_ffff, 0xffff_ffff);
    let expected = [
        Bar {
            reg: 0x10,
            kind: BarKind::Mem64,
            prefetch: false,
            first: 0x1_0000_0000,
            last: 0x1_0000_0fff,
        },
        Bar {
            reg: 0x1c,
            kind: BarKind::Io,
            prefetch: false,
            first: 0xe000,
            last: 0xe01f,
        },
        Bar {
            reg: 0x20,
            kind: BarKind::Mem64,
            prefetch: false,
            first: 0xffff_ffff_8000_0000,
            last: 0xffff_ffff_ffff_ffff,
        },
    ];
    assert!(rt; lists(&function, &expected));
    assert!(rt; lists(&device(), &[]));
}

// A bridge has two BAR registers; its bus numbers and windows are none.
#[test]
fn a_bridge_has_two_bars(rt: HostRuntime) {
    let function = bridge()
        .register(0x10, 0xfe00_0000, 0xffff_f000)
        .register(0x14, 0x0000_e001, 0xffff_fff1)
        .register(0x18, 0x0001_0100, 0);
    let expected = [
        Bar {
            reg: 0x10,
            kind: BarKind::Mem32,
            prefetch: false,
            first: 0xfe00_0000,
            last: 0xfe00_0fff,
        },
        Bar {
            reg: 0x14,
            kind: BarKind::Io,
            prefetch: false,
            first: 0xe000,
            last: 0xe00f,
        },
    ];
    assert!(rt; lists(&function, &expected));
}

/// Whether a function's BARs are refused with this fault.
fn is_refused(function: &Registers, fault: ImageFault) -> bool {
    matches!(bars(&function.image, &function.probe), Err(found) if found == fault)
}

/// A register of a device, its value, its read back, and the fault.
static NO_BARS: [(u8, u32, u32, ImageFault); 17] = [
    // a hole
    (0x10, 0xfff0_0000, 0xfff0_f000, ImageFault::BarMask(0x10)),
    (0x10, 0x0000_e001, 0xffff_0fe1, ImageFault::BarMask(0x10)),
    // I/O of 512 bytes, and with bit 1
    (0x10, 0x0000_e001, 0xffff_fe01, ImageFault::BarMask(0x10)),
    (0x10, 0x0000_e003, 0xffff_ffe3, ImageFault::BarMask(0x10)),
    (0x10, 0x0000_0000, 0xffff_ffff, ImageFault::BarMask(0x10)),
    (0x14, 0x0000_0001, 0xffff_ffff, ImageFault::BarMask(0x14)),
    // I/O whose upper half is not a whole one
    (0x10, 0x0000_e001, 0x7fff_ffe1, ImageFault::BarMask(0x10)),
    // a value without a read back, and outside it
    (0x10, 0xfe00_0000, 0x0000_0000, ImageFault::BarMask(0x10)),
    (0x10, 0xfe00_1000, 0xfff0_0000, ImageFault::BarMask(0x10)),
    (0x10, 0x0001_e001, 0x0000_ffe1, ImageFault::BarMask(0x10)),
    // another encoding
    (0x10, 0xfe00_0000, 0xfff0_0008, ImageFault::BarMask(0x10)),
    (0x10, 0xfe00_0002, 0xfff0_0000, ImageFault::BarMask(0x10)),
    // encoding alone
    (0x10, 0x0000_0008, 0x0000_0008, ImageFault::BarMask(0x10)),
    (0x10, 0x0000_000c, 0x0000_000c, ImageFault::BarMask(0x10)),
    // reserved types
    (0x10, 0x0000_0002, 0xfff0_0002, ImageFault::BarType(0x10)),
    (0x24, 0x0000_0006, 0xfff0_0006, ImageFault::BarType(0x24)),
    // no register left for the upper half
    (0x24, 0xfe00_000c, 0xff00_000c, ImageFault::BarPair(0x24)),
];

#[test]
fn a_register_that_is_no_bar_is_refused(rt: HostRuntime) {
    for &(register, value, read_back, fault) in &NO_BARS {
        let function = device().register(register, value, read_back);
        assert!(rt; is_refused(&function, fault), "{fault:?}");
    }
    let bridge = bridge().register(0x14, 0xfe00_000c, 0xff00_000c);
    assert!(rt; is_refused(&bridge, ImageFault::BarPair(0x14)));
}

/// The registers at 10h and 14h of a device with their read backs, and the fault.
static NO_PAIRS: [([u32; 4], ImageFault); 3] = [
    // holes between and in two halves
    (
        [0x0000_0004, 0xf000_0004, 0x0000_0000, 0xffff_fffe],
        ImageFault::BarMask(0x10),
    ),
    (
        [0x0000_0004, 0x0000_0004, 0x0000_0000, 0xffff_fffd],
        ImageFault::BarMask(0x10),
    ),
    // the lowest register comes first
    (
        [0x0000_0002, 0xfff0_0002, 0x0000_0000, 0x0000_0001],
        ImageFault::BarType(0x10),
    ),
];

#[test]
fn two_registers_that_are_no_bar_are_refused(rt: HostRuntime) {
    for &(registers, fault) in &NO_PAIRS {
        let function = with_pair(registers);
        assert!(rt; is_refused(&function, fault), "{fault:?}");
    }
}

#[test]
fn bars_of_no_function_of_a_known_header_are_refused(rt: HostRuntime) {
    let vacant = device().bytes(0x00, &[0xff, 0xff]);
    assert!(rt; is_refused(&vacant, ImageFault::NoVendor));
    let other = device().byte(0x0e, 0x02);
    assert!(rt; is_refused(&other, ImageFault::HeaderKind));
}
