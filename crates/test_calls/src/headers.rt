use pci_image::fault::ImageFault;
use pci_image::header::Header;
use test_support::registers::{Registers, bridge, device};

/// Whether a header is of type 0, and of its function's image.
fn is_type_0(function: &Registers) -> bool {
    matches!(Header::of(&function.image), Ok(Header::Type0(h)) if h.image() == &function.image)
}

/// Whether a header is of type 1, and of its function's image.
fn is_type_1(function: &Registers) -> bool {
    matches!(Header::of(&function.image), Ok(Header::Type1(h)) if h.image() == &function.image)
}

/// The fault of a function that has no header.
fn fault_of(function: &Registers) -> Option<ImageFault> {
    Header::of(&function.image).err()
}

#[test]
fn a_header_is_of_one_of_two_layouts(rt: HostRuntime) {
    let card_bus = device().byte(0x0e, 0x02);
    let absent = card_bus.bytes(0x00, &[0xff, 0xff]);
    assert!(rt; is_type_0(&device()));
    assert!(rt; is_type_1(&bridge()));
    // more than one function, and a vendor whose low byte alone is FFh
    assert!(rt; is_type_0(&device().byte(0x0e, 0x80)));
    assert!(rt; is_type_0(&device().bytes(0x00, &[0xff, 0x00])));
    assert!(rt; fault_of(&card_bus) == Some(ImageFault::HeaderKind));
    assert!(rt; fault_of(&absent) == Some(ImageFault::NoVendor));
}

static NUMBERED: [(ImageFault, u8); 10] = [
    (ImageFault::NoVendor, 20),
    (ImageFault::HeaderKind, 21),
    (ImageFault::BarType(0x10), 22),
    (ImageFault::BarMask(0x10), 23),
    (ImageFault::BarPair(0x24), 24),
    (ImageFault::RomMask(0x30), 25),
    (ImageFault::WindowMask(0x1c), 26),
    (ImageFault::CapRange(0x3c), 27),
    (ImageFault::CapLoop(0x40), 28),
    (ImageFault::CapCut(0xfc), 29),
];

#[test]
fn faults_have_their_numbers(rt: HostRuntime) {
    for &(fault, number) in &NUMBERED {
        assert!(rt; fault.number() == number, "{number}");
    }
}

#[test]
fn an_image_reads_little_endian_numbers(rt: HostRuntime) {
    let image = device().bytes(0xfc, &[0x78, 0x56, 0x34, 0x12]).image;
    assert!(rt; image.u8(0xff) == 0x12);
    assert!(rt; image.u16(0xfe) == 0x1234);
    assert!(rt; image.u32(0xfc) == 0x1234_5678);
}
