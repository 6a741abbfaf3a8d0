use pci_image::capability::{Cap, chain};
use pci_image::fault::ImageFault;
use test_support::registers::{Registers, device, list_at};

/// A list of 48 places, 40h to FCh; the last pointer leads to `end`.
fn longest(end: u8) -> Registers {
    let mut all = list_at(0x40);
    for quarter in 16..63u8 {
        all = all.byte(4 * quarter + 1, 4 * (quarter + 1));
    }
    all.byte(0xfd, end)
}

/// Whether a function's list has these capabilities, in this order.
fn lists(function: &Registers, expected: &[Cap<'_>]) -> bool {
    matches!(chain(&function.image), Ok(caps) if caps.as_slice() == expected)
}

/// Whether a list of one capability has it.
fn lists_one() -> bool {
    let body = [0x09, 0x02, 0xaa, 0xbb];
    let masked = list_at(0x43).bytes(0x40, &body);
    let raw = Cap::Raw {
        place: 0x40,
        body: &body,
    };
    let body = [0x01, 0x00, 0x03, 0xce, 0x03, 0x81, 0x00, 0x00];
    let power = Cap::Power {
        place: 0xf8,
        body: &body,
    };
    lists(&masked, &[raw]) && lists(&list_at(0xf8).bytes(0xf8, &body), &[power])
}

/// Whether a list of two has them in its order.
fn lists_two() -> bool {
    let both = list_at(0x60)
        .bytes(0x60, &[0x05, 0x43, 0x80, 0x00])
        .bytes(0x40, &[0x01, 0x00]);
    let message = [0x05, 0x43, 0x80, 0, 0, 0, 0, 0, 0, 0, 0, 0, 0, 0];
    let body = [0x01, 0, 0, 0, 0, 0, 0, 0];
    let expected = [
        Cap::Msi {
            place: 0x60,
            body: &message,
        },
        Cap::Power {
            place: 0x40,
            body: &body,
        },
    ];
    lists(&both, &expected)
}

#[test]
fn a_list_has_its_capabilities_in_order(rt: HostRuntime) {
    assert!(rt; lists(&device().byte(0x34, 0x40), &[]));
    assert!(rt; lists(&list_at(0x03), &[]));
    assert!(rt; lists_one());
    assert!(rt; lists_two());
}

/// The length of the one capability of a list.
fn length_of(function: &Registers) -> Result<usize, ImageFault> {
    let caps = chain(&function.image)?;
    match caps.as_slice() {
        [cap] => Ok(cap.body().len()),
        _ => Ok(0),
    }
}

/// The place and the control of a message capability, and its length.
static MESSAGES: [(u8, [u8; 2], Result<usize, ImageFault>); 7] = [
    // a reserved count of vectors is no fault
    (0x40, [0x0c, 0x00], Ok(10)),
    (0xf4, [0x00, 0x00], Ok(10)),
    (0xf0, [0x80, 0x00], Ok(14)),
    (0xec, [0x2b, 0x01], Ok(20)),
    (0xe8, [0xab, 0x01], Ok(24)),
    (0xec, [0xab, 0x01], Err(ImageFault::CapCut(0xec))),
    (0xf8, [0x00, 0x00], Err(ImageFault::CapCut(0xf8))),
];

#[test]
fn a_message_capability_is_as_long_as_its_control_says(rt: HostRuntime) {
    for &(place, control, length) in &MESSAGES {
        let [low, high] = control;
        let function = list_at(place).bytes(place, &[0x05, 0x00, low, high]);
        assert!(rt; length_of(&function) == length, "{length:?}");
    }
}

/// The pointer to a list, two of its bytes, and its fault.
const ENDLESS: [(u8, [(u8, u8); 2], ImageFault); 6] = [
    (
        0x43,
        [(0x40, 0x09), (0x41, 0x3c)],
        ImageFault::CapRange(0x3c),
    ),
    (0x04, [(0x40, 0), (0x41, 0)], ImageFault::CapRange(0x04)),
    (
        0x40,
        [(0x41, 0x48), (0x49, 0x40)],
        ImageFault::CapLoop(0x40),
    ),
    (
        0x40,
        [(0x41, 0x48), (0x49, 0x4b)],
        ImageFault::CapLoop(0x48),
    ),
    (0x40, [(0x40, 0), (0x41, 0x40)], ImageFault::CapLoop(0x40)),
    (0xfc, [(0xfc, 0x01), (0xfd, 0)], ImageFault::CapCut(0xfc)),
];

/// Whether a function's list is refused with this fault.
fn is_refused(function: &Registers, fault: ImageFault) -> bool {
    matches!(chain(&function.image), Err(found) if found == fault)
}

#[test]
fn a_list_that_does_not_end_well_is_refused(rt: HostRuntime) {
    for (pointer, bytes, fault) in ENDLESS {
        let mut function = list_at(pointer);
        for (offset, byte) in bytes {
            function = function.byte(offset, byte);
        }
        assert!(rt; is_refused(&function, fault), "{fault:?}");
    }
    assert!(rt; is_refused(&longest(0x40), ImageFault::CapLoop(0x40)));
    assert!(rt; is_refused(&longest(0x3c), ImageFault::CapRange(0x3c)));
}

/// Whether a list's places are each four bytes after the one before, from 40h on.
fn is_dense(caps: &[Cap<'_>]) -> bool {
    let mut place = 0x40u8;
    for cap in caps {
        if cap.place() != place {
            return false;
        }
        place = place.wrapping_add(4);
    }
    caps.len() == 48
}

#[test]
fn a_list_has_up_to_48_places(rt: HostRuntime) {
    assert!(rt; matches!(chain(&longest(0x00).image), Ok(caps) if is_dense(caps.as_slice())));
}
