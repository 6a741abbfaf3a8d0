use crate::one_bridge::OneBridge;
use pci_base::slot::Slot;
use pci_number::number::{Numbering, number};
use pci_number::{NotTaken, Stop};

/// No offset of a bus number.
const NONE: u8 = 0;

/// Where the bridge is.
fn bridge() -> Slot {
    Slot::new(0, 1, 0).unwrap_or_default()
}

/// Whether numbering answers so, up to a last bus.
fn is_answered(port: &mut OneBridge, last: u8, answer: Result<Numbering, Stop>) -> bool {
    number(port, 0, last, 0) == answer
}

/// Whether the bridge has these numbers, by so many writes.
fn is_left(port: &OneBridge, numbers: [u8; 3], writes: usize) -> bool {
    port.numbers() == numbers && port.made() == writes
}

#[test]
fn a_bare_bridge_gets_its_numbers_by_two_writes(rt: HostRuntime) {
    let mut port = OneBridge::new(rt.alloc(), 0, 0, 0, NONE);
    let numbered = Ok(Numbering::Numbered { highest: 1 });
    assert!(rt; is_answered(&mut port, 0xff, numbered));
    assert!(rt; is_left(&port, [0, 1, 1], 2));
}

#[test]
fn old_numbers_are_closed_first(rt: HostRuntime) {
    let mut port = OneBridge::new(rt.alloc(), 0, 5, 9, NONE);
    let numbered = Ok(Numbering::Numbered { highest: 1 });
    assert!(rt; is_answered(&mut port, 0xff, numbered));
    assert!(rt; is_left(&port, [0, 1, 1], 4));
}

#[test]
fn without_a_number_a_bridge_is_closed_and_named(rt: HostRuntime) {
    let mut port = OneBridge::new(rt.alloc(), 3, 4, 5, NONE);
    let closed = Ok(Numbering::NoBus {
        slot: bridge(),
        highest: 0,
    });
    assert!(rt; is_answered(&mut port, 0, closed));
    assert!(rt; is_left(&port, [0, 0, 0], 3));
}

#[test]
fn a_number_that_is_not_taken_stops_it(rt: HostRuntime) {
    let mut port = OneBridge::new(rt.alloc(), 0, 0, 0, 0x19);
    let stop = Err(Stop::Stuck(NotTaken {
        slot: bridge(),
        offset: 0x19,
        number: 1,
    }));
    assert!(rt; is_answered(&mut port, 0xff, stop));
    assert!(rt; port.made() == 1);
}
