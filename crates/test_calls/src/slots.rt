use pci_base::slot::Slot;

/// Bus, device and function of a slot, and its text.
static SHOWN: [(u8, u8, u8, &str); 3] = [
    (0, 0, 0, "00:00.0"),
    (0x0a, 0x1f, 7, "0a:1f.7"),
    (0xff, 1, 2, "ff:01.2"),
];

/// Whether a slot has this text.
fn is_written(rt: &HostRuntime, slot: Slot, text: &str) -> bool {
    match format!(in rt.alloc(); "{slot}") {
        Ok(shown) => shown.as_str() == text,
        Err(_) => false,
    }
}

/// Whether the slot of these numbers has them and this text.
fn is_shown(rt: &HostRuntime, numbers: (u8, u8, u8), text: &str) -> bool {
    let (bus, dev, fun) = numbers;
    match Slot::new(bus, dev, fun) {
        Some(slot) => {
            (slot.bus(), slot.dev(), slot.fun()) == numbers && is_written(rt, slot, text)
        }
        None => false,
    }
}

#[test]
fn a_slot_is_shown_by_bus_device_and_function(rt: HostRuntime) {
    for &(bus, dev, fun, text) in &SHOWN {
        assert!(rt; is_shown(&rt, (bus, dev, fun), text), "{text}");
    }
}

#[test]
fn a_bus_has_32_devices_of_8_functions(rt: HostRuntime) {
    assert!(rt; Slot::new(0, 32, 0) == None);
    assert!(rt; Slot::new(0, 0, 8) == None);
}

/// Numbers of slots, each above the one before.
static RISING: [(u8, u8, u8); 6] = [
    (0, 0, 1),
    (0, 0, 2),
    (0, 1, 0),
    (0, 31, 7),
    (1, 0, 0),
    (2, 0, 0),
];

/// Whether each of those slots is above the one before.
fn are_rising() -> bool {
    let mut before = None;
    for &(bus, dev, fun) in &RISING {
        let slot = Slot::new(bus, dev, fun);
        if slot <= before {
            return false;
        }
        before = slot;
    }
    true
}

#[test]
fn slots_are_ordered_by_bus_then_device_then_function(rt: HostRuntime) {
    assert!(rt; are_rising());
}
