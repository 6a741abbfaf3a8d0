use pci_tree::roots::Roots;

/// Buses, and whether they are roots.
static LISTS: [(&[u8], bool); 8] = [
    (&[], false),
    (&[0], true),
    (&[0xff], true),
    (&[0, 0x80], true),
    (&[1, 3, 0xff], true),
    (&[3, 3], false),
    (&[3, 1], false),
    (&[0, 2, 1], false),
];

/// Whether buses are roots where they should be.
fn are_roots(buses: &[u8], lawful: bool) -> bool {
    Roots::of(buses).is_some() == lawful
}

#[test]
fn roots_rise_and_are_some(rt: HostRuntime) {
    for &(buses, lawful) in &LISTS {
        assert!(rt; are_roots(buses, lawful), "{buses:?}");
    }
    assert!(rt; Roots::of(&[0]) == Some(Roots::host()));
}

/// Buses, and whether they are among the roots 00 and 80.
static BUSES: [(u8, bool); 6] = [
    (0, true),
    (1, false),
    (0x7f, false),
    (0x80, true),
    (0x81, false),
    (0xff, false),
];

/// Whether roots are just those of these buses.
fn are_listed(roots: &Roots) -> bool {
    for &(bus, is_root) in &BUSES {
        if roots.has(bus) != is_root {
            return false;
        }
    }
    true
}

#[test]
fn roots_are_the_buses_that_are_listed(rt: HostRuntime) {
    assert!(rt; matches!(Roots::of(&[0, 0x80]), Some(roots) if are_listed(&roots)));
}
