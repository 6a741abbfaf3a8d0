use pci_machine::derived::Derived;
use pci_machine::resource_line::ResourceLine;

#[test]
fn a_line_tells_its_space_and_how_many_addresses_it_has(rt: HostRuntime) {
    let line = ResourceLine {
        first: 0xc_0000,
        last: 0xc_ffff,
        flags: 0x202,
    };
    assert!(rt; line.is_of_memory());
    assert!(rt; !line.is_of_io());
    assert!(rt; line.is_shadow());
    assert!(rt; line.is_of_register());
    assert!(rt; line.size(16) == Some(0x1_0000));
    assert!(rt; line.size(15) == None);
}

#[test]
fn a_read_back_has_two_halves(rt: HostRuntime) {
    let derived = Derived::Assumed(0xffff_ffff_fff8_0004);
    assert!(rt; derived.lower_half() == Derived::Assumed(0xfff8_0004));
    assert!(rt; derived.upper_half() == 0xffff_ffff);
}
