use pci_base::slot::Slot;
use pci_tree::fault::Fault;
use pci_tree::space::Space;
use std::test::Fail;

/// Whether a fault is shown so.
fn is_shown(rt: &HostRuntime, fault: Fault, text: &str) -> bool {
    match format!(in rt.alloc(); "{fault}") {
        Ok(shown) => shown.as_str() == text,
        Err(_) => false,
    }
}

#[test]
fn a_fault_is_shown_by_number_name_and_fields(rt: HostRuntime) -> Result<(), Fail> {
    let slot = Slot::new(0x0a, 0x1f, 7).ok_or("a slot")?;
    let unreached = Fault::Unreached {
        slot,
        reg: 0x10,
        space: Space::Io,
        address: 0xe000,
        bridge: slot,
    };
    assert!(rt; is_shown(&rt, Fault::BarMask(slot, 0x24), "23 BarMask 0a:1f.7 24"));
    assert!(rt; is_shown(&rt, Fault::LoneFunction(slot), "50 LoneFunction 0a:1f.7"));
    assert!(rt; is_shown(&rt, Fault::BusRange(slot), "57 BusRange 0a:1f.7"));
    assert!(rt; is_shown(&rt, Fault::Orphan(slot), "58 Orphan 0a:1f.7"));
    assert!(rt;
        is_shown(
            &rt,
            unreached,
            "60 Unreached 0a:1f.7 10 io 0000e000 bridge 0a:1f.7"
        )
    );
    Ok(())
}
