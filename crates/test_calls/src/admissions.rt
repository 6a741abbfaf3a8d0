use pci_base::image::Image;
use pci_base::memory::Refused;
use pci_base::slot::Slot;
use pci_dump::block::Block;
use pci_dump::dump::Dump;
use pci_tree::admit::{admit, admit_with};
use pci_tree::admitted::Admitted;
use pci_tree::fault::Fault;
use pci_tree::roots::Roots;
use std::test::Fail;
use test_support::registers::{Registers, bridge, device, list_at};
use test_support::row::Row::{Bridge, Device};
use test_support::row::{Row, dumps_of_rows};

/// A function on bus, device and function.
type Placed = (u8, u8, u8, Registers);

/// A bridge on bus 0 to bus 1.
fn to_bus_1() -> Registers {
    bridge().bytes(0x18, &[0, 1, 1])
}

/// A device whose probe has a byte at 3dh.
fn stray() -> Registers {
    device().register(0x3c, 0, 0x0000_0100)
}

/// Appends a function to a dump.
fn add(dump: &mut Dump, slot: Slot, image: Image) -> bool {
    let pushed = dump.push(Block {
        slot,
        title: None,
        image,
    });
    pushed.is_ok()
}

/// Appends a function to a dump and to its probe.
fn add_both(dump: &mut Dump, probe: &mut Dump, placed: &Placed) -> bool {
    let (bus, device, function, registers) = placed;
    match Slot::new(*bus, *device, *function) {
        Some(slot) => add(dump, slot, registers.image) && add(probe, slot, registers.probe),
        None => false,
    }
}

/// Appends functions.
fn add_all(dump: &mut Dump, probe: &mut Dump, functions: &[Placed]) -> bool {
    for placed in functions {
        if !add_both(dump, probe, placed) {
            return false;
        }
    }
    true
}

/// The dump and the probe of some functions.
fn pair(rt: &HostRuntime, functions: &[Placed]) -> Option<(Dump, Dump)> {
    let mut dump = Dump::empty(rt.alloc());
    let mut probe = Dump::empty(rt.alloc());
    if add_all(&mut dump, &mut probe, functions) {
        Some((dump, probe))
    } else {
        None
    }
}

/// Whether what comes of an admission is this fault, or none.
fn ends_with(answer: Result<Admitted, Refused<Fault>>, fault: Option<Fault>) -> bool {
    match (answer, fault) {
        (Ok(_), None) => true,
        (Err(Refused::Fault(found)), Some(fault)) => found == fault,
        _ => false,
    }
}

/// Whether some functions are admitted on some roots, or refused by this fault.
fn is_answered(rt: &HostRuntime, roots: Roots, functions: &[Placed], fault: Option<Fault>) -> bool {
    match pair(rt, functions) {
        Some((dump, probe)) => ends_with(admit_with(rt.alloc(), dump, probe, roots), fault),
        None => false,
    }
}

/// Whether a function at 00:02.0 is admitted, or refused by this fault.
fn is_answered_alone(rt: &HostRuntime, registers: &Registers, fault: Option<Fault>) -> bool {
    is_answered(rt, Roots::host(), &[(0, 2, 0, *registers)], fault)
}

#[test]
fn each_fault_is_named(rt: HostRuntime) -> Result<(), Fail> {
    let slot = Slot::new(0, 2, 0).ok_or("a slot")?;
    let rows = [
        (device(), None),
        (
            device().bytes(0x00, &[0xff, 0xff]),
            Some(Fault::NoVendor(slot)),
        ),
        (device().byte(0x0e, 2), Some(Fault::HeaderKind(slot))),
        (stray(), Some(Fault::StrayProbe(slot, 0x3d))),
        (
            device().register(0x10, 0, 0xfff0_f000),
            Some(Fault::BarMask(slot, 0x10)),
        ),
        (list_at(0x10), Some(Fault::CapRange(slot, 0x10))),
        (device().byte(0x04, 0x20), Some(Fault::PaletteSnoop(slot))),
        (to_bus_1(), None),
        (to_bus_1().byte(0x3e, 0x08), Some(Fault::VgaEnable(slot))),
        (to_bus_1().byte(0x3e, 0x04), Some(Fault::IsaEnable(slot))),
        (
            to_bus_1().bytes(0x09, &[0x01, 0x04, 0x06]),
            Some(Fault::Subtractive(slot)),
        ),
        (to_bus_1().bytes(0x09, &[0x00, 0x04, 0x06]), None),
        (to_bus_1().byte(0x3e, 0x40), Some(Fault::InReset(slot))),
        (
            list_at(0x40).byte(0x40, 1).byte(0x44, 3),
            Some(Fault::PowerState(slot)),
        ),
        (list_at(0x40).byte(0x40, 1), None),
        (bridge(), Some(Fault::BusRange(slot))),
    ];
    for (registers, fault) in &rows {
        assert!(rt; is_answered_alone(&rt, registers, *fault), "{fault:?}");
    }
    Ok(())
}

/// Whether a function at 00:01.0 and one at 00:02.0 are refused by this fault.
fn are_refused(rt: &HostRuntime, one: &Registers, other: &Registers, fault: Fault) -> bool {
    let both = [(0, 1, 0, *one), (0, 2, 0, *other)];
    is_answered(rt, Roots::host(), &both, Some(fault))
}

#[test]
fn the_earlier_phase_is_named(rt: HostRuntime) -> Result<(), Fail> {
    let first = Slot::new(0, 1, 0).ok_or("a slot")?;
    let second = Slot::new(0, 2, 0).ok_or("a slot")?;
    let place = bridge();
    let profile = device().byte(0x04, 0x20);
    let register = device().register(0x10, 0, 0xfff0_f000);
    let rows = [
        (place, profile, Fault::PaletteSnoop(second)),
        (place, register, Fault::BarMask(second, 0x10)),
        (place, stray(), Fault::StrayProbe(second, 0x3d)),
        (profile, register, Fault::BarMask(second, 0x10)),
        (profile, stray(), Fault::StrayProbe(second, 0x3d)),
        (register, stray(), Fault::StrayProbe(second, 0x3d)),
        // the other way round, and of one phase
        (profile, place, Fault::PaletteSnoop(first)),
        (register, profile, Fault::BarMask(first, 0x10)),
        (stray(), register, Fault::StrayProbe(first, 0x3d)),
        (
            profile,
            to_bus_1().byte(0x3e, 0x08),
            Fault::PaletteSnoop(first),
        ),
        (
            stray(),
            device().byte(0x0e, 2),
            Fault::StrayProbe(first, 0x3d),
        ),
    ];
    for (one, other, fault) in &rows {
        assert!(rt; are_refused(&rt, one, other, *fault), "{fault:?}");
    }
    Ok(())
}

/// A function 3 without a function 0, and with it.
const LONE: &[Row] = &[Device("00:01.3", 0, &[])];

const OF_TWO: &[Row] = &[Device("00:01.0", 0, &[]), Device("00:01.3", 0, &[])];

/// A device on bus 01, and behind a bridge to it.
const ORPHAN: &[Row] = &[Device("01:00.0", 0, &[])];

const BEHIND: &[Row] = &[
    Bridge("00:01.0", 0, (0, 1, 1), &[]),
    Device("01:00.0", 0, &[]),
];

/// What comes of the admission of a board.
fn admission(
    rt: &HostRuntime,
    board: &[Row],
    roots: Roots,
) -> Option<Result<Admitted, Refused<Fault>>> {
    let (dump, probe) = dumps_of_rows(rt.alloc(), board)?;
    Some(admit_with(rt.alloc(), dump, probe, roots))
}

/// Whether a board is admitted on some roots, or refused by this fault.
fn is_placed(rt: &HostRuntime, board: &[Row], roots: Roots, fault: Option<Fault>) -> bool {
    match admission(rt, board, roots) {
        Some(answer) => ends_with(answer, fault),
        None => false,
    }
}

/// Whether each board is answered so below bus 00.
fn are_placed_on_host(rt: &HostRuntime, lone: Slot, orphan: Slot) -> bool {
    let host = Roots::host();
    is_placed(rt, LONE, host, Some(Fault::LoneFunction(lone)))
        && is_placed(rt, OF_TWO, host, None)
        && is_placed(rt, ORPHAN, host, Some(Fault::Orphan(orphan)))
        && is_placed(rt, BEHIND, host, None)
}

/// Whether they are where bus 01 is a root as well.
fn are_placed_on_both(rt: &HostRuntime, both: Roots, bridge: Slot) -> bool {
    is_placed(rt, ORPHAN, both, None) && is_placed(rt, BEHIND, both, Some(Fault::BusRange(bridge)))
}

#[test]
fn each_function_has_its_place(rt: HostRuntime) -> Result<(), Fail> {
    let lone = Slot::new(0, 1, 3).ok_or("a slot")?;
    let orphan = Slot::new(1, 0, 0).ok_or("a slot")?;
    let bridge = Slot::new(0, 1, 0).ok_or("a slot")?;
    let both = Roots::of(&[0, 1]).ok_or("roots")?;
    assert!(rt; are_placed_on_host(&rt, lone, orphan));
    assert!(rt; are_placed_on_both(&rt, both, bridge));
    Ok(())
}

/// The dump of some functions.
fn dump_of(rt: &HostRuntime, functions: &[Placed]) -> Option<Dump> {
    let (dump, _) = pair(rt, functions)?;
    Some(dump)
}

/// The probe of some functions.
fn probe_of(rt: &HostRuntime, functions: &[Placed]) -> Option<Dump> {
    let (_, probe) = pair(rt, functions)?;
    Some(probe)
}

/// Whether the dump of some functions and the probe of others are refused as they differ at a slot.
fn differ_at(rt: &HostRuntime, ours: &[Placed], theirs: &[Placed], slot: Slot) -> bool {
    match (dump_of(rt, ours), probe_of(rt, theirs)) {
        (Some(dump), Some(probe)) => ends_with(
            admit(rt.alloc(), dump, probe),
            Some(Fault::SlotsDiffer(slot)),
        ),
        _ => false,
    }
}

#[test]
fn other_slots_are_named_first(rt: HostRuntime) -> Result<(), Fail> {
    let second = Slot::new(0, 2, 0).ok_or("a slot")?;
    let (first, plain) = ((0, 1, 0, list_at(0x10)), (0, 1, 0, device()));
    let (next, other) = ((0, 2, 0, device()), (0, 3, 0, device()));
    assert!(rt; differ_at(&rt, &[first, next], &[plain, other], second));
    assert!(rt; differ_at(&rt, &[first], &[plain, next], second));
    assert!(rt; differ_at(&rt, &[first, next], &[plain], second));
    Ok(())
}

/// A bridge and a device behind it, admitted.
fn bridged(rt: &HostRuntime) -> Option<Admitted> {
    let (dump, probe) = dumps_of_rows(rt.alloc(), BEHIND)?;
    admit(rt.alloc(), dump, probe).ok()
}

/// Whether the path to a slot leads through one bridge.
fn is_behind(admitted: &Admitted, slot: Slot, bridge: Slot) -> bool {
    matches!(admitted.path(slot), Some(path) if path.as_slice() == [bridge].as_slice())
}

/// Whether an admission lends dumps and an outline of two functions.
fn lends_two(admitted: &Admitted) -> bool {
    admitted.dump().blocks().len() == 2
        && admitted.probe().blocks().len() == 2
        && admitted.outline().records().len() == 2
        && admitted.outline().roots() == Roots::host()
}

/// Whether an admission lends all of a bridge and of a device behind it.
fn lends_all(admitted: &Admitted) -> bool {
    match (Slot::new(0, 1, 0), Slot::new(1, 0, 0)) {
        (Some(bridge), Some(device)) => {
            lends_two(admitted) && is_behind(admitted, device, bridge)
        }
        _ => false,
    }
}

#[test]
fn both_dumps_and_the_outline_are_lent(rt: HostRuntime) {
    assert!(rt; matches!(bridged(&rt), Some(admitted) if lends_all(&admitted)));
}
