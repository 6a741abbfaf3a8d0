//! Registers that changed since the plan was made.
use crate::counting::Counting;
use crate::setting::{
    POOLS, WIDE_POOLS, admitted, held, holds, machine_at, machine_of, read_at, slot, three,
    write_at,
};
use crate::stops::put_onto;
use crate::trial::{Trial, tried};
use pci_base::slot::Slot;
use pci_machine::machine::Machine;
use pci_plan::apply_fault::ApplyFault;
use pci_plan::plan::Plan;
use std::alloc::Global;
use test_support::board::{Function, bridge, device};

/// The registers that are compared, Command first: offset, width, and a bit that a write can change.
const OF_BRIDGE: [(u8, u8, u32); 10] = [
    (0x04, 2, 0x0000_0004),
    (0x10, 4, 0x8000_0000),
    (0x14, 4, 0x8000_0000),
    (0x1c, 2, 0x0000_8000),
    (0x20, 4, 0x8000_0000),
    (0x24, 4, 0x8000_0000),
    (0x28, 4, 0x8000_0000),
    (0x2c, 4, 0x8000_0000),
    (0x30, 4, 0x8000_0000),
    (0x38, 4, 0x8000_0000),
];

const OF_DEVICE: [(u8, u8, u32); 8] = [
    (0x04, 2, 0x0000_0004),
    (0x10, 4, 0x8000_0000),
    (0x14, 4, 0x8000_0000),
    (0x18, 4, 0x8000_0000),
    (0x1c, 4, 0x8000_0000),
    (0x20, 4, 0x8000_0000),
    (0x24, 4, 0x8000_0000),
    (0x30, 4, 0x8000_0000),
];

/// Two devices and two bridges, each of whose address registers is there.
fn full() -> [Function; 4] {
    let of_bridge = [
        (0x10, 0, 0xffff_f000),
        (0x14, 0, 0xffff_f000),
        (0x1c, 0x0000_0101, 0x0000_f1f1),
        (0x24, 0x0001_0001, 0xfff1_fff1),
        (0x28, 0, 0xffff_ffff),
        (0x2c, 0, 0xffff_ffff),
        (0x30, 0, 0xffff_ffff),
        (0x38, 0, 0xffff_0000),
    ];
    let of_device = [
        (0x10, 0, 0xffff_f000),
        (0x14, 0x0000_0004, 0xffff_0004),
        (0x18, 0, 0xffff_ffff),
        (0x1c, 0x0000_000c, 0xffff_000c),
        (0x20, 0, 0xffff_ffff),
        (0x24, 0x0000_0001, 0xffff_ffe1),
        (0x30, 0, 0xffff_0000),
    ];
    [
        device("00:00.0", 0, &of_device),
        bridge("00:01.0", 0, (0, 1, 2), &of_bridge),
        bridge("01:00.0", 0, (1, 2, 2), &of_bridge),
        device("02:00.0", 0, &of_device),
    ]
}

/// A register, with a bit of it that is changed.
#[derive(Clone, Copy)]
struct Register {
    slot: Slot,
    offset: u8,
    width: u8,
    bit: u32,
}

/// The functions of the full board by bus and device, in the order in which they are compared, with their registers.
const FULL: [(u8, u8, &[(u8, u8, u32)]); 4] = [
    (0, 0, &OF_DEVICE),
    (0, 1, &OF_BRIDGE),
    (1, 0, &OF_BRIDGE),
    (2, 0, &OF_DEVICE),
];

/// The n-th register of the full board, counted from 0, in the order in which they are compared.
fn nth_register(n: usize) -> Option<Register> {
    let mut rest = n;
    for (bus, dev, table) in FULL {
        if let Some(&(offset, width, bit)) = table.get(rest) {
            return Some(Register {
                slot: Slot::new(bus, dev, 0)?,
                offset,
                width,
                bit,
            });
        }
        rest = rest.saturating_sub(table.len());
    }
    None
}

/// Changes a register's bit.
fn change(machine: &mut Machine, register: &Register) -> bool {
    let (slot, offset, width) = (register.slot, register.offset, register.width);
    match read_at(machine, slot, offset, width) {
        Ok(value) => write_at(machine, slot, offset, width, value ^ register.bit) == Ok(()),
        Err(_) => false,
    }
}

/// The machine that a plan starts from, where one or two registers have changed.
fn changed(
    alloc: Global,
    plan: &Plan<'_>,
    first: &Register,
    second: Option<&Register>,
) -> Option<Machine> {
    let mut machine = machine_of(alloc, plan)?;
    let is_changed = match second {
        Some(second) => change(&mut machine, first) && change(&mut machine, second),
        None => change(&mut machine, first),
    };
    if is_changed { Some(machine) } else { None }
}

/// Whether a plan is refused by a register of a machine that changed, after so many reads, and nothing is written.
fn is_refused_by(
    alloc: Global,
    plan: &Plan<'_>,
    machine: Machine,
    register: &Register,
    reads: usize,
) -> bool {
    let Some(before) = held(alloc, plan, &machine) else {
        return false;
    };
    let mut port = Counting::new(machine);
    let answer = put_onto(&mut port, plan);
    let made = (port.reads, port.writes);
    let machine = port.into_inner();
    answer == Err(ApplyFault::Changed(register.slot, register.offset))
        && made == (reads as u64, 0)
        && holds(alloc, plan, &machine, &before)
}

/// Whether that is so of the first of two registers that changed.
fn names_first(
    alloc: Global,
    plan: &Plan<'_>,
    first: &Register,
    second: Option<&Register>,
    reads: usize,
) -> bool {
    match changed(alloc, plan, first, second) {
        Some(machine) => is_refused_by(alloc, plan, machine, first, reads),
        None => false,
    }
}

/// The same with the n-th register of the full board as the second.
fn names_before(alloc: Global, plan: &Plan<'_>, first: &Register, n: usize, reads: usize) -> bool {
    match nth_register(n) {
        Some(second) => names_first(alloc, plan, first, Some(&second), reads),
        None => false,
    }
}

/// Whether the n-th register of the full board is named where it changed, alone and with each one after it.
fn is_named(alloc: Global, plan: &Plan<'_>, n: usize) -> bool {
    let Some(first) = nth_register(n) else {
        return false;
    };
    let reads = n.saturating_add(1);
    if !names_first(alloc, plan, &first, None, reads) {
        return false;
    }
    for after in reads..36 {
        if !names_before(alloc, plan, &first, after, reads) {
            return false;
        }
    }
    true
}

/// Whether the first register that changed is named, whichever two of the full board did.
pub fn each_change_is_named(alloc: Global, plan: &Plan<'_>) -> bool {
    if nth_register(35).is_none() || nth_register(36).is_some() {
        return false;
    }
    for n in 0..36usize {
        if !is_named(alloc, plan, n) {
            return false;
        }
    }
    true
}

/// Whether a bit of Command of a device is compared on a machine, and then what the plan left of its bridge's.
fn compares_command(machine: &mut Machine, plan: &Plan<'_>, bridge: Slot, device: Slot) -> bool {
    let fault = ApplyFault::Changed(device, 0x04);
    fault.number() == 80
        && write_at(machine, device, 0x04, 2, 0x0004) == Ok(())
        && put_onto(machine, plan) == Err(fault)
        && write_at(machine, device, 0x04, 2, 0x0000) == Ok(())
        && put_onto(machine, plan) == Ok(())
        && put_onto(machine, plan) == Err(ApplyFault::Changed(bridge, 0x04))
}

/// Whether a bit of Command is compared that no plan changes.
pub fn command_is_compared(alloc: Global, plan: &Plan<'_>) -> bool {
    match (machine_of(alloc, plan), slot(0, 1), slot(0, 2)) {
        (Some(mut machine), Some(bridge), Some(device)) => {
            compares_command(&mut machine, plan, bridge, device)
        }
        _ => false,
    }
}

/// Whether Interrupt Line of a device and the subordinate bus of a bridge may have changed on a machine, and stay.
fn keeps_bytes(machine: &mut Machine, plan: &Plan<'_>, bridge: Slot, device: Slot) -> bool {
    write_at(machine, device, 0x3c, 1, 0x0b) == Ok(())
        && write_at(machine, bridge, 0x1a, 1, 0x05) == Ok(())
        && put_onto(machine, plan) == Ok(())
        && read_at(machine, device, 0x3c, 4) == Ok(0x0b)
        && read_at(machine, bridge, 0x18, 4) == Ok(0x0005_0100)
}

/// Whether bytes that no access goes to may have changed, and stay.
pub fn other_bytes_may_change(alloc: Global, plan: &Plan<'_>) -> bool {
    match (machine_of(alloc, plan), slot(0, 1), slot(0, 2)) {
        (Some(mut machine), Some(bridge), Some(device)) => {
            keeps_bytes(&mut machine, plan, bridge, device)
        }
        _ => false,
    }
}

/// Whether a plan stops on a machine at its eleventh access, the first to a function that isn't there.
fn stops_on(machine: Machine, plan: &Plan<'_>) -> bool {
    let mut port = Counting::new(machine);
    let fault = ApplyFault::Port { done: 0 };
    let answer = put_onto(&mut port, plan);
    fault.number() == 81 && answer == Err(fault) && (port.reads, port.writes) == (10, 0)
}

/// The machine of three functions without the second.
fn without_one(alloc: Global) -> Option<Machine> {
    let [bridge, _gone, device] = three(0);
    let rest = admitted(alloc, &[bridge, device])?;
    machine_at(alloc, &rest)
}

/// Whether a function that isn't there stops a plan of three functions at the first access to it.
pub fn gone_function_is_a_failed_access(alloc: Global, plan: &Plan<'_>) -> bool {
    match without_one(alloc) {
        Some(machine) => stops_on(machine, plan),
        None => false,
    }
}

#[test]
fn the_first_register_that_changed_is_named(rt: HostRuntime) {
    assert!(rt; tried(rt.alloc(), &full(), &WIDE_POOLS, Trial::EachChange));
}

#[test]
fn a_bit_of_command_that_no_plan_sets_is_compared(rt: HostRuntime) {
    assert!(rt; tried(rt.alloc(), &three(0), &POOLS, Trial::CommandChanges));
}

#[test]
fn what_no_access_goes_to_may_have_changed(rt: HostRuntime) {
    assert!(rt; tried(rt.alloc(), &three(0), &POOLS, Trial::OtherBytesChange));
}

#[test]
fn a_function_that_is_gone_is_a_failed_access(rt: HostRuntime) {
    assert!(rt; tried(rt.alloc(), &three(0), &POOLS, Trial::GoneFunction));
}
