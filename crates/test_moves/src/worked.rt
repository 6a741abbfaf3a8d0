//! Boards whose plans and accesses are counted out by hand.
use crate::counting::Counting;
use crate::setting::{POOLS, holds, left_after, machine_of, pin, read_at, slot, three};
use crate::stops::{accesses, applied, comparisons, put_onto, stops_anywhere};
use crate::trial::{Trial, tried, tried_again};
use pci_machine::machine::Machine;
use pci_plan::apply_fault::ApplyFault;
use pci_plan::plan::Plan;
use pci_plan::write::Write;
use std::alloc::Global;
use test_support::board::{Function, bridge, device};

/// A bridge with a prefetchable window of 64 bits, and behind it a BAR for that window.
fn prefetchable() -> [Function; 2] {
    let window = [
        (0x24, 0x0001_0001, 0xfff1_fff1),
        (0x28, 0, 0xffff_ffff),
        (0x2c, 0, 0xffff_ffff),
    ];
    let bar = [(0x10, 0x0000_000c, 0xf000_000c), (0x14, 0, 0xffff_ffff)];
    [
        bridge("00:01.0", 0, (0, 1, 1), &window),
        device("01:00.0", 0, &bar),
    ]
}

/// Whether so many accesses compare, so many writes are made, and what is planned is left.
fn is_put_on(alloc: Global, plan: &Plan<'_>, machine: Machine, compared: u64, writes: u64) -> bool {
    let mut port = Counting::new(machine);
    let answer = put_onto(&mut port, plan);
    let made = (port.reads, port.writes);
    let machine = port.into_inner();
    answer == Ok(())
        && made == (compared.saturating_add(writes), writes)
        && comparisons(plan) == compared
        && holds(alloc, plan, &machine, plan.dump())
}

/// Whether so many accesses compare and there are so many writes, and whether the plan stops as it says wherever one of
/// the accesses fails.
pub fn takes(alloc: Global, plan: &Plan<'_>, compared: u64, writes: u64) -> bool {
    match machine_of(alloc, plan) {
        Some(machine) => {
            is_put_on(alloc, plan, machine, compared, writes) && stops_anywhere(alloc, plan)
        }
        None => false,
    }
}

/// Bus, device and offset of registers of three functions, and what they hold after the first two writes.
static AFTER_TWO: [(u8, u8, u8, u32); 7] = [
    (0, 1, 0x04, 0),
    (0, 1, 0x20, 0xe010_e000),
    (0, 2, 0x04, 0),
    (0, 2, 0x10, 0xe020_0000),
    (1, 0, 0x04, 0),
    (1, 0, 0x10, 0),
    (1, 0, 0x14, 0),
];

/// Whether a register holds what its row says.
fn holds_register(machine: &mut Machine, row: &(u8, u8, u8, u32)) -> bool {
    let (bus, dev, offset, value) = *row;
    match slot(bus, dev) {
        Some(slot) => read_at(machine, slot, offset, 4) == Ok(value),
        None => false,
    }
}

/// Whether a machine is left after two writes.
fn is_left_after_two(machine: &mut Machine) -> bool {
    for row in &AFTER_TWO {
        if !holds_register(machine, row) {
            return false;
        }
    }
    true
}

/// Whether the third write of the plan of three functions, where it fails, leaves two.
pub fn third_write_fails(alloc: Global, plan: &Plan<'_>) -> bool {
    match applied(alloc, plan, 31) {
        Some((answer, mut machine)) => {
            accesses(plan) == 40
                && answer == Err(ApplyFault::Port { done: 2 })
                && is_left_after_two(&mut machine)
        }
        None => false,
    }
}

/// The machine that a plan starts from, with the memory decode bit of 00:02.0 pinned.
fn pinned(alloc: Global, plan: &Plan<'_>) -> Option<Machine> {
    let here = slot(0, 2)?;
    let mut machine = machine_of(alloc, plan)?;
    if pin(&mut machine, here, 0x04, 0b10) {
        Some(machine)
    } else {
        None
    }
}

/// Whether a plan is stopped at its sixth write by a machine.
fn stops_at_sixth(alloc: Global, plan: &Plan<'_>, machine: Machine) -> bool {
    let mut port = Counting::new(machine);
    let answer = put_onto(&mut port, plan);
    let made = (port.reads, port.writes);
    let machine = port.into_inner();
    answer == Err(ApplyFault::Stuck { done: 6 })
        && made == (32, 6)
        && left_after(alloc, plan, &machine, 5).is_some()
}

/// Whether a Command bit that can't be set stops the plan of three functions at its sixth write.
pub fn pinned_command_stops(alloc: Global, plan: &Plan<'_>) -> bool {
    match pinned(alloc, plan) {
        Some(machine) => stops_at_sixth(alloc, plan, machine),
        None => false,
    }
}

/// Pins the bits of the register that a write goes to.
fn pin_register(machine: &mut Machine, write: &Write) {
    for byte in 0..write.width {
        pin(machine, write.slot, write.off.saturating_add(byte), 0xff);
    }
}

/// Whether a write that doesn't stay, after so many others, is the last one.
fn pinned_register_stops(alloc: Global, plan: &Plan<'_>, before: usize, write: &Write) -> bool {
    let Some(mut machine) = machine_of(alloc, plan) else {
        return false;
    };
    pin_register(&mut machine, write);
    let done = before.saturating_add(1);
    put_onto(&mut machine, plan) == Err(ApplyFault::Stuck { done })
        && left_after(alloc, plan, &machine, before).is_some()
}

/// Whether that is so of each write of a plan that writes no register twice.
pub fn each_pinned_register_stops(alloc: Global, plan: &Plan<'_>) -> bool {
    for (before, write) in plan.writes().iter().enumerate() {
        if !pinned_register_stops(alloc, plan, before, write) {
            return false;
        }
    }
    true
}

/// Whether nothing is moved beside a function that stays on: a plan of so many closing writes stops at the one whose
/// Command can't be cleared, and the first of them leaves everything as it was.
pub fn each_pinned_closing_stops(alloc: Global, plan: &Plan<'_>, closing: usize) -> bool {
    for (before, write) in plan.writes().iter().take(closing).enumerate() {
        let is_closing = (write.off, write.value) == (0x04, 0);
        if !is_closing || !pinned_register_stops(alloc, plan, before, write) {
            return false;
        }
    }
    true
}

/// A trial of counts.
fn counts(compared: u64, writes: u64) -> Trial {
    Trial::Takes { compared, writes }
}

#[test]
fn three_functions_take_40_accesses(rt: HostRuntime) {
    assert!(rt; tried(rt.alloc(), &three(0), &POOLS, counts(26, 7)));
}

#[test]
fn a_prefetchable_window_is_written_in_three_registers(rt: HostRuntime) {
    assert!(rt; tried(rt.alloc(), &prefetchable(), &POOLS, counts(18, 7)));
}

#[test]
fn what_has_its_place_is_closed_and_opened(rt: HostRuntime) {
    assert!(rt; tried_again(rt.alloc(), &three(0), &POOLS, &POOLS, counts(26, 6)));
}

#[test]
fn an_unsound_start_is_sound_once_it_is_closed(rt: HostRuntime) {
    assert!(rt; tried(rt.alloc(), &three(2), &POOLS, counts(26, 10)));
}

#[test]
fn nothing_is_compared_where_nothing_is_listed(rt: HostRuntime) {
    assert!(rt; tried(rt.alloc(), &[], &POOLS, counts(0, 0)));
}

#[test]
fn a_third_write_that_fails_leaves_two(rt: HostRuntime) {
    assert!(rt; tried(rt.alloc(), &three(0), &POOLS, Trial::ThirdWriteFails));
}

#[test]
fn a_pinned_command_bit_stops_the_writes(rt: HostRuntime) {
    assert!(rt; tried(rt.alloc(), &three(0), &POOLS, Trial::PinnedCommand));
}

#[test]
fn a_function_that_stays_on_stops_the_writes(rt: HostRuntime) {
    assert!(rt; tried(rt.alloc(), &three(2), &POOLS, Trial::EachPinnedClosing(3)));
}

#[test]
fn each_register_that_does_not_take_its_write_stops_there(rt: HostRuntime) {
    assert!(rt; tried(rt.alloc(), &three(0), &POOLS, Trial::EachPinnedRegister));
}
