//! Settled boards that are put onto machines in memory, where each access fails once.
ghost use Rattle.std.specs.Prelude.{◌≡◌, []};

use crate::boards::{Listed, admitted, in_memory, list_of};
use pci_base::slot::Slot;
use pci_check::check::check;
use pci_check::verdict::Verdict;
use pci_dump::block::Block;
use pci_dump::dump::Dump;
use pci_first_fit::list::Lists;
use pci_machine::fail_at::FailAt;
use pci_machine::machine::Machine;
use pci_machine::port::ConfigPort;
use pci_plan::apply::apply;
use pci_plan::apply_fault::ApplyFault;
use pci_plan::moving::Move;
use pci_settle::settle::settle;
use pci_tree::admit_with;
use pci_tree::admitted::Admitted;
use std::alloc::Global;
use test_support::row::Row;
use test_support::row::Row::{Bridge, Device};

/// The machine that a move starts from.
fn machine_of(alloc: Global, moving: &Move<'_>) -> Option<Machine> {
    let start = moving.start();
    Machine::of(alloc, start.dump(), start.probe()).ok()
}

/// The block of a function of a machine.
fn block_of(machine: &Machine, slot: Slot) -> Option<Block> {
    let image = *machine.image(slot)?;
    Some(Block {
        slot,
        title: None,
        image,
    })
}

/// What a machine holds at the slots of a dump.
fn held(alloc: Global, machine: &Machine, slots: &Dump) -> Option<Dump> {
    let mut dump = Dump::empty(alloc);
    for block in slots.blocks() {
        dump.push(block_of(machine, block.slot)?).ok()?;
    }
    Some(dump)
}

/// An equal dump.
fn copy_of(alloc: Global, dump: &Dump) -> Option<Dump> {
    let mut copy = Dump::empty(alloc);
    for block in dump.blocks() {
        copy.push(block.copy()).ok()?;
    }
    Some(copy)
}

/// Whether `check` accepts an admission.
fn is_accepted(alloc: Global, admitted: &Admitted) -> bool {
    match check(alloc, admitted) {
        Ok(Verdict::Yes(_)) => true,
        Ok(Verdict::No(_)) | Err(_) => false,
    }
}

/// What a machine holds, with the probe and the root buses of a start.
fn admitted_with(alloc: Global, machine: &Machine, start: &Admitted) -> Option<Admitted> {
    let dump = held(alloc, machine, start.dump())?;
    let probe = copy_of(alloc, start.probe())?;
    admit_with(alloc, dump, probe, start.outline().roots()).ok()
}

/// Whether what a machine holds is sound, with the probe and the root buses of a start.
fn is_sound(alloc: Global, machine: &Machine, start: &Admitted) -> bool {
    match admitted_with(alloc, machine, start) {
        Some(admitted) => is_accepted(alloc, &admitted),
        None => false,
    }
}

/// Whether a machine holds the images of blocks.
fn holds(machine: &Machine, blocks: &[Block]) -> bool {
    for block in blocks {
        if machine.image(block.slot) != Some(&block.image) {
            return false;
        }
    }
    true
}

/// How many accesses compare the functions of a dump: one for Command and one for each address register.
fn comparisons(dump: &Dump) -> usize {
    let mut count = 0usize;
    for block in dump.blocks() {
        let bridge = block.image.u8(0x0e) % 128 == 1;
        count = count.saturating_add(if bridge { 10 } else { 8 });
    }
    count
}

/// How many accesses a move takes: each write is read back.
fn accesses(moving: &Move<'_>) -> usize {
    let writes = moving.writes().len();
    comparisons(moving.start().dump()).saturating_add(writes.saturating_mul(2))
}

/// The answer of a move whose access `n` fails, counted from 1, and the machine that is left.
fn stopped(
    alloc: Global,
    moving: &Move<'_>,
    n: usize,
) -> Option<(Result<(), ApplyFault>, Machine)> {
    let mut port = FailAt::new(machine_of(alloc, moving)?, n as u64);
    let answer = apply(&mut port, moving);
    Some((answer, port.into_inner()))
}

/// The machine that a move starts from, once its first writes are made.
fn machine_after(alloc: Global, moving: &Move<'_>, done: usize) -> Option<Machine> {
    let mut machine = machine_of(alloc, moving)?;
    for write in moving.writes().iter().take(done) {
        machine
            .write(write.slot, write.off, write.width, write.value)
            .ok()?;
    }
    Some(machine)
}

/// Whether just so many writes of a move were made on a machine, and what is left is sound, as far as the move says so.
fn is_left_after(alloc: Global, moving: &Move<'_>, machine: &Machine, done: usize) -> bool {
    let slots = moving.start().dump();
    let made = match machine_after(alloc, moving, done) {
        Some(wanted) => held(alloc, &wanted, slots),
        None => None,
    };
    match made {
        Some(made) => {
            holds(machine, made.blocks())
                && (done < moving.safe_from() || is_sound(alloc, machine, moving.start()))
        }
        None => false,
    }
}

/// Whether a move whose access `n` fails answers so, and leaves what its answer says.
fn stops_at(alloc: Global, moving: &Move<'_>, n: usize) -> bool {
    let done = n.saturating_sub(comparisons(moving.start().dump())) / 2;
    match stopped(alloc, moving, n) {
        Some((answer, machine)) => {
            answer == Err(ApplyFault::Port { done }) && is_left_after(alloc, moving, &machine, done)
        }
        None => false,
    }
}

/// Whether a move of which no access fails leaves its dump, which is sound.
fn is_made(alloc: Global, moving: &Move<'_>) -> bool {
    match stopped(alloc, moving, 0) {
        Some((answer, machine)) => {
            answer == Ok(())
                && holds(&machine, moving.dump())
                && is_sound(alloc, &machine, moving.start())
        }
        None => false,
    }
}

/// Whether a move of so many writes is made, and may stop at each of its accesses.
fn may_stop(alloc: Global, moving: &Move<'_>, writes: usize, safe_from: usize) -> bool {
    for n in 1..=accesses(moving) {
        if !stops_at(alloc, moving, n) {
            return false;
        }
    }
    moving.writes().len() == writes && moving.safe_from() == safe_from && is_made(alloc, moving)
}

/// Whether a start settles in lists by so many writes, so many of which close, and these are put onto its machine.
fn settles_onto(
    alloc: Global,
    start: &Admitted,
    lists: &Lists,
    anew: bool,
    wanted: (usize, usize),
) -> bool
    requires { lists.now.told.ranges.now ≡ [] }
{
    let (writes, closings) = wanted;
    match settle(alloc, start, lists, &[], anew) {
        Ok(settled) => may_stop(alloc, &settled.as_move(start), writes, closings),
        Err(_) => false,
    }
}

/// The same of a board below bus 00, in a list of memory.
fn is_put_onto(
    alloc: Global,
    board: &[Row],
    mem: &[Listed],
    anew: bool,
    wanted: (usize, usize),
) -> bool {
    match (admitted(alloc, &[0], board), list_of(alloc, mem)) {
        (Some(start), Some(mem)) => {
            let lists = in_memory(mem.as_slice());
            settles_onto(alloc, &start, &lists, anew, wanted)
        }
        _ => false,
    }
}

/// One megabyte of memory.
const MEM: &[Listed] = &[(None, 0xe000_0000, 0xe00f_ffff)];

#[test]
fn a_window_that_moves_is_put_onto_its_machine(rt: HostRuntime) {
    const BOARD: &[Row] = &[
        Bridge("00:01.0", 3, (0, 1, 1), &[(0x20, 0xe010_e010, 0xfff0_fff0)]),
        Device("01:00.0", 3, &[(0x10, 0xe010_0000, 0xffff_f000)]),
    ];
    assert!(rt; is_put_onto(rt.alloc(), BOARD, MEM, true, (5, 2)));
}

#[test]
fn a_board_that_is_not_sound_is_safe_once_it_is_closed(rt: HostRuntime) {
    const BOARD: &[Row] = &[
        Device("00:01.0", 2, &[(0x10, 0xe000_0000, 0xffff_f000)]),
        Device("00:02.0", 2, &[(0x10, 0xe000_0000, 0xffff_f000)]),
    ];
    assert!(rt; is_put_onto(rt.alloc(), BOARD, MEM, false, (3, 1)));
}

#[test]
fn where_nothing_is_to_be_written_all_is_compared(rt: HostRuntime) {
    const BOARD: &[Row] = &[Device("00:01.0", 2, &[(0x10, 0xe000_0000, 0xffff_f000)])];
    assert!(rt; is_put_onto(rt.alloc(), BOARD, MEM, false, (0, 0)));
}
