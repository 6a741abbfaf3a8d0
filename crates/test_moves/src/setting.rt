//! Boards that are planned, the machines that their plans start from, and what such a machine holds afterwards.
use pci_base::range::Range;
use pci_base::slot::Slot;
use pci_check::check::check;
use pci_check::verdict::Verdict;
use pci_dump::block::Block;
use pci_dump::dump::Dump;
use pci_machine::machine::Machine;
use pci_machine::port::{ConfigPort, PortError};
use pci_place::pools::Pools;
use pci_plan::plan::Plan;
use pci_plan::write::Write;
use pci_tree::admit::admit;
use pci_tree::admitted::Admitted;
use std::alloc::Global;
use test_support::board::{Function, bridge, device, texts_of};
use test_support::row::dumps_of;

/// Pools with room for the boards of this crate that are written down register by register.
pub const POOLS: Pools = Pools {
    io: Range {
        first: 0x1000,
        last: 0xffff,
    },
    mem: Range {
        first: 0xe000_0000,
        last: 0xe02f_ffff,
    },
    pref: Range {
        first: 0x1_0000_0000,
        last: 0x1_ffff_ffff,
    },
};

/// Pools with room for every board of this crate.
pub const WIDE_POOLS: Pools = Pools {
    io: Range {
        first: 0x1000,
        last: 0xffff,
    },
    mem: Range {
        first: 0x8000_0000,
        last: 0xffff_ffff,
    },
    pref: Range {
        first: 0x1_0000_0000,
        last: 0x1f_ffff_ffff,
    },
};

/// Function 0 of a device.
pub fn slot(bus: u8, dev: u8) -> Option<Slot> {
    Slot::new(bus, dev, 0)
}

/// A bridge to bus 01, a device beside it and one behind it, none of which has an address yet.
pub fn three(command: u16) -> [Function; 3] {
    let behind = [(0x10, 0, 0xfff0_0000), (0x14, 0, 0xffff_f000)];
    [
        bridge("00:01.0", command, (0, 1, 1), &[]),
        device("00:02.0", command, &[(0x10, 0, 0xfff0_0000)]),
        device("01:00.0", command, &behind),
    ]
}

/// The dump and the probe of a board, admitted.
pub fn admitted(alloc: Global, board: &[Function]) -> Option<Admitted> {
    let texts = texts_of(alloc, board).ok()?;
    let (dump, probe) = dumps_of(alloc, &texts)?;
    admit(alloc, dump, probe).ok()
}

/// An equal dump.
fn copy_of(alloc: Global, dump: &Dump) -> Option<Dump> {
    let mut copy = Dump::empty(alloc);
    for block in dump.blocks() {
        copy.push(block.copy()).ok()?;
    }
    Some(copy)
}

/// The board that a plan leads to, admitted.
pub fn planned(alloc: Global, plan: &Plan<'_>) -> Option<Admitted> {
    let dump = copy_of(alloc, plan.dump())?;
    let probe = copy_of(alloc, plan.start().probe())?;
    admit(alloc, dump, probe).ok()
}

/// The machine of an admitted dump and probe.
pub fn machine_at(alloc: Global, start: &Admitted) -> Option<Machine> {
    Machine::of(alloc, start.dump(), start.probe()).ok()
}

/// The machine that a plan starts from.
pub fn machine_of(alloc: Global, plan: &Plan<'_>) -> Option<Machine> {
    machine_at(alloc, plan.start())
}

/// What a read of a machine answers.
pub fn read_at(machine: &mut Machine, slot: Slot, off: u8, width: u8) -> Result<u32, PortError> {
    machine.read(slot, off, width)
}

/// What a write to a machine answers.
pub fn write_at(
    machine: &mut Machine,
    slot: Slot,
    off: u8,
    width: u8,
    value: u32,
) -> Result<(), PortError> {
    machine.write(slot, off, width, value)
}

/// Pins bits of a byte of a machine, so that writes leave them as they are. Whether there is a function at the slot.
pub fn pin(machine: &mut Machine, slot: Slot, off: u8, bits: u8) -> bool {
    machine.pin(slot, off, bits)
}

/// The block of a function of a machine.
fn block_of(machine: &Machine, slot: Slot) -> Option<Block> {
    let image = *machine.image(slot)?;
    Some(Block {
        slot,
        title: None,
        image,
    })
}

/// What a machine holds at the slots that a plan is for.
pub fn held(alloc: Global, plan: &Plan<'_>, machine: &Machine) -> Option<Dump> {
    let mut dump = Dump::empty(alloc);
    for block in plan.start().dump().blocks() {
        dump.push(block_of(machine, block.slot)?).ok()?;
    }
    Some(dump)
}

/// Makes a write on a machine.
fn make(machine: &mut Machine, write: &Write) -> bool {
    write_at(machine, write.slot, write.off, write.width, write.value) == Ok(())
}

/// What the machine that a plan starts from holds after the first writes of the plan.
fn held_after(alloc: Global, plan: &Plan<'_>, done: usize) -> Option<Dump> {
    let mut machine = machine_of(alloc, plan)?;
    for write in plan.writes().iter().take(done) {
        if !make(&mut machine, write) {
            return None;
        }
    }
    held(alloc, plan, &machine)
}

/// What a machine holds, if that is what the first writes of a plan leave.
pub fn left_after(alloc: Global, plan: &Plan<'_>, machine: &Machine, done: usize) -> Option<Dump> {
    let left = held(alloc, plan, machine)?;
    let wanted = held_after(alloc, plan, done)?;
    if left.blocks() == wanted.blocks() {
        Some(left)
    } else {
        None
    }
}

/// Whether a machine holds just this at the slots that a plan is for.
pub fn holds(alloc: Global, plan: &Plan<'_>, machine: &Machine, wanted: &Dump) -> bool {
    match held(alloc, plan, machine) {
        Some(left) => left.blocks() == wanted.blocks(),
        None => false,
    }
}

/// Whether an admission is judged sound.
fn is_accepted(alloc: Global, admitted: &Admitted) -> bool {
    matches!(check(alloc, admitted), Ok(Verdict::Yes(_)))
}

/// Whether a dump, with the probe that a plan is for, is judged sound.
pub fn is_sound(alloc: Global, plan: &Plan<'_>, dump: Dump) -> bool {
    let Some(probe) = copy_of(alloc, plan.start().probe()) else {
        return false;
    };
    match admit(alloc, dump, probe) {
        Ok(admitted) => is_accepted(alloc, &admitted),
        Err(_) => false,
    }
}
