//! Writes that stop: what is left after each beginning of a plan's writes is judged.
use crate::samples::{SAMPLES, Sample};
use pci_base::slot::Slot;
use pci_check::check::check;
use pci_check::verdict::Verdict;
use pci_dump::block::Block;
use pci_dump::dump::Dump;
use pci_machine::machine::Machine;
use pci_machine::port::ConfigPort;
use pci_place::pools::Pools;
use pci_plan::plan::Plan;
use pci_plan::planning::plan;
use pci_plan::write::Write;
use pci_tree::admit::admit_with;
use pci_tree::admitted::Admitted;
use pci_tree::roots::Roots;
use std::alloc::Global;
use test_support::row::{Row, dumps_of_rows};

/// A board with these roots.
fn admitted(alloc: Global, board: &[Row], roots: Roots) -> Option<Admitted> {
    match dumps_of_rows(alloc, board) {
        Some((dump, probe)) => admit_with(alloc, dump, probe, roots).ok(),
        None => None,
    }
}

/// An equal dump.
fn copy_of(alloc: Global, dump: &Dump) -> Option<Dump> {
    let mut copy = Dump::empty(alloc);
    for block in dump.blocks() {
        copy.push(block.copy()).ok()?;
    }
    Some(copy)
}

/// The admission of a dump with the probe and the root buses of another.
fn admitted_with(alloc: Global, dump: &Dump, start: &Admitted) -> Option<Admitted> {
    let dump = copy_of(alloc, dump)?;
    let probe = copy_of(alloc, start.probe())?;
    admit_with(alloc, dump, probe, start.outline().roots()).ok()
}

/// The block of a function of a machine.
fn block_of(machine: &Machine, slot: Slot) -> Option<Block> {
    let image = *machine.image(slot)?;
    Some(Block {
        slot,
        title: None,
        image,
    })
}

/// The images of a machine, as a dump with the slots of another.
fn images_of(alloc: Global, machine: &Machine, slots: &Dump) -> Option<Dump> {
    let mut dump = Dump::empty(alloc);
    for block in slots.blocks() {
        dump.push(block_of(machine, block.slot)?).ok()?;
    }
    Some(dump)
}

/// Whether `check` accepts an admission.
fn is_accepted(alloc: Global, admitted: &Admitted) -> Option<bool> {
    match check(alloc, admitted) {
        Ok(Verdict::Yes(_)) => Some(true),
        Ok(Verdict::No(_)) => Some(false),
        Err(_) => None,
    }
}

/// Whether `check` accepts a dump with the probe of another; none where it isn't admitted.
fn is_sound(alloc: Global, dump: &Dump, start: &Admitted) -> Option<bool> {
    let admitted = admitted_with(alloc, dump, start)?;
    is_accepted(alloc, &admitted)
}

/// Makes a write on a machine.
fn make(machine: &mut Machine, write: &Write) -> bool {
    machine.write(write.slot, write.off, write.width, write.value) == Ok(())
}

/// Whether a machine holds what is planned.
fn is_as_planned(machine: &Machine, planned: &Dump) -> bool {
    for block in planned.blocks() {
        if machine.image(block.slot) != Some(&block.image) {
            return false;
        }
    }
    true
}

/// Whether a dump that so many writes of a plan leave is sound from `safe_from` on, and the start isn't where that is
/// above 0.
fn is_as_safe<'a>(alloc: Global, plan: &Plan<'a>, left: &Dump, done: usize) -> bool {
    match is_sound(alloc, left, plan.start()) {
        Some(true) => done != 0 || plan.safe_from() == 0,
        Some(false) => done < plan.safe_from(),
        None => false,
    }
}

/// The same of what a machine holds.
fn is_left_safe<'a>(alloc: Global, plan: &Plan<'a>, machine: &Machine, done: usize) -> bool {
    match images_of(alloc, machine, plan.start().dump()) {
        Some(left) => is_as_safe(alloc, plan, &left, done),
        None => false,
    }
}

/// The same of each beginning of a plan's writes, which are made on a machine of its start one after another.
fn is_safe_on<'a>(alloc: Global, plan: &Plan<'a>, machine: &mut Machine) -> bool {
    for (before, write) in plan.writes().iter().enumerate() {
        if !make(machine, write) || !is_left_safe(alloc, plan, machine, before.saturating_add(1)) {
            return false;
        }
    }
    is_as_planned(machine, plan.dump())
}

/// Whether a stop is sound after each number of writes from `safe_from` on, and the start isn't where that is above 0.
fn stops_safely<'a>(alloc: Global, plan: &Plan<'a>) -> bool {
    let start = plan.start();
    match Machine::of(alloc, start.dump(), start.probe()).ok() {
        Some(mut machine) => {
            is_as_safe(alloc, plan, start.dump(), 0) && is_safe_on(alloc, plan, &mut machine)
        }
        None => false,
    }
}

/// Whether the writes of a plan may stop there.
fn is_planned(alloc: Global, start: &Admitted, pools: &Pools, safe_from: usize) -> bool {
    match plan(alloc, start, pools) {
        Ok(plan) => plan.safe_from() == safe_from && stops_safely(alloc, &plan),
        Err(_) => false,
    }
}

/// Whether the writes of a sample may stop where it says.
fn is_safe_sample(alloc: Global, sample: &Sample) -> bool {
    let Some(roots) = Roots::of(sample.roots) else {
        return false;
    };
    match admitted(alloc, sample.board, roots) {
        Some(start) => is_planned(alloc, &start, &sample.pools, sample.safe_from),
        None => false,
    }
}

#[test]
fn writes_may_stop_anywhere_once_they_are_safe(rt: HostRuntime) {
    for (n, sample) in SAMPLES.iter().enumerate() {
        assert!(rt; is_safe_sample(rt.alloc(), sample), "sample {n}");
    }
}
