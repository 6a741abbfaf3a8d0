//! Plans that stop, because an access fails.
use crate::setting::{is_sound, left_after, machine_of};
use pci_dump::dump::Dump;
use pci_machine::fail_at::FailAt;
use pci_machine::machine::Machine;
use pci_machine::port::ConfigPort;
use pci_plan::apply::apply;
use pci_plan::apply_fault::ApplyFault;
use pci_plan::plan::Plan;
use std::alloc::Global;

/// How many accesses compare the functions of a plan: one for Command and one for each address register.
pub fn comparisons(plan: &Plan<'_>) -> u64 {
    let mut count = 0u64;
    for block in plan.start().dump().blocks() {
        let bridge = block.image.u8(0x0e) % 128 == 1;
        count = count.saturating_add(if bridge { 10 } else { 8 });
    }
    count
}

/// How many accesses putting a plan onto its machine takes: each write is read back.
pub fn accesses(plan: &Plan<'_>) -> u64 {
    let writes = plan.writes().len() as u64;
    comparisons(plan).saturating_add(writes.saturating_mul(2))
}

/// The answer where access `n` fails, counted from 1, or where none does, and how many writes were made.
fn stop_at(plan: &Plan<'_>, n: u64) -> (Result<(), ApplyFault>, usize) {
    if n == 0 || accesses(plan) < n {
        return (Ok(()), plan.writes().len());
    }
    let done = (n.saturating_sub(comparisons(plan)) / 2) as usize;
    (Err(ApplyFault::Port { done }), done)
}

/// What putting a plan onto a port answers.
pub fn put_onto(port: &mut impl ConfigPort, plan: &Plan<'_>) -> Result<(), ApplyFault> {
    apply(port, &plan.as_move())
}

/// What a plan answers on the machine that it starts from where access `n` fails, and the machine that is left.
pub fn applied(
    alloc: Global,
    plan: &Plan<'_>,
    n: u64,
) -> Option<(Result<(), ApplyFault>, Machine)> {
    let mut port = FailAt::new(machine_of(alloc, plan)?, n);
    let answer = put_onto(&mut port, plan);
    Some((answer, port.into_inner()))
}

/// How many writes were made where access `n` fails, and what is left: exactly the writes that the plan says were made.
/// None where it is anything else.
fn stopped_at(alloc: Global, plan: &Plan<'_>, n: u64) -> Option<(usize, Dump)> {
    let (wanted, done) = stop_at(plan, n);
    let (answer, machine) = applied(alloc, plan, n)?;
    if answer != wanted {
        return None;
    }
    let left = left_after(alloc, plan, &machine, done)?;
    Some((done, left))
}

/// Whether that is so with each access failing once, and with none: neither one before the first nor one after the last.
/// What is left is sound, as far as the plan says so; it is judged once for each number of writes.
pub fn stops_anywhere(alloc: Global, plan: &Plan<'_>) -> bool {
    let mut judged = None;
    for n in 0..=accesses(plan).saturating_add(1) {
        let Some((done, left)) = stopped_at(alloc, plan, n) else {
            return false;
        };
        if plan.safe_from() <= done && judged != Some(done) {
            if !is_sound(alloc, plan, left) {
                return false;
            }
            judged = Some(done);
        }
    }
    true
}
