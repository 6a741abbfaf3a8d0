//! The accesses made over a port, one after another.
ghost use Rattle.std.specs.Prelude.{map};
ghost use Rattle.std.specs.List.{Contains};
ghost use Rattle.pci_spec.specs.Machine.{Write as WriteValue};
ghost use Rattle.pci_plan.specs.Comparing.{moment};
ghost use Rattle.pci_plan.specs.Writes.{write_value};
ghost use Rattle.pci_plan.specs.Going.{TakesRead, IsWritable, TakesStep, ReadsRegister, Writes, StepAnswers, AreRun};

use super::apply_fault::ApplyFault;
use super::write::Write;
use crate::judge::judge;
use crate::step::{Kind, Step, count, step_at};
use pci_machine::port::ConfigPort;

/// What a register shows. `None` where the access failed.
fn read<P: ConfigPort>(port: &mut P, register: &Write) -> Option<u32>
    requires { TakesRead (write_value register.now) }
    ensures { ReadsRegister (moment (P.targets port.old) (P.failures port.old)) (write_value register.now)
        result (moment (P.targets port.new) (P.failures port.new)) }
{
    match port.read(register.slot, register.off, register.width) {
        Ok(shown) => Some(shown),
        Err(_) => None,
    }
}

/// Makes a write, and answers its number. `None` where the access failed.
fn write<P: ConfigPort>(port: &mut P, register: &Write) -> Option<u32>
    requires { IsWritable (write_value register.now) }
    ensures { Writes (moment (P.targets port.old) (P.failures port.old)) (write_value register.now)
        result (moment (P.targets port.new) (P.failures port.new)) }
{
    match port.write(register.slot, register.off, register.width, register.value) {
        Ok(()) => Some(register.value),
        Err(_) => None,
    }
}

/// Makes the access of a step. `None` where it failed.
fn access<P: ConfigPort>(port: &mut P, step: &Step) -> Option<u32>
    requires { TakesStep step.now.kind (write_value step.now.register) }
    ensures { StepAnswers step.now.kind (moment (P.targets port.old) (P.failures port.old))
        (write_value step.now.register) result (moment (P.targets port.new) (P.failures port.new)) }
{
    match step.kind {
        Kind::Make => write(port, &step.register),
        Kind::Compare => read(port, &step.register),
        Kind::ReadBack => read(port, &step.register),
    }
}

/// Compares each register with its number, then makes each write and reads it back, until one of them ends it.
///
/// # Errors
///
/// 80 `Changed` with the first register that shows another number, 81 `Port` where an access failed or a function isn't
/// there, 82 `Stuck` where a write reads back otherwise.
pub fn run<P: ConfigPort>(
    port: &mut P,
    compares: &[Write],
    writes: &[Write],
) -> Result<(), ApplyFault>
    // a port would refuse others by 41, a cause of a stop that 81 doesn't know
    requires compares { (w : WriteValue) → Contains (map write_value compares.now) w
        → TakesRead w }
    requires writes { (w : WriteValue) → Contains (map write_value writes.now) w → IsWritable w }
    ensures { AreRun (moment (P.targets port.old) (P.failures port.old))
        (map write_value compares.now) (map write_value writes.now)
        (moment (P.targets port.new) (P.failures port.new)) result }
{
    for n in 0..count(compares, writes) {
        let Some(step) = step_at(compares, writes, n) else {
            unreachable!();
        };
        let shown = access(port, &step);
        judge(&step, shown)?;
    }
    Ok(())
}
