//! Making writes, each of which is read back.
ghost use Rattle.std.specs.Prelude.{◌≡◌, ◌<◌, ◌^◌, map, OnOk, IfErr};
ghost use Rattle.std.specs.List.{All};
ghost use Rattle.pci_spec.specs.Machine.{write_targets};
ghost use Rattle.pci_spec.specs.Port.{ShowsNumber};
ghost use Rattle.pci_plan.specs.Comparing.{moment};
ghost use Rattle.pci_plan.specs.Writes.{write_value};
ghost use Rattle.pci_plan.specs.Making.{IsAccessible, IsLastWrite, AreMadeBy};

use super::apply_fault::ApplyFault;
use super::write::Write;
use pci_machine::port::ConfigPort;

/// Makes a write, after `done` others, and reads it back.
fn make_one<P: ConfigPort>(port: &mut P, write: Write, done: usize) -> Result<(), ApplyFault>
    requires access { IsAccessible write }
    requires few { done < 2 ^ 63 }
    ensures made { OnOk result
        (P.targets port.new ≡ write_targets (P.targets port.old) (write_value write)) }
    ensures shown { OnOk result
        (ShowsNumber (P.targets port.new) write.slot write.off write.width write.value) }
    ensures counted { OnOk result (P.failures port.new ≡ P.failures port.old) }
    ensures stop { IfErr result (IsLastWrite (moment (P.targets port.old) (P.failures port.old))
        (write_value write) done (moment (P.targets port.new) (P.failures port.new))) }
{
    match port.write(write.slot, write.off, write.width, write.value) {
        Ok(()) => {}
        Err(_) => return Err(ApplyFault::Port { done }),
    }
    match port.read(write.slot, write.off, write.width) {
        Ok(value) => {
            if value == write.value {
                Ok(())
            } else {
                Err(ApplyFault::Stuck { done: done + 1 })
            }
        }
        Err(_) => Err(ApplyFault::Port { done: done + 1 }),
    }
}

/// Makes each write and reads it back, until one fails or reads back otherwise.
pub fn make<P: ConfigPort>(port: &mut P, writes: &[Write]) -> Result<(), ApplyFault>
    // a port would refuse others by 41, a cause of a stop that 81 doesn't know
    requires { All IsAccessible writes.now }
    // each was read back, so what the port says it holds is what was written
    ensures { AreMadeBy (moment (P.targets port.old) (P.failures port.old))
        (map write_value writes.now) (moment (P.targets port.new) (P.failures port.new)) result }
{
    for (done, write) in writes.iter().enumerate() {
        make_one(port, *write, done)?;
    }
    Ok(())
}
