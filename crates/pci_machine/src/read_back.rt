//! What one register reads back after ones were written to it.
ghost use Rattle.std.specs.Prelude.{◌≡◌, ◌+◌, ◌&&◌, ℕ, List, IsTrue, IfOk, IfErr, OnOk, OnErr};
ghost use Rattle.pci_spec.specs.Number.{number_at};
ghost use Rattle.pci_spec.specs.Machine.{written};
ghost use Rattle.pci_spec.specs.Port as ports;
ghost use Rattle.pci_spec.specs.Sizing.{function_at, IsPlain, DiffersWithin};
ghost use Rattle.pci_machine.specs.Failing.{Fails, FirstFailed};
ghost use Rattle.pci_machine.specs.Outcome.{failures_of_stop};

use crate::access_at::{AccessFault, read_at, write_at};
use crate::port::{ConfigPort, PortError};
use pci_base::slot::Slot;

/// Writes ones to a register, reads what they leave and puts the old value back.
pub fn read_back<P: ConfigPort>(
    port: &mut P,
    slot: Slot,
    off: u8,
    width: u8,
    ones: u32,
) -> Result<u32, AccessFault>
    // so a stop means that the port failed
    requires there { IsTrue (ports.has_function (P.targets port.old) slot) }
    // a port would refuse another access
    requires access { IsTrue (ports.is_access off width && ports.fits width ones) }
    // no two functions are at one slot, so that one image alone is written
    requires lawful { ports.IsLawful (P.targets port.old) }
    // in a status register ones would clear what no write could set again
    requires plain { IsPlain (function_at (P.targets port.old) slot) off width }
    ensures value { IfOk result (λ value. value
        ≡ number_at (written (function_at (P.targets port.old) slot) off width ones) off width) }
    ensures fits { IfOk result (λ value. IsTrue (ports.fits width value)) }
    ensures kept { OnOk result (P.targets port.new ≡ P.targets port.old) }
    ensures stop { IfErr result (λ stop. stop ≡ record { offset = off; fault = PortError.Failed }) }
    ensures failed { OnErr result
        (FirstFailed P.failures (Fails P.reads P.writes slot off) port.old port.new) }
    // ones may stand in the register then, but nothing else is touched
    ensures left { OnErr result
        ((image : List ℕ) × (P.targets port.new ≡ ports.with_image (P.targets port.old) slot image)
        × DiffersWithin off width (function_at (P.targets port.old) slot).image image) }
    // by it a stop is told from what the function itself is refused for
    ensures counted { P.failures port.new ≡ P.failures port.old + failures_of_stop result }
    ensures there { IsTrue (ports.has_function (P.targets port.new) slot) }
    ensures lawful { ports.IsLawful (P.targets port.new) }
{
    let value = read_at(port, slot, off, width)?;
    write_at(port, slot, off, width, ones)?;
    let found = read_at(port, slot, off, width)?;
    write_at(port, slot, off, width, value)?;
    Ok(found)
}
