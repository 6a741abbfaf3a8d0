//! Accesses to a function that is there.
ghost use Rattle.std.specs.Prelude.{◌≡◌, ◌+◌, ◌&&◌, IsTrue, IfOk, IfErr, OnOk, OnErr};
ghost use Rattle.pci_spec.specs.Number.{number_at};
ghost use Rattle.pci_spec.specs.Machine.{written};
ghost use Rattle.pci_spec.specs.Port as ports;
ghost use Rattle.pci_spec.specs.Sizing.{function_at};
ghost use Rattle.pci_machine.specs.Failing.{Fails, FirstFailed};
ghost use Rattle.pci_machine.specs.Outcome.{failures_of_stop};

use crate::port::{ConfigPort, PortError};
use pci_base::slot::Slot;

/// An access that failed: the offset that it was made at, and why.
#[derive(Clone, Copy)]
pub struct AccessFault {
    pub offset: u8,
    pub fault: PortError,
}

/// Reads a number of a function that is there.
pub fn read_at<P: ConfigPort>(
    port: &mut P,
    slot: Slot,
    off: u8,
    width: u8,
) -> Result<u32, AccessFault>
    // without it 40 could come, and a stop wouldn't mean that the port failed
    requires there { IsTrue (ports.has_function (P.targets port.old) slot) }
    // else 41 could come, and a stop wouldn't mean that the port failed
    requires lawful { IsTrue (ports.is_access off width) }
    ensures value { IfOk result
        (λ value. value ≡ number_at (function_at (P.targets port.old) slot).image off width) }
    // so that what was read can be written back
    ensures fits { IfOk result (λ value. IsTrue (ports.fits width value)) }
    ensures stop { IfErr result (λ stop. stop ≡ record { offset = off; fault = PortError.Failed }) }
    ensures failed { OnErr result
        (FirstFailed P.failures (Fails P.reads P.writes slot off) port.old port.new) }
    // by it a stop is told from what the function itself is refused for
    ensures counted { P.failures port.new ≡ P.failures port.old + failures_of_stop result }
    // no configuration register changes by being read
    ensures same { P.targets port.new ≡ P.targets port.old }
    ensures there { IsTrue (ports.has_function (P.targets port.new) slot) }
    ensures lawful { ports.IsLawful (P.targets port.new) }
{
    match port.read(slot, off, width) {
        Ok(value) => Ok(value),
        Err(fault) => Err(AccessFault { offset: off, fault }),
    }
}

/// Writes a number to a function that is there.
pub fn write_at<P: ConfigPort>(
    port: &mut P,
    slot: Slot,
    off: u8,
    width: u8,
    value: u32,
) -> Result<(), AccessFault>
    // else 40 could come, and a stop wouldn't mean that the port failed
    requires there { IsTrue (ports.has_function (P.targets port.old) slot) }
    // else 41 could come
    requires lawful { IsTrue (ports.is_access off width && ports.fits width value) }
    // no two functions are at one slot, so that one image alone is written
    requires targets { ports.IsLawful (P.targets port.old) }
    ensures written { OnOk result (P.targets port.new
        ≡ ports.with_image (P.targets port.old) slot
        (written (function_at (P.targets port.old) slot) off width value)) }
    ensures function { OnOk result (function_at (P.targets port.new) slot
        ≡ record (function_at (P.targets port.old) slot)
        { image = written (function_at (P.targets port.old) slot) off width value }) }
    ensures kept { OnErr result (P.targets port.new ≡ P.targets port.old) }
    ensures stop { IfErr result (λ stop. stop ≡ record { offset = off; fault = PortError.Failed }) }
    ensures failed { OnErr result
        (FirstFailed P.failures (Fails P.reads P.writes slot off) port.old port.new) }
    // by it a stop is told from what the function itself is refused for
    ensures counted { P.failures port.new ≡ P.failures port.old + failures_of_stop result }
    ensures there { IsTrue (ports.has_function (P.targets port.new) slot) }
    ensures lawful { ports.IsLawful (P.targets port.new) }
{
    match port.write(slot, off, width, value) {
        Ok(()) => Ok(()),
        Err(fault) => Err(AccessFault { offset: off, fault }),
    }
}
