//! A function that decodes no address while it is sized (PCI 3.0, 6.2.2).
ghost use Rattle.std.specs.Prelude.{◌≡◌, ◌+◌, ℕ, IsTrue, IfOk, IfErr, OnOk, OnErr};
ghost use Rattle.pci_spec.specs.Registers as table;
ghost use Rattle.pci_spec.specs.Header.{command};
ghost use Rattle.pci_spec.specs.Machine.{written};
ghost use Rattle.pci_spec.specs.Port as ports;
ghost use Rattle.pci_spec.specs.Sizing.{function_at, quieted};
ghost use Rattle.pci_machine.specs.Failing.{Fails, FirstFailed};
ghost use Rattle.pci_machine.specs.Outcome.{failures_of_stop};

use crate::access_at::{AccessFault, read_at, write_at};
use crate::port::{ConfigPort, PortError};
use pci_base::offset::COMMAND;
use pci_base::slot::Slot;
use std::marker::Model;

/// Command has two bytes. A write of four would clear bits of Status, which stands behind it.
pub const COMMAND_WIDTH: u8 = 2;

/// The bits of Command that let a function decode I/O and memory addresses.
pub const DECODE_BITS: u16 = 0b11;

/// The old Command of a function whose decode bits were cleared. It must be spent: by putting it
/// back, or by giving it up.
pub struct Quiet {
    command: u16,
}

impl Model for Quiet {
    ghost use Rattle.std.specs.Prelude.{ℕ};

    ghost Value = { ℕ };

    ghost view = { λ q. q.command };
}

impl Quiet {
    /// Clears the decode bits of a function that is there.
    pub fn begin<P: ConfigPort>(port: &mut P, slot: Slot) -> Result<Quiet, AccessFault>
        // so a stop means that the port failed
        requires there { IsTrue (ports.has_function (P.targets port.old) slot) }
        // no two functions are at one slot, so that one image alone is written
        requires lawful { ports.IsLawful (P.targets port.old) }
        // with all its bits, as it is put back as a whole
        ensures command { IfOk result
            (λ quiet. quiet ≡ command (function_at (P.targets port.old) slot).image) }
        ensures quieted { OnOk result (P.targets port.new
            ≡ ports.with_image (P.targets port.old) slot
            (quieted (function_at (P.targets port.old) slot))) }
        ensures function { OnOk result (function_at (P.targets port.new) slot
            ≡ record (function_at (P.targets port.old) slot)
            { image = quieted (function_at (P.targets port.old) slot) }) }
        // where Command couldn't be written nothing has to be put back
        ensures kept { OnErr result (P.targets port.new ≡ P.targets port.old) }
        ensures stop { IfErr result (λ stop. stop ≡ record {
          offset = table.COMMAND;
          fault = PortError.Failed;
        }) }
        ensures failed { OnErr result
            (FirstFailed P.failures (Fails P.reads P.writes slot table.COMMAND) port.old port.new) }
        // by it a stop is told from what the function itself is refused for
        ensures counted { P.failures port.new ≡ P.failures port.old + failures_of_stop result }
        ensures there { IsTrue (ports.has_function (P.targets port.new) slot) }
        ensures lawful { ports.IsLawful (P.targets port.new) }
    {
        let command = read_at(port, slot, COMMAND, COMMAND_WIDTH)? as u16;
        write_at(
            port,
            slot,
            COMMAND,
            COMMAND_WIDTH,
            u32::from(command & !DECODE_BITS),
        )?;
        Ok(Quiet { command })
    }

    /// Puts the old Command back. Where that fails, the error has it.
    pub fn end<P: ConfigPort>(self, port: &mut P, slot: Slot) -> Result<(), (AccessFault, u16)>
        // so a stop means that the port failed
        requires there { IsTrue (ports.has_function (P.targets port.old) slot) }
        // no two functions are at one slot, so that one image alone is written
        requires lawful { ports.IsLawful (P.targets port.old) }
        // with `command` of `begin` this makes the function what it was before
        ensures written { OnOk result (P.targets port.new
            ≡ ports.with_image (P.targets port.old) slot
            (written (function_at (P.targets port.old) slot) table.COMMAND 2 self)) }
        ensures kept { OnErr result (P.targets port.new ≡ P.targets port.old) }
        ensures stop { IfErr result (λ e. (e.0 ≡ record {
          offset = table.COMMAND;
          fault = PortError.Failed;
        }) × (e.1 ≡ self)) }
        ensures failed { OnErr result
            (FirstFailed P.failures (Fails P.reads P.writes slot table.COMMAND) port.old port.new) }
        // by it a stop is told from what the function itself is refused for
        ensures counted { P.failures port.new ≡ P.failures port.old + failures_of_stop result }
        ensures lawful { ports.IsLawful (P.targets port.new) }
    {
        let Quiet { command } = self;
        match write_at(port, slot, COMMAND, COMMAND_WIDTH, u32::from(command)) {
            Ok(()) => Ok(()),
            Err(stop) => Err((stop, command)),
        }
    }

    /// The old Command, which isn't put back.
    pub fn give_up(self) -> u16
        ensures { result ≡ self }
    {
        let Quiet { command } = self;
        command
    }
}
