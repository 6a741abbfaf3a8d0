//! A port that counts accesses.

use pci_base::slot::Slot;
use pci_machine::port::{ConfigPort, PortError};

/// A port, with how many reads and writes it was asked for that it didn't refuse by 40 or 41.
#[derive(Drop)]
pub struct Counting<P> {
    port: P,
    pub reads: u64,
    pub writes: u64,
}

impl<P: ConfigPort> Counting<P> {
    pub fn new(port: P) -> Counting<P> {
        Counting {
            port,
            reads: 0,
            writes: 0,
        }
    }

    /// The port itself.
    pub fn into_inner(self) -> P {
        let Counting {
            port,
            reads: _,
            writes: _,
        } = self;
        port
    }
}

impl<P: ConfigPort> ConfigPort for Counting<P> {
    ghost targets = { λ s. P.targets s.port };

    ghost failures = { λ s. P.failures s.port };

    ghost reads = { λ before slot offset width answer after.
        P.reads before.port slot offset width answer after.port };

    ghost writes = { λ before write answer after. P.writes before.port write answer after.port };

    fn read(&mut self, slot: Slot, off: u8, width: u8) -> Result<u32, PortError> {
        let answer = self.port.read(slot, off, width);
        match answer {
            Err(PortError::NoFunction | PortError::BadAccess) => {}
            Ok(_) | Err(PortError::Failed) => self.reads = self.reads.saturating_add(1),
        }
        answer
    }

    fn write(&mut self, slot: Slot, off: u8, width: u8, value: u32) -> Result<(), PortError> {
        let answer = self.port.write(slot, off, width, value);
        match answer {
            Err(PortError::NoFunction | PortError::BadAccess) => {}
            Ok(_) | Err(PortError::Failed) => self.writes = self.writes.saturating_add(1),
        }
        answer
    }
}
