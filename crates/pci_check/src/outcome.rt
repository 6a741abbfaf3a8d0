//! What an audit answers.
ghost use Rattle.std.specs.Prelude.{◌≡◌};
ghost use Rattle.pci_check.specs.AuditFault.{audit_fault_number};

use pci_base::memory::{MEMORY_NUMBER, OutOfMemory};
use pci_dump::read_fault::{ReadFault, WriteFault};
use pci_function::fault::Fault;

/// The verdict on two texts.
#[derive(Clone, Copy, Debug, PartialEq, Eq)]
pub enum Outcome {
    /// The system that they make is sound.
    Yes,
    /// It isn't, and this fault is there.
    No(Fault),
}

/// Why there is no verdict.
#[derive(Clone, Copy, Debug, PartialEq, Eq)]
pub enum AuditFault {
    /// 1, or 3 to 9: the dump's text is refused. Nothing was written.
    Dump(ReadFault),
    /// 1, or 3 to 9: the probe's text is refused, and the dump's isn't. Nothing was written.
    Probe(ReadFault),
    /// 2: a growth was refused. Nothing was written.
    Memory,
    /// 10: a write failed. A beginning of the line was written.
    Write,
}

impl From<OutOfMemory> for AuditFault {
    ghost use Rattle.pci_check.specs.declared.outcome.AuditFault.TheVariants.{Memory};

    ghost from_gives = { λ _ e. e ≡ Memory };

    fn from(_refused: OutOfMemory) -> AuditFault {
        AuditFault::Memory
    }
}

impl AuditFault {
    /// The fault's number: 1 to 9 of a text, 2 of memory, 10 of a write.
    pub fn number(self) -> u8
        ensures { result ≡ audit_fault_number self }
    {
        match self {
            AuditFault::Dump(fault) | AuditFault::Probe(fault) => fault.number(),
            AuditFault::Memory => MEMORY_NUMBER,
            AuditFault::Write => WriteFault::Io.number(),
        }
    }
}
