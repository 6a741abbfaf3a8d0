//! Why two texts are refused.
ghost use Rattle.std.specs.Prelude.{◌≡◌, Some};
ghost use Rattle.pciplan_c.specs.Refusals.{read_fault_line};

use pci_dump::read_fault::ReadFault;
use std::fmt;

/// Why two texts and a list of root buses are refused.
#[derive(Clone, Copy, Debug, PartialEq, Eq)]
pub enum Refusal {
    /// The list is empty or doesn't rise.
    Root,
    /// The dump's text has this fault.
    Dump(ReadFault),
    /// The probe's text has this fault, and the dump's is a text.
    Probe(ReadFault),
}

/// The line that a fault of a text names, or 0 where it names none.
fn line_of(fault: ReadFault) -> u64
    ensures { result ≡ read_fault_line fault }
{
    match fault {
        ReadFault::Io => 0,
        ReadFault::Memory => 0,
        ReadFault::BadSlot(line) => line,
        ReadFault::BadTitle(line) => line,
        ReadFault::BadLine(line) => line,
        ReadFault::NoBlank(line) => line,
        ReadFault::Order(line) => line,
        ReadFault::TooMany(line) => line,
        ReadFault::Ended(line) => line,
    }
}

impl Refusal {
    ghost use Rattle.pciplan_c.specs.Refusals.{refusal_line};

    /// The line of a text that it names, or 0 where it names none.
    pub fn line(self) -> u64
        ensures { result ≡ refusal_line self }
    {
        match self {
            Refusal::Root => 0,
            Refusal::Dump(fault) => line_of(fault),
            Refusal::Probe(fault) => line_of(fault),
        }
    }
}

/// The message, as `dump: 5 BadLine 17`.
impl fmt::Display for Refusal {
    ghost use Rattle.pciplan_c.specs.Refusals.{refusal_text};

    ghost output = { λ r. Some (refusal_text r) };

    fn fmt<W: fmt::Write>(&self, f: &mut fmt::Formatter<W>) -> fmt::Result {
        match *self {
            Refusal::Root => write!(f, "root"),
            Refusal::Dump(fault) => write!(f, "dump: {fault}"),
            Refusal::Probe(fault) => write!(f, "probe: {fault}"),
        }
    }
}
