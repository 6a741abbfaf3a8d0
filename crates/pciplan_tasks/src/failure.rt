//! Why there is no answer: the messages on standard error, and their statuses.
ghost use Rattle.std.specs.Prelude.{◌≡◌};
ghost use Rattle.pciplan_tasks.specs.Statuses.{status_of};
ghost use Rattle.pciplan_tasks.specs.declared.failure.Failure.{Failure};

use pci_base::memory::OutOfMemory;
use pci_base::space::Space;
use pci_dump::read_fault::ReadFault;
use pci_dump::streams::Sink;
use pci_dump::write::write_all;
use std::alloc::AllocError;
use std::fmt::{self, Write};

/// The option that names the pool or the list of a class.
#[derive(Clone, Copy, Debug, PartialEq, Eq)]
pub enum PoolOption {
    Io,
    Mem,
    Pref,
}

/// Why a command line isn't carried out.
#[derive(Clone, Copy, Debug, PartialEq, Eq)]
pub enum Failure {
    /// The words are no command line, or name two options that exclude each other: `--exact` and `--least`.
    Usage,
    /// The list of root buses is none.
    Root,
    /// The list of words by which functions are taken is none.
    Model,
    /// The list of what the host sends to its root buses in a space is none, or none that it can send.
    Host(Space),
    /// The word of an option's pool or list is none.
    Pool(PoolOption),
    /// The list of slots whose functions may not be written is none.
    Fixed,
    /// The word of what is wanted behind hot-plug slots is none.
    Spare,
    /// The list of bridges that have such a slot is none.
    Slots,
    /// The text of the dump has a fault, or can't be read.
    Dump(ReadFault),
    /// The text of the probe has a fault, or can't be read.
    Probe(ReadFault),
    /// The text of the sizes has a fault, or can't be read.
    Sizes(ReadFault),
    /// The text of told ranges has a fault, or can't be read.
    Also(ReadFault),
    /// 2: a growth was refused.
    Memory,
    /// 10: standard output failed.
    Io,
}

/// The message without the program's name, as `dump: 5 BadLine 17`.
impl fmt::Display for Failure {
    fn fmt<W: fmt::Write>(&self, f: &mut fmt::Formatter<W>) -> fmt::Result {
        match self {
            Failure::Usage => write!(f, "usage"),
            Failure::Root => write!(f, "root"),
            Failure::Model => write!(f, "model"),
            Failure::Host(Space::Io) => write!(f, "host --host-io"),
            Failure::Host(Space::Mem) => write!(f, "host --host-mem"),
            Failure::Pool(PoolOption::Io) => write!(f, "pool --io"),
            Failure::Pool(PoolOption::Mem) => write!(f, "pool --mem"),
            Failure::Pool(PoolOption::Pref) => write!(f, "pool --pref"),
            Failure::Fixed => write!(f, "fixed"),
            Failure::Spare => write!(f, "spare"),
            Failure::Slots => write!(f, "slots"),
            Failure::Dump(ReadFault::Memory)
            | Failure::Probe(ReadFault::Memory)
            | Failure::Sizes(ReadFault::Memory)
            | Failure::Also(ReadFault::Memory)
            | Failure::Memory => write!(f, "2 Memory"),
            Failure::Dump(fault) => write!(f, "dump: {fault}"),
            Failure::Probe(fault) => write!(f, "probe: {fault}"),
            Failure::Sizes(fault) => write!(f, "sizes: {fault}"),
            Failure::Also(fault) => write!(f, "also: {fault}"),
            Failure::Io => write!(f, "10 Io"),
        }
    }
}

impl Failure {
    /// The status that the program ends with: 2 where a text or the words are refused, 3 at want of
    /// memory, 4 where reading or writing failed.
    pub fn status(self) -> u8
        ensures { result ≡ status_of self }
    {
        match self {
            Failure::Usage | Failure::Root | Failure::Model => 2,
            Failure::Host(_) | Failure::Pool(_) | Failure::Fixed => 2,
            Failure::Spare | Failure::Slots => 2,
            Failure::Dump(fault)
            | Failure::Probe(fault)
            | Failure::Sizes(fault)
            | Failure::Also(fault) => match fault {
                ReadFault::Io => 4,
                ReadFault::Memory => 3,
                _ => 2,
            },
            Failure::Memory => 3,
            Failure::Io => 4,
        }
    }
}

impl From<OutOfMemory> for Failure {
    ghost from_gives = { λ _ failure. failure ≡ Failure.Memory };

    fn from(_refused: OutOfMemory) -> Failure {
        Failure::Memory
    }
}

impl From<AllocError> for Failure {
    ghost from_gives = { λ _ failure. failure ≡ Failure.Memory };

    fn from(_error: AllocError) -> Failure {
        Failure::Memory
    }
}

/// A sink that text is written to.
#[derive(Drop)]
struct Messages<'a, K> {
    sink: &'a mut K,
}

impl<K: Sink> fmt::Write for Messages<'_, K> {
    fn write_str(&mut self, s: &str) -> fmt::Result {
        match write_all(self.sink, s.as_bytes()) {
            Ok(()) => Ok(()),
            Err(_) => Err(fmt::Error),
        }
    }
}

/// Writes the message to `err`, and answers the status. A sink that fails changes no status.
pub fn report<K: Sink>(err: &mut K, failure: Failure) -> u8
    // also where the message couldn't be written
    ensures { result ≡ status_of failure }
{
    let mut messages = Messages { sink: err };
    let _ = writeln!(messages, "pciplan: {failure}");
    failure.status()
}
