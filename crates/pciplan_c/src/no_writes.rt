//! Why there are no writes.
ghost use Rattle.std.specs.Prelude.{◌≡◌, Some};
ghost use Rattle.pciplan_c.specs.NoWrites.{settle_fault_numbers};

use crate::answer::ROOT_MESSAGE;
use crate::refusal::Refusal;
use crate::settle_words::SettleWord;
use crate::unread::Unread;
use crate::unready::Unready;
use pci_dump::read_fault::ReadFault;
use pci_plan::plan_fault::PlanFault;
use pci_settle::lack::SettleFault;
use std::fmt;

/// Why there are no writes, of a plan or of settling.
#[derive(Clone, Copy, Debug, PartialEq, Eq)]
pub enum NoWrites {
    /// This word of settling has no meaning.
    BadWord(SettleWord),
    /// The texts aren't admitted.
    Unread(Unread),
    /// The text of ranges that are told beside them has this fault.
    Also(ReadFault),
    /// All three are texts, and with what is told this fault is there before judging.
    NotReady(Unready),
    /// They are, and have this fault of planning.
    NotPlanned(PlanFault),
    /// They are, and have this fault of settling.
    NotSettled(SettleFault),
}

/// The size and the alignment of what has no room, or the line of a told range; 0 where a fault names none.
fn sizes_of(fault: SettleFault) -> (u64, u64)
    ensures { result ≡ settle_fault_numbers fault }
{
    match fault {
        SettleFault::BadLists => (0, 0),
        SettleFault::Assumed { slot: _, reg: _ } => (0, 0),
        SettleFault::NoRoom(lack) => (lack.size, lack.alignment),
        SettleFault::TooLarge { class: _, slot: _ } => (0, 0),
        SettleFault::Fixed { slot: _, reg: _ } => (0, 0),
        SettleFault::Told { slot: _, line } => (u64::from(line), 0),
    }
}

impl NoWrites {
    ghost use Rattle.std.specs.Prelude.{MatchOption};
    ghost use Rattle.pciplan_c.specs.NoWrites.{IsMade, no_writes_numbers, no_writes_status, no_writes_text};

    /// 1 where the texts, their plan or their settling have a fault, 2 where they or a word are refused.
    pub fn status(self) -> u8
        ensures { result ≡ no_writes_status self }
    {
        match self {
            NoWrites::BadWord(_) => 2,
            NoWrites::Unread(unread) => unread.status(),
            NoWrites::Also(_) => 2,
            NoWrites::NotReady(_) => 1,
            NoWrites::NotPlanned(_) => 1,
            NoWrites::NotSettled(_) => 1,
        }
    }

    /// The line of a text that it names, or the size and the alignment of what has no room; 0 where it names none.
    pub fn numbers(self) -> (u64, u64)
        ensures { result ≡ no_writes_numbers self }
    {
        match self {
            NoWrites::BadWord(_) => (0, 0),
            NoWrites::Unread(unread) => (unread.line(), 0),
            // a text of ranges has the faults of a dump's
            NoWrites::Also(fault) => (Refusal::Dump(fault).line(), 0),
            NoWrites::NotReady(_) => (0, 0),
            NoWrites::NotPlanned(_) => (0, 0),
            NoWrites::NotSettled(fault) => sizes_of(fault),
        }
    }

    /// The message, where it is a constant text: of a word, and of the list of root buses.
    pub fn constant_text(self) -> Option<&'static str>
        ensures { MatchOption result (IsMade self) (λ text. text.now ≡ no_writes_text self) }
    {
        match self {
            NoWrites::BadWord(word) => Some(word.message()),
            NoWrites::Unread(Unread::Refused(Refusal::Root)) => Some(ROOT_MESSAGE),
            NoWrites::Unread(_)
            | NoWrites::Also(_)
            | NoWrites::NotReady(_)
            | NoWrites::NotPlanned(_)
            | NoWrites::NotSettled(_) => None,
        }
    }
}

/// The line `no ..` of a fault, or the message of a refusal.
impl fmt::Display for NoWrites {
    ghost use Rattle.pciplan_c.specs.NoWrites.{no_writes_text};

    ghost output = { λ n. Some (no_writes_text n) };

    fn fmt<W: fmt::Write>(&self, f: &mut fmt::Formatter<W>) -> fmt::Result {
        match *self {
            NoWrites::BadWord(word) => write!(f, "{word}"),
            NoWrites::Unread(unread) => write!(f, "{unread}"),
            NoWrites::Also(fault) => write!(f, "also: {fault}"),
            NoWrites::NotReady(why) => write!(f, "no {why}\n"),
            NoWrites::NotPlanned(fault) => write!(f, "no {fault}\n"),
            NoWrites::NotSettled(fault) => write!(f, "no {fault}\n"),
        }
    }
}
