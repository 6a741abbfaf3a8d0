//! Why two texts aren't admitted.
ghost use Rattle.std.specs.Prelude.{◌≡◌, Some};

use crate::refusal::Refusal;
use pci_function::fault::Fault;
use std::fmt;

/// Why two texts aren't admitted with a list of root buses.
#[derive(Clone, Copy, Debug, PartialEq, Eq)]
pub enum Unread {
    /// One of the texts is none, or the list of root buses is none.
    Refused(Refusal),
    /// The texts have this fault, which is looked for before judging.
    NotAdmitted(Fault),
}

impl Unread {
    ghost use Rattle.pciplan_c.specs.Texts.{unread_line, unread_status};

    /// 1 where the texts have a fault, 2 where they are refused.
    pub fn status(self) -> u8
        ensures { result ≡ unread_status self }
    {
        match self {
            Unread::Refused(_) => 2,
            Unread::NotAdmitted(_) => 1,
        }
    }

    /// The line of a text that it names, or 0 where it names none.
    pub fn line(self) -> u64
        ensures { result ≡ unread_line self }
    {
        match self {
            Unread::Refused(refusal) => refusal.line(),
            Unread::NotAdmitted(_) => 0,
        }
    }
}

/// The line `no ..` of a fault, or the message of a refusal.
impl fmt::Display for Unread {
    ghost use Rattle.pciplan_c.specs.Texts.{unread_text};

    ghost output = { λ u. Some (unread_text u) };

    fn fmt<W: fmt::Write>(&self, f: &mut fmt::Formatter<W>) -> fmt::Result {
        match *self {
            Unread::Refused(refusal) => write!(f, "{refusal}"),
            Unread::NotAdmitted(fault) => write!(f, "no {fault}\n"),
        }
    }
}
