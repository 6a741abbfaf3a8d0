//! Why a machine can't be read.
ghost use Rattle.std.specs.Prelude.{◌≡◌, None};

use crate::place::Place;
use pci_base::memory::{OutOfMemory, Refused};
use pci_dump::dump::PushFault;
use std::alloc::{AllocError, AllocFailed};
use std::fmt;
use thiserror::Error;

/// Why a machine or a function of it can't be read.
#[derive(Clone, Copy, Debug, PartialEq, Eq, Error)]
pub enum Trouble {
    /// A growth was refused.
    Memory,
    /// A folder or a file can't be read, or there is no function.
    Unread,
    /// The configuration space shown has less than 256 bytes, or the file `resource` doesn't begin with seven lines.
    Short,
    /// No host bus is in the path of the function.
    NoRoot,
    /// The domain has more than 4,096 functions, or two names tell one place.
    TooMany,
}

impl Trouble {
    ghost use Rattle.pci_here.specs.Trouble.{trouble_status};

    /// The status of the program: 3 for `Memory`, 4 for `Unread`, 2 for the others.
    pub fn status(self) -> u8
        ensures { result ≡ trouble_status self }
    {
        match self {
            Trouble::Memory => 3,
            Trouble::Unread => 4,
            Trouble::Short | Trouble::NoRoot | Trouble::TooMany => 2,
        }
    }
}

/// The number and the name that the fault has in a text, or what is missing.
impl fmt::Display for Trouble {
    ghost use Rattle.std.specs.Prelude.{Some};
    ghost use Rattle.pci_here.specs.Trouble.{trouble_text};

    ghost output = { λ t. Some (trouble_text t) };

    fn fmt<W: fmt::Write>(&self, f: &mut fmt::Formatter<W>) -> fmt::Result {
        match *self {
            Trouble::Memory => write!(f, "2 Memory"),
            Trouble::Unread => write!(f, "1 Io"),
            Trouble::Short => write!(f, "short"),
            Trouble::NoRoot => write!(f, "no host bus"),
            Trouble::TooMany => write!(f, "8 TooMany"),
        }
    }
}

impl<T: Drop> From<AllocFailed<T>> for Trouble {
    ghost use Rattle.pci_here.specs.declared.trouble.Trouble.TheVariants.{Memory};

    ghost from_gives = { λ _ t. t ≡ Memory };

    fn from(_failed: AllocFailed<T>) -> Trouble {
        Trouble::Memory
    }
}

impl From<AllocError> for Trouble {
    ghost use Rattle.pci_here.specs.declared.trouble.Trouble.TheVariants.{Memory};

    ghost from_gives = { λ _ t. t ≡ Memory };

    fn from(_error: AllocError) -> Trouble {
        Trouble::Memory
    }
}

impl From<OutOfMemory> for Trouble {
    ghost use Rattle.pci_here.specs.declared.trouble.Trouble.TheVariants.{Memory};

    ghost from_gives = { λ _ t. t ≡ Memory };

    fn from(_refused: OutOfMemory) -> Trouble {
        Trouble::Memory
    }
}

/// A list of functions that takes no more is full, or the function doesn't stand behind those that are there.
impl From<Refused<PushFault>> for Trouble {
    ghost use Rattle.pci_here.specs.Trouble.{full_trouble};

    ghost from_gives = { λ refused t. t ≡ full_trouble refused };

    fn from(refused: Refused<PushFault>) -> Trouble {
        match refused {
            Refused::Fault(_) => Trouble::TooMany,
            Refused::Memory => Trouble::Memory,
        }
    }
}

/// Why a domain can't be read, and the function where it is one's.
#[derive(Clone, Copy, Debug, PartialEq, Eq, Error)]
pub struct TroubleAt {
    pub trouble: Trouble,
    pub place: Option<Place>,
}

impl TroubleAt {
    /// A trouble of no function.
    pub fn of_all(trouble: Trouble) -> TroubleAt
        ensures trouble { result.trouble ≡ trouble }
        ensures place { result.place ≡ None }
    {
        TroubleAt {
            trouble,
            place: None,
        }
    }
}

/// The trouble, and the function where there is one, as in `short 0000:00:1f.0`.
impl fmt::Display for TroubleAt {
    ghost use Rattle.std.specs.Prelude.{Some};
    ghost use Rattle.pci_here.specs.Trouble.{trouble_at_text};

    ghost output = { λ t. Some (trouble_at_text t) };

    fn fmt<W: fmt::Write>(&self, f: &mut fmt::Formatter<W>) -> fmt::Result {
        let trouble = self.trouble;
        match self.place {
            None => write!(f, "{trouble}"),
            Some(place) => write!(f, "{trouble} {place}"),
        }
    }
}
