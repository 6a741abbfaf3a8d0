//! Why reading or writing a text stopped.
ghost use Rattle.std.specs.Prelude.{◌≡◌, Some, codes};

use std::fmt;
use thiserror::Error;

/// Why a text is refused: what is wrong, and of 3 to 9 the line of the text, counted from 1.
#[derive(Clone, Copy, Debug, PartialEq, Eq, Error)]
pub enum ReadFault {
    /// 1: a read failed.
    Io,
    /// 2: a growth was refused.
    Memory,
    /// 3: a byte isn't one of the first eight of a slot line.
    BadSlot(u64),
    /// 4: a later byte of a slot line is wrong.
    BadTitle(u64),
    /// 5: a byte of a byte line is wrong.
    BadLine(u64),
    /// 6: the line after the byte lines isn't empty.
    NoBlank(u64),
    /// 7: a slot isn't above the one before it.
    Order(u64),
    /// 8: bytes follow 4,096 blocks.
    TooMany(u64),
    /// 9: the text ends within a block.
    Ended(u64),
}

impl ReadFault {
    ghost use Rattle.pci_dump.specs.ReadFault.{read_fault_number};

    /// The fault's number, 1 to 9.
    pub fn number(self) -> u8
        ensures { result ≡ read_fault_number self }
    {
        match self {
            ReadFault::Io => 1,
            ReadFault::Memory => 2,
            ReadFault::BadSlot(_) => 3,
            ReadFault::BadTitle(_) => 4,
            ReadFault::BadLine(_) => 5,
            ReadFault::NoBlank(_) => 6,
            ReadFault::Order(_) => 7,
            ReadFault::TooMany(_) => 8,
            ReadFault::Ended(_) => 9,
        }
    }
}

/// The fault's number, its name and its line, as in `5 BadLine 17`.
impl fmt::Display for ReadFault {
    ghost use Rattle.pci_dump.specs.ReadFault.{read_fault_text};

    ghost output = { λ f. Some (read_fault_text f) };

    fn fmt<W: fmt::Write>(&self, f: &mut fmt::Formatter<W>) -> fmt::Result {
        match *self {
            ReadFault::Io => write!(f, "1 Io"),
            ReadFault::Memory => write!(f, "2 Memory"),
            ReadFault::BadSlot(line) => write!(f, "3 BadSlot {line}"),
            ReadFault::BadTitle(line) => write!(f, "4 BadTitle {line}"),
            ReadFault::BadLine(line) => write!(f, "5 BadLine {line}"),
            ReadFault::NoBlank(line) => write!(f, "6 NoBlank {line}"),
            ReadFault::Order(line) => write!(f, "7 Order {line}"),
            ReadFault::TooMany(line) => write!(f, "8 TooMany {line}"),
            ReadFault::Ended(line) => write!(f, "9 Ended {line}"),
        }
    }
}

/// Why a text couldn't be written.
#[derive(Clone, Copy, Debug, PartialEq, Eq, Error)]
pub enum WriteFault {
    /// 10: a write failed.
    Io,
}

impl WriteFault {
    /// 10.
    pub fn number(self) -> u8
        ensures { result ≡ 10 }
    {
        match self {
            WriteFault::Io => 10,
        }
    }
}

/// The fault's number and its name.
impl fmt::Display for WriteFault {
    ghost output = { λ _. Some (codes "10 Io") };

    fn fmt<W: fmt::Write>(&self, f: &mut fmt::Formatter<W>) -> fmt::Result {
        match *self {
            WriteFault::Io => write!(f, "10 Io"),
        }
    }
}
