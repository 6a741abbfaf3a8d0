//! Want of memory, and faults beside it.
ghost use Rattle.std.specs.Prelude.{◌≡◌};

use std::alloc::{AllocError, AllocFailed};

/// The number of want of memory, everywhere.
pub const MEMORY_NUMBER: u8 = 2;

/// A growth was refused.
#[derive(Clone, Copy, Debug, PartialEq, Eq)]
pub struct OutOfMemory;

impl OutOfMemory {
    /// 2, everywhere.
    pub fn number(self) -> u8
        ensures { result ≡ 2 }
    {
        MEMORY_NUMBER
    }
}

impl<T: Drop> From<AllocFailed<T>> for OutOfMemory {
    fn from(_failed: AllocFailed<T>) -> OutOfMemory {
        OutOfMemory
    }
}

impl From<AllocError> for OutOfMemory {
    fn from(_error: AllocError) -> OutOfMemory {
        OutOfMemory
    }
}

/// A fault, or a growth was refused.
#[derive(Clone, Copy, Debug, PartialEq, Eq)]
pub enum Refused<F> {
    /// What is wrong with what was handed in.
    Fault(F),
    /// 2: a growth was refused.
    Memory,
}

impl<F, T: Drop> From<AllocFailed<T>> for Refused<F> {
    ghost use Rattle.pci_base.specs.declared.memory.Refused.TheVariants.{Memory};

    ghost from_gives = { λ _ e. e ≡ Memory };

    fn from(_failed: AllocFailed<T>) -> Refused<F> {
        Refused::Memory
    }
}

impl<F> From<AllocError> for Refused<F> {
    ghost use Rattle.pci_base.specs.declared.memory.Refused.TheVariants.{Memory};

    ghost from_gives = { λ _ e. e ≡ Memory };

    fn from(_error: AllocError) -> Refused<F> {
        Refused::Memory
    }
}

impl<F> From<OutOfMemory> for Refused<F> {
    ghost use Rattle.pci_base.specs.declared.memory.Refused.TheVariants.{Memory};

    ghost from_gives = { λ _ e. e ≡ Memory };

    fn from(_refused: OutOfMemory) -> Refused<F> {
        Refused::Memory
    }
}
