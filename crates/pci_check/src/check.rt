//! The verdict on an admitted dump and its probe.
ghost use Rattle.std.specs.Prelude.{IfOk};
ghost use Rattle.pci_check.specs.Verdicts.{IsVerdictOf};

use super::judge::judge;
use super::verdict::{Sound, Verdict};
use pci_base::memory::OutOfMemory;
use pci_tree::admitted::Admitted;
use std::alloc::Allocator;

/// Yes exactly where the system is sound; else no, with the first of its faults 60, 61 and 62.
pub fn check<'a, A: Allocator + Copy>(
    alloc: A,
    admitted: &'a Admitted<A>,
) -> Result<Verdict<'a, A>, OutOfMemory>
    ensures { IfOk result (λ v. IsVerdictOf admitted.entry.now v) }
{
    match judge(alloc, admitted.outline())? {
        Some(fault) => Ok(Verdict::No(fault)),
        None => Ok(Verdict::Yes(Sound::of(admitted))),
    }
}
