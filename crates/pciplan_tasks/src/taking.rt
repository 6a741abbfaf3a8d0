//! A dump and its probe as the words of `--model` take them.
ghost use Rattle.std.specs.Prelude.{IfOk, MatchOption};
ghost use Rattle.pciplan_tasks.specs.TakenAnswers.{AreTakenByWords};

use pci_base::memory::OutOfMemory;
use pci_dump::dump::Dump;
use pci_model::take::{TakenPair, taken_by};
use pci_model::words::Words;
use pci_tree::pair::first_difference;
use std::alloc::Allocator;

/// The two as words take them; None where they are taken as they are: there are no words, or the two list other slots.
pub fn taken<A: Allocator + Copy>(
    alloc: A,
    dump: &Dump<A>,
    probe: &Dump<A>,
    words: Option<Words>,
) -> Result<Option<TakenPair<A>>, OutOfMemory>
    ensures { IfOk result
        (λ taken. MatchOption taken (AreTakenByWords words dump.now probe.now dump.now probe.now)
        (λ t. AreTakenByWords words dump.now probe.now t.dump t.probe)) }
{
    let Some(words) = words else {
        return Ok(None);
    };
    if first_difference(dump.blocks(), probe.blocks()).is_some() {
        return Ok(None);
    }
    Ok(Some(taken_by(alloc, dump, probe, words)?))
}
