//! The texts of `explain` and `version`.
ghost use Rattle.std.specs.Prelude.{◌≡◌, ◌⊎◌, ◌≤◌, ◌+◌, ℕ, List, map, MatchOption, MatchResult};
ghost use Rattle.pciplan_tasks.specs.declared.failure.Failure.{Failure};
ghost use Rattle.pciplan_front.specs.TextAsked.{AskForNoText, IsTextAsked, IsFurtherText, IsTextCommand};
ghost use Rattle.pciplan_front.specs.Went.{went};

use super::explain::{all, explanation, version};
use pci_dump::streams::Sink;
use pci_dump::write::write_all;
use pciplan_tasks::failure::{Failure, report};
use pciplan_words::asked::WordsFault;
use pciplan_words::further::{Further, further_given};
use std::alloc::Global;

/// The text that is asked for; None where nothing is explained by the word, or something else is asked for.
#[tactic(auto, using(crate::proofs::Texts::explained))]
fn text_of(asked: &Further<'_>) -> Option<&'static str>
    ensures { MatchOption result ((text : List ℕ) → IsFurtherText asked.now text → ⊥)
        (λ text. IsFurtherText asked.now text.now) }
{
    match asked {
        Further::Explain { word: None } => Some(all()),
        Further::Explain { word: Some(word) } => explanation(word),
        Further::Version => Some(version()),
        Further::Here(_) => None,
    }
}

/// The text that the words ask for.
fn text_asked(alloc: Global, words: &[&str]) -> Result<&'static str, Failure>
    ensures { MatchResult result (λ text. IsTextAsked (map (λ w. w.now) words.now) text.now)
        (λ failure. (failure ≡ Failure.Memory)
        ⊎ ((failure ≡ Failure.Usage) × AskForNoText (map (λ w. w.now) words.now))) }
{
    match further_given(alloc, words) {
        Ok(asked) => text_of(&asked).ok_or(Failure::Usage),
        Err(WordsFault::Usage) => Err(Failure::Usage),
        Err(WordsFault::Memory) => Err(Failure::Memory),
    }
}

/// Writes the text that the words ask for to `out`, or a message to `err`, and answers the status: 0 where the text was
/// written; 2 where the words ask for none; 3 at want of memory; 4 where a write failed.
pub fn tell<O: Sink, E: Sink>(alloc: Global, words: &[&str], out: &mut O, err: &mut E) -> u8
    ensures told { IsTextCommand (map (λ w. w.now) words.now) result
        (went (O.taken out.old) (O.taken out.new) (out.new ≡ out.old)
        (O.failures out.new ≡ O.failures out.old + 1)) }
    ensures known { result ≤ 4 }
{
    match text_asked(alloc, words) {
        Ok(text) => match write_all(out, text.as_bytes()) {
            Ok(()) => 0,
            Err(_) => report(err, Failure::Io),
        },
        Err(failure) => report(err, failure),
    }
}
