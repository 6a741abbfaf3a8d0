//! What `here` is asked for.
ghost use Rattle.std.specs.Prelude.{◌≡◌, ◌⊎◌, ℕ, Option, map, MatchOption, MatchResult};
ghost use Rattle.pciplan_tasks.specs.declared.failure.Failure.{Failure};
ghost use Rattle.pciplan_front.specs.HereAsked.{AskForNothing, IsDomainOf, IsHereAsked, IsPathOf, IsSaidBy, IsWhatOf, SayNothing, folder_of};
ghost use Rattle.pciplan_front.specs.declared.here_asked.What.{What};

use pci_here::place::domain_of_word;
use pciplan_tasks::failure::Failure;
use pciplan_words::asked::WordsFault;
use pciplan_words::further::{Further, HereWords, further_given};
use std::alloc::Global;

/// What is printed of a domain.
#[derive(Clone, Copy, Debug, PartialEq, Eq)]
pub enum What {
    /// All its faults, with what stands behind each.
    Faults,
    /// Its map.
    Map,
    /// The text of its dump.
    Dump,
    /// The text of the probe that is derived for it.
    Probe,
    /// The words by which `faults` and `map` say the same of these two texts elsewhere.
    Words,
}

/// What is printed, of which domain, and where the machine is told.
#[derive(Drop)]
pub struct HereAsked {
    pub what: What,
    /// None where every domain is asked for.
    pub domain: Option<u32>,
    /// The folder in which `sys` and `proc` are.
    pub folder: String,
    /// The file with the kernel's log, where there is one.
    pub log: Option<String>,
}

/// What a word asks for: all faults where there is none.
fn what_of(word: Option<&str>) -> Option<What>
    ensures { MatchOption result ((what : What) → IsWhatOf word.entry what → ⊥)
        (IsWhatOf word.entry) }
{
    let Some(word) = word else {
        return Some(What::Faults);
    };
    match word {
        "faults" => Some(What::Faults),
        "map" => Some(What::Map),
        "dump" => Some(What::Dump),
        "probe" => Some(What::Probe),
        "words" => Some(What::Words),
        _ => None,
    }
}

/// The domain that a word names; None inside where there is no word.
#[tactic(auto, using(crate::proofs::HereWords::no_domain))]
fn domain_of(word: Option<&str>) -> Option<Option<u32>>
    ensures { MatchOption result ((domain : Option ℕ) → IsDomainOf word.entry domain → ⊥)
        (IsDomainOf word.entry) }
{
    match word {
        None => Some(None),
        Some(word) => Some(Some(domain_of_word(word)?)),
    }
}

/// The folder that a word names: the root folder where there is none.
fn folder_of<'a>(word: Option<&'a str>) -> &'a str
    ensures { result.now ≡ folder_of word.entry }
{
    match word {
        Some(folder) => folder,
        None => "/",
    }
}

/// A word of its own; None where there is none.
fn owned(alloc: Global, word: Option<&str>) -> Result<Option<String>, Failure>
    ensures { MatchResult result (IsPathOf word.entry) (λ failure. failure ≡ Failure.Memory) }
{
    match word {
        None => Ok(None),
        Some(word) => Ok(Some(String::from_str(alloc, word)?)),
    }
}

/// What the words of `here` say.
fn asked_by(alloc: Global, words: &HereWords<'_>) -> Result<HereAsked, Failure>
    ensures { MatchResult result (IsSaidBy words.now)
        (λ failure. (failure ≡ Failure.Memory)
        ⊎ ((failure ≡ Failure.Usage) × SayNothing words.now)) }
{
    let what = what_of(words.what).ok_or(Failure::Usage)?;
    let domain = domain_of(words.domain).ok_or(Failure::Usage)?;
    let folder = String::from_str(alloc, folder_of(words.from))?;
    let log = owned(alloc, words.log)?;
    Ok(HereAsked {
        what,
        domain,
        folder,
        log,
    })
}

/// What the words ask for.
///
/// # Errors
///
/// `Usage` where they ask for nothing, `Memory` where a growth was refused.
pub fn here_asked(alloc: Global, words: &[&str]) -> Result<HereAsked, Failure>
    ensures { MatchResult result (IsHereAsked (map (λ w. w.now) words.now))
        (λ failure. (failure ≡ Failure.Memory)
        ⊎ ((failure ≡ Failure.Usage) × AskForNothing (map (λ w. w.now) words.now))) }
{
    match further_given(alloc, words) {
        Ok(Further::Here(words)) => asked_by(alloc, &words),
        Ok(Further::Explain { .. } | Further::Version) => Err(Failure::Usage),
        Err(WordsFault::Usage) => Err(Failure::Usage),
        Err(WordsFault::Memory) => Err(Failure::Memory),
    }
}
