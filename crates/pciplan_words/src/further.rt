//! The words of the commands that take no texts: `here`, `explain` and `version`.
ghost use Rattle.std.specs.Prelude.{◌≡◌, ◌⊎◌, map, MatchOption, MatchResult};
ghost use Rattle.clap.specs.Words.{found_of, rows_of};
ghost use Rattle.pciplan_words.specs.FurtherWords.{HasHereWords, IsFurther, IsFurtherSaid, IsNoFurther};
ghost use Rattle.pciplan_words.specs.declared.asked.WordsFault.{WordsFault};
ghost use Rattle.pciplan_words.specs.declared.further.Further.{Further};

use crate::asked::WordsFault;
use crate::commands::{DOMAIN, FROM, LOG, WHAT, WORD, further_commands};
use clap::ArgMatches;
use std::alloc::Global;

/// The words of `here`.
#[derive(Clone, Copy)]
pub struct HereWords<'a> {
    /// What is to be printed, where it is said.
    pub what: Option<&'a str>,
    /// The domain, where there is one.
    pub domain: Option<&'a str>,
    /// The folder in which the machine's `sys` and `proc` are, where it is said.
    pub from: Option<&'a str>,
    /// The file with the kernel's log, where it is said.
    pub log: Option<&'a str>,
}

/// The command that is asked for, with its words.
#[derive(Clone, Copy)]
pub enum Further<'a> {
    /// Reads the machine that the program runs on.
    Here(HereWords<'a>),
    /// Explains a fault or a command, or all of them where there is no word.
    Explain { word: Option<&'a str> },
    /// Names the version.
    Version,
}

/// The words of `here`.
fn here_words<'a>(found: &ArgMatches<'a>) -> HereWords<'a>
    ensures { HasHereWords (rows_of (found_of found.now)) result }
{
    HereWords {
        what: found.get_str(WHAT),
        domain: found.get_str(DOMAIN),
        from: found.get_str(FROM),
        log: found.get_str(LOG),
    }
}

/// What the words of the command of this name say.
#[tactic(auto, using(crate::proofs::CommandWords::word_there))]
fn further_of<'a>(name: &str, found: &ArgMatches<'a>) -> Option<Further<'a>>
    ensures { MatchOption result
        ((asked : Further) → IsFurtherSaid name.now (rows_of (found_of found.now)) asked → ⊥)
        (IsFurtherSaid name.now (rows_of (found_of found.now))) }
{
    match name {
        "here" => Some(Further::Here(here_words(found))),
        "explain" => Some(Further::Explain {
            word: found.get_str(WORD),
        }),
        "version" => Some(Further::Version),
        _ => None,
    }
}

/// What the words after the program's name say.
///
/// # Errors
///
/// `Usage` where they are no such command line, `Memory` where a growth was refused.
pub fn further_given<'a>(alloc: Global, words: &'a [&'a str]) -> Result<Further<'a>, WordsFault>
    ensures { MatchResult result
        (IsFurther (map (λ w. w.now) words.now))
        (λ fault. (fault ≡ WordsFault.Memory)
        ⊎ ((fault ≡ WordsFault.Usage) × IsNoFurther (map (λ w. w.now) words.now))) }
{
    let matches = further_commands(alloc)?.try_get_matches_from(words)?;
    let (name, found) = matches.subcommand().ok_or(WordsFault::Usage)?;
    further_of(name, found).ok_or(WordsFault::Usage)
}
