//! The words by which C says what is given beside two texts whose faults are to be listed.
ghost use Rattle.std.specs.Prelude.{◌≡◌, IfOk, IfErr, MatchResult};
ghost use Rattle.pci_tree.specs.Roots.{buses_of};
ghost use Rattle.pciplan_c.specs.FaultsWords.{AreRangesBy, AreWordsBy, HasNoModelWords, IsNotSaid, IsNoRanges, IsSaidByFaultsWords};

use pci_base::memory::Refused;
use pci_base::range::RootRange;
use pci_model::words::Words;
use pci_tree::roots::Roots;
use pciplan_lists::host_list::is_good_host_list;
use pciplan_lists::list_word::list_of_word;
use pciplan_lists::model_words::words_of_list;
use pciplan_tasks::task::{Also, Beside, HostLists};
use std::alloc::Global;
use std::fmt;

/// What is given beside two texts, each word as on the command line. A word of no byte isn't said.
#[repr(C)]
#[derive(Clone, Copy, Debug)]
pub struct FaultsWords<'a> {
    /// The words by which functions are taken, joined by commas, or `all`.
    pub model: &'a [u8],
    /// The ranges of I/O that the host sends to its root buses: `none`, or ranges joined by commas.
    pub host_io: &'a [u8],
    /// Those of memory.
    pub host_mem: &'a [u8],
    /// 0 where no reasons are told, else they are told behind each fault.
    pub why: u8,
}

/// A word of what is given.
#[derive(Clone, Copy, Debug, PartialEq, Eq)]
pub enum FaultsWord {
    Model,
    HostIo,
    HostMem,
}

impl FaultsWord {
    ghost use Rattle.std.specs.Prelude.{◌≡◌};
    ghost use Rattle.pciplan_c.specs.FaultsWords.{faults_word_text};

    /// The message where it has no meaning.
    pub fn message(self) -> &'static str
        ensures { result.now ≡ faults_word_text self }
    {
        match self {
            FaultsWord::Model => "model",
            FaultsWord::HostIo => "host io",
            FaultsWord::HostMem => "host mem",
        }
    }
}

/// The message where it has no meaning.
impl fmt::Display for FaultsWord {
    ghost use Rattle.std.specs.Prelude.{Some};
    ghost use Rattle.pciplan_c.specs.FaultsWords.{faults_word_text};

    ghost output = { λ w. Some (faults_word_text w) };

    fn fmt<W: fmt::Write>(&self, f: &mut fmt::Formatter<W>) -> fmt::Result {
        let message = self.message();
        write!(f, "{message}")
    }
}

/// The words by which functions are taken, where they are said.
fn words_of(word: &[u8]) -> Result<Option<Words>, FaultsWord>
    ensures { MatchResult result (AreWordsBy word.now)
        (λ bad. (bad ≡ FaultsWord.Model) × HasNoModelWords word.now) }
{
    if word.is_empty() {
        return Ok(None);
    }
    let Ok(text) = str::from_utf8(word) else {
        return Err(FaultsWord::Model);
    };
    match words_of_list(text) {
        Some(words) => Ok(Some(words)),
        None => Err(FaultsWord::Model),
    }
}

/// The ranges that the host sends to these root buses, where they are said.
fn ranges_of(
    alloc: Global,
    roots: &Roots,
    word: &[u8],
    named: FaultsWord,
) -> Result<Option<Vec<RootRange>>, Refused<FaultsWord>>
    ensures { MatchResult result (AreRangesBy word.now (buses_of roots.now))
        (IsNoRanges named word.now (buses_of roots.now)) }
{
    if word.is_empty() {
        return Ok(None);
    }
    let Ok(text) = str::from_utf8(word) else {
        return Err(Refused::Fault(named));
    };
    let Some(list) = list_of_word(alloc, text)? else {
        return Err(Refused::Fault(named));
    };
    if is_good_host_list(roots, &list) {
        Ok(Some(list))
    } else {
        Err(Refused::Fault(named))
    }
}

/// What is given beside two texts with these root buses.
///
/// # Errors
///
/// The first word that has no meaning, in their order, unless a growth was refused for a word before it: then `Memory`.
pub fn beside_of(
    alloc: Global,
    roots: Roots,
    words: &FaultsWords<'_>,
) -> Result<Beside, Refused<FaultsWord>>
    ensures said { IfOk result (IsSaidByFaultsWords (buses_of roots) words.now) }
    ensures why { IfErr result (IsNotSaid (buses_of roots) words.now) }
{
    let taken = match words_of(words.model) {
        Ok(taken) => taken,
        Err(bad) => return Err(Refused::Fault(bad)),
    };
    let io = ranges_of(alloc, &roots, words.host_io, FaultsWord::HostIo)?;
    let mem = ranges_of(alloc, &roots, words.host_mem, FaultsWord::HostMem)?;
    Ok(Beside {
        roots,
        words: taken,
        host: HostLists { io, mem },
        also: Also::nothing(alloc),
    })
}
