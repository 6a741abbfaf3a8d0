//! Why there is no list of faults.
ghost use Rattle.std.specs.Prelude.{◌≡◌, Some};

use crate::answer::ROOT_MESSAGE;
use crate::faults_words::FaultsWord;
use crate::refusal::Refusal;
use std::fmt;

/// Why there is no list of faults.
#[derive(Clone, Copy, Debug, PartialEq, Eq)]
pub enum NoList {
    /// This word has no meaning.
    BadWord(FaultsWord),
    /// One of the texts is none, or the list of root buses is none.
    Unread(Refusal),
}

impl NoList {
    ghost use Rattle.std.specs.Prelude.{MatchOption};
    ghost use Rattle.pciplan_c.specs.NoLists.{IsListMade, no_list_line, no_list_text};

    /// The line of a text that it names, or 0 where it names none.
    pub fn line(self) -> u64
        ensures { result ≡ no_list_line self }
    {
        match self {
            NoList::BadWord(_) => 0,
            NoList::Unread(refusal) => refusal.line(),
        }
    }

    /// The message, where it is a constant text: of a word, and of the list of root buses.
    pub fn constant_text(self) -> Option<&'static str>
        ensures { MatchOption result (IsListMade self) (λ text. text.now ≡ no_list_text self) }
    {
        match self {
            NoList::BadWord(word) => Some(word.message()),
            NoList::Unread(Refusal::Root) => Some(ROOT_MESSAGE),
            NoList::Unread(_) => None,
        }
    }
}

/// The message, as `dump: 5 BadLine 17`.
impl fmt::Display for NoList {
    ghost use Rattle.pciplan_c.specs.NoLists.{no_list_text};

    ghost output = { λ n. Some (no_list_text n) };

    fn fmt<W: fmt::Write>(&self, f: &mut fmt::Formatter<W>) -> fmt::Result {
        match *self {
            NoList::BadWord(word) => write!(f, "{word}"),
            NoList::Unread(refusal) => write!(f, "{refusal}"),
        }
    }
}
