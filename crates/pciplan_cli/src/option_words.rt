//! What the words of options say.
ghost use Rattle.std.specs.Prelude.{◌≡◌, MatchOption, MatchResult};
ghost use Rattle.pci_tree.specs.Roots.{buses_of};
ghost use Rattle.pciplan_lists.specs.PoolWords.{HasNoPool, IsPoolWord};
ghost use Rattle.pciplan_tasks.specs.declared.failure.Failure.{Failure};
ghost use Rattle.pciplan_cli.specs.OptionWords.{AreRootsOf, AreWordsOf, AreOptionRanges, HasNoRoots, HasNoWords, IsNoListFor};

use crate::root_list::roots_of_list;
use pci_base::range::{Range, RootRange};
use pci_base::space::Space;
use pci_model::words::Words;
use pci_tree::roots::Roots;
use pciplan_lists::host_list::is_good_host_list;
use pciplan_lists::list_word::list_of_word;
use pciplan_lists::model_words::words_of_list;
use pciplan_lists::pool_word::pool_of_word;
use pciplan_tasks::failure::{Failure, PoolOption};
use std::alloc::Global;

/// The root buses of the word of `--root`, bus 00 alone where there is none.
pub fn roots_of(root: Option<&str>) -> Option<Roots>
    ensures { MatchOption result (HasNoRoots root.entry) (AreRootsOf root.entry) }
{
    match root {
        None => Some(Roots::host()),
        Some(list) => roots_of_list(list),
    }
}

/// The words of the list of `--model`, where there is one.
pub fn words_of(model: Option<&str>) -> Result<Option<Words>, Failure>
    ensures { MatchResult result (AreWordsOf model.entry)
        (λ failure. (failure ≡ Failure.Model) × HasNoWords model.entry) }
{
    match model {
        None => Ok(None),
        Some(list) => match words_of_list(list) {
            None => Err(Failure::Model),
            Some(words) => Ok(Some(words)),
        },
    }
}

/// The pool of the word of an option.
pub fn pool_of(word: &str, option: PoolOption) -> Result<Range, Failure>
    ensures { MatchResult result (IsPoolWord word.now)
        (λ failure. (failure ≡ Failure.Pool option) × HasNoPool word.now) }
{
    pool_of_word(word).ok_or(Failure::Pool(option))
}

/// The ranges of the list of what the host sends to its root buses in a space, where there is one.
pub fn ranges_of(
    alloc: Global,
    roots: &Roots,
    word: Option<&str>,
    space: Space,
) -> Result<Option<Vec<RootRange>>, Failure>
    ensures { MatchResult result (AreOptionRanges word.entry (buses_of roots.now))
        (IsNoListFor word.entry (buses_of roots.now) space) }
{
    let Some(word) = word else {
        return Ok(None);
    };
    let Some(list) = list_of_word(alloc, word)? else {
        return Err(Failure::Host(space));
    };
    if is_good_host_list(roots, &list) {
        Ok(Some(list))
    } else {
        Err(Failure::Host(space))
    }
}
