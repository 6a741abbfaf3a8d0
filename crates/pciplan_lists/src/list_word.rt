//! Lists of ranges among the words.
ghost use Rattle.std.specs.Prelude.{◌≡◌, ◌↔◌, ◌∷◌, List, IsTrue, IfErr, IfOk, IfSome, IsSomeAnd};
ghost use Rattle.pci_base.specs.declared.range.RootRange.{RootRange};
ghost use Rattle.pciplan_lists.specs.Joined.{AreJoined};
ghost use Rattle.pciplan_lists.specs.ListWords.{HasListedRanges, IsListWord, IsRangeWord};

use crate::part::first_of;
use crate::range_word::range_of_word;
use pci_base::memory::OutOfMemory;
use pci_base::range::RootRange;
use std::alloc::Allocator;

/// The word of a list that has no range.
const NONE: &str = "none";

/// Whether a word is of ranges that are joined by commas. It is looked at before memory is asked for.
fn has_ranges(word: &str) -> bool
    ensures { IsTrue result ↔ HasListedRanges word.now }
{
    let mut left = Some(word);
    'parts: while let Some(text) = left {
        let (first, more) = first_of(text);
        let Some(_range) = range_of_word(first) else {
            return false;
        };
        left = more;
    }
    true
}

/// Ranges that are joined by commas, in their order.
fn joined_ranges<A: Allocator>(
    alloc: A,
    word: &str,
) -> Result<Option<Vec<RootRange, A>>, OutOfMemory>
    ensures word { IfOk result
        (λ found. IfSome found (λ list. AreJoined IsRangeWord (44 ∷ word.now) list.items)) }
    ensures only { (list : List RootRange) → AreJoined IsRangeWord (44 ∷ word.now) list
        → IfOk result (λ found. IsSomeAnd found (λ v. v.items ≡ list)) }
{
    let mut list = Vec::new(alloc);
    let mut left = Some(word);
    'parts: while let Some(text) = left {
        let (first, more) = first_of(text);
        let Some(range) = range_of_word(first) else {
            return Ok(None);
        };
        list.push(range)?;
        left = more;
    }
    Ok(Some(list))
}

/// The ranges of a list, in its order: `none`, or words of ranges that are joined by commas. There are none of any other
/// word.
///
/// Errors: 2 `OutOfMemory` where a growth was refused. It comes only of a word that has ranges.
pub fn list_of_word<A: Allocator>(
    alloc: A,
    word: &str,
) -> Result<Option<Vec<RootRange, A>>, OutOfMemory>
    ensures word { IfOk result (λ found. IfSome found (λ list. IsListWord word.now list.items)) }
    ensures only { (list : List RootRange) → IsListWord word.now list
        → IfOk result (λ found. IsSomeAnd found (λ v. v.items ≡ list)) }
    // so a word that is no list, or has no range, is answered whatever memory is there
    ensures memory { IfErr result (λ _. HasListedRanges word.now) }
{
    if word == NONE {
        return Ok(Some(Vec::new(alloc)));
    }
    if has_ranges(word) {
        joined_ranges(alloc, word)
    } else {
        Ok(None)
    }
}
