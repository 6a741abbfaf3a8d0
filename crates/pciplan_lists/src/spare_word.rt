//! The word of `--spare`.
ghost use Rattle.std.specs.Prelude.{◌≡◌, ℕ, List, MatchOption, Some};
ghost use Rattle.pci_base.specs.WindowKinds.{kind_value};
ghost use Rattle.pci_base.specs.declared.window_kind.ByKind.{ByKind};
ghost use Rattle.pciplan_lists.specs.SpareWords.{IsDigitsOf, HasFirst, HasNoFirst, IsSpareWord};

use crate::part::first_of;
use crate::pool_word::address_of;
use pci_base::window_kind::{ByKind, WindowKind};

/// What stands behind the name of a class and a colon.
fn digits_of<'a>(word: &'a str, class: WindowKind) -> Option<&'a str>
    ensures { MatchOption result ((digits : List ℕ) → IsDigitsOf word.now (kind_value class) digits → ⊥)
        (λ digits. IsDigitsOf word.now (kind_value class) digits.now) }
{
    let (name, digits) = word.split_once(':')?;
    if name == class.name() {
        Some(digits)
    } else {
        None
    }
}

/// How many addresses of a class the first part of a list wants, 0 where it is of another class, and what is left behind it.
fn wanted_first<'a>(left: Option<&'a str>, class: WindowKind) -> Option<(u64, Option<&'a str>)>
    ensures { MatchOption result (HasNoFirst left.entry (kind_value class))
        (λ first. HasFirst left.entry (kind_value class) first.0 first.1) }
{
    let Some(text) = left else {
        return Some((0, None));
    };
    let (first, more) = first_of(text);
    let Some(digits) = digits_of(first, class) else {
        return Some((0, left));
    };
    match address_of(digits)? {
        0 => None,
        size => Some((size, more)),
    }
}

/// How many addresses of each class are wanted behind a hot-plug slot, by a word such as `io:1000,mem:200000,pref:200000`: one
/// to three classes in this order, each with a number of 1 to 16 lower-case hex digits that isn't 0. A class that isn't said
/// has 0. There are none of any other word.
pub fn spares_of_word(word: &str) -> Option<ByKind<u64>>
    ensures word { MatchOption result ((sizes : ByKind ℕ) → IsSpareWord word.now sizes → ⊥)
        (λ sizes. IsSpareWord word.now sizes) }
    ensures only { (sizes : ByKind ℕ) → IsSpareWord word.now sizes → result ≡ Some sizes }
{
    let (io, left) = wanted_first(Some(word), WindowKind::Io)?;
    let (memory, left) = wanted_first(left, WindowKind::Memory)?;
    let (prefetchable, left) = wanted_first(left, WindowKind::Prefetchable)?;
    match left {
        Some(_) => None,
        None => Some(ByKind {
            io,
            memory,
            prefetchable,
        }),
    }
}
