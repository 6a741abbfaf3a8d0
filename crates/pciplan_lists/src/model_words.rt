//! The words by which functions are taken, among the words.
ghost use Rattle.std.specs.Prelude.{◌≡◌, ◌↔◌, Some, true, false, option_map, IsSomeAnd, IsTrue, IsFalse, MatchOption};
ghost use Rattle.judge_spec.specs.ModelWords as model;
ghost use Rattle.pci_model.specs.WordsValue.{words_value};
ghost use Rattle.pciplan_lists.specs.ModelWords.{IsModelWord, IsWordList};
ghost use Rattle.pciplan_lists.specs.NameWords.{name_value, IsNameAdded, IsTooMuch};

use crate::part::first_of;
use pci_model::words::{VgaWord, Words};

/// The word for every word but `vga16`.
const ALL: &str = "all";

/// What one word of a list names.
#[derive(Clone, Copy)]
enum Name {
    Cardbus,
    Ide,
    Isa,
    Power,
    Reset,
    Snoop,
    Subtractive,
    Unclaimed,
    Unnumbered,
    Legacy(VgaWord),
    Windows,
}

/// What a word names; None of any other word.
fn name_of(word: &str) -> Option<Name>
    ensures { (n : model.Name) → (option_map name_value result ≡ Some n)
        ↔ (word.now ≡ model.name_text n) }
{
    if word == "cardbus" {
        Some(Name::Cardbus)
    } else if word == "ide" {
        Some(Name::Ide)
    } else if word == "isa" {
        Some(Name::Isa)
    } else if word == "power" {
        Some(Name::Power)
    } else if word == "reset" {
        Some(Name::Reset)
    } else if word == "snoop" {
        Some(Name::Snoop)
    } else if word == "subtractive" {
        Some(Name::Subtractive)
    } else if word == "unclaimed" {
        Some(Name::Unclaimed)
    } else if word == "unnumbered" {
        Some(Name::Unnumbered)
    } else if word == "vga" {
        Some(Name::Legacy(VgaWord::Vga))
    } else if word == "vga16" {
        Some(Name::Legacy(VgaWord::Vga16))
    } else if word == "windows" {
        Some(Name::Windows)
    } else {
        None
    }
}

/// Sets a flag that isn't set. It answers whether it could.
fn sets(flag: &mut bool) -> bool
    ensures could { result ≡ true → flag.old ≡ false }
    ensures not { result ≡ false → flag.old ≡ true }
    ensures set { flag.new ≡ true }
{
    let was = *flag;
    *flag = true;
    !was
}

/// Has what is named count, too. It answers whether it could: nothing counts twice, and of `vga` and `vga16` only one does.
fn adds(words: &mut Words, name: Name) -> bool
    ensures added { IsTrue result
        → IsNameAdded (words_value words.old) (words_value words.new) (name_value name) }
    ensures much { IsFalse result → IsTooMuch (words_value words.old) (name_value name) }
{
    match name {
        Name::Cardbus => sets(&mut words.cardbus),
        Name::Ide => sets(&mut words.ide),
        Name::Isa => sets(&mut words.isa),
        Name::Power => sets(&mut words.power),
        Name::Reset => sets(&mut words.reset),
        Name::Snoop => sets(&mut words.snoop),
        Name::Subtractive => sets(&mut words.subtractive),
        Name::Unclaimed => sets(&mut words.unclaimed),
        Name::Unnumbered => sets(&mut words.unnumbered),
        Name::Legacy(vga) => {
            let is_none = words.vga.is_none();
            if is_none {
                words.vga = Some(vga);
            }
            is_none
        }
        Name::Windows => sets(&mut words.windows),
    }
}

/// The words of a list that isn't `all`.
fn listed_words(list: &str) -> Option<Words>
    ensures word { MatchOption result
        ((words : model.Words) → IsWordList list.now words → ⊥)
        (λ words. IsWordList list.now (words_value words)) }
    ensures only { (words : model.Words) → IsWordList list.now words
        → IsSomeAnd result (λ found. words_value found ≡ words) }
{
    let mut words = Words {
        cardbus: false,
        ide: false,
        isa: false,
        power: false,
        reset: false,
        snoop: false,
        subtractive: false,
        unclaimed: false,
        unnumbered: false,
        vga: None,
        windows: false,
    };
    let mut left = Some(list);
    'parts: while let Some(text) = left {
        let (first, more) = first_of(text);
        let Some(name) = name_of(first) else {
            return None;
        };
        if !adds(&mut words, name) {
            return None;
        }
        left = more;
    }
    Some(words)
}

/// The words of a list such as `power,reset`: one or more of them in any order, joined by commas, none twice, of `vga` and
/// `vga16` one alone; or all but `vga16`, by the word `all`. There are none of any other word.
pub fn words_of_list(list: &str) -> Option<Words>
    ensures word { MatchOption result
        ((words : model.Words) → IsModelWord list.now words → ⊥)
        (λ words. IsModelWord list.now (words_value words)) }
    ensures only { (words : model.Words) → IsModelWord list.now words
        → IsSomeAnd result (λ found. words_value found ≡ words) }
{
    if list == ALL {
        return Some(Words {
            cardbus: true,
            ide: true,
            isa: true,
            power: true,
            reset: true,
            snoop: true,
            subtractive: true,
            unclaimed: true,
            unnumbered: true,
            vga: Some(VgaWord::Vga),
            windows: true,
        });
    }
    listed_words(list)
}
