//! A range of a list among the words.
ghost use Rattle.std.specs.Prelude.{◌≡◌, ◌<◌, ℕ, Some, IfSome};
ghost use Rattle.pci_spec.specs.Text.{hex_byte};
ghost use Rattle.pci_base.specs.declared.range.RootRange.{RootRange};
ghost use Rattle.pciplan_lists.specs.ListWords.{IsRangeWord};

use crate::pool_word::pool_of_word;
use pci_base::digit::digit_value;
use pci_base::range::RootRange;

/// The bus of a word of two lower-case hex digits. There is none of any other word.
pub fn bus_of_word(word: &str) -> Option<u8>
    ensures word { IfSome result (λ bus. (bus < 256) × (word.now ≡ hex_byte bus)) }
    ensures only { (bus : ℕ) → bus < 256 → word.now ≡ hex_byte bus → result ≡ Some bus }
{
    let [high, low] = word.as_bytes() else {
        return None;
    };
    Some(16 * digit_value(*high)? + digit_value(*low)?)
}

/// The range of a word `A-B`, of all root buses, or `bb:A-B`, of the root bus bb alone. There is none of any other word.
pub fn range_of_word(word: &str) -> Option<RootRange>
    ensures word { IfSome result (λ range. IsRangeWord word.now range) }
    ensures only { (range : RootRange) → IsRangeWord word.now range → result ≡ Some range }
{
    match word.split_once(':') {
        Some((bus, range)) => Some(RootRange {
            root: Some(bus_of_word(bus)?),
            range: pool_of_word(range)?,
        }),
        None => Some(RootRange {
            root: None,
            range: pool_of_word(word)?,
        }),
    }
}
