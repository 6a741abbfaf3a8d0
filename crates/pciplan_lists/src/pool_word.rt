//! The pools among the words.
ghost use Rattle.std.specs.Prelude.{◌≡◌, ℕ, Some, MatchOption};
ghost use Rattle.pci_base.specs.declared.range.Range.{Range};
ghost use Rattle.pciplan_lists.specs.PoolWords.{IsAddressWord, IsPoolWord};

use pci_base::digit::digit_value;
use pci_base::range::Range;

/// The most digits of an address.
const DIGITS_MAX: usize = 16;

/// The address of a word of 1 to 16 lower-case hex digits. There is none of any other word.
pub fn address_of(word: &str) -> Option<u64>
    ensures { MatchOption result ((address : ℕ) → IsAddressWord word.now address → ⊥)
        (λ address. IsAddressWord word.now address) }
{
    let bytes = word.as_bytes();
    if bytes.is_empty() || DIGITS_MAX < bytes.len() {
        return None;
    }
    let mut address: u128 = 0;
    for byte in bytes {
        address = address * 16 + u128::from(digit_value(*byte)?);
    }
    Some(address as u64)
}

/// The addresses of a word `A-B`, from A to B, each of 1 to 16 lower-case hex digits. There are none of any other word.
pub fn pool_of_word(word: &str) -> Option<Range>
    ensures word { MatchOption result ((pool : Range) → IsPoolWord word.now pool → ⊥)
        (λ pool. IsPoolWord word.now pool) }
    ensures only { (pool : Range) → IsPoolWord word.now pool → result ≡ Some pool }
{
    let (first, last) = word.split_once('-')?;
    Some(Range {
        first: address_of(first)?,
        last: address_of(last)?,
    })
}
