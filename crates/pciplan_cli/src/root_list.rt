//! The root buses among the words.
ghost use Rattle.std.specs.Prelude.{◌≡◌, ◌≢◌, ℕ, List, ◌<◌, ◌∷◌, [], MatchOption, IsSomeAnd};
ghost use Rattle.pci_spec.specs.Text.{hex_byte};
ghost use Rattle.pci_tree.specs.Roots.{buses_of};
ghost use Rattle.pciplan_cli.specs.RootWords.{IsRootWord};

use arrayvec::ArrayVec;
use pci_base::digit::digit_value;
use pci_base::slot::BUSES;
use pci_tree::roots::Roots;

/// The bytes from a bus to the next: two digits and a comma.
const STEP: usize = 3;

/// A bus of two lower-case hex digits.
fn bus_of(high: u8, low: u8) -> Option<u8>
    ensures { MatchOption result ((bus : ℕ) → bus < 256 → hex_byte bus ≢ high ∷ low ∷ [])
        (λ bus. (bus < 256) × (hex_byte bus ≡ high ∷ low ∷ [])) }
{
    Some(16 * digit_value(high)? + digit_value(low)?)
}

/// The roots of a list such as `00,40`: buses joined by commas, each above the one before it. There are none of any
/// other word.
pub fn roots_of_list(list: &str) -> Option<Roots>
    ensures word { MatchOption result ((buses : List ℕ) → IsRootWord list.now buses → ⊥)
        (λ roots. IsRootWord list.now (buses_of roots)) }
    ensures only { (buses : List ℕ) → IsRootWord list.now buses
        → IsSomeAnd result (λ roots. buses_of roots ≡ buses) }
{
    let bytes = list.as_bytes();
    let count = bytes.len() / STEP + 1;
    if bytes.len() % STEP != 2 || BUSES < count {
        return None;
    }
    let mut buses: ArrayVec<u8, BUSES> = ArrayVec::new();
    for i in 0..count {
        if 0 < i && bytes[STEP * i - 1] != b',' {
            return None;
        }
        buses.push(bus_of(bytes[STEP * i], bytes[STEP * i + 1])?);
    }
    Roots::of(buses.as_slice())
}
