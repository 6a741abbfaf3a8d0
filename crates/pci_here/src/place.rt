//! Where a function stands: its domain and its slot.
ghost use Rattle.std.specs.Prelude.{◌≡◌, ℕ, Some, IfSome};
ghost use Rattle.pci_here.specs.Place.{FunctionPlace as PlaceValue, IsDomainWord, IsPlaceName, function_place_number};

use pci_base::slot::Slot;
use pciplan_lists::pool_word::address_of;
use pciplan_lists::slot_list::slot_of_word;
use std::fmt;
use std::marker::Model;

/// The least and the most digits of a domain in a name.
const DIGITS_MIN: usize = 4;

const DIGITS_MAX: usize = 8;

/// A function of a machine: its domain, and its slot in that domain.
#[derive(Clone, Copy, Debug, Default, PartialEq, Eq, PartialOrd, Ord)]
pub struct Place {
    pub domain: u32,
    pub slot: Slot,
}

impl Model for Place {
    ghost use Rattle.pci_here.specs.Place.{FunctionPlace as PlaceValue};

    ghost Value = { PlaceValue };

    ghost view = { λ p. record { domain = p.domain; slot = p.slot } };

    ghost inverse = { λ v. record { domain = v.domain; slot = v.slot } };
}

impl Place {
    /// The place as one number of 48 bits, which orders places: the domain above the slot's number.
    pub fn number(self) -> u64
        ensures { result ≡ function_place_number self }
    {
        u64::from(self.domain) * 65536 + u64::from(self.slot.number())
    }
}

/// `DDDD:bb:dd.f`, in lower-case hex digits; of a domain above ffff in as many digits as it has.
impl fmt::Display for Place {
    ghost use Rattle.std.specs.Prelude.{Some};
    ghost use Rattle.pci_here.specs.Place.{function_place_text};

    ghost output = { λ p. Some (function_place_text p) };

    fn fmt<W: fmt::Write>(&self, f: &mut fmt::Formatter<W>) -> fmt::Result {
        let domain = self.domain;
        let slot = self.slot;
        write!(f, "{domain:04x}:{slot}")
    }
}

/// The domain of a word of 4 to 8 lower-case hex digits. There is none of any other word.
pub fn domain_of_word(word: &str) -> Option<u32>
    ensures word { IfSome result (λ domain. IsDomainWord word.now domain) }
    ensures only { (domain : ℕ) → IsDomainWord word.now domain → result ≡ Some domain }
{
    if word.len() < DIGITS_MIN || DIGITS_MAX < word.len() {
        return None;
    }
    Some(address_of(word)? as u32)
}

/// The place that the name of a function's folder tells, as `0000:01:00.0`. There is none of any other name.
pub fn place_of(name: &str) -> Option<Place>
    ensures name { IfSome result (λ place. IsPlaceName name.now place) }
    ensures only { (place : PlaceValue) → IsPlaceName name.now place → result ≡ Some place }
{
    let (domain, slot) = name.split_once(':')?;
    Some(Place {
        domain: domain_of_word(domain)?,
        slot: slot_of_word(slot)?,
    })
}
