//! A bus of a machine.
ghost use Rattle.std.specs.Prelude.{◌≡◌, Some, IfSome};
ghost use Rattle.pci_here.specs.declared.bus.Bus.{Bus};
ghost use Rattle.pci_here.specs.Bus.{IsBusName};

use crate::place::domain_of_word;
use pciplan_lists::range_word::bus_of_word;

/// A bus: its domain, and its number in that domain.
#[derive(Clone, Copy, Debug, PartialEq, Eq)]
pub struct Bus {
    pub domain: u32,
    pub number: u8,
}

/// The bus of a name `DDDD:bb`. There is none of any other name.
pub fn bus_of_name(name: &str) -> Option<Bus>
    ensures name { IfSome result (λ bus. IsBusName name.now bus) }
    ensures only { (bus : Bus) → IsBusName name.now bus → result ≡ Some bus }
{
    let (domain, number) = name.split_once(':')?;
    Some(Bus {
        domain: domain_of_word(domain)?,
        number: bus_of_word(number)?,
    })
}
