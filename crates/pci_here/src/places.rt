//! The places of a domain's functions.
ghost use Rattle.std.specs.Prelude.{◌++◌, ◌∷◌, [], ℕ, List, IfOk, OnOk, IfSome, MatchResult, map, string_bytes};
ghost use Rattle.pci_here.specs.Places.{ArePlacesOfNames, ArePlacesOf};
ghost use Rattle.pci_here.specs.Shown.{IsNotHad};

use crate::machine::Machine;
use crate::place::{Place, place_of};
use crate::trouble::Trouble;
use std::alloc::{AllocError, Global};

/// Adds the place that a name tells, where it is of the domain.
fn add_place(places: &mut Vec<Place>, name: &str, domain: u32) -> Result<(), AllocError>
    ensures { OnOk result ((names : List (List ℕ)) → ArePlacesOfNames names domain places.old.items
        → ArePlacesOfNames (names ++ name.now ∷ []) domain places.new.items) }
{
    match place_of(name) {
        Some(place) if place.domain == domain => {
            places.push(place)?;
            Ok(())
        }
        _ => Ok(()),
    }
}

/// The places of a domain that names tell, in their order.
fn places_in(alloc: Global, names: &[String], domain: u32) -> Result<Vec<Place>, AllocError>
    ensures { IfOk result (λ places. ArePlacesOfNames (map string_bytes names.now) domain places.items) }
{
    let mut places = Vec::new(alloc);
    for name in names {
        add_place(&mut places, name.as_str(), domain)?;
    }
    Ok(places)
}

/// The places of a domain that the names of the machine's folders tell, by slot.
///
/// Errors: `Unread` where there is no folder of functions, `Memory` where a growth was refused.
pub fn places_of<M: Machine>(alloc: Global, machine: &M, domain: u32) -> Result<Vec<Place>, Trouble>
    ensures { IfSome (M.shown machine.now) (λ m. MatchResult result
        (λ places. ArePlacesOf m domain places.items) (IsNotHad m.names)) }
{
    let names = machine.names(alloc)?;
    let mut places = places_in(alloc, names.as_slice(), domain)?;
    places.sort_by_key(|place| place.number())?;
    Ok(places)
}
