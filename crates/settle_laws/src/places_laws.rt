//! Laws of places. These functions do nothing: each contract is a law.

ghost use Rattle.settle_laws.specs.PlacesLaws.{NothingStaysAnew};

/// Where all is placed anew, nothing stays.
pub fn nothing_stays_anew()
    ensures { NothingStaysAnew }
{}
