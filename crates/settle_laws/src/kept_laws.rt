//! Laws of what is kept as a system is settled. These functions do nothing: each contract is a law.

ghost use Rattle.settle_laws.specs.KeptLaws.{StandingIsSound, GrowingIsSound};

/// What stays, as it stands or where windows grow, is apart, and a window that stays has a place for each item
/// of its class behind it.
pub fn what_stays_has_places()
    ensures standing { StandingIsSound }
    ensures growing { GrowingIsSound }
{}
