//! Laws of what is kept as a system is settled. These functions do nothing: each contract is a law.

ghost use Rattle.settle_laws.specs.KeptApart.{StandingIsKeptApart, GrowingIsKeptApart};

/// What stays, as it stands or where windows grow, is apart, in its lists or in the window over it.
pub fn what_stays_is_apart()
    ensures standing { StandingIsKeptApart }
    ensures growing { GrowingIsKeptApart }
{}
