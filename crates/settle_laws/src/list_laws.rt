//! Laws of the lists in which parts lie. These functions do nothing: each contract is a law.

ghost use Rattle.settle_laws.specs.InLists.{StandingIsListed, SettledIsListed};

/// A part that stands, and each part of what settling comes to, lies in a range that the root above it has, in a list of
/// its space.
pub fn parts_lie_in_lists_of_their_root()
    ensures standing { StandingIsListed }
    ensures settled { SettledIsListed }
{}
