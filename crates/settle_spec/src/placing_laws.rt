//! Laws of placing. These functions do nothing: each contract is a law.

ghost use Rattle.settle_spec.specs.PlacingLaws.{SpotIsLeast, PlaceIsFirst, NoPlaceIsNone, OrderIsFree, NoPlaceIsBefore, NoneStaysNone, PlacedAreApart, TurnIsOrdered, TurnIsOnly, TurnIsFree};

/// A first place is the least free one of the first range that has any.
pub fn first_places_are_least()
    ensures spot { SpotIsLeast }
    ensures first { PlaceIsFirst }
    ensures none { NoPlaceIsNone }
    ensures order { OrderIsFree }
{}

/// Where more is taken, what needs no less has no place before the first one that there was.
pub fn later_places_are_not_before()
    ensures before { NoPlaceIsBefore }
    ensures none { NoneStaysNone }
{}

/// What is placed one after another lies in ranges, and apart.
pub fn placed_items_are_apart()
    ensures apart { PlacedAreApart }
{}

/// Items in turn are the same items in the order in which they are placed.
pub fn items_in_turn_are_ordered()
    ensures ordered { TurnIsOrdered }
    ensures only { TurnIsOnly }
    ensures free { TurnIsFree }
{}
