//! Laws of windows that grow. These functions do nothing: each contract is a law.

ghost use Rattle.settle_spec.specs.GrowthLaws.{PlaceIsLast, NoLastIsNone, GrowthKeeps, GrowthHoldsAll, OnlyWindowsGrow, HalvesMoveOut, GrownHolds, GrownIsInReach, ReachIsAround, ReachIsOff};

/// A last place is the greatest one of its range.
pub fn last_places_are_greatest()
    ensures last { PlaceIsLast }
    ensures none { NoLastIsNone }
{}

/// What stays as it stands stays where windows grow, with all its addresses.
pub fn growth_keeps_what_stays()
    ensures stays { GrowthKeeps }
    ensures all { GrowthHoldsAll }
    ensures windows { OnlyWindowsGrow }
{}

/// A window that grows holds all that it grows for, within its reach, and its registers can be written in any order.
pub fn windows_grow_within_their_reach()
    ensures halves { HalvesMoveOut }
    ensures all { GrownHolds }
    ensures within { GrownIsInReach }
    ensures around { ReachIsAround }
    ensures off { ReachIsOff }
{}
