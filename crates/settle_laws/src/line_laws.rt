//! Laws of lines beside what is settled. These functions do nothing: each contract is a law.

ghost use Rattle.settle_laws.specs.Told.OffLines.{PartsEndOffLines, SettledIsOffLines};
ghost use Rattle.settle_laws.specs.Told.Ranges.{PartsAreOffRanges, StandingRangesAreReached, StandingRangesStay, RangesOnStand};
ghost use Rattle.settle_laws.specs.Told.Starts.{QuietNeedsNothing, StartIsSettled, NothingIsSettled};
ghost use Rattle.settle_laws.specs.Told.Stops.{StayingWindowsHold, BridgesAlwaysPass};
ghost use Rattle.settle_laws.specs.Told.Whole.{ResultIsOffLines, ResultIsOffRanges, ResultReachesRanges, ResultKeepsRanges, BridgesPassThroughout, QuietIsSettled};

/// What is settled is off lines, but where a part stood on one that is off, and comes before it.
pub fn what_is_settled_is_off_lines()
    ensures ends { PartsEndOffLines }
    ensures parts { SettledIsOffLines }
{}

/// Told ranges that stand are reached in the result, and no part shares an address with them. What is on in the result
/// stands there.
pub fn told_ranges_stay()
    ensures parts { PartsAreOffRanges }
    ensures reached { StandingRangesAreReached }
    ensures stay { StandingRangesStay }
    ensures on { RangesOnStand }
{}

/// A start that needs nothing is settled already, and settling it writes nothing.
pub fn told_starts_are_settled()
    ensures quiet { QuietNeedsNothing }
    ensures stays { StartIsSettled }
    ensures nothing { NothingIsSettled }
{}

/// At each stop windows that stay hold all that they held, and bridges pass what is answered always.
pub fn what_is_held_stays_so_at_each_stop()
    ensures windows { StayingWindowsHold }
    ensures always { BridgesAlwaysPass }
{}

/// With room behind slots, too, the result is off lines and reaches told ranges, and a quiet start is left as it is.
pub fn settling_keeps_what_is_told()
    ensures lines { ResultIsOffLines }
    ensures ranges { ResultIsOffRanges }
    ensures reaches { ResultReachesRanges }
    ensures keeps { ResultKeepsRanges }
    ensures always { BridgesPassThroughout }
    ensures quiet { QuietIsSettled }
{}
