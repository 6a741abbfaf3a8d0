//! Laws of settling with told lines. These functions do nothing: each contract is a law.

ghost use Rattle.settle_spec.specs.ToldLaws.{StandsOffLines, RangesStandInPlace, ReachIsOffLines, GrowthRefusesNothing, HeldIsNeverNamed};

/// A part that stands is off every line that is on, and a told range that stands is reached by its windows. The
/// reach of a window is off lines that can keep it off.
pub fn what_stands_is_off_lines()
    ensures parts { StandsOffLines }
    ensures ranges { RangesStandInPlace }
    ensures reach { ReachIsOffLines }
{}

/// Growth refuses nothing, and a `held` line is never named.
pub fn endings_name_told_ranges()
    ensures settled { GrowthRefusesNothing }
    ensures named { HeldIsNeverNamed }
{}
