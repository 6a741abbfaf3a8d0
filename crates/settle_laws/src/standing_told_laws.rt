//! Laws of told ranges that stand. These functions do nothing: each contract is a law.

ghost use Rattle.settle_laws.specs.StandingTold.Kept.{StandingStaysOffLines, GrowingStaysOffLines};
ghost use Rattle.settle_laws.specs.StandingTold.Passes.{OnThenOffIsInOrder, NextRangeIsTold, LastRangesAreTold};
ghost use Rattle.settle_laws.specs.StandingTold.Standing.{RangesStandByThemselves, RangesStandAlone, RangesStandBesideAll, RangesAreApart, RangesAreOffParts, PartsShareWithOff};
ghost use Rattle.settle_laws.specs.StandingTold.Untold.{StandAsUntold};

/// Which told ranges stand is told by which of those before them do, and by nothing else.
pub fn told_ranges_are_told_once()
    ensures itself { RangesStandByThemselves }
    ensures alone { RangesStandAlone }
    ensures beside { RangesStandBesideAll }
{}

/// Told ranges that stand share no address with each other, nor with parts that stand.
pub fn told_ranges_are_apart()
    ensures ranges { RangesAreApart }
    ensures parts { RangesAreOffParts }
    ensures off { PartsShareWithOff }
{}

/// One pass over told ranges, those that are on and then those that are off, finds which of them stand.
pub fn one_pass_finds_told_ranges()
    ensures order { OnThenOffIsInOrder }
    ensures next { NextRangeIsTold }
    ensures last { LastRangesAreTold }
{}

/// What stays is no nearer to lines with the addresses that it has where windows grow.
pub fn what_stays_is_off_lines()
    ensures standing { StandingStaysOffLines }
    ensures growing { GrowingStaysOffLines }
{}

/// Where lines keep no part off, the same parts stand as where nothing is told.
pub fn lines_off_parts_change_nothing()
    ensures { StandAsUntold }
{}
