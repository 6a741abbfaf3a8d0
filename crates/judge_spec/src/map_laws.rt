//! Laws of maps. These functions do nothing: each contract is a law.

ghost use Rattle.judge_spec.specs.MapLaws.{LinesAreOfRegions, NoRegionIsMissed, OutsideStandsAlone, WindowsAreInPlace, HeldAreInPlace, WindowsHoldWhatIsInside, FreeLinesAreExact, FreeOnRootsIsExact, NothingIsOutOfPlace, NothingIsOutside, AllLeftAreUnreached, NothingIsFreeOnRoots, NothingIsTaken, TakenIsUnclaimed, NoLineIsTold, BarsAloneAreOff};

/// Enabled regions that claim an address have lines, and nothing else has.
pub fn regions_have_lines()
    ensures of { LinesAreOfRegions }
    ensures each { NoRegionIsMissed }
{}

/// What is out of place has no other line, and no window and no held range is.
pub fn outside_stands_alone()
    ensures alone { OutsideStandsAlone }
    ensures windows { WindowsAreInPlace }
    ensures held { HeldAreInPlace }
{}

/// What stands under a window belongs there, and what of it is free is free.
pub fn windows_hold_their_lines()
    ensures held { WindowsHoldWhatIsInside }
    ensures free { FreeLinesAreExact }
{}

/// What is free on a root bus is sent there, and claimed by nothing on it.
pub fn roots_have_what_is_free()
    ensures { FreeOnRootsIsExact }
{}

/// With nothing given a map has its root buses and what is left alone, and nothing is free on a root bus.
pub fn nothing_given_changes_nothing()
    ensures place { NothingIsOutOfPlace }
    ensures outside { NothingIsOutside }
    ensures left { AllLeftAreUnreached }
    ensures free { NothingIsFreeOnRoots }
{}

/// What a bridge takes of a map's lines is unclaimed on its own bus. Where no bridge takes anything there are no such lines.
pub fn taken_lines_are_unclaimed()
    ensures unclaimed { TakenIsUnclaimed }
    ensures none { NothingIsTaken }
{}

/// With nothing told a map has lines of functions alone.
pub fn nothing_told_adds_no_line()
    ensures lines { NoLineIsTold }
    ensures off { BarsAloneAreOff }
{}
