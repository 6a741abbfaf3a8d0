//! Laws of windows that grow. These functions do nothing: each contract is a law.

ghost use Rattle.settle_laws.specs.Reach.{ReachesAreAround, ReachesNest, ReachesAreOff};
ghost use Rattle.settle_laws.specs.There.{ThereIsInReach, ThereIsApart, ThereByBus, ThereAlone, ComesToHoldWhatIsThere};

/// The reach of a window that stands is pages around it, in that of the window above, off what stands beside it.
pub fn reaches_are_around_windows()
    ensures around { ReachesAreAround }
    ensures nest { ReachesNest }
    ensures off { ReachesAreOff }
{}

/// What is there where windows grow is in its reach, off what is there beside it, and a window holds what is there behind it.
pub fn what_is_there_is_in_reach()
    ensures within { ThereIsInReach }
    ensures apart { ThereIsApart }
    ensures holds { ComesToHoldWhatIsThere }
{}

/// What is there is told bus by bus, and on a bus part by part, and by nothing else.
pub fn what_is_there_is_told_by_bus()
    ensures bus { ThereByBus }
    ensures alone { ThereAlone }
{}
