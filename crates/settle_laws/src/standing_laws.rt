//! Laws of parts that stand where they are. These functions do nothing: each contract is a law.

ghost use Rattle.settle_laws.specs.Order.{RanksRise};
ghost use Rattle.settle_laws.specs.Standing.{StandsByItself, StandsAlone, AreApartWhereBeside, LieInRootLists, LieInWindows};

/// Which parts stand is told by which stand on lower buses and which of those before them do, and by nothing else.
pub fn standing_is_told_once()
    ensures itself { StandsByItself }
    ensures alone { StandsAlone }
{}

/// Parts that stand share no address with what is beside them, and lie where they are reached.
pub fn standing_parts_are_apart()
    ensures apart { AreApartWhereBeside }
    ensures root { LieInRootLists }
    ensures window { LieInWindows }
{}

/// The parts of a system are listed by rising slots and registers.
pub fn parts_are_listed_by_rank()
    ensures { RanksRise }
{}
