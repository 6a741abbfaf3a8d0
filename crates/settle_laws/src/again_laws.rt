//! Laws of settling once more. These functions do nothing: each contract is a law.

ghost use Rattle.settle_laws.specs.AgainLaws.{CanSettleAgain, SettledPartsStay, PartsEndWhereTheyEnded, SettledStays, SettlingAgainWritesNothing, StandingStartIsSettled};

/// What is settled can be settled again, and then everything ends where it is.
pub fn places_stay()
    ensures again { CanSettleAgain }
    ensures stay { SettledPartsStay }
    ensures same { PartsEndWhereTheyEnded }
{}

/// Settling what is settled changes nothing, and writes nothing; nor does settling a sound start in which
/// every part stands, and I/O is off where an I/O BAR is left.
pub fn settled_stays()
    ensures stays { SettledStays }
    ensures none { SettlingAgainWritesNothing }
    ensures start { StandingStartIsSettled }
{}
