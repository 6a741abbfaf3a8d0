//! Laws of settling where windows grow. These functions do nothing: each contract is a law.

ghost use Rattle.settle_laws.specs.GrowingLaws.{SettledGrowingIsSound, SettlingGrowingCanStop, FewGrowingWritesEach, AnewNothingGrows, SettlingGrowingAgainWritesNothing};

/// What settling comes to where windows grow is sound, and so is what is left of it wherever its writes may stop,
/// of which each function has few.
pub fn settled_growing_is_sound()
    ensures sound { SettledGrowingIsSound }
    ensures stop { SettlingGrowingCanStop }
    ensures few { FewGrowingWritesEach }
{}

/// What is settled where windows grow is settled again by no write.
pub fn settling_growing_again_writes_nothing()
    ensures { SettlingGrowingAgainWritesNothing }
{}

/// Where all is placed anew no window grows.
pub fn nothing_grows_anew()
    ensures { AnewNothingGrows }
{}
