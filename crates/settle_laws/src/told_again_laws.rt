//! Laws of settling once more with told ranges. These functions do nothing: each contract is a law.

ghost use Rattle.settle_laws.specs.ToldAgainLaws.{ToldPartsStand, ToldIsSettledAlready, ToldAgainWritesNothing, ToldGrowingAgainWritesNothing, HeldGrowingAgainWritesNothing, ToldSparingSettlesOnce, ToldSparesHaveRoom};

/// What is settled stands where it is, unless all is placed anew. Settled again nothing is written.
pub fn told_ranges_settle_once()
    ensures parts { ToldPartsStand }
    ensures already { ToldIsSettledAlready }
    ensures again { ToldAgainWritesNothing }
    ensures whole { ToldGrowingAgainWritesNothing }
    ensures held { HeldGrowingAgainWritesNothing }
{}

/// With room behind slots nothing is written then either, and the same spares are denied. What isn't denied has
/// room off lines.
pub fn told_sparing_settles_once()
    ensures once { ToldSparingSettlesOnce }
    ensures room { ToldSparesHaveRoom }
{}
