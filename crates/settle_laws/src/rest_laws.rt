//! Laws of what settling leaves alone. These functions do nothing: each contract is a law.

ghost use Rattle.settle_laws.specs.RestLaws.{LeftAloneIsNeverOff, LeftAloneIsOnlySwitchedOn, StayingIsUnshut, StayingMovesNowhere, StayingRests, WhatIsKeptStands};

/// A function whose parts stay with the addresses that they have, as those of the bridges above it do, is only
/// switched on: it loses no bit at any stop, and no register but Command is written. Where only its BARs and ROM
/// stay, and those of the bridges above it, it isn't shut.
pub fn what_stays_is_never_off()
    ensures kept { WhatIsKeptStands }
    ensures writes { LeftAloneIsOnlySwitchedOn }
    ensures stops { LeftAloneIsNeverOff }
    ensures rests { StayingRests }
    ensures moves { StayingMovesNowhere }
    ensures unshut { StayingIsUnshut }
{}
