//! Laws of settling with told ranges. These functions do nothing: each contract is a law.

ghost use Rattle.settle_laws.specs.ToldSoundLaws.{SettledIsSound, SettlingCanStop, AlwaysIsReached, SettledCanSettle, SettledStandingIsSound, ToldGrowingIsSound, ToldSparingIsSound, SettlingStandingCanStop, ToldGrowingCanStop, ToldSparingCanStop, FewSparingWritesEach, FixedIsNotWritten, SettlingMoves};
ghost use Rattle.settle_laws.specs.ToldSparingLaws.{SparesRefuseNoMore, WishedIsSettled, ToldSparingRefusesNothing, ToldSparingSetsNoCommand, SparingKeepsAll, ToldSparingLeavesRoom};

/// Where what is told is kept, what settling comes to is sound as told, and so is what is left of it wherever its
/// writes may stop. A range that is marked `always` is reached at each stop, whatever the start.
pub fn settled_is_sound_as_told()
    ensures sound { SettledIsSound }
    ensures stop { SettlingCanStop }
    ensures always { AlwaysIsReached }
{}

/// Where settling ends in writes what is told is kept. So the result is sound as told: as it stands, where windows grow,
/// and with room behind slots.
pub fn what_is_settled_is_sound_as_told()
    ensures can { SettledCanSettle }
    ensures standing { SettledStandingIsSound }
    ensures growing { ToldGrowingIsSound }
    ensures sparing { ToldSparingIsSound }
{}

/// And so is what is left of it wherever its writes may stop.
pub fn settling_can_stop_as_told()
    ensures standing { SettlingStandingCanStop }
    ensures growing { ToldGrowingCanStop }
    ensures sparing { ToldSparingCanStop }
{}

/// What is settled without slots is settled with them, and its writes are those beside the wishes: no told range is refused
/// for a wish. What is refused with slots is refused without them, for the same reason.
pub fn spares_refuse_no_told_range()
    ensures settled { SparesRefuseNoMore }
    ensures wished { WishedIsSettled }
    ensures refused { ToldSparingRefusesNothing }
{}

/// Command is that without slots, and what stays has all addresses that it had. The spare behind a slot is denied, or else
/// its window has room for it in the result.
pub fn nothing_goes_for_spares_beside_told_ranges()
    ensures command { ToldSparingSetsNoCommand }
    ensures addresses { SparingKeepsAll }
    ensures room { ToldSparingLeavesRoom }
{}

/// Address bits and Command's enables of I/O and memory alone change, and no fixed function is written. Each function has
/// few writes.
pub fn settling_writes_what_it_may()
    ensures few { FewSparingWritesEach }
    ensures fixed { FixedIsNotWritten }
    ensures moved { SettlingMoves }
{}
