//! Laws of settling with room behind slots. These functions do nothing: each contract is a law.

ghost use Rattle.settle_laws.specs.SparingLaws.{EndingIsByBus, SparedIsByBus, WishesChangeRoomAlone, GrantedCanSettle, SettledSparingIsSound, SettlingSparingCanStop, SparesAreAnswered, SparingSettlesOnce, SparingSettlesAgain, AnewWishesAgain, AnewWishesSettleOnce, AnewResultCanSettle};
ghost use Rattle.settle_spec.specs.SpareLaws.{NoSlotsNoSpares, SparesRefuseNothing, NothingGoesForSpares, SparesSetNoCommand, SparesHaveRoom};

/// Room behind a slot is told by the window over its bridge, bus by bus.
pub fn wishes_are_told_bus_by_bus()
    ensures ending { EndingIsByBus }
    ensures spare { SparedIsByBus }
{}

/// Wishes change nothing of what is kept but the room that is kept free, and all can be settled with those
/// that are granted.
pub fn granted_wishes_can_be_settled()
    ensures alike { WishesChangeRoomAlone }
    ensures can { GrantedCanSettle }
{}

/// What settling comes to with room behind slots is sound, and so is what is left of it wherever its writes
/// may stop.
pub fn settled_sparing_is_sound()
    ensures sound { SettledSparingIsSound }
    ensures stop { SettlingSparingCanStop }
{}

/// Without slots all is settled as where no room is wanted. With them all stays that stays without, and Command is that
/// without slots.
pub fn nothing_goes_for_spares()
    ensures none { NoSlotsNoSpares }
    ensures stays { NothingGoesForSpares }
    ensures command { SparesSetNoCommand }
{}

/// What is refused with slots is refused without them, for the same reason.
pub fn spares_refuse_nothing()
    ensures { SparesRefuseNothing }
{}

/// The spare behind a slot is denied, or else its window has room for it in the result. Where it has none, none could be
/// made beside all that is kept.
pub fn spares_have_room()
    ensures room { SparesHaveRoom }
    ensures answered { SparesAreAnswered }
{}

/// What is settled is settled again by no write, and the same spares are denied. Where all is placed anew and something is
/// fixed, settling again can be refused, for what is fixed alone.
pub fn sparing_settles_once()
    ensures once { SparingSettlesOnce }
    ensures again { SparingSettlesAgain }
{}

/// Where all is placed anew, wishes come to the same beside their result, and what is settled so is
/// settled so again by no write.
pub fn anew_wishes_come_to_the_same()
    ensures same { AnewWishesAgain }
    ensures once { AnewWishesSettleOnce }
    ensures can { AnewResultCanSettle }
{}
