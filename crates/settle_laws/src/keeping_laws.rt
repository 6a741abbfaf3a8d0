//! Laws of settling beside what is kept. These functions do nothing: each contract is a law.

ghost use Rattle.settle_laws.specs.Keeping.AgainLaws.{SettledPartsStand};
ghost use Rattle.settle_laws.specs.Keeping.BusLaws.{PlacingIsByBus, RootsAreOne};
ghost use Rattle.settle_laws.specs.Keeping.PlacesLaws.{EachBusIsPlaced, PartsGetPlaces, PlacesAreOfOthers, PlacesAreInLists, PlacesAreInWindows, KeepingPlacesAreApart};
ghost use Rattle.settle_laws.specs.Keeping.SoundLaws.{SettledShowsPlaces, SettledOpensPlaces, SettledClosesTheRest, SettlingKeepingMoves, SettledIsInProfile, BridgesAreEnabled, SettledKeepingIsSound, SettlingKeepingCanStop, SettlingSettles};
ghost use Rattle.settle_laws.specs.Keeping.WriteLaws.{FewSettleWritesEach, UnshutIsNeverOff};

/// Places are told by those on the bus of the bridge above, and all roots are one bus.
pub fn places_are_told_bus_by_bus()
    ensures bus { PlacingIsByBus }
    ensures roots { RootsAreOne }
{}

/// Where nothing lacks room on the roots, nothing does: each BAR and ROM that is looked at stays or gets a
/// place, and none does both.
pub fn only_roots_lack_room()
    ensures placed { EachBusIsPlaced }
    ensures parts { PartsGetPlaces }
    ensures others { PlacesAreOfOthers }
{}

/// What stays or gets a place ends in the lists that its root has, or behind a bridge in the bridge's window
/// of its class, and apart from what is beside it.
pub fn places_are_in_windows_and_apart()
    ensures listed { PlacesAreInLists }
    ensures inside { PlacesAreInWindows }
    ensures apart { KeepingPlacesAreApart }
{}

/// Settling changes address bits and Command's enables of I/O and memory alone, and keeps the profile.
pub fn settling_moves_addresses()
    ensures moved { SettlingKeepingMoves }
    ensures profile { SettledIsInProfile }
{}

/// Registers show what stays and the new places, and other windows are closed.
pub fn settled_registers_show_places()
    ensures shows { SettledShowsPlaces }
    ensures opens { SettledOpensPlaces }
    ensures closes { SettledClosesTheRest }
{}

/// What settling comes to is sound, and so is what is left of it wherever its writes may stop.
pub fn settling_is_sound()
    ensures enabled { BridgesAreEnabled }
    ensures sound { SettledKeepingIsSound }
    ensures stop { SettlingKeepingCanStop }
    ensures settles { SettlingSettles }
{}

/// What is settled stands where it is.
pub fn settled_parts_stand()
    ensures { SettledPartsStand }
{}

/// Each function is written a bounded number of times, and what isn't shut is never off.
pub fn settling_writes_little()
    ensures few { FewSettleWritesEach }
    ensures on { UnshutIsNeverOff }
{}
