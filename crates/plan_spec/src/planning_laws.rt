//! Laws of planning. These functions do nothing: each contract is a law.

ghost use Rattle.plan_spec.specs.PlanningLaws.{CutIsSound, OffIsSound, NoRegionHoldsNothing, IdleClaimNothing, IdleCommandIsFree, MovedIsSystem, MovedIsNested, MovedIsInProfile, MovedHasChains, ProfileDecodes, LargestFirstIsAligned, PlacedFillsItsRange, PlacedTakesOnce, FewWritesEach, WindowIsLeastPower, LaidOutIsSound, RomsCanBeOn, PlacesAreATable, PlannedNumbersAreFinal};
ghost use Rattle.plan_spec.specs.Planning.Laws.{LowerPartIsSafe, OffIsSafe, OffClaimsNothing, BringsNoFault, RaisedIsLeast, FitHasRoom, WindowHolds, ItemsByBehind, NeedBySlots, BehindIsNeed, PlanCanStop, WritesReach, EachWriteChanges, FewWrites, PlanOnItsMachine, StopsOnItsMachine, CanStopAnywhere, CanStopOnceOff, StaysLawful, LawfulOnceClosed, FitsIfNumberDoes, LaidOutIsSafe, HomeBySteps, SingleByRanges, FitMakesTable, TablePlans, TableIsSound, BuildShows, BarShows, RomShows, WindowShows};

/// A sound system stays sound where the functions from a slot on are switched off.
pub fn cuts_of_sound_systems_are_sound()
    ensures sound { CutIsSound }
    ensures off { OffIsSound }
    ensures safe { LowerPartIsSafe }
    ensures safe_off { OffIsSafe }
    ensures claims { OffClaimsNothing }
{}

/// A function without regions may have any Command: it claims nothing, and a sound system stays sound.
pub fn functions_without_regions_may_have_any_command()
    ensures empty { NoRegionHoldsNothing }
    ensures claims { IdleClaimNothing }
    ensures sound { IdleCommandIsFree }
{}

/// What moves address bits and Command bits 0 and 1 alone keeps bus numbers, profile and lists.
pub fn moving_keeps_the_rest()
    ensures system { MovedIsSystem }
    ensures nested { MovedIsNested }
    ensures profile { MovedIsInProfile }
    ensures chains { MovedHasChains }
    ensures fault { BringsNoFault }
    ensures decodes { ProfileDecodes }
{}

/// Sizes that are placed largest first stay aligned, leave no gap and take no address twice. A start
/// is the least multiple from the pool's first address on, and what fits ends in the pool.
pub fn largest_first_leaves_no_gap()
    ensures aligned { LargestFirstIsAligned }
    ensures filled { PlacedFillsItsRange }
    ensures once { PlacedTakesOnce }
    ensures start { RaisedIsLeast }
    ensures room { FitHasRoom }
{}

/// A window of the least power of two that its need goes into holds what stands behind its bridge.
pub fn windows_hold_what_is_behind()
    ensures least { WindowIsLeastPower }
    ensures holds { WindowHolds }
    ensures items { ItemsByBehind }
    ensures slots { NeedBySlots }
    ensures behind { BehindIsNeed }
{}

/// The writes between two states may stop anywhere from the closing ones on, and from a sound start
/// anywhere at all. They lead to the planned state, each of them changes something, and there are at
/// most 9 for a device and 11 for a bridge.
pub fn writes_can_stop_anywhere()
    ensures stop { PlanCanStop }
    ensures reach { WritesReach }
    ensures each { EachWriteChanges }
    ensures few { FewWrites }
    ensures few_each { FewWritesEach }
    ensures machine { PlanOnItsMachine }
    ensures machine_stop { StopsOnItsMachine }
{}

/// Writes that close from the highest slot down, set registers, then open from the lowest slot up can
/// stop anywhere.
pub fn staged_writes_can_stop_anywhere()
    ensures safe { CanStopAnywhere }
    ensures safe_off { CanStopOnceOff }
    ensures lawful { StaysLawful }
    ensures lawful_closed { LawfulOnceClosed }
    ensures fitting { FitsIfNumberDoes }
{}

/// A system is sound where everything lies in its pool and in the windows above it, apart from what is
/// beside it.
pub fn laid_out_systems_are_sound()
    ensures sound { LaidOutIsSound }
    ensures roms { RomsCanBeOn }
    ensures safe { LaidOutIsSafe }
    ensures home { HomeBySteps }
    ensures single { SingleByRanges }
{}

/// Where everything fits, placing largest first gives a system that is planned and sound.
pub fn placing_makes_sound_systems()
    ensures places { PlacesAreATable }
    ensures fits { FitMakesTable }
    ensures plans { TablePlans }
    ensures sound { TableIsSound }
    ensures planned { PlannedNumbersAreFinal }
{}

/// Registers that are written as planned show the planned ranges.
pub fn registers_show_their_places()
    ensures built { BuildShows }
    ensures bar { BarShows }
    ensures rom { RomShows }
    ensures window { WindowShows }
{}
