//! Laws of numbering. These functions do nothing: each contract is a law.

ghost use Rattle.pci_number.specs.NumberingLaws.{WalkIsInOrder, SameIsWalkable, NumberedIsSingle, RoomyIsSingle, SpreadIsSingle, RootsAreSingle, NoRoomIsInOrder, NoSpareIsInOrder, SpareStays, FoundAnswersOnce, RoomyAnswersOnce, AmongRootsAnswersOnce, EnoughForAll, NumbersAreOne, AllNumbersAreOne, RoomyNumbersAreOne, AllRoomyNumbersAreOne, ListedIsNested, ListedHasNoBusFault, RoomyIsNested, RoomyHasNoBusFault};

/// On a board whose bridges are numbered in the order of the walk each access is answered once at
/// most, and also where numbers are kept free, while they are given, or where there are several
/// roots.
pub fn numbered_boards_are_single()
    ensures single { NumberedIsSingle }
    ensures roomy { RoomyIsSingle }
    ensures spread { SpreadIsSingle }
    ensures roots { RootsAreSingle }
{}

/// Where no number is kept free the bridges have the numbers above their root in the order of the
/// walk.
pub fn bridges_are_numbered_in_order()
    ensures walk { WalkIsInOrder }
    ensures same { SameIsWalkable }
    ensures order { NoRoomIsInOrder }
{}

/// What is kept free behind hot-plug slots is room in which no number is given. Where it is none,
/// the bridges have the numbers above their root, and it doesn't hang on the numbers that a bridge
/// has.
pub fn spare_buses_are_room()
    ensures none { NoSpareIsInOrder }
    ensures stays { SpareStays }
{}

/// The numbers of a board hang on its nodes alone, and not on the numbers that were there before.
pub fn numbers_are_determined()
    ensures reached { NumbersAreOne }
    ensures all { AllNumbersAreOne }
    ensures roomy { RoomyNumbersAreOne }
    ensures all_roomy { AllRoomyNumbersAreOne }
{}

/// What a walk of a numbered board lists has bus ranges that nest, and none of the faults of bus
/// numbers.
pub fn listed_functions_nest()
    ensures nested { ListedIsNested }
    ensures no_fault { ListedHasNoBusFault }
    ensures roomy { RoomyIsNested }
    ensures no_roomy_fault { RoomyHasNoBusFault }
{}

/// On a numbered board each node that the walk finds answers exactly one access, also where there
/// are other roots.
pub fn nodes_that_are_found_answer_once()
    ensures once { FoundAnswersOnce }
    ensures roomy { RoomyAnswersOnce }
    ensures among { AmongRootsAnswersOnce }
{}

/// Where no number is kept free, a bridge is without one exactly where there are more bridges than
/// numbers.
pub fn numbers_run_out_where_bridges_are_more()
    ensures enough { EnoughForAll }
{}
