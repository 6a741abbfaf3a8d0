//! Laws of new windows. These functions do nothing: each contract is a law.

ghost use Rattle.settle_spec.specs.WindowLaws.{WindowIsAround, ItemsAreBehind, NewWindowHasRoom, AllNeedsAll};

/// A new window is told by the bus behind its bridge alone, and there is none exactly where that has no item.
pub fn new_windows_are_of_the_bus_behind()
    ensures around { WindowIsAround }
    ensures behind { ItemsAreBehind }
{}

/// What a new window was made around has its places in it.
pub fn new_windows_have_room()
    ensures room { NewWindowHasRoom }
{}

/// A window as large as all of memory has a place where all of memory is free, and a larger one has none.
pub fn all_of_memory_has_one_place()
    ensures all { AllNeedsAll }
{}
