//! Laws of what numbering leaves. These functions do nothing: each contract is a law.

ghost use Rattle.pci_number.specs.Again.{NumbersStand};
ghost use Rattle.pci_number.specs.Calls.{RootsGetNumbers, RootsHaveNoBusFault, RootsGetSingle, RootsAnswerOnce};
ghost use Rattle.pci_number.specs.Left.{OneRootIsNumbered, AloneHasNoBusFault, NoneFreeInOrder, NoneFreeRunOut, FoundAnswersOnceOnBoard};

/// Numbered again up to the same last bus, the same is answered and the same numbers stand.
pub fn numbers_stand()
    ensures stand { NumbersStand }
{}

/// Where numbering answers `Numbered`, the root is numbered and the others are as they were. Of a
/// board with no other root what a walk then lists has none of the faults of bus numbers.
pub fn numbered_root_has_no_bus_fault()
    ensures one { OneRootIsNumbered }
    ensures alone { AloneHasNoBusFault }
{}

/// Where no numbers are kept free, the n-th bridge behind the root, in the order of the walk, has
/// the n-th number above it, and a bridge is without one exactly where there are more bridges than
/// numbers.
pub fn numbers_are_in_order()
    ensures order { NoneFreeInOrder }
    ensures run_out { NoneFreeRunOut }
{}

/// Where numbering answers, each node that a walk finds behind the root answers one access, and no
/// other, whatever is behind other roots.
pub fn nodes_that_are_found_answer_once()
    ensures once { FoundAnswersOnceOnBoard }
{}

/// Where the last bus of each root is below the next root, and numbering answers `Numbered` for one
/// root after another, in whatever order, each bridge of the board has its numbers in the end, what
/// a walk then lists has none of the faults of bus numbers, at most one node answers each access,
/// and each node that a walk finds answers one.
pub fn roots_are_numbered_one_by_one()
    ensures numbers { RootsGetNumbers }
    ensures no_fault { RootsHaveNoBusFault }
    ensures single { RootsGetSingle }
    ensures once { RootsAnswerOnce }
{}
