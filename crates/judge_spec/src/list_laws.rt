//! Laws of lists of faults. These functions do nothing: each contract is a law.

ghost use Rattle.judge_spec.specs.ListLaws.{SameList, SameTextOfAll, FirstOfListIsFirst};
ghost use Rattle.judge_spec.specs.Numbered.{AllOfFour};
ghost use Rattle.judge_spec.specs.ToldNumbered as told;

/// The faults of each number, one list behind the other, are all of judging, whatever is told.
pub fn lists_of_numbers_are_all()
    ensures given { AllOfFour }
    ensures told { told.AllOfFour }
{}

/// With nothing given the list of all faults is the one without it, and so is its text; the first fault of that list is the
/// one that a verdict names.
pub fn nothing_given_changes_no_list()
    ensures list { SameList }
    ensures text { SameTextOfAll }
    ensures first { FirstOfListIsFirst }
{}
