//! Laws of `faults` and `map` where nothing is given or told beside the two texts. This function does nothing: its contract
//! is the laws.
ghost use Rattle.pciplan_tasks.specs.FaultsLaws.{NoMapNamesTheFirst, NothingSaidGivesNothing, NothingSaidTakesNothing, NothingSaidTellsNothing, NothingTakenTellsTheSame, PlainWithNothingGiven};

/// With nothing given and told `faults` tells the list without it, whose first fault is the one that `check` names. Nothing
/// is given where nothing is said of what the host sends and no word takes VGA Enable, ISA Enable or VGA Palette Snoop, and
/// nothing is taken where the word for it isn't said. Nothing is told where there is no third text, or an empty one. Where
/// `map` prints no map it then names the fault that `check` names.
pub fn nothing_given_tells_the_plain_list()
    ensures plain { PlainWithNothingGiven }
    ensures nothing { NothingSaidGivesNothing }
    ensures untaken { NothingSaidTakesNothing }
    ensures same { NothingTakenTellsTheSame }
    ensures told { NothingSaidTellsNothing }
    ensures map { NoMapNamesTheFirst }
{}
