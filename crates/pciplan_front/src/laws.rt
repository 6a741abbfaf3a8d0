//! Laws of what is explained. These functions do nothing: their contracts are the laws.

ghost use Rattle.pciplan_front.specs.Laws.{NumbersName, NamesName, FaultsHaveHeadings, ToldFaultsHaveHeadings, ProbeFaultsHaveHeadings, PlanFaultsHaveHeadings};

/// A fault is found by its number, and a command by its name.
pub fn numbers_and_names_are_found()
    ensures numbers { NumbersName }
    ensures names { NamesName }
{}

/// What is printed of a fault begins with the number and the name of one that is explained.
pub fn printed_faults_are_explained()
    ensures faults { FaultsHaveHeadings }
    ensures told { ToldFaultsHaveHeadings }
    ensures probes { ProbeFaultsHaveHeadings }
    ensures plans { PlanFaultsHaveHeadings }
{}
