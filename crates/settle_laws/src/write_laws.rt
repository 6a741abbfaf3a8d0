//! Laws of the writes of settling. These functions do nothing: each contract is a law.

ghost use Rattle.settle_laws.specs.WriteLaws.{SettlingOnItsMachine, SettledNeedsNoWrite, UnshutIsOnlySwitchedOn, UnshutStays, SettledKeepsTheRest};

/// The writes of settling do to a machine what they do to the system.
pub fn settling_settles()
    ensures { SettlingOnItsMachine }
{}

/// What is settled is not written, and a function that is shut nowhere and keeps its registers is only
/// switched on, and stays as it is until then.
pub fn unshut_is_only_switched_on()
    ensures none { SettledNeedsNoWrite }
    ensures open { UnshutIsOnlySwitchedOn }
    ensures stays { UnshutStays }
{}

/// Settling changes address registers, and of Command the enables of I/O and memory, and nothing else.
pub fn settling_keeps_the_rest()
    ensures { SettledKeepsTheRest }
{}
