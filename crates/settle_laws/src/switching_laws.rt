//! Laws of what Command enables where each part stands. These functions do nothing: each contract is a law.

ghost use Rattle.settle_laws.specs.Switching.{StandingSystemIsSound, SoundIsUncut, StandingIsSettled, SwitchedStands, EnabledIsUncut, PlannedIsStanding, SettledIsStanding, SettledAnewIsSettled};

/// A system in which each part stands, and I/O is off where an I/O BAR is left, is sound exactly if what is
/// on has all bridges above on; and then it is settled.
pub fn standing_systems_are_sound()
    ensures sound { StandingSystemIsSound }
    ensures uncut { SoundIsUncut }
    ensures settled { StandingIsSettled }
{}

/// Whatever Command enables in such a system, each part still stands; and where it enables all parts,
/// bridges above what is on are on.
pub fn standing_systems_can_be_switched()
    ensures stand { SwitchedStands }
    ensures enabled { EnabledIsUncut }
{}

/// Planning and settling lead to such systems.
pub fn plans_and_settling_lead_to_standing_systems()
    ensures planned { PlannedIsStanding }
    ensures settled { SettledIsStanding }
    ensures again { SettledAnewIsSettled }
{}
