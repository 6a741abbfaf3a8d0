//! Laws of settling with room behind slots. These functions do nothing: each contract is a law.

ghost use Rattle.settle_answer_laws.specs.SparedLaws.{LawfulCanBeAsked, SparedCanSettle, SparedIsSettled};

/// What is asked of an admitted dump with lines that are lawful can be asked for.
pub fn told_settling_can_be_asked()
    ensures asked { LawfulCanBeAsked }
{}

/// What is settled can be settled so, and settling comes to the writes.
pub fn what_is_spared_is_settled()
    ensures can { SparedCanSettle }
    ensures settled { SparedIsSettled }
{}
