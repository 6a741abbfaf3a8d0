//! Laws of settling by words, as it is answered. These functions do nothing: each contract is a law.

ghost use Rattle.settle_answer_laws.specs.AnswerLaws.{AnswersCanStop, DoneIsSettled, GivenStays};

/// An answer that says that settling is done is one of a settling.
pub fn settled_answers_are_done()
    ensures settled { DoneIsSettled }
{}

/// The words take each dump between the printed writes as sound, once all that close are made. What is given beside it is what
/// is given beside the dump before all writes.
pub fn answers_can_stop()
    ensures stops { AnswersCanStop }
    ensures given { GivenStays }
{}
