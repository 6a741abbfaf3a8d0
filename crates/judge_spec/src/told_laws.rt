//! Laws of the text of told ranges and of its faults. These functions do nothing: each contract is a law.

ghost use Rattle.judge_spec.specs.ToldLaws.{ToldHaveText, ToldHaveOneText, TextTellsOneRow, ToldTextIsGood, ToldBeginningsAreGood, ToldTextHasNoFault, InputHasOneToldFault, InputIsToldOrHasFault};

/// Ranges whose slots don't fall have one text, and no text tells of two rows of ranges.
pub fn told_ranges_have_one_text()
    ensures some { ToldHaveText }
    ensures one { ToldHaveOneText }
    ensures back { TextTellsOneRow }
{}

/// Each input is a text or has just one fault, and a text has none. A text is good, and so is what a good input begins with.
pub fn inputs_have_one_told_fault()
    ensures good { ToldTextIsGood }
    ensures beginnings { ToldBeginningsAreGood }
    ensures some { InputIsToldOrHasFault }
    ensures one { InputHasOneToldFault }
    ensures none { ToldTextHasNoFault }
{}
