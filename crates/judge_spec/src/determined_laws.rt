//! Laws: a relation that defines a text has at most one. These functions do nothing: each contract is a law.

ghost use Rattle.judge_spec.specs.DeterminedLaws.{WhyIsDetermined, KnownWhyIsDetermined, PlainWhyIsDetermined, ListIsDetermined, PlainListIsDetermined, TextIsDetermined, PlainTextIsDetermined};

/// Two texts of the lines behind one fault are equal.
pub fn reasons_are_determined()
    ensures why { WhyIsDetermined }
    ensures known { KnownWhyIsDetermined }
    ensures plain { PlainWhyIsDetermined }
{}

/// Two lists of all faults of a dump and its probe are equal, and so are two texts of them, with reasons or without.
pub fn lists_are_determined()
    ensures list { ListIsDetermined }
    ensures plain_list { PlainListIsDetermined }
    ensures text { TextIsDetermined }
    ensures plain_text { PlainTextIsDetermined }
{}
