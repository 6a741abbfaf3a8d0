//! Laws: a system has at most one map. These functions do nothing: each contract is a law.

ghost use Rattle.judge_spec.specs.MapDeterminedLaws.{LinesAreDetermined, MapIsDetermined, MapTextIsDetermined};

/// A system has at most one map with what is given and told, and at most one text of it.
pub fn maps_are_determined()
    ensures lines { LinesAreDetermined }
    ensures map { MapIsDetermined }
    ensures text { MapTextIsDetermined }
{}
