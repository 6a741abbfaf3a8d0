//! A law of classes. This function does nothing: its contract is a law.

ghost use Rattle.settle_spec.specs.ClassLaws.{ClassIsPlanned};

/// Where nothing stays, classes are those of planning.
pub fn classes_are_planned()
    ensures planned { ClassIsPlanned }
{}
