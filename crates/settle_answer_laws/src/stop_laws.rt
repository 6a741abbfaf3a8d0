//! Laws of stops with what is given. These functions do nothing: each contract is a law.

ghost use Rattle.settle_answer_laws.specs.StopLaws.{GivenSettlingCanStop, GivenSparingCanStop};

/// Where the settled system is sound with what is given, so is what is left of it wherever the writes may stop.
pub fn settling_can_stop_with_what_is_given()
    ensures kept { GivenSettlingCanStop }
    ensures sparing { GivenSparingCanStop }
{}
