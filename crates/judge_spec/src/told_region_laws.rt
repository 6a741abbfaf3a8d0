//! Laws of told ranges as lines tell them. These functions do nothing: each contract is a law.

ghost use Rattle.judge_spec.specs.ToldRegionLaws.{RegionsAreNumbered, OffRangesAreExact, HeldAreNotOff};

/// Each told range has the register that names it. Those that are off are told, and none of them is held.
pub fn told_ranges_have_registers()
    ensures numbered { RegionsAreNumbered }
    ensures off { OffRangesAreExact }
    ensures held { HeldAreNotOff }
{}
