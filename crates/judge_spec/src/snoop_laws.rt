//! Laws of palette parts. These functions do nothing: each contract is a law.

ghost use Rattle.judge_spec.specs.SnoopLaws.{PaletteHasNoMemory, NoPaletteWithoutPart, SnoopLeavesForwards, SnoopPassesNothing, ForwardsWithNeither, PassesWithNeither};

/// A palette part claims ports alone, and passes nothing. A function without one claims nothing by it, and forwards what it
/// does where nobody has one.
pub fn snoop_leaves_others_alone()
    ensures memory { PaletteHasNoMemory }
    ensures claims { NoPaletteWithoutPart }
    ensures forwards { SnoopLeavesForwards }
    ensures passes { SnoopPassesNothing }
{}

/// Without palette parts and without what bridges take a bridge forwards and passes by its windows and its legacy part.
pub fn neither_changes_a_bridge()
    ensures forwards { ForwardsWithNeither }
    ensures passes { PassesWithNeither }
{}
