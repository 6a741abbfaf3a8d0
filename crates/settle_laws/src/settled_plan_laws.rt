//! Laws of settling a planned system. These functions do nothing: each contract is a law.

ghost use Rattle.settle_laws.specs.SettledPlans.{LaidOutStands, LaidOutLeavesNothing, LaidOutIsSettled, PlannedIsLaidOut, PlannedIsSettled, PlannedIsSettledInItsPools};

/// Where everything lies in its pool and in the windows above it, each part stands, no I/O BAR is left,
/// and settling writes nothing.
pub fn laid_out_systems_are_settled()
    ensures stands { LaidOutStands }
    ensures left { LaidOutLeavesNothing }
    ensures settled { LaidOutIsSettled }
{}

/// What a plan comes to is such a system, so settling it in lists with the plan's pools writes nothing.
pub fn planned_systems_are_settled()
    ensures laid_out { PlannedIsLaidOut }
    ensures settled { PlannedIsSettled }
    ensures pools { PlannedIsSettledInItsPools }
{}
