//! Laws of settling beside planning. These functions do nothing: each contract is a law.

ghost use Rattle.settle_laws.specs.PlanLaws.{WindowsAreNoLarger, SettlesWherePlanned, CanSettleWherePlanned};

/// Where planning has room for everything, placing all anew in its pools has it too: no new window is larger
/// than planning's, nothing lacks room, and so all can be settled.
pub fn settling_has_room_where_planning_has()
    ensures windows { WindowsAreNoLarger }
    ensures room { SettlesWherePlanned }
    ensures can { CanSettleWherePlanned }
{}
