//! Laws of parts that hold and stay. These functions do nothing: each contract is a law.

ghost use Rattle.settle_laws.specs.Holding.{HoldsByBus, HoldsAlone, StaysOnRoot, StaysByBus};

/// Which parts hold is told by what is on the bus behind them, and by nothing else.
pub fn holding_is_told_once()
    ensures bus { HoldsByBus }
    ensures alone { HoldsAlone }
{}

/// Which parts stay is told by the window over them.
pub fn staying_is_told_by_the_window_over()
    ensures root { StaysOnRoot }
    ensures behind { StaysByBus }
{}
