//! A law of functions that are live. This function does nothing: its contract is a law.

ghost use Rattle.settle_spec.specs.LiveLaws.{LiveIsByBus};

/// A function is live by what is on the bus behind it.
pub fn live_is_told_by_the_bus_behind()
    ensures { LiveIsByBus }
{}
