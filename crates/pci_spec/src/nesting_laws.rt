//! Laws of bus numbers (Bridge 1.2, 3.2.5). These functions do nothing: each contract is a law.

ghost use Rattle.pci_spec.specs.NestingLaws.{BusOrderByNumber, ApartSharesNoBus, SharedBusIsBehindBoth, InsideIsBehindBoth, StrictlyInsideIsOneWay, RootIsListed, NestingFollows, NestedHasNoBusFault, OneWayLeadsToABus, AWayLeadsToEachFunction, BusesRiseOnAWay, BehindIsOnTheWay, WaysComeFromLowerSlots};

/// What the tests on bus ranges mean, bus by bus.
pub fn ranges_are_of_buses()
    ensures order { BusOrderByNumber }
    ensures apart { ApartSharesNoBus }
    ensures shared { SharedBusIsBehindBoth }
    ensures inside { InsideIsBehindBoth }
    ensures strictly { StrictlyInsideIsOneWay }
    ensures root { RootIsListed }
{}

/// Bus ranges nest exactly where no bridge has a bus-range fault and no function is an orphan.
pub fn nesting_follows()
    ensures from_no_fault { NestingFollows }
    ensures to_no_fault { NestedHasNoBusFault }
{}

/// Where bus ranges nest, the bridges that lead from the roots to a bus are settled.
pub fn one_way_leads_to_a_bus()
    ensures one { OneWayLeadsToABus }
    ensures there { AWayLeadsToEachFunction }
    ensures rising { BusesRiseOnAWay }
    ensures by_number { BehindIsOnTheWay }
    ensures lower { WaysComeFromLowerSlots }
{}
