//! A line of `/proc/ioports` or `/proc/iomem` that tells of a bus.
ghost use Rattle.std.specs.Prelude.{◌≡◌, Some, IfSome};
ghost use Rattle.pci_here.specs.declared.bus_line.BusRange.{BusRange};
ghost use Rattle.pci_here.specs.BusLine.{IsBusLine};

use crate::bus::{Bus, bus_of_name};
use pci_base::range::Range;
use pciplan_lists::pool_word::pool_of_word;

/// What stands between the addresses of a line and its bus, behind a first blank.
const BUS: &str = ": PCI Bus ";

/// Addresses that go to a bus.
#[derive(Clone, Copy, Debug, PartialEq, Eq)]
pub struct BusRange {
    pub bus: Bus,
    pub range: Range,
}

/// What a line `F-L : PCI Bus DDDD:bb` tells, behind any number of blanks. There is nothing of any other line.
pub fn bus_range_of(line: &str) -> Option<BusRange>
    ensures line { IfSome result (λ range. IsBusLine line.now range) }
    ensures only { (range : BusRange) → IsBusLine line.now range → result ≡ Some range }
{
    let (addresses, rest) = line.trim_start_matches(' ').split_once(' ')?;
    let bus = bus_of_name(rest.strip_prefix(BUS)?)?;
    let range = pool_of_word(addresses)?;
    Some(BusRange { bus, range })
}
