//! Pools as C has them.
ghost use Rattle.std.specs.Prelude.{◌≡◌};
ghost use Rattle.pci_place.specs.Pools.{pools_value};
ghost use Rattle.pciplan_c.specs.PlanAnswers.{pools_of};

use pci_base::range::Range;
use pci_place::pools::Pools;

/// A pool of addresses for I/O, memory and prefetchable memory, both ends of each inclusive.
#[repr(C)]
#[derive(Clone, Copy, Debug, PartialEq, Eq)]
pub struct PoolsOfC {
    pub io_first: u64,
    pub io_last: u64,
    pub mem_first: u64,
    pub mem_last: u64,
    pub pref_first: u64,
    pub pref_last: u64,
}

impl PoolsOfC {
    /// The pools as planning takes them.
    pub fn pools(&self) -> Pools
        ensures { pools_value result ≡ pools_of self.now }
    {
        Pools {
            io: Range {
                first: self.io_first,
                last: self.io_last,
            },
            mem: Range {
                first: self.mem_first,
                last: self.mem_last,
            },
            pref: Range {
                first: self.pref_first,
                last: self.pref_last,
            },
        }
    }
}
