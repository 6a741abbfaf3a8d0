//! The pools of addresses that regions are placed in.
ghost use Rattle.std.specs.Prelude.{◌≡◌};
ghost use Rattle.plan_spec.specs.Plan.{are_bad, pool_of};
ghost use Rattle.pci_base.specs.Ranges.{decoded_range_of};
ghost use Rattle.pci_base.specs.WindowKinds.{kind_value};
ghost use Rattle.pci_place.specs.Pools.{pools_value};

use pci_base::range::Range;
use pci_base::window_kind::WindowKind;

/// The class of a region, which says what pool it is placed in: that of the windows which lead to it. Prefetchable BARs
/// to which prefetchable windows lead all the way are `Prefetchable`, and all other memory is `Memory`.
pub use pci_base::window_kind::WindowKind as Class;

/// The highest address of a pool of I/O, and of one of memory.
const IO_LAST: u64 = 0xffff;

const MEMORY_LAST: u64 = 0xffff_ffff;

/// A pool of addresses for each class, both ends of each inclusive.
#[derive(Clone, Copy, Debug, PartialEq, Eq)]
pub struct Pools {
    pub io: Range,
    pub mem: Range,
    pub pref: Range,
}

impl Pools {
    /// The pool of a class.
    pub fn of(&self, class: WindowKind) -> Range
        ensures { decoded_range_of result ≡ pool_of (pools_value self.now) (kind_value class) }
    {
        match class {
            WindowKind::Io => self.io,
            WindowKind::Memory => self.mem,
            WindowKind::Prefetchable => self.pref,
        }
    }

    /// Whether the pools are refused: one is backward, I/O ends above FFFFh or memory above FFFFFFFFh, or memory and
    /// prefetchable memory share an address.
    pub fn are_bad(&self) -> bool
        ensures { result ≡ are_bad (pools_value self.now) }
    {
        self.io.last < self.io.first
            || self.mem.last < self.mem.first
            || self.pref.last < self.pref.first
            || IO_LAST < self.io.last
            || MEMORY_LAST < self.mem.last
            || (self.mem.first <= self.pref.last && self.pref.first <= self.mem.last)
    }
}
