//! What was judged, and how a fault names regions of it.
ghost use Rattle.std.specs.Prelude.{◌≡◌};
ghost use Rattle.pci_spec.specs.Fault.{named_region, named_regions};
ghost use Rattle.judge_spec.specs.Why.{to_move};

use pci_base::slot::Slot;
use pci_base::space::Space;
use pci_claims::given::Given;
use pci_claims::told::Told;
use pci_dump::block::Block;
use pci_faults::named::Name;
use pci_tree::outline::Outline;
use std::alloc::{Allocator, Global};

/// The register of the first told range, behind all registers of functions.
pub const TOLD_FROM: u16 = 256;

/// What was judged: functions with what is given and told beside them, and their probe, whose titles tell of which regions the
/// size isn't known.
#[derive(Drop)]
pub struct Judged<'a, A: Allocator = Global> {
    pub given: &'a Given<'a>,
    pub told: &'a Told<'a>,
    pub outline: &'a Outline<A>,
    pub probe: &'a [Block],
}

/// A region as a fault names it.
#[derive(Clone, Copy, Debug, PartialEq, Eq)]
pub struct RegionName {
    pub slot: Slot,
    /// The byte offset of its register. The told range of line n has 255 + n.
    pub register: u16,
    pub space: Space,
}

/// The region of a space that a fault names.
pub fn region_name(name: Name, space: Space) -> RegionName
    ensures { result ≡ record { slot = name.slot; register = name.register; space = space } }
{
    RegionName {
        slot: name.slot,
        register: name.register,
        space,
    }
}

/// Two regions of a space as a fault names them.
#[derive(Clone, Copy, Debug, PartialEq, Eq)]
pub struct TwoNames {
    pub space: Space,
    pub first: Name,
    pub second: Name,
}

impl TwoNames {
    /// The first one.
    pub fn first_name(&self) -> RegionName
        ensures { result ≡ record {
          slot = self.now.first.slot;
          register = self.now.first.register;
          space = self.now.space;
        } }
    {
        region_name(self.first, self.space)
    }

    /// The second one.
    pub fn second_name(&self) -> RegionName
        ensures { result ≡ record {
          slot = self.now.second.slot;
          register = self.now.second.register;
          space = self.now.space;
        } }
    {
        region_name(self.second, self.space)
    }

    /// The one that could be moved: the second, or the first where the second is a told range.
    pub fn to_move(&self) -> RegionName
        ensures named { named_region result.slot result.register ≡ to_move (named_regions
            self.now.first.slot self.now.first.register self.now.second.slot self.now.second.register) }
        ensures space { result.space ≡ self.now.space }
    {
        if self.second.register < TOLD_FROM {
            self.second_name()
        } else {
            self.first_name()
        }
    }
}

/// Two regions of a space.
pub fn two_names(space: Space, first: Name, second: Name) -> TwoNames
    ensures { result ≡ record { space = space; first = first; second = second } }
{
    TwoNames {
        space,
        first,
        second,
    }
}
