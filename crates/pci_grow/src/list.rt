//! The first place in the ranges of a list that a root has, found without a copy of them.
ghost use Rattle.std.specs.Prelude.{◌≡◌, ◌<◌, ◌^◌, map, IfSome};
ghost use Rattle.plan_spec.specs.Place.{range_from};
ghost use Rattle.settle_spec.specs.FirstPlace.{first_place as place_in_ranges};
ghost use Rattle.pci_base.specs.Ranges.{decoded_range_of};
ghost use Rattle.pci_first_fit.specs.Lists.{root_range_value};
ghost use Rattle.pci_first_fit.specs.Spots.{extent_value, IsExtent, FirstsRise};
ghost use Rattle.pci_grow.specs.Lists.{ranges_had, place_had};

use pci_base::range::{Range, RootRange};
use pci_first_fit::extent::Extent;
use pci_first_fit::list::is_had_by;
use pci_first_fit::spot::place_in;

/// The first place in a range, where a root has it.
fn place_had(one: RootRange, bus: u8, taken: &[Range], extent: Extent) -> Option<u64>
    requires extent { IsExtent extent }
    requires order { FirstsRise taken.now }
    ensures place { result ≡ place_had bus (map decoded_range_of taken.now) (extent_value extent) (root_range_value one) }
    ensures ends { IfSome result (λ at. (range_from at extent.size).last < 2 ^ 64) }
{
    if is_had_by(one.root, bus) {
        place_in(one.range, taken, extent)
    } else {
        None
    }
}

/// The first place in the ranges of a list that a root has.
pub fn first_place(list: &[RootRange], bus: u8, taken: &[Range], extent: Extent) -> Option<u64>
    // without an address it has no last one, and of 0 there is no multiple
    requires extent { IsExtent extent }
    // what is free lies between two that follow one another
    requires order { FirstsRise taken.now }
    ensures place { result ≡ place_in_ranges (ranges_had bus (map root_range_value list.now))
        (map decoded_range_of taken.now) (extent_value extent) }
    // so its last address can be told
    ensures ends { IfSome result (λ at. (range_from at extent.size).last < 2 ^ 64) }
{
    for one in list {
        if let Some(at) = place_had(*one, bus, taken, extent) {
            return Some(at);
        }
    }
    None
}
