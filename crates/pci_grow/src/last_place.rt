//! The last free place in a range of addresses.
ghost use Rattle.std.specs.Prelude.{◌≡◌, ◌+◌, ◌≤◌, None, IfSome, IfNone, SomeIff, map};
ghost use Rattle.settle_spec.specs.FirstPlace.{HasNoPlace};
ghost use Rattle.settle_spec.specs.LastPlace.{lowered_to, last_place_in};
ghost use Rattle.pci_base.specs.Ranges.{decoded_range_of};
ghost use Rattle.pci_first_fit.specs.Spots.{extent_value, IsExtent};
ghost use Rattle.pci_grow.specs.LastPlaces.{LastsRise, HasNone, IsDescended, IsLateStart, IsLateSpotAt, late_place};

use pci_base::range::Range;
use pci_first_fit::extent::Extent;

/// A free place, and where it belongs in the list of what is taken.
#[derive(Clone, Copy, Debug, PartialEq, Eq)]
pub struct LateSpot {
    pub at: u64,
    /// How many of the ranges that are taken lie above it.
    pub above: usize,
}

/// The greatest multiple of the alignment from which an extent ends by an address; None where it has more addresses.
fn lowered(last: u64, extent: Extent) -> Option<u64>
    requires extent { IsExtent extent }
    ensures { SomeIff result (extent.size ≤ last + 1) (lowered_to (extent_value extent) (last + 1)) }
{
    let at = last.checked_sub(extent.size - 1)?;
    Some(at - at % extent.alignment)
}

/// The greatest multiple of the alignment from which an extent ends below a range; None where it has more addresses.
fn below(range: Range, extent: Extent) -> Option<u64>
    requires extent { IsExtent extent }
    ensures { SomeIff result (extent.size ≤ range.first)
        (lowered_to (extent_value extent) range.first) }
{
    lowered(range.first.checked_sub(1)?, extent)
}

/// From where on a range is searched for its last place; None where an extent has more addresses.
pub fn last_start(range: Range, extent: Extent) -> Option<LateSpot>
    // without an address it has no last one, and of 0 there is no multiple
    requires extent { IsExtent extent }
    ensures start { IfSome result (IsLateStart range extent) }
    ensures none { IfNone result (HasNone range extent) }
{
    let at = lowered(range.last.min(extent.highest), extent)?;
    Some(LateSpot { at, above: 0 })
}

/// The last free place in a range, or below it, of which `from` says that it isn't above it.
fn descend(range: Range, taken: &[Range], from: LateSpot, extent: Extent) -> Option<LateSpot>
    requires extent { IsExtent extent }
    requires order { LastsRise taken.now }
    requires from { IsDescended range taken.now extent from.at from.above }
    ensures found { IfSome result (IsLateSpotAt range taken.now extent) }
    ensures none { IfNone result (HasNoPlace (decoded_range_of range)
        (map decoded_range_of taken.now) (extent_value extent)) }
{
    let mut at = from.at;
    for above in from.above..taken.len() {
        let other = taken[taken.len() - 1 - above];
        if other.last < at {
            return Some(LateSpot { at, above });
        }
        if other.first <= at + (extent.size - 1) {
            at = below(other, extent)?;
        }
    }
    Some(LateSpot {
        at,
        above: taken.len(),
    })
}

/// The last place in a range, of which `from` says that it isn't above it.
pub fn last_place(range: Range, taken: &[Range], from: LateSpot, extent: Extent) -> Option<LateSpot>
    // without an address it has no last one, and of 0 there is no multiple
    requires extent { IsExtent extent }
    // what is free lies between two that follow one another
    requires order { LastsRise taken.now }
    // no place lies above it, so the search can begin there
    requires from { IsDescended range taken.now extent from.at from.above }
    ensures place { late_place result ≡ last_place_in (decoded_range_of range)
        (map decoded_range_of taken.now) (extent_value extent) }
    // it is taken next, and the next search goes on there
    ensures spot { IfSome result (IsLateSpotAt range taken.now extent) }
{
    let spot = descend(range, taken, from, extent)?;
    if range.first <= spot.at {
        Some(spot)
    } else {
        None
    }
}
