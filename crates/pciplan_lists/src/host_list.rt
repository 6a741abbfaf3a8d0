//! Lists of the addresses that the host sends to its root buses: which are taken.
ghost use Rattle.std.specs.Prelude.{◌↔◌, ◌<◌, IsTrue, length};
ghost use Rattle.pci_tree.specs.Roots.{buses_of};
ghost use Rattle.pciplan_lists.specs.HostLists.{ShareBus, RangesMeet, IsGoodRange, MeetsEarlier, IsGoodHostList};

use pci_base::range::RootRange;
use pci_tree::roots::Roots;

/// Whether a bus has two ranges: one of them is of all buses, or both are of one.
fn share_a_bus(one: Option<u8>, other: Option<u8>) -> bool
    ensures { IsTrue result ↔ ShareBus one other }
{
    match one {
        None => true,
        Some(bus) => match other {
            None => true,
            Some(same) => bus == same,
        },
    }
}

/// Whether an address is sent to a bus by both of two ranges.
fn meet(one: RootRange, other: RootRange) -> bool
    ensures { IsTrue result ↔ RangesMeet one other }
{
    let first = one.range.first.max(other.range.first);
    let last = one.range.last.min(other.range.last);
    share_a_bus(one.root, other.root) && first <= last
}

/// Whether a range isn't backward, and is of a root bus or of all.
fn is_good_range(roots: &Roots, one: RootRange) -> bool
    ensures { IsTrue result ↔ IsGoodRange (buses_of roots.now) one }
{
    let has_root = match one.root {
        None => true,
        Some(bus) => roots.has(bus),
    };
    has_root && one.range.first <= one.range.last
}

/// Whether a range of a list meets one that stands before it.
fn meets_earlier(list: &[RootRange], index: usize) -> bool
    requires { index < length list.now }
    ensures { IsTrue result ↔ MeetsEarlier list.now index }
{
    for k in 0..index {
        if meet(list[k], list[index]) {
            return true;
        }
    }
    false
}

/// Whether the host can send what a list says: each range goes upward and is of a root bus or of all, and no address is
/// sent to one bus by two of them.
pub fn is_good_host_list(roots: &Roots, list: &[RootRange]) -> bool
    ensures { IsTrue result ↔ IsGoodHostList (buses_of roots.now) list.now }
{
    for i in 0..list.len() {
        if !is_good_range(roots, list[i]) || meets_earlier(list, i) {
            return false;
        }
    }
    true
}
