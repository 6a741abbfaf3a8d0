//! Whether what is of a class fits its pool, and what it lacks where it doesn't.
ghost use Rattle.std.specs.Prelude.{◌≡◌, ◌<◌, ◌≤◌, ◌^◌, IsFalse, map, slice_index};
ghost use Rattle.std.specs.List.{All, sum};
ghost use Rattle.plan_spec.specs.Plan.{fits, raised_to, shortage};
ghost use Rattle.pci_tree.specs.Roots.{buses_of};
ghost use Rattle.pci_base.specs.WindowKinds.{kind_value};
ghost use Rattle.pci_place.specs.Pools.{pools_value};
ghost use Rattle.pci_place.specs.Above.{system_in};
ghost use Rattle.pci_place.specs.Needs.{AreNeeds};
ghost use Rattle.pci_place.specs.Shortages.{shortage_value};

use crate::above::aboves;
use crate::need::{Needs, needs_of};
use crate::pools::Pools;
use pci_base::slot::BUSES;
use pci_base::window_kind::WindowKind;
use pci_tree::admitted::Admitted;
use pci_tree::roots::Roots;
use std::alloc::Allocator;

/// What a class lacks that doesn't fit its pool. Start and counts may be above all addresses of 64 bits.
#[derive(Clone, Copy, Debug, PartialEq, Eq)]
pub struct Shortage {
    /// How many addresses it needs.
    pub needed: u128,
    /// The first address that they could have.
    pub start: u128,
    /// How many addresses the pool has from there on, 0 where it ends before.
    pub available: u128,
}

/// What all root buses need together: they are placed as one bus.
fn need_of_roots(roots: &Roots, needs: &Needs) -> u128
    requires { All (λ need. need ≤ 2 ^ 65) needs.now.of_bus }
    ensures sum { result ≡ sum (map (slice_index needs.now.of_bus) (buses_of roots.now)) }
    ensures bound { result ≤ 2 ^ 73 }
{
    let mut sum = 0;
    for bus in 0..BUSES {
        if roots.has(bus as u8) {
            sum += needs.of_bus[bus];
        }
    }
    sum
}

/// The least multiple of a size from an address on.
pub fn raised(size: u128, first: u64) -> u128
    // the size of the largest item, which is there wherever something is placed
    requires some { 0 < size }
    // no window is larger, so nothing overflows 128 bits
    requires limited { size ≤ 2 ^ 65 }
    ensures raised { result ≡ raised_to size first }
    // so that what all roots need can be added to it in 128 bits
    ensures bound { result ≤ 2 ^ 66 }
{
    (u128::from(first) + size - 1) / size * size
}

/// Whether what is of a class fits its pool.
pub fn has_room<A: Allocator>(
    admitted: &Admitted<A>,
    pools: &Pools,
    class: WindowKind,
    needs: &Needs,
) -> bool
    // counted before, for placing too
    requires { AreNeeds admitted.now.roots (system_in admitted.now) (pools_value pools.now)
        (kind_value class) needs.now }
    ensures { result
        ≡ fits admitted.now.roots (system_in admitted.now) (pools_value pools.now)
        (kind_value class) }
{
    let need = need_of_roots(&admitted.outline().roots(), needs);
    let pool = pools.of(class);
    need == 0 || raised(needs.greatest, pool.first) + need <= u128::from(pool.last) + 1
}

/// What a class lacks.
pub fn shortage_of<A: Allocator>(
    admitted: &Admitted<A>,
    pools: &Pools,
    class: WindowKind,
) -> Shortage
    // what fits may have no size of which the start could be a multiple
    requires { IsFalse (fits admitted.now.roots (system_in admitted.now) (pools_value pools.now)
        (kind_value class)) }
    ensures lacking { shortage_value result
        ≡ shortage admitted.now.roots (system_in admitted.now) (pools_value pools.now)
        (kind_value class) }
    // so that what 64 bits of it don't hold is one digit
    ensures bound { result.start ≤ 2 ^ 66 }
{
    let mut needs = Needs::NONE;
    needs_of(admitted, pools, class, &aboves(admitted), &mut needs);
    let needed = need_of_roots(&admitted.outline().roots(), &needs);
    let pool = pools.of(class);
    let start = raised(needs.greatest, pool.first);
    Shortage {
        needed,
        start,
        available: (u128::from(pool.last) + 1).saturating_sub(start),
    }
}
