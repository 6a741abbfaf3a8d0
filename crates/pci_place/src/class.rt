//! The class that a BAR is placed in.
ghost use Rattle.std.specs.Prelude.{◌≡◌};
ghost use Rattle.pci_base.specs.WindowKinds.{kind_value};
ghost use Rattle.pci_place.specs.Classes.{bar_class, is_served_by};

use super::pools::Pools;
use crate::above::Above;
use pci_base::window_kind::WindowKind;
use pci_image::bar::{Bar, BarKind};

/// The highest address of 32 bits.
const NARROW_LAST: u64 = 0xffff_ffff;

/// Whether the prefetchable windows above a BAR are there and, where the pool goes beyond 4 GB, are wide enough, as the
/// BAR itself has to be then.
fn is_served(bar: &Bar, above: Above, pools: &Pools) -> bool
    ensures { result ≡ is_served_by bar.now above pools.now }
{
    if pools.pref.last <= NARROW_LAST {
        above.pref
    } else {
        bar.kind == BarKind::Mem64 && above.wide
    }
}

/// The class of a BAR with these windows above it.
pub fn class_of_bar(bar: &Bar, above: Above, pools: &Pools) -> WindowKind
    ensures { kind_value result ≡ bar_class bar.now above pools.now }
{
    if bar.kind == BarKind::Io {
        return WindowKind::Io;
    }
    if bar.prefetch && is_served(bar, above, pools) {
        WindowKind::Prefetchable
    } else {
        WindowKind::Memory
    }
}
