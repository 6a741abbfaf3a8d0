//! Room behind slots into which a device can be plugged while a machine runs.
ghost use Rattle.std.specs.Prelude.{◌≡◌, []};
ghost use Rattle.std.specs.List.{list_any};
ghost use Rattle.pci_spec.specs.Slot.{same_slot};
ghost use Rattle.pci_base.specs.WindowKinds.{kind_value};
ghost use Rattle.pci_first_fit.specs.Slots.{wanted_of, wanted_at, spares_value};
ghost use Rattle.settle_spec.specs.Lists.{no_spares};

use pci_base::slot::Slot;
use pci_base::window_kind::WindowKind;

/// The most addresses that can be wanted behind a slot: whole pages of so many are fewer than 2^64.
const MOST_WANTED: u64 = 0xffff_ffff_fff0_0000;

/// The bridges with such a slot, and how many addresses of each class are wanted behind each of them: 0 where none are. More
/// than `ffff_ffff_fff0_0000h` count as that many.
#[derive(Clone, Copy, Debug)]
pub struct Slots<'a> {
    pub bridges: &'a [Slot],
    pub io: u64,
    pub mem: u64,
    pub pref: u64,
}

impl Slots<'_> {
    /// No room is wanted behind any bridge.
    pub fn none() -> Slots<'static>
        ensures bridges { result.bridges.now ≡ [] }
        ensures spares { spares_value result ≡ no_spares }
    {
        Slots {
            bridges: &[],
            io: 0,
            mem: 0,
            pref: 0,
        }
    }

    /// How many addresses of a class are wanted behind each slot.
    pub fn of_class(&self, class: WindowKind) -> u64
        ensures { result ≡ wanted_of self.now (kind_value class) }
    {
        let wanted = match class {
            WindowKind::Io => self.io,
            WindowKind::Memory => self.mem,
            WindowKind::Prefetchable => self.pref,
        };
        wanted.min(MOST_WANTED)
    }

    /// Whether a bridge has a slot.
    fn has(&self, bridge: Slot) -> bool
        ensures { result ≡ list_any (same_slot bridge) self.now.bridges.now }
    {
        for one in self.bridges {
            if bridge == *one {
                return true;
            }
        }
        false
    }

    /// How many addresses of a class are wanted behind a bridge: 0 where it has no slot.
    pub fn wanted(&self, bridge: Slot, class: WindowKind) -> u64
        ensures { result ≡ wanted_at self.now bridge (kind_value class) }
    {
        let wanted = self.of_class(class);
        if wanted != 0 && self.has(bridge) {
            wanted
        } else {
            0
        }
    }
}
