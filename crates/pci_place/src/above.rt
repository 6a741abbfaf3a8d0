//! Which windows all bridges between the host and a bus have.
ghost use Rattle.std.specs.Prelude.{◌≡◌, ◌&&◌};
ghost use Rattle.std.specs.Option.{is_some};
ghost use Rattle.pci_place.specs.Above.{AreAboves, is_wide_in, system_in};

use pci_base::slot::BUSES;
use pci_image::window::{Window, Windows};
use pci_tree::admitted::Admitted;
use std::alloc::Allocator;

/// What all bridges between the host and a bus have; on a root, where there is none, everything.
#[derive(Clone, Copy, Debug, PartialEq, Eq)]
pub struct Above {
    /// An I/O window.
    pub io: bool,
    /// A prefetchable window.
    pub pref: bool,
    /// A prefetchable window with upper halves, for addresses of 64 bits.
    pub wide: bool,
}

/// Whether a window is there and has upper halves.
fn is_wide(window: Option<Window>) -> bool
    ensures { result ≡ is_wide_in window }
{
    match window {
        None => false,
        Some(window) => window.wide(),
    }
}

impl Above {
    /// Below no bridge.
    const NONE: Above = Above {
        io: true,
        pref: true,
        wide: true,
    };

    /// The same below one more bridge, with these windows.
    fn and(self, windows: &Windows) -> Above
        ensures io { result.io ≡ (self.io && is_some windows.now.io) }
        ensures pref { result.pref ≡ (self.pref && is_some windows.now.pref) }
        ensures wide { result.wide ≡ (self.wide && is_wide_in windows.now.pref) }
    {
        Above {
            io: self.io && windows.io.is_some(),
            pref: self.pref && windows.pref.is_some(),
            wide: self.wide && is_wide(windows.pref),
        }
    }
}

/// What is above each bus that has a function on it. A bridge has a lower slot than each function behind it, so one
/// pass in slot order finds what is above a bridge before what is above the bus behind it.
pub fn aboves<A: Allocator>(admitted: &Admitted<A>) -> [Above; BUSES]
    ensures { AreAboves (system_in admitted.now) result }
{
    let mut aboves = [Above::NONE; BUSES];
    for record in admitted.outline().records() {
        if let Some(bridge) = record.bridge {
            let secondary = bridge.secondary as usize;
            let above = aboves[record.slot.bus() as usize];
            aboves[secondary] = above.and(&bridge.windows);
        }
    }
    aboves
}
