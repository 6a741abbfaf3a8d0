//! The root buses: those on which the host's accesses start.
ghost use Rattle.std.specs.Prelude.{◌≡◌, ◌↔◌, IsSome, IfSome, IsTrue, [], ◌∷◌};
ghost use Rattle.std.specs.List.{Contains};
ghost use Rattle.std.specs.List.Sorted.{IsStrictlyIncreasing};
ghost use Rattle.pci_tree.specs.Roots.{buses_of, IsRootList};

use pci_base::slot::BUSES;

/// A set of root buses, which isn't empty where `of` made it. The host shows each access to all of them at once.
#[derive(Clone, Copy, Debug, PartialEq, Eq)]
pub struct Roots {
    flags: [bool; BUSES],
}

/// Whether each bus is above the one before it.
fn is_rising(buses: &[u8]) -> bool
    ensures { IsTrue result ↔ IsStrictlyIncreasing buses.now }
{
    for i in 1..buses.len() {
        if buses[i - 1] >= buses[i] {
            return false;
        }
    }
    true
}

impl Roots {
    /// The roots of a list, which has to rise strictly and to have a bus.
    pub fn of(buses: &[u8]) -> Option<Roots>
        ensures some { IsSome result ↔ IsRootList buses.now }
        ensures buses { IfSome result (λ roots. buses_of roots ≡ buses.now) }
    {
        if buses.is_empty() || !is_rising(buses) {
            return None;
        }
        let mut flags = [false; BUSES];
        for bus in buses {
            flags[*bus as usize] = true;
        }
        Some(Roots { flags })
    }

    /// The one root bus 00.
    pub fn host() -> Roots
        ensures { buses_of result ≡ 0 ∷ [] }
    {
        let mut flags = [false; BUSES];
        flags[0] = true;
        Roots { flags }
    }

    /// Whether a bus is a root.
    pub fn has(&self, bus: u8) -> bool
        ensures { IsTrue result ↔ Contains (buses_of self.now) bus }
    {
        self.flags[bus as usize]
    }
}
