//! The two spaces of addresses (PCI 3.0, 3.2.2), and the bits of Command that enable them (6.2.2).
ghost use Rattle.std.specs.Prelude.{◌≡◌, ◌↔◌, ◌≤◌, ℕ, Some};
ghost use Rattle.pci_spec.specs.Line.{space_text, place_text};
ghost use Rattle.pci_spec.specs.System.{IsAddress};

use crate::range::Range;
use crate::window_kind::WindowKind;
use std::fmt;

/// I/O space, of 32-bit addresses, or memory space, of 64-bit ones.
#[derive(Clone, Copy, Debug, PartialEq, Eq, PartialOrd, Ord)]
pub enum Space {
    Io,
    Mem,
}

/// Command bit 0: the function answers I/O accesses.
const IO_SPACE: u16 = 1;
/// Command bit 1: the function answers memory accesses.
const MEMORY_SPACE: u16 = 2;

impl Space {
    ghost use Rattle.std.specs.Prelude.{true};
    ghost use Rattle.pci_spec.specs.System.{window_space};
    ghost use Rattle.pci_base.specs.WindowKinds.{kind_value};
    ghost use Rattle.pci_base.specs.Space.{space_of, is_on, kind_in};

    /// The space of a window's addresses.
    pub fn of(kind: WindowKind) -> Space
        ensures { space_of result ≡ window_space (kind_value kind) }
    {
        match kind {
            WindowKind::Io => Space::Io,
            WindowKind::Memory | WindowKind::Prefetchable => Space::Mem,
        }
    }

    /// The kind of its accesses, `prefetch` saying that they are a prefetchable BAR's.
    pub fn kind(self, prefetch: bool) -> WindowKind
        ensures { kind_value result ≡ kind_in (space_of self) prefetch }
    {
        match self {
            Space::Io => WindowKind::Io,
            Space::Mem => {
                if prefetch {
                    WindowKind::Prefetchable
                } else {
                    WindowKind::Memory
                }
            }
        }
    }

    /// The kind of access that gets furthest: each window of the space passes it.
    pub fn furthest(self) -> WindowKind
        // two regions clash wherever some access gets, so clashes are looked for by this kind
        ensures { kind_value result ≡ kind_in (space_of self) true }
    {
        self.kind(true)
    }

    /// Whether a Command register enables the space.
    pub fn is_on(self, command: u16) -> bool
        ensures { result ≡ is_on command (space_of self) }
    {
        match self {
            Space::Io => command & IO_SPACE != 0,
            Space::Mem => command & MEMORY_SPACE != 0,
        }
    }

    /// All its addresses.
    pub fn whole(self) -> Range
        // so that a list of this one range rises, as looking for overlaps asks
        ensures lawful { result.first ≤ result.last }
        ensures exact { (a : ℕ) → ((result.first ≤ a) × (a ≤ result.last))
            ↔ IsAddress (space_of self) a }
    {
        let last = match self {
            Space::Io => 0xffff_ffff,
            Space::Mem => u64::MAX,
        };
        Range { first: 0, last }
    }
}

/// `io` or `mem`.
impl fmt::Display for Space {
    ghost use Rattle.pci_base.specs.Space.{space_of};

    ghost output = { λ s. Some (space_text (space_of s)) };

    fn fmt<W: fmt::Write>(&self, f: &mut fmt::Formatter<W>) -> fmt::Result {
        match self {
            Space::Io => write!(f, "io"),
            Space::Mem => write!(f, "mem"),
        }
    }
}

/// An address with its space: `io` and 8 hex digits, or `mem` and 16.
#[derive(Clone, Copy, Debug, PartialEq, Eq)]
pub struct Address {
    pub space: Space,
    pub address: u64,
}

impl fmt::Display for Address {
    ghost use Rattle.pci_base.specs.Space.{space_of};

    ghost output = { λ a. Some (place_text (space_of a.space) a.address) };

    fn fmt<W: fmt::Write>(&self, f: &mut fmt::Formatter<W>) -> fmt::Result {
        let address = self.address;
        match self.space {
            Space::Io => {
                let low = address % (1 << 32);
                write!(f, "io {low:08x}")
            }
            Space::Mem => write!(f, "mem {address:016x}"),
        }
    }
}
