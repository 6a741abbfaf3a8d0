//! The kinds of windows of a bridge (Bridge 1.2, 3.2.5), which are those of what goes through them too.
ghost use Rattle.std.specs.Prelude.{◌≡◌};
ghost use Rattle.pci_spec.specs.Window.{page_size, window_register};
ghost use Rattle.pci_spec.specs.Line.{window_name};
ghost use Rattle.pci_base.specs.WindowKinds.{kind_value, by_kind};

use super::offset::{IO_BASE, MEMORY_BASE, PREFETCHABLE_BASE};

/// The three windows of a bridge.
#[derive(Clone, Copy, Debug, PartialEq, Eq)]
pub enum WindowKind {
    /// I/O space.
    Io,
    /// Memory of any kind.
    Memory,
    /// Memory of prefetchable BARs alone.
    Prefetchable,
}

impl WindowKind {
    /// The offset that names the window.
    pub fn register(self) -> u8
        ensures { result ≡ window_register (kind_value self) }
    {
        match self {
            WindowKind::Io => IO_BASE,
            WindowKind::Memory => MEMORY_BASE,
            WindowKind::Prefetchable => PREFETCHABLE_BASE,
        }
    }

    /// `io`, `mem` or `pref`.
    pub fn name(self) -> &'static str
        ensures { result.now ≡ window_name (kind_value self) }
    {
        match self {
            WindowKind::Io => "io",
            WindowKind::Memory => "mem",
            WindowKind::Prefetchable => "pref",
        }
    }

    /// The addresses of a page, by which a window grows: 4 KB of I/O, 1 MB of memory (Bridge 1.2, chapter 4).
    pub fn page_size(self) -> u64
        ensures { result ≡ page_size (kind_value self) }
    {
        match self {
            WindowKind::Io => 1 << 12,
            WindowKind::Memory | WindowKind::Prefetchable => 1 << 20,
        }
    }
}

/// One value for each kind of window.
#[derive(Debug, Drop)]
pub struct ByKind<T> {
    pub io: T,
    pub memory: T,
    pub prefetchable: T,
}

impl<T> ByKind<T> {
    /// The value of a kind.
    pub fn get(&self, kind: WindowKind) -> &T
        ensures { result.now ≡ by_kind self.now kind }
    {
        match kind {
            WindowKind::Io => &self.io,
            WindowKind::Memory => &self.memory,
            WindowKind::Prefetchable => &self.prefetchable,
        }
    }
}
