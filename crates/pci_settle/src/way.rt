//! What the bridges between the host and a bus are.
ghost use Rattle.std.specs.Prelude.{◌≡◌, ◌&&◌, ◌||◌, not};
ghost use Rattle.pci_spec.specs.System.{Io, Memory};
ghost use Rattle.pci_base.specs.Space.{space_of, is_on};
ghost use Rattle.pci_base.specs.WindowKinds.{kind_value};
ghost use Rattle.pci_settle.specs.Shut.{flag_in_space, in_class};

use pci_base::space::Space;
use pci_base::window_kind::{ByKind, WindowKind};

/// What holds in each space.
#[derive(Clone, Copy, Debug, PartialEq, Eq)]
pub struct BySpace {
    pub io: bool,
    pub memory: bool,
}

impl BySpace {
    /// Whether it holds in a space.
    pub fn get(self, space: Space) -> bool
        ensures { result ≡ flag_in_space self (space_of space) }
    {
        match space {
            Space::Io => self.io,
            Space::Mem => self.memory,
        }
    }
}

/// What holds of the windows of each class.
#[derive(Clone, Copy, Debug, PartialEq, Eq)]
pub struct ByClass {
    pub io: bool,
    pub memory: bool,
    pub prefetchable: bool,
}

impl ByClass {
    /// It holds of none.
    pub const NONE: ByClass = ByClass {
        io: false,
        memory: false,
        prefetchable: false,
    };

    /// It holds of all.
    pub const ALL: ByClass = ByClass {
        io: true,
        memory: true,
        prefetchable: true,
    };

    /// Of which classes it holds, and these windows stay, too.
    pub fn and_kept(self, windows: &ByKind<bool>) -> ByClass
        ensures io { result.io ≡ (self.io && windows.now.io) }
        ensures memory { result.memory ≡ (self.memory && windows.now.memory) }
        ensures prefetchable { result.prefetchable ≡ (self.prefetchable && windows.now.prefetchable) }
    {
        ByClass {
            io: self.io && windows.io,
            memory: self.memory && windows.memory,
            prefetchable: self.prefetchable && windows.prefetchable,
        }
    }

    /// The same but for these windows.
    pub fn without(self, windows: &ByKind<bool>) -> ByClass
        ensures io { result.io ≡ (not windows.now.io && self.io) }
        ensures memory { result.memory ≡ (not windows.now.memory && self.memory) }
        ensures prefetchable { result.prefetchable ≡ (not windows.now.prefetchable && self.prefetchable) }
    {
        ByClass {
            io: !windows.io && self.io,
            memory: !windows.memory && self.memory,
            prefetchable: !windows.prefetchable && self.prefetchable,
        }
    }

    /// Whether it holds of a class.
    pub fn get(self, class: WindowKind) -> bool
        ensures { result ≡ in_class self (kind_value class) }
    {
        match class {
            WindowKind::Io => self.io,
            WindowKind::Memory => self.memory,
            WindowKind::Prefetchable => self.prefetchable,
        }
    }
}

/// What all bridges between the host and a bus are; on a root, where there is none, everything.
#[derive(Clone, Copy, Debug, PartialEq, Eq)]
pub struct Way {
    /// Which spaces all of them enable.
    pub on: BySpace,
    /// In which spaces none of them is shut itself.
    pub clear: BySpace,
    /// Of which classes all their windows stay as they are.
    pub same: ByClass,
}

impl Way {
    /// Below no bridge.
    pub const NONE: Way = Way {
        on: BySpace {
            io: true,
            memory: true,
        },
        clear: BySpace {
            io: true,
            memory: true,
        },
        same: ByClass {
            io: true,
            memory: true,
            prefetchable: true,
        },
    };

    /// In which spaces a function below is shut that is shut itself in these.
    pub fn shut(self, itself: BySpace) -> BySpace
        ensures io { result.io ≡ (itself.io || not self.clear.io) }
        ensures memory { result.memory ≡ (itself.memory || not self.clear.memory) }
    {
        BySpace {
            io: itself.io || !self.clear.io,
            memory: itself.memory || !self.clear.memory,
        }
    }

    /// The same below one more bridge, with this Command, which is shut itself in these spaces, and whose windows of these
    /// classes change.
    pub fn and(self, command: u16, shut: BySpace, changed: ByClass) -> Way
        ensures io { result.on.io ≡ (self.on.io && is_on command Io) }
        ensures memory { result.on.memory ≡ (self.on.memory && is_on command Memory) }
        ensures clear_io { result.clear.io ≡ (self.clear.io && not shut.io) }
        ensures clear_memory { result.clear.memory ≡ (self.clear.memory && not shut.memory) }
        ensures same_io { result.same.io ≡ (self.same.io && not changed.io) }
        ensures same_memory { result.same.memory ≡ (self.same.memory && not changed.memory) }
        ensures same_prefetchable { result.same.prefetchable ≡ (self.same.prefetchable && not changed.prefetchable) }
    {
        Way {
            on: BySpace {
                io: self.on.io && Space::Io.is_on(command),
                memory: self.on.memory && Space::Mem.is_on(command),
            },
            clear: BySpace {
                io: self.clear.io && !shut.io,
                memory: self.clear.memory && !shut.memory,
            },
            same: ByClass {
                io: self.same.io && !changed.io,
                memory: self.same.memory && !changed.memory,
                prefetchable: self.same.prefetchable && !changed.prefetchable,
            },
        }
    }
}
