//! Functions, as `show` lists them.
ghost use Rattle.std.specs.Prelude.{◌<◌, ◌^◌, IsTrue};
ghost use Rattle.pci_picture.specs.Lines.{is_slot};

/// The secondary and the subordinate bus of a bridge.
#[derive(Clone, Copy)]
pub struct Buses {
    pub secondary: u8,
    pub subordinate: u8,
}

/// Where a name begins and ends among all names.
#[derive(Clone, Copy)]
pub struct Span {
    pub begin: usize,
    pub end: usize,
}

/// A function.
#[derive(Clone, Copy)]
pub struct Function<'a> {
    pub slot: &'a [u8],
    /// The number of its slot.
    pub number: u32,
    pub vendor: &'a [u8],
    pub device: &'a [u8],
    pub class: &'a [u8],
    /// Whether Command enables I/O or memory space.
    pub is_on: bool,
    /// The buses of a bridge.
    pub buses: Option<Buses>,
    /// Its title in the dump, or nothing.
    pub title: &'a [u8],
    /// Where its name stands among the names of all functions.
    pub name: Span,
    ghost is_slot: { IsTrue (is_slot slot.now) },
    ghost is_low: { number < 2 ^ 20 },
}
