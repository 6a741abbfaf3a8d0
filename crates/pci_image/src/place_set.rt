//! Sets of places of capabilities, which are multiples of four (PCI 3.0, 6.7).
ghost use Rattle.std.specs.Prelude.{◌≡◌, ◌/◌, ◌==◌, ◌||◌, ℕ, false};
ghost use Rattle.pci_spec.specs.Number.{has_bit};

/// A set of places: bit k of `bits` says whether it has the place 4k.
#[derive(Clone, Copy, Debug, PartialEq, Eq)]
pub(crate) struct PlaceSet {
    bits: u64,
}

impl PlaceSet {
    /// The set of no places.
    pub(crate) fn new() -> PlaceSet
        ensures { (k : ℕ) → has_bit result.bits k ≡ false }
    {
        PlaceSet { bits: 0 }
    }

    /// Whether it has a place.
    pub(crate) fn has(self, place: u8) -> bool
        ensures { result ≡ has_bit self.bits (place / 4) }
    {
        self.bits >> (place / 4) & 1 == 1
    }

    /// Adds a place.
    pub(crate) fn insert(&mut self, place: u8)
        ensures { (k : ℕ) → has_bit self.new.bits k ≡ (has_bit self.old.bits k || place / 4 == k) }
    {
        self.bits |= 1 << (place / 4);
    }
}
