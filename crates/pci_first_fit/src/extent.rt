//! What is to be placed: so many addresses from a multiple of an alignment on.
ghost use Rattle.std.specs.Prelude.{◌≡◌, ◌-◌, ◌<◌, ◌^◌, min, SomeIff};
ghost use Rattle.plan_spec.specs.Place.{range_from};
ghost use Rattle.settle_spec.specs.FirstPlace.{is_high};
ghost use Rattle.pci_first_fit.specs.Spots.{extent_value};

/// So many addresses from a multiple of an alignment on.
#[derive(Clone, Copy, Debug, PartialEq, Eq)]
pub struct Extent {
    /// How many addresses, at least one.
    pub size: u64,
    /// What the first address is a multiple of, at least one.
    pub alignment: u64,
    /// The highest address that it may have.
    pub highest: u64,
}

impl Extent {
    /// The last address where the first is `at`; None where it would be above all addresses of 64 bits.
    pub fn last_from(self, at: u64) -> Option<u64>
        // an extent without addresses has no last one
        requires some { 0 < self.size }
        ensures { SomeIff result ((range_from at self.size).last < 2 ^ 64)
            (range_from at self.size).last }
    {
        at.checked_add(self.size - 1)
    }

    /// The same where it may have no address above this one either.
    pub fn held_by(self, highest: u64) -> Extent
        ensures size { result.size ≡ self.size }
        ensures alignment { result.alignment ≡ self.alignment }
        ensures highest { result.highest ≡ min self.highest highest }
    {
        Extent {
            size: self.size,
            alignment: self.alignment,
            highest: self.highest.min(highest),
        }
    }

    /// Whether it may lie above 4 GB.
    pub fn is_high(self) -> bool
        ensures { result ≡ is_high (extent_value self) }
    {
        self.highest > 0xffff_ffff
    }
}
