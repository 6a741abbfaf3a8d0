//! What is derived for an address register.

/// A read back, or why there is none.
#[derive(Clone, Copy, Debug, PartialEq, Eq)]
pub enum Derived {
    /// It follows from what is shown and told.
    Known(u64),
    /// Of a ROM that is off or a window that shows 0 nothing tells it: this is assumed.
    Assumed(u64),
    /// No size is told of a BAR, or of a ROM that is on: the read back of the least size.
    Untold(u64),
    /// 33: the register shows 0, and what is told of it has another encoding or size.
    OtherSize,
}

impl Derived {
    ghost use Rattle.std.specs.Prelude.{◌≡◌, ◌%◌, ◌/◌, ◌^◌};
    ghost use Rattle.pci_spec.specs.Derived.{lower_half, read_back_of};
    ghost use Rattle.pci_machine.specs.Derived.{derived_of};

    /// The lower 32 bits.
    pub fn lower_half(self) -> Derived
        ensures { derived_of result ≡ lower_half (derived_of self) }
    {
        match self {
            Derived::Known(read_back) => Derived::Known(read_back % 0x1_0000_0000),
            Derived::Assumed(read_back) => Derived::Assumed(read_back % 0x1_0000_0000),
            Derived::Untold(read_back) => Derived::Untold(read_back % 0x1_0000_0000),
            Derived::OtherSize => Derived::OtherSize,
        }
    }

    /// The upper 32 bits, 0 where there is no read back.
    pub fn upper_half(self) -> u64
        ensures { result ≡ read_back_of (derived_of self) / 2 ^ 32 }
    {
        match self {
            Derived::Known(read_back) | Derived::Assumed(read_back) | Derived::Untold(read_back) =>
                { read_back / 0x1_0000_0000 }
            Derived::OtherSize => 0,
        }
    }
}
