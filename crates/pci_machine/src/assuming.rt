//! Of which registers the least size is assumed.

/// Of which registers the least size is assumed where no size is told: 16 addresses of a memory BAR, 4 of an I/O BAR,
/// 2 KB of a ROM.
#[derive(Clone, Copy, Debug, PartialEq, Eq)]
pub enum Assuming {
    /// Of none: the probe is exact.
    Nothing,
    /// Of ROMs that are off.
    Disabled,
    /// Of BARs and of ROMs that are on, too. Where no window is assumed, a fault that such a probe shows is there whatever
    /// the sizes are. Where it shows none, there may be some.
    Any,
}

impl Assuming {
    ghost use Rattle.std.specs.Prelude.{◌≡◌};
    ghost use Rattle.pci_spec.specs.NoProbe.{assumes_disabled, assumes_enabled};
    ghost use Rattle.pci_machine.specs.Assuming.{assuming_of};

    /// Whether it is assumed of a ROM that is off.
    pub(crate) fn of_disabled(self) -> bool
        ensures { result ≡ assumes_disabled (assuming_of self) }
    {
        match self {
            Assuming::Nothing => false,
            Assuming::Disabled | Assuming::Any => true,
        }
    }

    /// Whether it is assumed of a BAR or of a ROM that is on.
    pub(crate) fn of_enabled(self) -> bool
        ensures { result ≡ assumes_enabled (assuming_of self) }
    {
        match self {
            Assuming::Nothing | Assuming::Disabled => false,
            Assuming::Any => true,
        }
    }
}
