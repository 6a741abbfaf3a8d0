//! What Linux tells of one address register.
ghost use Rattle.pci_spec.specs.Resource.{ResourceLine as LineValue};

use std::marker::Model;

/// A line of the sysfs file `resource`: the first and the last address that a register was sized to,
/// and flags that tell of what space they are.
#[derive(Clone, Copy, Debug, Default, PartialEq, Eq)]
pub struct ResourceLine {
    pub first: u64,
    pub last: u64,
    pub flags: u64,
}

impl Model for ResourceLine {
    ghost use Rattle.pci_spec.specs.Resource.{ResourceLine as LineValue};

    ghost Value = { LineValue };

    ghost view = { λ l. record { first = l.first; last = l.last; flags = l.flags } };

    ghost inverse = { λ v. record { first = v.first; last = v.last; flags = v.flags } };
}

/// The flag of I/O space.
const IO: u64 = 0x100;

/// The flag of memory space.
const MEMORY: u64 = 0x200;

/// The flag of the fixed ports of an IDE channel.
const FIXED_PORTS: u64 = 0x10;

/// The flag of Enhanced Allocation, whose addresses no register holds.
const ENHANCED: u64 = 0x20;

/// The flag of a ROM of which there is a shadow copy.
const SHADOW: u64 = 0x02;

impl ResourceLine {
    ghost use Rattle.std.specs.Prelude.{◌≡◌, ◌<◌, ◌≤◌, ◌^◌, ⊤, true, false, MatchOption};
    ghost use Rattle.pci_spec.specs.Resource.{is_of_io, is_of_memory, is_shadow, is_of_register, has_size, address_count};

    /// Whether the addresses are of I/O space.
    pub fn is_of_io(self) -> bool
        ensures { result ≡ is_of_io self }
    {
        self.flags / IO % 2 == 1
    }

    /// Whether the addresses are of memory space.
    pub fn is_of_memory(self) -> bool
        ensures { result ≡ is_of_memory self }
    {
        self.flags / MEMORY % 2 == 1
    }

    /// Whether the addresses are those of a ROM's shadow copy.
    pub fn is_shadow(self) -> bool
        ensures { result ≡ is_shadow self }
    {
        self.flags / SHADOW % 2 == 1
    }

    /// Whether the line has addresses that a BAR register holds.
    pub fn is_of_register(self) -> bool
        ensures { result ≡ is_of_register self }
    {
        let is_fixed = self.flags / FIXED_PORTS % 2 == 1 || self.flags / ENHANCED % 2 == 1;
        (self.is_of_io() || self.is_of_memory()) && !is_fixed
    }

    /// How many addresses there are from the first to the last, where that is a power of two, of at
    /// most 2 to the power of `most`.
    pub fn size(self, most: u32) -> Option<u64>
        // 2^64 would be no u64
        requires { most < 64 }
        ensures told { MatchOption result (has_size most self ≡ false)
            (λ size. (has_size most self ≡ true) × (size ≡ address_count self)) }
        // at least one, as callers divide by it; at most what the register can decode
        ensures bounds { MatchOption result ⊤ (λ size. (1 ≤ size) × (size ≤ 2 ^ most)) }
    {
        if self.last < self.first || self.last - self.first == u64::MAX {
            return None;
        }
        let size = self.last - self.first + 1;
        let place = size.trailing_zeros();
        if place <= most && size == 1 << place {
            Some(size)
        } else {
            None
        }
    }
}
