//! Faults of judging, each with the regions that it names. They are shown as number, name and fields.
ghost use Rattle.std.specs.Prelude.{Some};
ghost use Rattle.judge_spec.specs.ToldFault.{Known};
ghost use Rattle.judge_spec.specs.ToldLine.{region_text, fault_text};

use pci_base::slot::Slot;
use pci_base::space::{Address, Space};
use std::fmt;

/// A region of a function: a BAR, a ROM, a window, a legacy part, a palette part or a told range. It is shown as slot and
/// register, a told range as slot, `+` and its line.
#[derive(Clone, Copy, Debug, PartialEq, Eq)]
pub struct Name {
    pub slot: Slot,
    /// The byte offset of its register. The told range of line n has 255 + n.
    pub register: u16,
}

/// Fault 60: an address of a region that is sent to the root above it, and a bridge on the way to it that doesn't pass this
/// address.
#[derive(Clone, Copy, Debug, PartialEq, Eq)]
pub struct Unreached {
    pub region: Name,
    pub space: Space,
    pub address: u64,
    pub bridge: Slot,
}

/// Fault 61: an address that gets to a bus, and two regions there that claim it.
#[derive(Clone, Copy, Debug, PartialEq, Eq)]
pub struct Clash {
    pub bus: u8,
    pub space: Space,
    pub address: u64,
    pub first: Name,
    pub second: Name,
}

/// Fault 62: an address that two regions on two root buses claim.
#[derive(Clone, Copy, Debug, PartialEq, Eq)]
pub struct Split {
    pub space: Space,
    pub address: u64,
    pub first: Name,
    pub second: Name,
}

/// Fault 63: an address of a region to which no access starts on the root above it.
#[derive(Clone, Copy, Debug, PartialEq, Eq)]
pub struct Outside {
    pub region: Name,
    pub space: Space,
    pub address: u64,
}

impl fmt::Display for Name {
    ghost output = { λ n. Some (region_text n.slot n.register) };

    fn fmt<W: fmt::Write>(&self, f: &mut fmt::Formatter<W>) -> fmt::Result {
        let Name { slot, register } = *self;
        if register < 256 {
            let offset = register as u8;
            write!(f, "{slot} {offset:02x}")
        } else {
            let line = register - 255;
            write!(f, "{slot} +{line}")
        }
    }
}

impl fmt::Display for Unreached {
    ghost use Rattle.pci_faults.specs.Named.{unreached_of};

    ghost output = { λ u. Some (fault_text (Known (unreached_of u))) };

    fn fmt<W: fmt::Write>(&self, f: &mut fmt::Formatter<W>) -> fmt::Result {
        let (region, bridge) = (self.region, self.bridge);
        let at = Address {
            space: self.space,
            address: self.address,
        };
        write!(f, "60 Unreached {region} {at} bridge {bridge}")
    }
}

impl fmt::Display for Clash {
    ghost use Rattle.pci_faults.specs.Named.{clash_of};

    ghost output = { λ c. Some (fault_text (Known (clash_of c))) };

    fn fmt<W: fmt::Write>(&self, f: &mut fmt::Formatter<W>) -> fmt::Result {
        let (bus, first, second) = (self.bus, self.first, self.second);
        let at = Address {
            space: self.space,
            address: self.address,
        };
        write!(f, "61 Clash bus {bus:02x} {at} {first} {second}")
    }
}

impl fmt::Display for Split {
    ghost use Rattle.pci_faults.specs.Named.{split_of};

    ghost output = { λ s. Some (fault_text (Known (split_of s))) };

    fn fmt<W: fmt::Write>(&self, f: &mut fmt::Formatter<W>) -> fmt::Result {
        let (first, second) = (self.first, self.second);
        let at = Address {
            space: self.space,
            address: self.address,
        };
        write!(f, "62 Split {at} {first} {second}")
    }
}

impl fmt::Display for Outside {
    ghost use Rattle.pci_faults.specs.Named.{outside_of};

    ghost output = { λ o. Some (fault_text (Known (outside_of o))) };

    fn fmt<W: fmt::Write>(&self, f: &mut fmt::Formatter<W>) -> fmt::Result {
        let region = self.region;
        let at = Address {
            space: self.space,
            address: self.address,
        };
        write!(f, "63 Outside {region} {at}")
    }
}
