//! Faults, with what is given and told.
ghost use Rattle.std.specs.Prelude.{◌≡◌, Some};
ghost use Rattle.judge_spec.specs.ToldLine.{fault_text};
ghost use Rattle.pci_faults.specs.declared.any_fault.AnyFault.TheVariants as codes;
ghost use Rattle.pci_faults.specs.AllLines.{any_fault_value, plain_fault, IsResolved};

use super::named::{Clash, Name, Outside, Split, Unreached};
use pci_base::slot::Slot;
use pci_base::space::Space;
use pci_function::fault::Fault;
use std::fmt;

/// A fault, with what is given and told. It is shown as number, name and fields.
#[derive(Clone, Copy, Debug, PartialEq, Eq)]
pub enum AnyFault {
    /// 20 to 31, and 50 to 58.
    Early(Fault),
    /// 34: a `command` or an `always` range names a slot that isn't listed.
    NotListed(Slot),
    /// 63: an address of a region that the host doesn't send to the root above it.
    OutsideHost(Outside),
    /// 60: an address of a region that a bridge on the way to it doesn't pass.
    Unreached(Unreached),
    /// 61: an address that two regions of a bus claim.
    Clash(Clash),
    /// 62: an address that two regions on two root buses claim.
    Split(Split),
}

impl fmt::Display for AnyFault {
    ghost use Rattle.pci_faults.specs.AllLines.{any_fault_value};

    ghost output = { λ fault. Some (fault_text (any_fault_value fault)) };

    fn fmt<W: fmt::Write>(&self, f: &mut fmt::Formatter<W>) -> fmt::Result {
        match resolved(self) {
            AnyFault::Early(fault) => write!(f, "{fault}"),
            AnyFault::NotListed(slot) => write!(f, "34 NotListed {slot}"),
            AnyFault::OutsideHost(outside) => write!(f, "{outside}"),
            AnyFault::Unreached(unreached) => write!(f, "{unreached}"),
            AnyFault::Clash(clash) => write!(f, "{clash}"),
            AnyFault::Split(split) => write!(f, "{split}"),
        }
    }
}

/// A region whose register is in the configuration space.
fn name(slot: Slot, reg: u8) -> Name
    ensures { result ≡ record { slot = slot; register = reg } }
{
    Name {
        slot,
        register: u16::from(reg),
    }
}

/// A fault 60.
fn unreached(region: Name, space: Space, address: u64, bridge: Slot) -> AnyFault
    ensures same { result ≡ codes.Unreached
        record { region = region; space = space; address = address; bridge = bridge } }
    ensures resolved { IsResolved result }
{
    AnyFault::Unreached(Unreached {
        region,
        space,
        address,
        bridge,
    })
}

/// A fault 61.
fn clash(bus: u8, space: Space, address: u64, first: Name, second: Name) -> AnyFault
    ensures same { result ≡ codes.Clash
        record { bus = bus; space = space; address = address; first = first; second = second } }
    ensures resolved { IsResolved result }
{
    AnyFault::Clash(Clash {
        bus,
        space,
        address,
        first,
        second,
    })
}

/// A fault 62.
fn split(space: Space, address: u64, first: Name, second: Name) -> AnyFault
    ensures same { result ≡ codes.Split
        record { space = space; address = address; first = first; second = second } }
    ensures resolved { IsResolved result }
{
    AnyFault::Split(Split {
        space,
        address,
        first,
        second,
    })
}

/// A fault that names no told range.
pub fn without_told(fault: &Fault) -> AnyFault
    ensures same { any_fault_value result ≡ plain_fault fault.now }
    ensures resolved { IsResolved result }
{
    match *fault {
        Fault::Unreached {
            slot,
            reg,
            space,
            address,
            bridge,
        } => unreached(name(slot, reg), space, address, bridge),
        Fault::Clash {
            bus,
            space,
            address,
            first,
            first_reg,
            second,
            second_reg,
        } => {
            let first = name(first, first_reg);
            clash(bus, space, address, first, name(second, second_reg))
        }
        Fault::Split {
            space,
            address,
            first,
            first_reg,
            second,
            second_reg,
        } => {
            let first = name(first, first_reg);
            split(space, address, first, name(second, second_reg))
        }
        early => AnyFault::Early(early),
    }
}

/// The same fault, and as one of judging where it is one.
pub fn resolved(fault: &AnyFault) -> AnyFault
    ensures same { any_fault_value result ≡ any_fault_value fault.now }
    ensures resolved { IsResolved result }
{
    match *fault {
        AnyFault::Early(fault) => without_told(&fault),
        other => other,
    }
}
