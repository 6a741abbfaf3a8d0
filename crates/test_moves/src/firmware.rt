//! How a firmware puts a plan onto its board: a port over its own access routine, and what it does after each answer.
ghost use Rattle.std.specs.Prelude.{◌≡◌, List, IsTrue, IfSome, if◌then◌else◌, ◌&&◌};
ghost use Rattle.pci_spec.specs.Machine.{Target, write_targets};
ghost use Rattle.pci_spec.specs.Port.{IsLawful, ShowsNumber, has_function, is_access as is_lawful_access, fits as has_room};

use crate::setting::{POOLS, machine_of, pin, slot, three};
use crate::trial::{Trial, tried};
use pci_base::failures::Failures;
use pci_base::slot::Slot;
use pci_machine::access::{fits, is_access};
use pci_machine::fail_at::FailAt;
use pci_machine::machine::Machine;
use pci_machine::port::{ConfigPort, PortError};
use pci_plan::apply::apply;
use pci_plan::apply_fault::ApplyFault;
use pci_plan::plan::Plan;
use pci_plan::write::Write;
use std::alloc::Global;

/// What a firmware has: accesses to the configuration space of its functions. Whoever implements it vouches
/// for what it says of the hardware.
pub trait Hardware {
    // the functions, with their configuration space and the bits that a write sets or a one clears
    ghost functions: { Self → List Target };

    /// Whether a function is at a slot: its Vendor ID doesn't read FFFFh.
    fn is_there(&mut self, slot: Slot) -> bool
        ensures there { result ≡ has_function (functions self.old) slot }
        ensures same { self.new ≡ self.old }
        ensures lawful { IsLawful (functions self.new) };

    /// Reads `width` bytes at an offset in one access, or None where it failed.
    fn get(&mut self, slot: Slot, off: u8, width: u8) -> Option<u32>
        requires there { IsTrue (has_function (functions self.old) slot) }
        requires access { IsTrue (is_lawful_access off width) }
        ensures value { IfSome result (ShowsNumber (functions self.old) slot off width) }
        ensures same { functions self.new ≡ functions self.old }
        ensures lawful { IsLawful (functions self.new) };

    /// Writes `width` bytes at an offset in one access. Whether it was taken.
    fn put(&mut self, slot: Slot, off: u8, width: u8, value: u32) -> bool
        requires there { IsTrue (has_function (functions self.old) slot) }
        requires access { IsTrue (is_lawful_access off width && has_room width value) }
        ensures taken { functions self.new ≡ (if result
            then write_targets (functions self.old) record
            { slot = slot; offset = off; width = width; value = value }
            else functions self.old) }
        ensures lawful { IsLawful (functions self.new) };
}

/// A firmware's accesses as a port.
#[derive(Drop)]
pub struct Firmware<H> {
    hardware: H,
    failed: Failures,
}

impl<H: Hardware> ConfigPort for Firmware<H> {
    ghost targets = { λ s. H.functions s.hardware };

    ghost failures = { λ s. s.failed.count };

    ghost reads = { λ _ _ _ _ _ _. Unit {0} };

    ghost writes = { λ _ _ _ _. Unit {0} };

    fn read(&mut self, slot: Slot, off: u8, width: u8) -> Result<u32, PortError> {
        if !self.hardware.is_there(slot) {
            return Err(PortError::NoFunction);
        }
        if !is_access(off, width) {
            return Err(PortError::BadAccess);
        }
        match self.hardware.get(slot, off, width) {
            Some(value) => Ok(value),
            None => {
                self.failed = self.failed.and_one();
                Err(PortError::Failed)
            }
        }
    }

    fn write(&mut self, slot: Slot, off: u8, width: u8, value: u32) -> Result<(), PortError> {
        if !self.hardware.is_there(slot) {
            return Err(PortError::NoFunction);
        }
        if !is_access(off, width) || !fits(width, value) {
            return Err(PortError::BadAccess);
        }
        if self.hardware.put(slot, off, width, value) {
            Ok(())
        } else {
            self.failed = self.failed.and_one();
            Err(PortError::Failed)
        }
    }
}

/// What a firmware does after it has put a plan onto its functions.
#[derive(Clone, Copy, Debug, PartialEq, Eq)]
pub enum Next {
    /// All functions have their planned addresses: go on.
    Start,
    /// Nothing was written, as an access failed: see what is gone, and try again with the same plan.
    TryAgain,
    /// Take a new dump, and plan from it.
    PlanAnew,
    /// This write doesn't stay: look at the function, take a new dump and probe, and plan from them.
    Distrust(Write),
}

/// Puts a plan onto the functions of a firmware.
pub fn set_up<H: Hardware>(firmware: &mut Firmware<H>, plan: &Plan<'_>) -> Next {
    match apply(firmware, &plan.as_move()) {
        Ok(()) => Next::Start,
        // written since the dump was taken; nothing was written now
        Err(ApplyFault::Changed(_, _)) => Next::PlanAnew,
        Err(ApplyFault::Port { done: 0 }) => Next::TryAgain,
        // some writes were made, so the board is no longer what the plan starts from
        Err(ApplyFault::Port { done: _ }) => Next::PlanAnew,
        Err(ApplyFault::Stuck { done }) => match plan.writes().get(done.saturating_sub(1)) {
            Some(write) => Next::Distrust(*write),
            None => Next::PlanAnew,
        },
    }
}

/// The routines of a board that stands in for hardware: functions in memory.
#[derive(Drop)]
struct Board<P> {
    functions: P,
}

impl<P: ConfigPort> Hardware for Board<P> {
    ghost functions = { λ s. P.targets s.functions };

    fn is_there(&mut self, slot: Slot) -> bool {
        // a read of no bytes is refused, and does nothing
        !matches!(self.functions.read(slot, 0, 0), Err(PortError::NoFunction))
    }

    fn get(&mut self, slot: Slot, off: u8, width: u8) -> Option<u32> {
        self.functions.read(slot, off, width).ok()
    }

    fn put(&mut self, slot: Slot, off: u8, width: u8, value: u32) -> bool {
        self.functions.write(slot, off, width, value).is_ok()
    }
}

/// Whether a firmware does this next, and at the end plans anew.
fn does_next<H: Hardware>(firmware: &mut Firmware<H>, plan: &Plan<'_>, next: Next) -> bool {
    // what was written stays, and what was written to isn't what the plan starts from
    set_up(firmware, plan) == next
        && (next != Next::TryAgain || set_up(firmware, plan) == Next::Start)
        && set_up(firmware, plan) == Next::PlanAnew
}

/// Whether it does where access `n` fails.
fn goes_on(alloc: Global, plan: &Plan<'_>, n: u64, next: Next) -> bool {
    let Some(machine) = machine_of(alloc, plan) else {
        return false;
    };
    let mut firmware = Firmware {
        hardware: Board {
            functions: FailAt::new(machine, n),
        },
        failed: Failures::new(),
    };
    does_next(&mut firmware, plan, next)
}

/// Whether a firmware knows what to do next whichever access of the plan of three functions fails.
pub fn firmware_knows_what_next(alloc: Global, plan: &Plan<'_>) -> bool {
    for n in 0..=40u64 {
        let next = match n {
            0 => Next::Start,
            1..=27 => Next::TryAgain,
            _ => Next::PlanAnew,
        };
        if !goes_on(alloc, plan, n, next) {
            return false;
        }
    }
    true
}

/// Whether a firmware whose board is this machine distrusts the write to the BAR of 00:02.0.
fn distrusts(machine: Machine, plan: &Plan<'_>, here: Slot) -> bool {
    let mut firmware = Firmware {
        hardware: Board { functions: machine },
        failed: Failures::new(),
    };
    let stuck = Write {
        slot: here,
        off: 0x10,
        width: 4,
        value: 0xe020_0000,
    };
    set_up(&mut firmware, plan) == Next::Distrust(stuck)
}

/// Whether a firmware learns which write of the plan of three functions doesn't stay.
pub fn firmware_learns_what_stuck(alloc: Global, plan: &Plan<'_>) -> bool {
    match (machine_of(alloc, plan), slot(0, 2)) {
        (Some(mut machine), Some(here)) => {
            pin(&mut machine, here, 0x13, 0xff) && distrusts(machine, plan, here)
        }
        _ => false,
    }
}

#[test]
fn a_firmware_knows_what_to_do_next(rt: HostRuntime) {
    assert!(rt; tried(rt.alloc(), &three(0), &POOLS, Trial::FirmwareGoesOn));
}

#[test]
fn a_firmware_learns_which_write_does_not_stay(rt: HostRuntime) {
    assert!(rt; tried(rt.alloc(), &three(0), &POOLS, Trial::FirmwareIsStuck));
}
