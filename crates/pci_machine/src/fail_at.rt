//! A port that fails one access, to show what a failure leaves.
ghost use Rattle.std.specs.Prelude.{◌≡◌, ◌≢◌, ◌↔◌, ◌+◌, ◌&&◌, IsTrue, IsFalse, IfOk, OnOk, OnErr, IsErr};
ghost use Rattle.pci_spec.specs.Machine.{write_targets};
ghost use Rattle.pci_spec.specs.Port as port;
ghost use Rattle.pci_machine.specs.Outcome as outcome;

use crate::access::{fits, is_access};
use crate::port::{ConfigPort, PortError};
use pci_base::failures::Failures;
use pci_base::slot::Slot;

/// A port whose n-th access fails. Accesses that are refused by 40 or 41 aren't counted.
#[derive(Drop)]
pub struct FailAt<P> {
    port: P,
    // which of the accesses to come fails, counted from 1; 0 where none does
    due: u64,
    failed: Failures,
}

impl<P: ConfigPort> FailAt<P> {
    ghost use Rattle.pci_machine.specs.Outcome.{failures_of_error, due_after_error, is_counted_error};

    /// The port, whose n-th access from now on fails, counted from 1. With 0 none does.
    pub fn new(port: P, n: u64) -> FailAt<P>
        ensures { (result.port ≡ port) × (result.due ≡ n) × (result.failed.count ≡ 0) }
    {
        FailAt {
            port,
            due: n,
            failed: Failures::new(),
        }
    }

    /// The port itself.
    pub fn into_inner(self) -> P
        ensures { result ≡ self.port }
    {
        let FailAt {
            port,
            due: _,
            failed: _,
        } = self;
        port
    }

    /// Whether a function is at a slot. A read of no bytes tells it: the port refuses it, by 40 or by 41, and does
    /// nothing.
    fn has_function(&mut self, slot: Slot) -> bool
        ensures there { result ≡ port.has_function (P.targets self.old.port) slot }
        ensures same { self.new ≡ self.old }
        ensures lawful { port.IsLawful (P.targets self.new.port) }
    {
        !matches!(self.port.read(slot, 0, 0), Err(PortError::NoFunction))
    }

    /// What a lawful access that fails is answered: 42, or 40 where no function is at the slot. It isn't done.
    fn failing(&mut self, slot: Slot) -> PortError
        requires due { self.old.due ≡ 1 }
        ensures no_function { result ≡ PortError.NoFunction
            ↔ IsFalse (port.has_function (P.targets self.old.port) slot) }
        ensures good_access { result ≢ PortError.BadAccess }
        ensures counted { self.new.failed.count ≡ self.old.failed.count + failures_of_error result }
        ensures untouched { self.new.port ≡ self.old.port }
        ensures refused { IsFalse (is_counted_error result) → self.new ≡ self.old }
        ensures lawful { port.IsLawful (P.targets self.new.port) }
        ensures due { self.new.due ≡ due_after_error self.old.due result }
    {
        if !self.has_function(slot) {
            return PortError::NoFunction;
        }
        self.due = 0;
        self.failed = self.failed.and_one();
        PortError::Failed
    }
}

impl<P: ConfigPort> ConfigPort for FailAt<P> {
    ghost use Rattle.pci_machine.specs.Outcome.{failures_of, due_after, is_counted};

    ghost targets = { λ s. P.targets s.port };

    ghost failures = { λ s. P.failures s.port + s.failed.count };

    ghost reads = { λ before slot offset width answer after.
        (before.due ≡ 1 → after.port ≡ before.port)
        × (before.due ≢ 1 → P.reads before.port slot offset width answer after.port) };

    ghost writes = { λ before write answer after.
        (before.due ≡ 1 → after.port ≡ before.port)
        × (before.due ≢ 1 → P.writes before.port write answer after.port) };

    fn read(&mut self, slot: Slot, off: u8, width: u8) -> Result<u32, PortError>
        ensures value { IfOk result (port.ShowsNumber (P.targets self.old.port) slot off width) }
        ensures no_function { result ≡ Err PortError.NoFunction
            ↔ IsFalse (port.has_function (P.targets self.old.port) slot) }
        ensures bad_access { result ≡ Err PortError.BadAccess
            ↔ IsTrue (port.has_function (P.targets self.old.port) slot)
            × IsFalse (port.is_access off width) }
        ensures counted { P.failures self.new.port + self.new.failed.count
            ≡ P.failures self.old.port + self.old.failed.count + failures_of result }
        ensures same { P.targets self.new.port ≡ P.targets self.old.port }
        ensures lawful { port.IsLawful (P.targets self.new.port) }
        ensures refused { IsFalse (is_counted result) → self.new ≡ self.old }
        ensures once { (self.old.due ≡ 1 → self.new.port ≡ self.old.port)
            × (self.old.due ≢ 1 → P.reads self.old.port slot off width result self.new.port) }
        // what is refused by 40 or 41 does nothing, and isn't counted
        ensures due { self.new.due ≡ due_after self.old.due result }
        ensures fails { self.old.due ≡ 1 → IsErr result }
        // of its own it fails one access; all other failures are the port's behind it
        ensures passes_on { self.old.due ≢ 1 → self.new.failed.count ≡ self.old.failed.count }
    {
        if self.due == 1 && is_access(off, width) {
            return Err(self.failing(slot));
        }
        let result = self.port.read(slot, off, width);
        if is_counted(&result) {
            self.due = self.due.saturating_sub(1);
        }
        result
    }

    fn write(&mut self, slot: Slot, off: u8, width: u8, value: u32) -> Result<(), PortError>
        ensures written { OnOk result
            (P.targets self.new.port ≡ write_targets (P.targets self.old.port)
            record { slot = slot; offset = off; width = width; value = value }) }
        ensures kept { OnErr result (P.targets self.new.port ≡ P.targets self.old.port) }
        ensures no_function { result ≡ Err PortError.NoFunction
            ↔ IsFalse (port.has_function (P.targets self.old.port) slot) }
        ensures bad_access { result ≡ Err PortError.BadAccess
            ↔ IsTrue (port.has_function (P.targets self.old.port) slot)
            × IsFalse (port.is_access off width && port.fits width value) }
        ensures counted { P.failures self.new.port + self.new.failed.count
            ≡ P.failures self.old.port + self.old.failed.count + failures_of result }
        ensures lawful { port.IsLawful (P.targets self.new.port) }
        ensures refused { IsFalse (is_counted result) → self.new ≡ self.old }
        ensures once { (self.old.due ≡ 1 → self.new.port ≡ self.old.port)
            × (self.old.due ≢ 1
            → P.writes self.old.port record {
              slot = slot;
              offset = off;
              width = width;
              value = value;
            } result self.new.port) }
        ensures due { self.new.due ≡ due_after self.old.due result }
        ensures fails { self.old.due ≡ 1 → IsErr result }
        ensures passes_on { self.old.due ≢ 1 → self.new.failed.count ≡ self.old.failed.count }
    {
        if self.due == 1 && is_access(off, width) && fits(width, value) {
            return Err(self.failing(slot));
        }
        let result = self.port.write(slot, off, width, value);
        if is_counted(&result) {
            self.due = self.due.saturating_sub(1);
        }
        result
    }
}

/// Whether an access was neither refused by 40 nor by 41.
fn is_counted<T>(answer: &Result<T, PortError>) -> bool
    ensures { result ≡ outcome.is_counted answer.now }
{
    !matches!(answer, Err(PortError::NoFunction | PortError::BadAccess))
}
