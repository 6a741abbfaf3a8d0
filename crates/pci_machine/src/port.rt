//! A way to configuration space, and what its accesses do (PCI 3.0, 6.1).
ghost use Rattle.std.specs.Prelude.{◌≡◌, ◌↔◌, ◌+◌, ◌&&◌, ℕ, List, IsTrue, IsFalse, IfOk, OnOk, OnErr};
ghost use Rattle.pci_spec.specs.Machine.{Target, write_targets};
ghost use Rattle.pci_spec.specs.Port.{IsLawful, ShowsNumber, has_function, is_access, fits};

use pci_base::slot::Slot;

/// Why an access is refused.
#[derive(Clone, Copy, Debug, PartialEq, Eq)]
pub enum PortError {
    /// 40: no function is at the slot.
    NoFunction,
    /// 41: the width isn't 1, 2 or 4, the offset isn't a multiple of it, or the value doesn't fit.
    BadAccess,
    /// 42: the access failed.
    Failed,
}

impl PortError {
    ghost use Rattle.pci_machine.specs.Outcome.{port_error_number};

    /// The number of the error.
    pub fn number(self) -> u8
        ensures { result ≡ port_error_number self }
    {
        match self {
            PortError::NoFunction => 40,
            PortError::BadAccess => 41,
            PortError::Failed => 42,
        }
    }
}

/// A way to the configuration space of functions.
///
/// An access is refused by 40 exactly where no function is at the slot, else by 41 exactly where it
/// is no lawful access, else by 42 exactly where it counts as one more failure. What is refused
/// changes no function, and by 40 and 41 nothing at all.
pub trait ConfigPort {
    ghost use Rattle.std.specs.Prelude.{Result};
    ghost use Rattle.pci_spec.specs.Slot.{Slot as Place};
    ghost use Rattle.pci_spec.specs.Machine.{Write};
    ghost use Rattle.pci_machine.specs.declared.port.PortError.{PortError as Refusal};
    ghost use Rattle.pci_machine.specs.Outcome.{failures_of, is_counted};

    // The functions, each with its configuration space and the bits that a write sets or a one clears.
    ghost targets: { Self → List Target };

    // How many accesses have failed. No number is the last.
    ghost failures: { Self → ℕ };

    // What one read of a number at an offset does, with its answer, to the port; and what one write does.
    ghost reads: { Self → Place → ℕ → ℕ → Result ℕ Refusal → Self → Type 0 };

    ghost writes: { Self → Write → Result (Unit {0}) Refusal → Self → Type 0 };

    /// The little-endian number of `width` bytes at an offset of the function at a slot.
    fn read(&mut self, slot: Slot, off: u8, width: u8) -> Result<u32, PortError>
        ensures value { IfOk result (ShowsNumber (targets self.old) slot off width) }
        // both ways: where a function is known to be there, no caller has to expect 40
        ensures no_function { result ≡ Err PortError.NoFunction
            ↔ IsFalse (has_function (targets self.old) slot) }
        ensures bad_access { result ≡ Err PortError.BadAccess
            ↔ IsTrue (has_function (targets self.old) slot) × IsFalse (is_access off width) }
        // so that a port that failed can be told from a function that isn't there
        ensures counted { failures self.new ≡ failures self.old + failures_of result }
        // looking changes nothing, so registers may be compared before the first write
        ensures same { targets self.new ≡ targets self.old }
        // a caller need not ask for lawful functions: its first access tells it
        ensures lawful { IsLawful (targets self.new) }
        // so a read of no bytes may be tried, to learn whether a function is there
        ensures refused { IsFalse (is_counted result) → self.new ≡ self.old }
        // a port around another one shows by it that each access got there once
        ensures once { reads self.old slot off width result self.new };

    /// Writes the little-endian bytes of `value` to `width` bytes at an offset: a writable bit takes
    /// its bit, a bit that is cleared by a one becomes 0 where its bit is 1, all others stay.
    fn write(&mut self, slot: Slot, off: u8, width: u8, value: u32) -> Result<(), PortError>
        ensures written { OnOk result (targets self.new ≡ write_targets (targets self.old)
            record { slot = slot; offset = off; width = width; value = value }) }
        // a write that failed wasn't made, so how many were made is always known
        ensures kept { OnErr result (targets self.new ≡ targets self.old) }
        ensures no_function { result ≡ Err PortError.NoFunction
            ↔ IsFalse (has_function (targets self.old) slot) }
        // a value that is too wide is refused, and never cut
        ensures bad_access { result ≡ Err PortError.BadAccess
            ↔ IsTrue (has_function (targets self.old) slot)
            × IsFalse (is_access off width && fits width value) }
        ensures counted { failures self.new ≡ failures self.old + failures_of result }
        ensures lawful { IsLawful (targets self.new) }
        ensures refused { IsFalse (is_counted result) → self.new ≡ self.old }
        ensures once { writes self.old record {
          slot = slot;
          offset = off;
          width = width;
          value = value;
        } result self.new };
}
