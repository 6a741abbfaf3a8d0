//! Where a function stands (PCI 3.0, 3.2.2.3).
ghost use Rattle.std.specs.Prelude.{◌≡◌, ◌<◌, ◌↔◌, IsTrue, IsSome, IfSome, Some};
ghost use Rattle.pci_spec.specs.Slot.{Slot as SlotValue, IsSlot, slot_number};
ghost use Rattle.pci_spec.specs.Text.{slot_text};
ghost use Rattle.pci_spec.specs.Stops.{IsAboveLast};
ghost use Rattle.std.specs.Ordering.{nat_cmp, on, then_cmp};

use std::fmt;
use std::marker::Model;

/// How many buses there are: their numbers have 8 bits (PCI 3.0, 3.2.2.3).
pub const BUSES: usize = 256;

/// Bus, device and function number. Slots are ordered by bus, then device, then function.
#[derive(Clone, Copy, Debug, Default, PartialEq, Eq, PartialOrd, Ord)]
pub struct Slot {
    bus: u8,
    device: u8,
    function: u8,
}

impl Model for Slot {
    ghost use Rattle.std.specs.Prelude.{◌<◌};
    ghost use Rattle.pci_spec.specs.Slot.{Slot as SlotValue};

    ghost Value = { SlotValue };

    ghost view = { λ s. record { bus = s.bus; device = s.device; function = s.function } };

    ghost invariant = { λ s. (s.device < 32) × (s.function < 8) };

    ghost inverse = { λ v. record { bus = v.bus; device = v.device; function = v.function } };
}

impl Slot {
    /// The slot, where `dev` is below 32 and `fun` below 8.
    pub fn new(bus: u8, dev: u8, fun: u8) -> Option<Slot>
        ensures some { IsSome result ↔ IsSlot record { bus = bus; device = dev; function = fun } }
        ensures numbers { IfSome result (λ s. s ≡ record { bus = bus; device = dev; function = fun }) }
    {
        if dev < 32 && fun < 8 {
            Some(Slot {
                bus,
                device: dev,
                function: fun,
            })
        } else {
            None
        }
    }

    /// The bus number, 0 to 255.
    pub fn bus(self) -> u8
        ensures { result ≡ self.bus }
    {
        self.bus
    }

    /// The device number, 0 to 31.
    pub fn dev(self) -> u8
        ensures { result ≡ self.device }
    {
        self.device
    }

    /// The function number, 0 to 7.
    pub fn fun(self) -> u8
        ensures number { result ≡ self.function }
        // so that a writer can take its hex digit without a test
        ensures below { result < 8 }
    {
        self.function
    }

    /// The slot as one number of 16 bits, which orders slots: bus in bits 15:8, device in bits 7:3,
    /// function in bits 2:0.
    pub fn number(self) -> u16
        ensures number { result ≡ slot_number self }
        // the fields are hidden, so this is how other crates learn that each slot is a lawful one
        ensures slot { IsSlot self }
    {
        u16::from(self.bus) * 256 + u16::from(self.device) * 8 + u16::from(self.function)
    }

    /// Whether the slot may stand after the last one of a list.
    pub fn may_follow(self, last: Option<Slot>) -> bool
        ensures { IsTrue result ↔ IsAboveLast last self }
    {
        match last {
            None => true,
            Some(last) => last.number() < self.number(),
        }
    }
}

/// `bb:dd.f`, in lower-case hex digits.
impl fmt::Display for Slot {
    ghost output = { λ s. Some (slot_text s) };

    fn fmt<W: fmt::Write>(&self, f: &mut fmt::Formatter<W>) -> fmt::Result {
        let bus = self.bus;
        let device = self.device;
        let function = self.function;
        write!(f, "{bus:02x}:{device:02x}.{function:x}")
    }
}

/// A law of slots: `cmp` compares the buses, of one bus the devices, and of one device the functions; `==` holds where
/// all three are the same.
pub fn slot_laws()
    ensures order { (s t : SlotValue) → ⟦<Slot as Ord>⟧.cmp s t
        ≡ then_cmp (on (λ x. x.bus) nat_cmp)
        (then_cmp (on (λ x. x.device) nat_cmp) (on (λ x. x.function) nat_cmp)) s t }
    ensures equal { (s t : SlotValue) → IsTrue (⟦<Slot as PartialEq>⟧.eq s t) ↔ (s ≡ t) }
{}
