//! The nodes on a bus of a board in memory, and those behind them.
ghost use Rattle.std.specs.Prelude.{◌≡◌, ◌==◌, ◌&&◌, ℕ, set, IfOk};
ghost use Rattle.pci_number.specs.Board.{is_type_1, passes_on, on_bus, behind_bridges};
ghost use Rattle.pci_spec.specs.Header.{secondary_bus};
ghost use Rattle.test_numbering.specs.Tree.{nodes_of, first_byte, IsPutFirst};

use pci_base::offset::{HEADER_TYPE, SECONDARY_BUS, SUBORDINATE_BUS};
use pci_base::slot::Slot;
use std::alloc::{AllocError, Global};

/// One function of a board.
#[derive(Clone, Copy, Drop)]
pub struct Function {
    pub device: u8,
    pub function: u8,
    /// Whether it takes the numbers that are written; else it keeps those that it has.
    pub takes: bool,
    pub image: [u8; 256],
}

impl Function {
    fn is_at(&self, access: Slot) -> bool
        ensures { result
            ≡ (self.now.device == access.device && self.now.function == access.function) }
    {
        self.device == access.dev() && self.function == access.fun()
    }

    /// Whether it is a bridge.
    pub fn is_bridge(&self) -> bool
        ensures { result ≡ is_type_1 self.now.image }
    {
        self.image[usize::from(HEADER_TYPE)] % 128 == 1
    }

    /// Whether an access to a bus is for what is behind it.
    fn leads_to(&self, bus: u8) -> bool
        ensures { result ≡ (is_type_1 self.now.image && secondary_bus self.now.image == bus) }
    {
        self.is_bridge() && self.image[usize::from(SECONDARY_BUS)] == bus
    }

    /// Whether it passes an access to a bus on to the bridges behind it.
    fn passes_on(&self, bus: u8) -> bool
        ensures { result ≡ (is_type_1 self.now.image && passes_on self.now.image bus) }
    {
        self.is_bridge()
            && self.image[usize::from(SECONDARY_BUS)] < bus
            && bus <= self.image[usize::from(SUBORDINATE_BUS)]
    }

    fn write(&mut self, offset: u8, value: u8)
        ensures kept { (kept : ℕ) × (self.new.image ≡ set self.old.image offset kept) }
        ensures device { self.new.device ≡ self.old.device }
        ensures function { self.new.function ≡ self.old.function }
    {
        let index = usize::from(offset);
        let byte = if self.takes { value } else { self.image[index] };
        self.image[index] = byte;
    }
}

/// The nodes on a bus from one on: a function, what is behind it, and those that follow.
#[derive(Drop)]
pub enum Bus {
    Empty,
    Holds(Function, Box<Bus>, Box<Bus>),
}

impl Bus {
    /// The byte at an offset of the first node on this bus that answers an access.
    pub fn byte_here(&self, access: Slot, offset: u8) -> Option<u8>
        ensures { result
            ≡ first_byte (nodes_of self.now) (on_bus (nodes_of self.now) access) offset }
    {
        match self {
            Bus::Empty => None,
            Bus::Holds(function, _, others) => {
                if function.is_at(access) {
                    Some(function.image[usize::from(offset)])
                } else {
                    others.byte_here(access, offset)
                }
            }
        }
    }

    /// The same of those behind the bridges on this bus.
    pub fn byte_behind(&self, access: Slot, offset: u8) -> Option<u8>
        ensures { result
            ≡ first_byte (nodes_of self.now) (behind_bridges (nodes_of self.now) access) offset }
    {
        match self {
            Bus::Empty => None,
            Bus::Holds(function, behind, others) => {
                let found = if function.leads_to(access.bus()) {
                    behind.byte_here(access, offset)
                } else if function.passes_on(access.bus()) {
                    behind.byte_behind(access, offset)
                } else {
                    None
                };
                match found {
                    Some(byte) => Some(byte),
                    None => others.byte_behind(access, offset),
                }
            }
        }
    }

    /// Writes a byte of the first node on this bus that answers an access. Whether one does.
    pub fn put_here(&mut self, access: Slot, offset: u8, value: u8) -> bool
        ensures { IsPutFirst (nodes_of self.old) (on_bus (nodes_of self.old) access) offset result
            (nodes_of self.new) }
    {
        match self {
            Bus::Empty => false,
            Bus::Holds(function, _, others) => {
                if function.is_at(access) {
                    function.write(offset, value);
                    true
                } else {
                    others.put_here(access, offset, value)
                }
            }
        }
    }

    /// The same of those behind the bridges on this bus.
    pub fn put_behind(&mut self, access: Slot, offset: u8, value: u8) -> bool
        ensures { IsPutFirst (nodes_of self.old) (behind_bridges (nodes_of self.old) access) offset
            result (nodes_of self.new) }
    {
        match self {
            Bus::Empty => false,
            Bus::Holds(function, behind, others) => {
                let done = if function.leads_to(access.bus()) {
                    behind.put_here(access, offset, value)
                } else if function.passes_on(access.bus()) {
                    behind.put_behind(access, offset, value)
                } else {
                    false
                };
                if done {
                    return true;
                }
                others.put_behind(access, offset, value)
            }
        }
    }

    /// The same nodes once more.
    pub fn copy(&self, alloc: Global) -> Result<Bus, AllocError>
        ensures { IfOk result (λ bus. nodes_of bus ≡ nodes_of self.now) }
    {
        match self {
            Bus::Empty => Ok(Bus::Empty),
            Bus::Holds(function, behind, others) => {
                let behind = behind.copy(alloc)?;
                let others = others.copy(alloc)?;
                let behind = Box::new(alloc, behind)?;
                let others = Box::new(alloc, others)?;
                Ok(Bus::Holds(*function, behind, others))
            }
        }
    }

    /// How many nodes on this bus answer an access.
    pub fn answers_here(&self, access: Slot) -> u32 {
        match self {
            Bus::Empty => 0,
            Bus::Holds(function, _, others) => {
                u32::from(function.is_at(access)).saturating_add(others.answers_here(access))
            }
        }
    }

    /// The same of those behind the bridges on this bus.
    pub fn answers_behind(&self, access: Slot) -> u32 {
        match self {
            Bus::Empty => 0,
            Bus::Holds(function, behind, others) => {
                let found = if function.leads_to(access.bus()) {
                    behind.answers_here(access)
                } else if function.passes_on(access.bus()) {
                    behind.answers_behind(access)
                } else {
                    0
                };
                found.saturating_add(others.answers_behind(access))
            }
        }
    }
}
