//! The root buses of a board in memory.
ghost use Rattle.std.specs.Prelude.{◌≡◌, ◌&&◌, nat_le, IfOk, IsTrue};
ghost use Rattle.pci_number.specs.Board.{answers};
ghost use Rattle.test_numbering.specs.Tree.{board_of_roots, all_above, roots_rise, first_byte_of, IsPutFirstOf};

use crate::bus::Bus;
use pci_base::slot::Slot;
use std::alloc::{AllocError, Global};

/// The roots from one on: its number, the nodes on it, and the roots that follow.
#[derive(Drop)]
pub enum Roots {
    NoRoots,
    First(u8, Bus, Box<Roots>),
}

/// Whether an access to a bus goes to the first of these roots.
fn is_nearest(number: u8, rest: &Roots, bus: u8) -> bool
    ensures { result ≡ (nat_le number bus && all_above bus (board_of_roots rest.now)) }
{
    number <= bus && rest.are_above(bus)
}

impl Roots {
    /// Whether all have numbers above this one.
    fn are_above(&self, number: u8) -> bool
        ensures { result ≡ all_above number (board_of_roots self.now) }
    {
        match self {
            Roots::NoRoots => true,
            Roots::First(first, _, rest) => number < *first && rest.are_above(number),
        }
    }

    /// Whether their numbers rise.
    pub fn rise(&self) -> bool
        ensures { result ≡ roots_rise (board_of_roots self.now) }
    {
        match self {
            Roots::NoRoots => true,
            Roots::First(first, _, rest) => rest.are_above(*first) && rest.rise(),
        }
    }

    /// The byte at an offset of the first node that answers an access.
    pub fn byte(&self, access: Slot, offset: u8) -> Option<u8>
        requires { IsTrue (roots_rise (board_of_roots self.now)) }
        ensures { result
            ≡ first_byte_of (board_of_roots self.now) (answers (board_of_roots self.now) access) offset }
    {
        match self {
            Roots::NoRoots => None,
            Roots::First(number, nodes, rest) => {
                if is_nearest(*number, rest, access.bus()) {
                    if *number == access.bus() {
                        nodes.byte_here(access, offset)
                    } else {
                        nodes.byte_behind(access, offset)
                    }
                } else {
                    rest.byte(access, offset)
                }
            }
        }
    }

    /// Writes a byte of the first node that answers an access.
    pub fn put(&mut self, access: Slot, offset: u8, value: u8)
        requires { IsTrue (roots_rise (board_of_roots self.old)) }
        ensures put { IsPutFirstOf (board_of_roots self.old) (answers (board_of_roots self.old) access) offset
            (board_of_roots self.new) }
        ensures rise { IsTrue (roots_rise (board_of_roots self.new)) }
    {
        match self {
            Roots::NoRoots => {}
            Roots::First(number, nodes, rest) => {
                if is_nearest(*number, rest, access.bus()) {
                    if *number == access.bus() {
                        nodes.put_here(access, offset, value);
                    } else {
                        nodes.put_behind(access, offset, value);
                    }
                } else {
                    rest.put(access, offset, value);
                }
            }
        }
    }

    /// The same board once more.
    pub fn copy(&self, alloc: Global) -> Result<Roots, AllocError>
        ensures { IfOk result (λ roots. board_of_roots roots ≡ board_of_roots self.now) }
    {
        match self {
            Roots::NoRoots => Ok(Roots::NoRoots),
            Roots::First(number, nodes, rest) => {
                let nodes = nodes.copy(alloc)?;
                let rest = rest.copy(alloc)?;
                let rest = Box::new(alloc, rest)?;
                Ok(Roots::First(*number, nodes, rest))
            }
        }
    }

    /// How many nodes answer an access.
    pub fn answers(&self, access: Slot) -> u32 {
        match self {
            Roots::NoRoots => 0,
            Roots::First(number, nodes, rest) => {
                if is_nearest(*number, rest, access.bus()) {
                    if *number == access.bus() {
                        nodes.answers_here(access)
                    } else {
                        nodes.answers_behind(access)
                    }
                } else {
                    rest.answers(access)
                }
            }
        }
    }
}
