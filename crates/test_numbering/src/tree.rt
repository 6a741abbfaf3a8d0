//! A port to a board in memory: a tree of nodes behind each root.
ghost use Rattle.std.specs.Prelude.{◌≡◌, IsTrue, IfOk};
ghost use Rattle.pci_number.specs.Board.{answers};
ghost use Rattle.test_numbering.specs.Tree.{board_of_roots, roots_rise, IsPutFirstOf};

use crate::roots::Roots;
use pci_base::failures::Failures;
use pci_base::slot::Slot;
use pci_number::{AccessFailed, BoardPort, NotTaken};
use std::alloc::Global;

/// A write that was made, and the board after it.
#[derive(Drop)]
pub struct Stood {
    pub written: NotTaken,
    pub roots: Roots,
}

/// A board whose roots have rising numbers.
#[derive(Drop)]
pub struct Tree {
    alloc: Global,
    pub roots: Roots,
    /// What stood after each write, the last one last.
    pub stood: Vec<Stood>,
    failed: Failures,
    /// How many accesses were made.
    accesses: Failures,
    ghost rise: { IsTrue (roots_rise (board_of_roots roots)) },
}

impl Tree {
    /// The board with these roots, or none where their numbers don't rise.
    pub fn new(alloc: Global, roots: Roots) -> Option<Tree> {
        if roots.rise() {
            Some(Tree {
                alloc,
                roots,
                stood: Vec::new(alloc),
                failed: Failures::new(),
                accesses: Failures::new(),
            })
        } else {
            None
        }
    }

    /// What a write leaves, if there is memory for it: to be kept, and to go on with.
    fn after(&self, access: Slot, offset: u8, value: u8) -> Result<(Stood, Roots), AccessFailed>
        ensures put { IfOk result (λ p. IsPutFirstOf (board_of_roots self.now.roots)
            (answers (board_of_roots self.now.roots) access) offset (board_of_roots p.1)) }
        ensures kept { IfOk result (λ p. board_of_roots p.0.roots ≡ board_of_roots p.1) }
        ensures written { IfOk result (λ p. p.0.written
            ≡ record { slot = access; offset = offset; number = value }) }
        ensures rise { IfOk result (λ p. IsTrue (roots_rise (board_of_roots p.1))) }
    {
        let mut roots = match self.roots.copy(self.alloc) {
            Ok(roots) => roots,
            Err(_) => return Err(AccessFailed),
        };
        roots.put(access, offset, value);
        match roots.copy(self.alloc) {
            Ok(copy) => {
                let written = NotTaken {
                    slot: access,
                    offset,
                    number: value,
                };
                Ok((
                    Stood {
                        written,
                        roots: copy,
                    },
                    roots,
                ))
            }
            Err(_) => Err(AccessFailed),
        }
    }
}

impl BoardPort for Tree {
    ghost use Rattle.std.specs.Prelude.{length};
    ghost use Rattle.test_numbering.specs.Stood.{boards_recorded, last_write_of};

    ghost board = { λ t. board_of_roots t.roots };

    ghost history = { λ t. boards_recorded t.stood.items };

    ghost failures = { λ t. t.failed.count };

    ghost last_write = { λ t. last_write_of t.stood.items };

    ghost writes = { λ t. length t.stood.items };

    ghost accesses = { λ t. t.accesses.count };

    fn read(&mut self, access: Slot, offset: u8) -> Result<u8, AccessFailed> {
        self.accesses = self.accesses.and_one();
        match self.roots.byte(access, offset) {
            Some(byte) => Ok(byte),
            None => Ok(0xff),
        }
    }

    fn write(&mut self, access: Slot, offset: u8, value: u8) -> Result<(), AccessFailed> {
        match self.after(access, offset, value) {
            Ok((stood, roots)) => {
                if self.stood.push(stood).is_err() {
                    self.failed = self.failed.and_one();
                    return Err(AccessFailed);
                }
                self.accesses = self.accesses.and_one();
                self.roots = roots;
                Ok(())
            }
            Err(failed) => {
                self.failed = self.failed.and_one();
                Err(failed)
            }
        }
    }
}
