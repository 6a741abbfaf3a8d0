//! A dump: blocks that rise by slot.
ghost use Rattle.std.specs.Prelude.{◌≡◌, ◌<◌, ◌↔◌, ◌++◌, [], ◌∷◌, length, OnOk, OnErr, IsErrOf};
ghost use Rattle.pci_spec.specs.Text.{Block as BlockValue, IsBlock, IsDump};
ghost use Rattle.pci_spec.specs.Stops.{IsAboveLast, last_slot};

use super::block::Block;
use pci_base::memory::{OutOfMemory, Refused};
use pci_base::slot::Slot;
use std::alloc::{Allocator, Global};
use std::marker::Model;

/// The most blocks of a dump.
pub const BLOCKS_MAX: usize = 4096;

/// Why a block can't stand at the end of a dump.
#[derive(Clone, Copy, Debug, PartialEq, Eq)]
pub enum PushFault {
    /// 11: its slot isn't above the slot of the last block.
    NotAbove,
    /// 12: the dump has 4,096 blocks.
    Full,
}

impl PushFault {
    /// The fault's number, 11 or 12.
    pub fn number(self) -> u8
        ensures above { self ≡ PushFault.NotAbove → result ≡ 11 }
        ensures full { self ≡ PushFault.Full → result ≡ 12 }
    {
        match self {
            PushFault::NotAbove => 11,
            PushFault::Full => 12,
        }
    }
}

/// Blocks that rise by slot, at most 4,096 of them.
#[derive(Drop)]
pub struct Dump<A: Allocator = Global> {
    blocks: Vec<Block, A>,
}

impl<A: Allocator> Model for Dump<A> {
    ghost use Rattle.std.specs.Prelude.{List};
    ghost use Rattle.pci_spec.specs.Text.{Block as BlockValue, IsDump};

    ghost Value = { List BlockValue };

    ghost view = { λ d. d.blocks.items };

    ghost invariant = { λ d. IsDump d.blocks.items };
}

impl<A: Allocator> Dump<A> {
    /// The dump of no functions. It grows by `alloc`.
    pub fn empty(alloc: A) -> Dump<A>
        ensures { result ≡ [] }
    {
        Dump {
            blocks: Vec::new(alloc),
        }
    }

    /// The blocks in order.
    pub fn blocks(&self) -> &[Block]
        ensures value { result.now ≡ self.now }
        // callers walk two dumps side by side, and copy them, as slots rise in both
        ensures dump { IsDump self.now }
    {
        self.blocks.as_slice()
    }

    /// The slot of the last block.
    fn last_slot(&self) -> Option<Slot>
        ensures { result ≡ last_slot self.now }
    {
        match self.blocks.last() {
            None => None,
            Some(block) => Some(block.slot),
        }
    }

    /// Puts a block after all that are there.
    ///
    /// Errors: 11 `NotAbove` where its slot isn't above the last one, else 12 `Full` where there are
    /// 4,096 blocks, else `Memory` where the growth was refused. The dump is then as it was.
    pub fn push(&mut self, block: Block) -> Result<(), Refused<PushFault>>
        ensures ok { OnOk result (self.new ≡ self.old ++ block ∷ []) }
        // both ways: who puts the slots of another dump in order has no such error to handle
        ensures not_above { IsErrOf result (Refused.Fault PushFault.NotAbove)
            ↔ (IsAboveLast (last_slot self.old) block.slot → ⊥) }
        ensures full { IsErrOf result (Refused.Fault PushFault.Full)
            ↔ (IsAboveLast (last_slot self.old) block.slot × (length self.old ≡ BLOCKS_MAX)) }
        // what is full or refused leaves the dump as it was, so a caller may go on with it
        ensures err { OnErr result (self.new ≡ self.old) }
    {
        if !block.may_follow(self.last_slot()) {
            return Err(Refused::Fault(PushFault::NotAbove));
        }
        if self.blocks.len() == BLOCKS_MAX {
            return Err(Refused::Fault(PushFault::Full));
        }
        self.append(block)?;
        Ok(())
    }

    /// Puts a block after all that are there, where there is room and its slot is above the last one.
    ///
    /// Errors: 2 `OutOfMemory` where the growth was refused.
    pub fn push_next(&mut self, block: Block) -> Result<(), OutOfMemory>
        // the caller goes along the slots of a dump, so neither can be refused
        requires above { IsAboveLast (last_slot self.old) block.slot }
        requires room { length self.old < BLOCKS_MAX }
        ensures { OnOk result (self.new ≡ self.old ++ block ∷ []) }
    {
        match self.push(block) {
            Ok(()) => Ok(()),
            Err(Refused::Fault(_)) => unreachable!(),
            Err(Refused::Memory) => Err(OutOfMemory),
        }
    }

    /// Puts a block that may stand there after all that are there. At an error the dump is as it was.
    pub(crate) fn append(&mut self, block: Block) -> Result<(), OutOfMemory>
        requires block { IsBlock block }
        requires above { IsAboveLast (last_slot self.old) block.slot }
        requires room { length self.old < BLOCKS_MAX }
        ensures ok { OnOk result (self.new ≡ self.old ++ block ∷ []) }
        ensures err { OnErr result (self.new ≡ self.old) }
    {
        self.blocks.push(block)?;
        Ok(())
    }
}
