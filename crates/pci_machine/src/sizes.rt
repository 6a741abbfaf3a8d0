//! What Linux tells of the address registers of functions, which rise by slot.
ghost use Rattle.std.specs.Prelude.{◌≡◌, ◌++◌, [], ◌∷◌, length, OnOk, OnErr, IfErr};
ghost use Rattle.std.specs.List.{All};
ghost use Rattle.pci_spec.specs.SizesText.{SizesBlock as BlockValue, IsResourceLine, IsSizesBlock, IsSizes};
ghost use Rattle.pci_machine.specs.Sizes.{IsNotPushed};

use super::resource_line::ResourceLine;
use super::sizes_block::may_follow;
use pci_base::memory::{OutOfMemory, Refused};
use pci_base::slot::Slot;
use pci_dump::dump::{BLOCKS_MAX, PushFault};
use std::alloc::{Allocator, Global};
use std::marker::Model;

/// A function's slot and what is told of its registers: `lines` 0 to 5 are those of the BAR
/// registers, line 6 is that of the ROM.
#[derive(Clone, Copy, Debug, Default, PartialEq, Eq)]
pub struct SizesBlock {
    pub slot: Slot,
    pub lines: [ResourceLine; 7],
}

impl Model for SizesBlock {
    ghost use Rattle.pci_spec.specs.SizesText.{SizesBlock as BlockValue};

    ghost Value = { BlockValue };

    ghost view = { λ b. record { slot = b.slot; lines = b.lines } };

    ghost inverse = { λ v. record { slot = v.slot; lines = v.lines } };
}

/// Each line has numbers of 64 bits.
fn is_line(line: &ResourceLine)
    ensures { IsResourceLine line.now }
{
    // They are read for what their types say of them.
    let _first = line.first;
    let _last = line.last;
    let _flags = line.flags;
}

/// Seven lines are those of a block.
fn are_lines(lines: &[ResourceLine; 7])
    ensures seven { length lines.now ≡ 7 }
    ensures each { All IsResourceLine lines.now }
{
    for line in lines {
        is_line(line);
    }
}

/// Each block is one of sizes.
fn is_block(block: &SizesBlock)
    ensures { IsSizesBlock block.now }
{
    let _number = block.slot.number();
    are_lines(&block.lines);
}

/// Blocks that rise by slot, at most 4,096 of them.
#[derive(Drop)]
pub struct Sizes<A: Allocator = Global> {
    blocks: Vec<SizesBlock, A>,
}

impl<A: Allocator> Model for Sizes<A> {
    ghost use Rattle.std.specs.Prelude.{List};
    ghost use Rattle.pci_spec.specs.SizesText.{SizesBlock as BlockValue, IsSizes};

    ghost Value = { List BlockValue };

    ghost view = { λ s. s.blocks.items };

    ghost invariant = { λ s. IsSizes s.blocks.items };
}

impl<A: Allocator> Sizes<A> {
    /// The sizes of no functions. They grow by `alloc`.
    pub fn empty(alloc: A) -> Sizes<A>
        ensures { result ≡ [] }
    {
        Sizes {
            blocks: Vec::new(alloc),
        }
    }

    /// The blocks in order.
    pub fn blocks(&self) -> &[SizesBlock]
        ensures value { result.now ≡ self.now }
        ensures sizes { IsSizes self.now }
    {
        self.blocks.as_slice()
    }

    /// Puts a block after all that are there.
    ///
    /// Errors: 11 `NotAbove` where its slot isn't above the last one, else 12 `Full` where there are
    /// 4,096 blocks, else `Memory` where the growth was refused. They are then as they were.
    pub fn push(&mut self, block: SizesBlock) -> Result<(), Refused<PushFault>>
        ensures ok { OnOk result (self.new ≡ self.old ++ block ∷ []) }
        ensures refused { IfErr result (IsNotPushed self.old block) }
        // what is full or refused leaves the list as it was, so a caller may go on with it
        ensures err { OnErr result (self.new ≡ self.old) }
    {
        if !may_follow(self.blocks(), block.slot) {
            return Err(Refused::Fault(PushFault::NotAbove));
        }
        if self.blocks.len() == BLOCKS_MAX {
            return Err(Refused::Fault(PushFault::Full));
        }
        is_block(&block);
        self.append(block)?;
        Ok(())
    }

    /// Puts a block that may stand there after all that are there. At an error they are as they were.
    pub(crate) fn append(&mut self, block: SizesBlock) -> Result<(), OutOfMemory>
        requires { IsSizes (self.old ++ block ∷ []) }
        ensures ok { OnOk result (self.new ≡ self.old ++ block ∷ []) }
        ensures err { OnErr result (self.new ≡ self.old) }
    {
        self.blocks.push(block)?;
        Ok(())
    }
}
