//! Writes to functions as words take them, as writes to the functions of a dump; and the dump after writes.
ghost use Rattle.std.specs.Prelude.{◌≡◌, ◌≤◌, ◌<◌, length, map, IfOk};
ghost use Rattle.std.specs.List.{AllWithin};
ghost use Rattle.pci_spec.specs.Slot.{IsRising, slot_number};
ghost use Rattle.pci_spec.specs.Text.{IsDump, slots_of};
ghost use Rattle.judge_spec.specs.Windows.{with_number};
ghost use Rattle.pci_plan.specs.Writes.{write_value};
ghost use Rattle.pci_model_settle.specs.Listed.{block_after, blocks_after, listed_command, listed_write};

use pci_base::image::{IMAGE_LEN, Image};
use pci_base::memory::OutOfMemory;
use pci_base::offset::COMMAND;
use pci_base::slot::Slot;
use pci_dump::block::Block;
use pci_dump::dump::Dump;
use pci_plan::write::Write;
use std::alloc::Allocator;

/// The index of the first block whose slot isn't below one, or the number of blocks.
fn first_not_below(blocks: &[Block], slot: Slot) -> usize
    requires { IsRising (slots_of blocks.now) }
    ensures bound { result ≤ length blocks.now }
    ensures before { AllWithin (λ b. slot_number b.slot < slot_number slot) blocks.now 0 result }
    ensures after { AllWithin (λ b. slot_number slot ≤ slot_number b.slot) blocks.now result
        (length blocks.now) }
{
    let number = slot.number();
    blocks.partition_point(|block| block.slot.number() < number)
}

/// Command of the function at a slot; 0 where none is there.
fn command_at(blocks: &[Block], slot: Slot) -> u16
    // its block is found by halving
    requires { IsDump blocks.now }
    ensures { result ≡ listed_command blocks.now slot }
{
    let index = first_not_below(blocks, slot);
    if index == blocks.len() {
        return 0;
    }
    let block = &blocks[index];
    if block.slot == slot {
        block.image.u16(COMMAND)
    } else {
        0
    }
}

/// The write for the functions of a dump: of Command bits 0 and 1 alone are set.
fn listed_write(blocks: &[Block], write: Write) -> Write
    requires { IsDump blocks.now }
    ensures { write_value result ≡ listed_write blocks.now (write_value write) }
{
    if write.off != COMMAND {
        return write;
    }
    let command = u32::from(command_at(blocks, write.slot));
    Write {
        value: command / 4 * 4 + write.value % 4,
        ..write
    }
}

/// Makes writes to functions as words take them writes to the functions of a dump.
pub fn as_listed(writes: &mut [Write], dump: &[Block])
    // blocks are found by halving
    requires { IsDump dump.now }
    ensures { map write_value writes.new ≡ map (listed_write dump.now) (map write_value writes.old) }
{
    for i in 0..writes.len() {
        writes[i] = listed_write(dump, writes[i]);
    }
}

/// Puts the bytes of a write into an image. A byte beyond it isn't there.
fn put_bytes(image: &mut Image, write: Write)
    ensures { image.new.0 ≡ with_number write.width write.off write.value image.old.0 }
{
    let mut rest = write.value;
    for j in 0..write.width {
        let place = usize::from(write.off) + usize::from(j);
        if place < IMAGE_LEN {
            image.0[place] = (rest % 256) as u8;
        }
        rest /= 256;
    }
}

/// Puts the bytes of a write into the block at its slot, if one is there.
fn put_write<A: Allocator>(blocks: &mut Vec<Block, A>, write: Write)
    // the block is found by halving
    requires { IsRising (slots_of blocks.old.items) }
    ensures { blocks.new.items ≡ map (block_after (write_value write)) blocks.old.items }
{
    let index = first_not_below(blocks.as_slice(), write.slot);
    if index == blocks.len() {
        return;
    }
    let block = &mut blocks[index];
    if block.slot == write.slot {
        put_bytes(&mut block.image, write);
    }
}

/// The dump after some writes, in their order.
///
/// # Errors
///
/// 2 where a growth was refused.
pub fn dump_after<A: Allocator + Copy, B: Allocator>(
    alloc: A,
    dump: &Dump<B>,
    writes: &[Write],
) -> Result<Dump<A>, OutOfMemory>
    ensures { IfOk result (λ after. after ≡ blocks_after dump.now (map write_value writes.now)) }
{
    let mut blocks = Vec::new(alloc);
    for block in dump.blocks() {
        blocks.push(block.copy())?;
    }
    for write in writes {
        put_write(&mut blocks, *write);
    }
    let mut after = Dump::empty(alloc);
    for i in 0..blocks.len() {
        after.push_next(blocks[i].copy())?;
    }
    Ok(after)
}
