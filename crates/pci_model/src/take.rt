//! A dump and its probe as words take them.
ghost use Rattle.std.specs.Prelude.{◌≡◌, List, IfOk};
ghost use Rattle.pci_spec.specs.System.{function_of, system_of};
ghost use Rattle.pci_spec.specs.Text.{Block as BlockValue, IsDump, slots_of};
ghost use Rattle.judge_spec.specs.Taken.{IsTakenAs};
ghost use Rattle.judge_spec.specs.TakenDumps.{AreTakenAs};
ghost use Rattle.pci_model.specs.Subtractive.{unclaimed_aside_of};
ghost use Rattle.pci_model.specs.WordsValue.{words_value};

use super::aside::{bridge_aside, first_aside, parts_aside};
use super::fixed_parts::fixed_parts;
use super::power::take_asleep;
use super::socket::cardbus_aside;
use super::subtractive::unclaimed_aside;
use super::words::Words;
use pci_base::image::Image;
use pci_base::memory::OutOfMemory;
use pci_base::slot::Slot;
use pci_dump::block::Block;
use pci_dump::dump::Dump;
use std::alloc::Allocator;

/// A dump and its probe.
#[derive(Drop)]
pub struct TakenPair<A: Allocator> {
    pub dump: Dump<A>,
    pub probe: Dump<A>,
}

/// Takes a function of a dump.
fn take(slot: Slot, image: &mut Image, probe: &mut Image, blocks: &[Block], words: Words)
    requires { IsDump blocks.now }
    ensures { IsTakenAs (words_value words) (slots_of blocks.now)
        record { slot = slot; image = image.old.0; probe = probe.old.0 }
        record { slot = slot; image = image.new.0; probe = probe.new.0 } }
{
    let fixed = fixed_parts(image, words);
    first_aside(image, probe, words);
    take_asleep(slot, image, probe, words);
    bridge_aside(image, blocks, words);
    parts_aside(slot, image, probe, fixed, words);
    cardbus_aside(image, probe, words);
}

/// Takes a function of a dump, by its two blocks. One that is alone of the class of subtractive decoding on its bus is made
/// one that decodes its windows alone first, where what it takes is given beside the system.
fn take_blocks(block: &mut Block, probe: &mut Block, blocks: &[Block], words: Words)
    requires { IsDump blocks.now }
    // whatever the functions of the dump read back
    ensures taken { (read_backs : List BlockValue) → slots_of blocks.now ≡ slots_of read_backs
        → IsTakenAs (words_value words) (slots_of blocks.now)
        (unclaimed_aside_of (words_value words) (system_of blocks.now read_backs)
        (function_of block.old probe.old)) (function_of block.new probe.new) }
    ensures slot { block.new.slot ≡ block.old.slot }
    ensures probe_slot { probe.new.slot ≡ probe.old.slot }
    ensures probe_title { probe.new.title ≡ probe.old.title }
{
    unclaimed_aside(block.slot, &mut block.image, blocks, words);
    take(
        block.slot,
        &mut block.image,
        &mut probe.image,
        blocks,
        words,
    );
}

/// A dump and its probe, which list the same slots, as words take them.
///
/// # Errors
///
/// 2 where a growth was refused.
pub fn taken_by<A: Allocator + Copy, B: Allocator, C: Allocator>(
    alloc: A,
    dump: &Dump<B>,
    probe: &Dump<C>,
    words: Words,
) -> Result<TakenPair<A>, OutOfMemory>
    // else no two blocks make a function
    requires { slots_of dump.now ≡ slots_of probe.now }
    ensures { IfOk result (λ t. AreTakenAs (words_value words) dump.now probe.now t.dump t.probe) }
{
    let blocks = dump.blocks();
    let probes = probe.blocks();
    let mut taken = TakenPair {
        dump: Dump::empty(alloc),
        probe: Dump::empty(alloc),
    };
    for i in 0..blocks.len() {
        let mut block = blocks[i].copy();
        let mut read_backs = probes[i].copy();
        take_blocks(&mut block, &mut read_backs, blocks, words);
        taken.dump.push_next(block)?;
        taken.probe.push_next(read_backs)?;
    }
    Ok(taken)
}
