//! Which bridges of a dump take what no region of their bus claims (PCI 3.0, appendix D).
ghost use Rattle.std.specs.Prelude.{◌≡◌, ◌&&◌, not, List, IfOk};
ghost use Rattle.pci_spec.specs.System.{function_of, system_of};
ghost use Rattle.pci_spec.specs.Text.{Block as BlockValue, IsDump, slots_of};
ghost use Rattle.judge_spec.specs.Taken as taken;
ghost use Rattle.judge_spec.specs.Taken.{taking_by};
ghost use Rattle.pci_model.specs.Subtractive.{takes_block};
ghost use Rattle.pci_model.specs.WordsValue.{words_value};

use super::listed_behind::is_anyone_behind;
use super::subtractive::is_alone;
use super::words::Words;
use pci_base::memory::OutOfMemory;
use pci_base::slot::Slot;
use pci_dump::block::Block;
use pci_dump::dump::Dump;
use std::alloc::Allocator;

/// Whether a bridge is taken to decode its windows alone, as nothing is listed behind it.
fn is_made_positive(blocks: &[Block], bridge: &Block, words: Words) -> bool
    requires { IsDump blocks.now }
    ensures { result ≡ words.subtractive
        && not (taken.is_anyone_behind (slots_of blocks.now) (function_of bridge.now bridge.now)) }
{
    words.subtractive && !is_anyone_behind(blocks, &bridge.image)
}

/// Whether a function is a bridge that takes what no region of its bus claims. One that is made to decode its windows alone
/// takes nothing.
fn takes(blocks: &[Block], bridge: &Block, words: Words) -> bool
    requires { IsDump blocks.now }
    ensures { result ≡ takes_block (words_value words) blocks.now bridge.now }
{
    if !words.unclaimed {
        return false;
    }
    is_alone(blocks, bridge.slot, &bridge.image) && !is_made_positive(blocks, bridge, words)
}

/// The bridges of a dump that take what no region of their bus claims, by slot: none where the word for it doesn't count.
///
/// # Errors
///
/// 2 where a growth was refused.
pub fn taking<A: Allocator, B: Allocator>(
    alloc: A,
    dump: &Dump<B>,
    words: Words,
) -> Result<Vec<Slot, A>, OutOfMemory>
    // of any read backs
    ensures { IfOk result (λ v. (probe : List BlockValue) → slots_of dump.now ≡ slots_of probe
        → v.items ≡ taking_by (words_value words) (system_of dump.now probe)) }
{
    let mut slots = Vec::new(alloc);
    let blocks = dump.blocks();
    for block in blocks {
        if takes(blocks, block, words) {
            slots.push(block.slot)?;
        }
    }
    Ok(slots)
}
