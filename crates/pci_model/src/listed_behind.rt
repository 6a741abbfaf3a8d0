//! Whether a function of a dump is listed behind a bridge.
ghost use Rattle.std.specs.Prelude.{◌≡◌, ◌<◌, ◌≤◌, ℕ, List, length};
ghost use Rattle.std.specs.List.{AllWithin};
ghost use Rattle.pci_spec.specs.Slot.{Slot as SlotValue};
ghost use Rattle.pci_spec.specs.Text.{IsDump, slots_of};
ghost use Rattle.judge_spec.specs.Taken.{is_anyone_behind};

use pci_base::image::Image;
use pci_base::offset::{SECONDARY_BUS, SUBORDINATE_BUS};
use pci_dump::block::Block;

/// The index of the first block on this bus or a higher one.
pub fn first_from(blocks: &[Block], bus: u8) -> usize
    requires { IsDump blocks.now }
    ensures bound { result ≤ length blocks.now }
    ensures before { AllWithin (λ b. b.slot.bus < bus) blocks.now 0 result }
    ensures after { AllWithin (λ b. bus ≤ b.slot.bus) blocks.now result (length blocks.now) }
{
    blocks.partition_point(|block| block.slot.bus() < bus)
}

/// Whether a function of a dump is listed on a bus behind a bridge.
pub fn is_anyone_behind(blocks: &[Block], bridge: &Image) -> bool
    // the functions of a bus stand together, and are found by halving
    requires { IsDump blocks.now }
    ensures { (slot : SlotValue) (probe : List ℕ) → result ≡ is_anyone_behind (slots_of blocks.now) record
        { slot = slot; image = bridge.now.0; probe = probe } }
{
    let first = first_from(blocks, bridge.u8(SECONDARY_BUS));
    if blocks.len() <= first {
        return false;
    }
    let block = &blocks[first];
    block.slot.bus() <= bridge.u8(SUBORDINATE_BUS)
}
