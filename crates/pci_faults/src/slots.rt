//! Slots that one of two texts alone lists.
ghost use Rattle.std.specs.Prelude.{◌<◌, ◌≤◌, ◌↔◌, length, map, drop, IfOk};
ghost use Rattle.pci_spec.specs.Text.{IsDump, slots_of};
ghost use Rattle.pci_spec.specs.System.{system_of};
ghost use Rattle.pci_spec.specs.Fault as faults;
ghost use Rattle.pci_function.specs.Fault.{fault_of};
ghost use Rattle.pci_faults.specs.Lists.{AreJust};
ghost use Rattle.pci_faults.specs.Slots.{IsFirstSlotNumber, IsLoneSlot};
ghost use Rattle.pci_faults.specs.OwnLines.{IsBeforeAt};

use pci_base::memory::OutOfMemory;
use pci_dump::block::Block;
use pci_function::fault::Fault;
use std::alloc::Allocator;

/// A number above those of all slots.
const ABOVE_ALL: u32 = 0x1_0000;

/// The number of a block's slot; behind the last block, one above those of all slots.
fn number_at(blocks: &[Block], k: usize) -> u32
    ensures front { IsFirstSlotNumber (drop k (slots_of blocks.now)) result }
    ensures inside { (result < 0x10000) ↔ (k < length blocks.now) }
    ensures most { result ≤ 0x10000 }
{
    if k < blocks.len() {
        let block = &blocks[k];
        u32::from(block.slot.number())
    } else {
        ABOVE_ALL
    }
}

/// 30 `SlotsDiffer` for each slot that exactly one of a dump and its probe has, in slot order.
pub fn slot_faults<A: Allocator>(
    alloc: A,
    dump: &[Block],
    probe: &[Block],
) -> Result<Vec<Fault, A>, OutOfMemory>
    // in both slots rise, so that one walk along the two meets each of them
    requires dump { IsDump dump.now }
    requires probe { IsDump probe.now }
    ensures { IfOk result (λ found. AreJust (IsBeforeAt (system_of dump.now probe.now))
        (IsLoneSlot (slots_of dump.now) (slots_of probe.now)) (map fault_of found.items)) }
{
    let mut found = Vec::new(alloc);
    let mut i = 0;
    let mut j = 0;
    while i < dump.len() || j < probe.len() {
        let ours = number_at(dump, i);
        let theirs = number_at(probe, j);
        if ours < theirs {
            let block = &dump[i];
            found.push(Fault::SlotsDiffer(block.slot))?;
            i += 1;
        } else if theirs < ours {
            let block = &probe[j];
            found.push(Fault::SlotsDiffer(block.slot))?;
            j += 1;
        } else {
            i += 1;
            j += 1;
        }
    }
    Ok(found)
}
