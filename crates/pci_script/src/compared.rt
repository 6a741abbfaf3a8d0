//! What is compared before the first write.
ghost use Rattle.std.specs.Prelude.{◌≡◌, ◌++◌, [], false, if◌then◌else◌, IfOk, OnOk, length, map, slice_index_or};
ghost use Rattle.pci_spec.specs.Slot.{IsSlot, slot_number};
ghost use Rattle.pci_plan.specs.Writes.{write_value};
ghost use Rattle.pci_plan.specs.Steps.{shown_writes};
ghost use Rattle.pci_script.specs.Scripts.{compared_with};

use pci_base::memory::OutOfMemory;
use pci_base::slot::Slot;
use pci_dump::block::Block;
use pci_kept::fixed::flags_of;
use pci_plan::start::add_shown;
use pci_plan::write::Write;
use std::alloc::Allocator;

/// The slot of each write.
fn slots_of<A: Allocator>(alloc: A, writes: &[Write]) -> Result<Vec<Slot, A>, OutOfMemory>
    ensures { IfOk result
        (λ slots. slots.items ≡ map (λ w. w.slot) (map write_value writes.now)) }
{
    let mut slots = Vec::new(alloc);
    for write in writes {
        slots.push(write.slot)?;
    }
    Ok(slots)
}

/// Adds what a function shows, where the flag of its slot is set.
fn add_flagged<A: Allocator>(
    all: &mut Vec<Write, A>,
    flags: &[bool],
    block: &Block,
) -> Result<(), OutOfMemory>
    // slot numbers index it
    requires { length flags.now ≡ 65536 }
    ensures slot { OnOk result (IsSlot block.now.slot) }
    ensures added { OnOk result (map write_value all.new.items ≡ map write_value all.old.items
        ++ (if slice_index_or flags.now (slot_number block.now.slot) false
        then shown_writes block.now else [])) }
{
    if flags[usize::from(block.slot.number())] {
        add_shown(all, block)?;
    }
    Ok(())
}

/// The registers that are compared, with what the dump has in each: of each function that is written, the lowest slot first,
/// Command and then the address registers by rising offset.
///
/// Errors: 2 `OutOfMemory` where a growth was refused.
pub fn compared_of<A: Allocator + Copy>(
    alloc: A,
    dump: &[Block],
    writes: &[Write],
) -> Result<Vec<Write, A>, OutOfMemory>
    ensures { IfOk result
        (λ all. map write_value all.items ≡ compared_with dump.now (map write_value writes.now)) }
{
    let slots = slots_of(alloc, writes)?;
    let flags = flags_of(alloc, slots.as_slice())?;
    let mut all = Vec::new(alloc);
    for block in dump {
        add_flagged(&mut all, flags.as_slice(), block)?;
    }
    Ok(all)
}
