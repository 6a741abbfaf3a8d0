//! What a plan starts from, register by register.
ghost use Rattle.std.specs.Prelude.{◌≡◌, ◌++◌, map, OnOk, IfOk};
ghost use Rattle.pci_plan.specs.Writes.{write_value};
ghost use Rattle.pci_plan.specs.Steps.{shown_writes, all_shown};

use super::write::Write;
use pci_base::memory::OutOfMemory;
use pci_base::offset::COMMAND;
use pci_dump::block::Block;
use pci_image::layout::Layout;
use pci_image::register::address_registers;
use std::alloc::Allocator;

/// Adds Command and each address register of a function, with what it shows there.
pub fn add_shown<A: Allocator>(all: &mut Vec<Write, A>, block: &Block) -> Result<(), OutOfMemory>
    ensures { OnOk result (map write_value all.new.items
        ≡ map write_value all.old.items ++ shown_writes block.now) }
{
    all.push(Write {
        slot: block.slot,
        off: COMMAND,
        width: 2,
        value: block.image.number(COMMAND, 2),
    })?;
    for register in address_registers(Layout::or_device(&block.image)) {
        all.push(Write {
            slot: block.slot,
            off: register.offset,
            width: register.width,
            value: block.image.number(register.offset, register.width),
        })?;
    }
    Ok(())
}

/// The registers that are compared before the first write, with what each shows in these blocks: of each function, the
/// lowest slot first, Command and then the address registers by rising offset.
pub fn start_of<A: Allocator>(alloc: A, blocks: &[Block]) -> Result<Vec<Write, A>, OutOfMemory>
    ensures { IfOk result (λ all. map write_value all.items ≡ all_shown blocks.now) }
{
    let mut all = Vec::new(alloc);
    for block in blocks {
        add_shown(&mut all, block)?;
    }
    Ok(all)
}
