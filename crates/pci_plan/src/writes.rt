//! The writes that lead from one dump to another, in an order in which they may stop anywhere.
ghost use Rattle.std.specs.Prelude.{◌≡◌, ◌++◌, ◌*◌, map, length, count_by, OnOk, IfOk};
ghost use Rattle.pci_spec.specs.Registers as table;
ghost use Rattle.pci_spec.specs.Header.{command};
ghost use Rattle.pci_spec.specs.Machine.{without_low};
ghost use Rattle.plan_spec.specs.Planning.PlanWrites.{plan_writes, closing_writes, registers_of, opening_of};
ghost use Rattle.pci_plan.specs.Writes.{write_value, is_image_on, block_change, block_changes};

use super::write::Write;
use pci_base::image::Image;
use pci_base::memory::OutOfMemory;
use pci_base::offset::COMMAND;
use pci_base::slot::Slot;
use pci_dump::block::Block;
use pci_image::layout::Layout;
use pci_image::register::address_registers;
use std::alloc::Allocator;

/// Command with bits 0 and 1, which enable I/O and memory space, clear (PCI 3.0, 6.2.2).
fn closed_command(image: &Image) -> u16
    ensures { result ≡ without_low 4 (command image.now.0) }
{
    image.u16(COMMAND) / 4 * 4
}

/// Whether Command enables a space.
fn is_on(image: &Image) -> bool
    ensures { result ≡ is_image_on image.now.0 }
{
    image.u16(COMMAND) % 4 != 0
}

/// A write to Command.
fn command_write(slot: Slot, command: u16) -> Write
    ensures { write_value result ≡ record {
      slot = slot;
      offset = table.COMMAND;
      width = 2;
      value = command;
    } }
{
    Write {
        slot,
        off: COMMAND,
        width: 2,
        value: u32::from(command),
    }
}

/// The most writes of a function: a bridge's two to Command and nine to address registers.
const WRITES_MOST: usize = 11;

/// Closes what is on, the highest slot first.
fn add_closing<A: Allocator>(writes: &mut Vec<Write, A>, start: &[Block]) -> Result<(), OutOfMemory>
    ensures { OnOk result (map write_value writes.new.items
        ≡ map write_value writes.old.items ++ closing_writes (block_changes start.now start.now)) }
{
    for done in 0..start.len() {
        let block = &start[start.len() - 1 - done];
        if is_on(&block.image) {
            writes.push(command_write(block.slot, closed_command(&block.image)))?;
        }
    }
    Ok(())
}

/// Adds the writes of the address registers of a function that change, by rising offset.
///
/// Errors: 2 `OutOfMemory` where a growth was refused.
pub fn add_registers<A: Allocator>(
    writes: &mut Vec<Write, A>,
    old: &Block,
    new: &Block,
) -> Result<(), OutOfMemory>
    ensures { OnOk result (map write_value writes.new.items
        ≡ map write_value writes.old.items ++ registers_of (block_change old.now new.now)) }
{
    for register in address_registers(Layout::or_device(&old.image)) {
        let value = new.image.number(register.offset, register.width);
        if value != old.image.number(register.offset, register.width) {
            writes.push(Write {
                slot: old.slot,
                off: register.offset,
                width: register.width,
                value,
            })?;
        }
    }
    Ok(())
}

/// Opens a function, if there is something to open.
fn add_opening<A: Allocator>(
    writes: &mut Vec<Write, A>,
    old: &Block,
    new: &Block,
) -> Result<(), OutOfMemory>
    ensures { OnOk result (map write_value writes.new.items
        ≡ map write_value writes.old.items ++ opening_of (block_change old.now new.now)) }
{
    let command = new.image.u16(COMMAND);
    if command != closed_command(&old.image) {
        writes.push(command_write(old.slot, command))?;
    }
    Ok(())
}

/// The writes that lead from one dump to another: everything that is on is closed, the highest slot first; then the
/// address registers are set, and then functions are opened, both the lowest slot first. None of them would change
/// nothing.
pub fn writes_between<A: Allocator>(
    alloc: A,
    start: &[Block],
    planned: &[Block],
) -> Result<Vec<Write, A>, OutOfMemory>
    // old and new of a function have one index
    requires { length planned.now ≡ length start.now }
    ensures { IfOk result
        (λ v. map write_value v.items ≡ plan_writes (block_changes start.now planned.now)) }
{
    let Ok(mut writes) = Vec::with_capacity(alloc, start.len().saturating_mul(WRITES_MOST)) else {
        return Err(OutOfMemory);
    };
    add_closing(&mut writes, start)?;
    for i in 0..start.len() {
        add_registers(&mut writes, &start[i], &planned[i])?;
    }
    for i in 0..start.len() {
        add_opening(&mut writes, &start[i], &planned[i])?;
    }
    Ok(writes)
}

/// How many writes close what is on: as many as there are functions that are on.
pub fn closings(start: &[Block]) -> usize
    ensures { result ≡ count_by (λ b. is_image_on b.image) start.now }
{
    start.iter().filter(|block| is_on(&block.image)).count()
}
