//! Devices that stay as they are and decode nothing, neither now nor once they wake: without their address registers, and what
//! these show.
ghost use Rattle.std.specs.Prelude.{◌≡◌, List, map, IfOk, OnOk};
ghost use Rattle.std.specs.List.{flat_map};
ghost use Rattle.pci_spec.specs.Slot.{Slot as SlotValue};
ghost use Rattle.pci_spec.specs.System.{system_of};
ghost use Rattle.pci_spec.specs.Text.{slots_of};
ghost use Rattle.pci_function.specs.Values.{record_value};
ghost use Rattle.pci_image.specs.Bars.{decoded_bar_of};
ghost use Rattle.pci_image.specs.Roms.{decoded_rom_of};
ghost use Rattle.std.specs.Option.{option_map};
ghost use Rattle.pci_model_settle.specs.LineValues.{AddsLines, AreToldInOrder, line_value, shown_value};
ghost use Rattle.pci_model_settle.specs.OffDevices.{block_without, blocks_without, device_lines, is_left_out, is_off_device, left_out, lines_of, lines_of_part, part_line, shown_bar_part, shown_parts, shown_rom};
ghost use Rattle.pci_model_settle.specs.SleepTables.{IsSlotTable};

use crate::claim_lines::{Line, Origin};
use crate::unmoved::{SLOTS, slot_table};
use pci_base::image::Image;
use pci_base::memory::OutOfMemory;
use pci_base::offset::COMMAND;
use pci_base::slot::Slot;
use pci_base::space::Space;
use pci_dump::block::Block;
use pci_dump::dump::Dump;
use pci_dump::mark::marked;
use pci_dump::told_range::Mark;
use pci_function::record::Record;
use pci_image::bar::Bar;
use pci_image::layout::Layout;
use pci_image::rom::Rom;
use pci_model::bytes::clear_registers;
use pci_model::take::TakenPair;
use pci_tree::admitted::Admitted;
use std::alloc::Allocator;

/// Whether a header is a device's, and its Command enables neither space (PCI 3.0, 6.1 and 6.2.2).
fn is_off_device(image: &Image) -> bool
    ensures { result ≡ is_off_device image.now.0 }
{
    let command = image.u16(COMMAND);
    Layout::of(image) == Some(Layout::Device)
        && !Space::Io.is_on(command)
        && !Space::Mem.is_on(command)
}

/// Whether a function is such a device at one of some slots, by a table of these slots: by its block of a dump, by the one that
/// it is taken as, and by its probe's, the title of which names no read back as assumed.
fn is_left_out(block: &Block, taken: &Block, read_backs: &Block, among: &[bool; SLOTS]) -> bool
    ensures { (slots : List SlotValue) → IsSlotTable slots among.now
        → result ≡ is_left_out slots block.now taken.now read_backs.now }
{
    among[usize::from(block.slot.number())]
        && is_off_device(&block.image)
        && is_off_device(&taken.image)
        && marked(&read_backs.title).is_empty()
}

/// The slots, among some that stay as they are, of devices of a dump that decode nothing, as they are and as words take them, and
/// of which the titles of the probe name no read back as assumed.
///
/// # Errors
///
/// 2 where a growth was refused.
pub fn left_out<A: Allocator, B: Allocator>(
    alloc: A,
    dump: &[Block],
    taken: &TakenPair<B>,
    unmoved: &[Slot],
) -> Result<Vec<Slot, A>, OutOfMemory>
    // else no three blocks are of one function
    requires dump { slots_of dump.now ≡ slots_of taken.now.dump }
    requires probe { slots_of taken.now.dump ≡ slots_of taken.now.probe }
    ensures { IfOk result (λ slots. slots.items ≡ left_out unmoved.now dump.now taken.now.dump taken.now.probe) }
{
    let mut slots = Vec::new(alloc);
    if unmoved.is_empty() {
        return Ok(slots);
    }
    let among = slot_table(unmoved);
    let blocks = taken.dump.blocks();
    let probes = taken.probe.blocks();
    for i in 0..dump.len() {
        let block = &dump[i];
        if is_left_out(block, &blocks[i], &probes[i], &among) {
            slots.push(block.slot)?;
        }
    }
    Ok(slots)
}

/// A block whose address registers show 0, where its slot is in a table.
fn block_without(block: &Block, among: &[bool; SLOTS]) -> Block
    ensures { (slots : List SlotValue) → IsSlotTable slots among.now
        → result ≡ block_without slots block.now }
{
    let mut without = block.copy();
    if among[usize::from(block.slot.number())] {
        clear_registers(&mut without.image);
    }
    without
}

/// A dump whose address registers show 0 in the blocks of devices at some slots.
///
/// # Errors
///
/// 2 where a growth was refused.
pub fn without_registers<A: Allocator, B: Allocator>(
    alloc: A,
    dump: &Dump<B>,
    slots: &[Slot],
) -> Result<Dump<A>, OutOfMemory>
    ensures { IfOk result (λ without. without ≡ blocks_without slots.now dump.now) }
{
    let among = slot_table(slots);
    let blocks = dump.blocks();
    let mut without = Dump::empty(alloc);
    for i in 0..blocks.len() {
        without.push_next(block_without(&blocks[i], &among))?;
    }
    Ok(without)
}

/// A range that a register of a device shows.
#[derive(Clone, Copy)]
struct Shown {
    slot: Slot,
    /// The byte offset of the register.
    register: u8,
    space: Space,
    prefetchable: bool,
    first: u64,
    last: u64,
}

/// What a BAR shows.
fn shown_bar(slot: Slot, bar: Bar) -> Shown
    ensures { shown_value result ≡ shown_bar_part slot (decoded_bar_of bar) }
{
    let space = bar.kind.space();
    Shown {
        slot,
        register: bar.reg,
        space,
        prefetchable: space == Space::Mem && bar.prefetch,
        first: bar.first,
        last: bar.last,
    }
}

/// The line of a range that a register shows.
fn line_of(shown: &Shown) -> Line
    ensures { line_value result ≡ part_line (shown_value shown.now) }
{
    Line {
        slot: shown.slot,
        space: shown.space,
        prefetchable: shown.prefetchable,
        first: shown.first,
        last: shown.last,
        mark: Mark::Command,
        origin: Origin::Device(shown.register),
    }
}

/// Adds what is told of a range that a register shows. Of one that shows address 0 nothing is told: it was never placed.
fn add_shown<A: Allocator>(out: &mut Vec<Line, A>, shown: &Shown) -> Result<(), OutOfMemory>
    ensures { OnOk result (AddsLines out.old.items out.new.items (lines_of_part (shown_value shown.now))) }
{
    if shown.first != 0 {
        out.push(line_of(shown))?;
    }
    Ok(())
}

/// Adds what is told of a ROM that its own bit enables (PCI 3.0, 6.2.5.2).
fn add_rom<A: Allocator>(
    out: &mut Vec<Line, A>,
    slot: Slot,
    rom: Option<Rom>,
) -> Result<(), OutOfMemory>
    ensures { OnOk result (AddsLines out.old.items out.new.items
        (flat_map lines_of_part (shown_rom slot (option_map decoded_rom_of rom)))) }
{
    match rom {
        Some(rom) if rom.on => {
            let shown = Shown {
                slot,
                register: rom.reg,
                space: Space::Mem,
                prefetchable: false,
                first: rom.first,
                last: rom.last,
            };
            add_shown(out, &shown)
        }
        _ => Ok(()),
    }
}

/// Adds what is told of a device's BARs and of its ROM.
fn add_device<A: Allocator>(out: &mut Vec<Line, A>, function: &Record) -> Result<(), OutOfMemory>
    ensures { OnOk result (AddsLines out.old.items out.new.items
        (flat_map lines_of_part (shown_parts (record_value function.now)))) }
{
    for bar in function.bars.as_slice() {
        add_shown(out, &shown_bar(function.slot, *bar))?;
    }
    add_rom(out, function.slot, function.rom)
}

/// Adds what is told of a function, where its slot is in a table.
fn add_function<A: Allocator>(
    out: &mut Vec<Line, A>,
    function: &Record,
    among: &[bool; SLOTS],
) -> Result<(), OutOfMemory>
    ensures { (slots : List SlotValue) → IsSlotTable slots among.now
        → OnOk result (AddsLines out.old.items out.new.items (lines_of slots (record_value function.now))) }
{
    if among[usize::from(function.slot.number())] {
        add_device(out, function)?;
    }
    Ok(())
}

/// What is told of the devices at some slots, by slot: the ranges that their registers show.
///
/// # Errors
///
/// 2 where a growth was refused.
pub fn device_lines<A: Allocator, B: Allocator>(
    alloc: A,
    admitted: &Admitted<B>,
    slots: &[Slot],
) -> Result<Vec<Line, A>, OutOfMemory>
    ensures lines { IfOk result (λ v. map line_value v.items ≡ device_lines slots.now
        (system_of admitted.now.dump admitted.now.probe)) }
    ensures told { IfOk result (λ v. AreToldInOrder v.items) }
{
    let among = slot_table(slots);
    let mut out = Vec::new(alloc);
    for record in admitted.outline().records() {
        add_function(&mut out, record, &among)?;
    }
    Ok(out)
}
