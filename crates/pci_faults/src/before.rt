//! Slots of told ranges that stand in the way of judging: of `command` and `always` ranges those that a dump doesn't list,
//! and of held ranges those whose bus is no root and to which no bridge leads.
ghost use Rattle.std.specs.Prelude.{◌≡◌, ◌<◌, ◌≤◌, ◌↔◌, ◌-◌, Some, length, IsTrue, IfOk, OnOk};
ghost use Rattle.std.specs.List.{AllWithin, Contains};
ghost use Rattle.std.specs.List.Sorted.{IsNonDecreasingBy, IsPermutation};
ghost use Rattle.pci_spec.specs.Header.{layout};
ghost use Rattle.pci_spec.specs.Slot.{slot_number};
ghost use Rattle.pci_spec.specs.Text.{IsDump, slots_of};
ghost use Rattle.judge_spec.specs.Told.{IsTold};
ghost use Rattle.pci_tree.specs.Roots.{buses_of};
ghost use Rattle.pci_function.specs.Fault.{fault_of};
ghost use Rattle.pci_faults.specs.Before.{IsLast, IsSlotAdded, AreSlotsOf, AreLedTo, IsOfNoBus, IsOfNoFunction, place_number, AreOrphansAdded};

use pci_base::memory::OutOfMemory;
use pci_base::offset::SECONDARY_BUS;
use pci_base::slot::{BUSES, Slot};
use pci_dump::block::Block;
use pci_dump::told_range::ToldRange;
use pci_function::fault::Fault;
use pci_image::layout::Layout;
use pci_tree::roots::Roots;
use std::alloc::Allocator;

// ---- lists of slots

/// Whether a slot is the last of a list.
fn is_last(slots: &[Slot], slot: Slot) -> bool
    ensures { IsTrue result ↔ IsLast slots.now slot }
{
    match slots.last() {
        None => false,
        Some(last) => *last == slot,
    }
}

/// Puts a slot behind others, unless it is their last.
fn add_slot<A: Allocator>(slots: &mut Vec<Slot, A>, slot: Slot) -> Result<(), OutOfMemory>
    ensures { OnOk result (IsSlotAdded slot slots.old.items slots.new.items) }
{
    if !is_last(slots, slot) {
        slots.push(slot)?;
    }
    Ok(())
}

// ---- slots that aren't listed

/// The index of the first block whose slot isn't below one, or the number of blocks.
fn first_not_below(dump: &[Block], slot: Slot) -> usize
    requires { IsDump dump.now }
    ensures bound { result ≤ length dump.now }
    ensures before { AllWithin (λ b. slot_number b.slot < slot_number slot) dump.now 0 result }
    ensures after { AllWithin (λ b. slot_number slot ≤ slot_number b.slot) dump.now result
        (length dump.now) }
{
    let number = slot.number();
    dump.partition_point(|block| block.slot.number() < number)
}

/// Whether a dump lists a slot.
pub fn lists(dump: &[Block], slot: Slot) -> bool
    // it is found by halving
    requires { IsDump dump.now }
    ensures { IsTrue result ↔ Contains (slots_of dump.now) slot }
{
    let index = first_not_below(dump, slot);
    if index == dump.len() {
        return false;
    }
    let block = &dump[index];
    block.slot == slot
}

/// Whether a range isn't held, and a dump doesn't list its slot.
fn is_of_no_function(range: &ToldRange, dump: &[Block]) -> bool
    requires { IsDump dump.now }
    ensures { IsTrue result ↔ IsOfNoFunction dump.now range.now }
{
    !range.is_held() && !lists(dump, range.slot)
}

/// The slots that a `command` or an `always` range names and a dump doesn't list, in their order: those of faults 34.
pub fn slots_not_listed<A: Allocator>(
    alloc: A,
    ranges: &[ToldRange],
    dump: &[Block],
) -> Result<Vec<Slot, A>, OutOfMemory>
    // they stand by slot
    requires told { IsTold ranges.now }
    requires dump { IsDump dump.now }
    ensures { IfOk result
        (λ slots. AreSlotsOf (IsOfNoFunction dump.now) ranges.now slots.items) }
{
    let mut slots = Vec::new(alloc);
    for range in ranges {
        if is_of_no_function(range, dump) {
            add_slot(&mut slots, range.slot)?;
        }
    }
    Ok(slots)
}

// ---- slots to which no bridge leads

/// Whether a block is of a bridge.
fn is_bridge(block: &Block) -> bool
    ensures { IsTrue result ↔ (layout block.now.image ≡ 1) }
{
    Layout::or_device(&block.image) == Layout::Bridge
}

/// At each bus whether a bridge of a dump leads to it.
fn buses_led_to(dump: &[Block]) -> [bool; BUSES]
    ensures { AreLedTo dump.now result }
{
    let mut led = [false; BUSES];
    for block in dump {
        if is_bridge(block) {
            led[block.image.u8(SECONDARY_BUS) as usize] = true;
        }
    }
    led
}

/// Whether a range is held, its bus is no root, no bridge leads to it, and a dump doesn't list its slot.
fn is_of_no_bus(range: &ToldRange, roots: &Roots, dump: &[Block], led: &[bool; BUSES]) -> bool
    requires dump { IsDump dump.now }
    requires led { AreLedTo dump.now led.now }
    ensures { IsTrue result ↔ IsOfNoBus (buses_of roots.now) dump.now range.now }
{
    let bus = range.slot.bus();
    range.is_held() && !roots.has(bus) && !led[bus as usize] && !lists(dump, range.slot)
}

/// The slots of held ranges whose bus is no root and to which no bridge of a dump leads, in their order: those of faults 58.
/// Where a dump lists one of them, its function has this fault whatever is told, and it isn't among these.
pub fn slots_of_no_bus<A: Allocator>(
    alloc: A,
    ranges: &[ToldRange],
    dump: &[Block],
    roots: &Roots,
) -> Result<Vec<Slot, A>, OutOfMemory>
    // they stand by slot
    requires told { IsTold ranges.now }
    requires dump { IsDump dump.now }
    ensures { IfOk result
        (λ slots. AreSlotsOf (IsOfNoBus (buses_of roots.now) dump.now) ranges.now slots.items) }
{
    let mut slots = Vec::new(alloc);
    if ranges.is_empty() {
        return Ok(slots);
    }
    let led = buses_led_to(dump);
    for range in ranges {
        if is_of_no_bus(range, roots, dump, &led) {
            add_slot(&mut slots, range.slot)?;
        }
    }
    Ok(slots)
}

// ---- faults of places

/// The place of a fault 50, 57 or 58 in the order in which they are looked for: by slot, and of one slot 50, 58 and 57.
fn place(fault: &Fault) -> u32
    ensures { result ≡ place_number (fault_of fault.now) }
{
    match *fault {
        Fault::LoneFunction(slot) => 3 * u32::from(slot.number()),
        Fault::Orphan(slot) => 3 * u32::from(slot.number()) + 1,
        Fault::BusRange(slot) => 3 * u32::from(slot.number()) + 2,
        _ => 0,
    }
}

/// Sorts faults 50, 57 and 58.
fn sort_places<A: Allocator>(faults: &mut Vec<Fault, A>) -> Result<(), OutOfMemory>
    ensures permutation { IsPermutation faults.old.items faults.new.items }
    ensures sorted { OnOk result
        (IsNonDecreasingBy (λ f. place_number (fault_of f)) faults.new.items) }
{
    match faults.sort_by_key(|fault| place(fault)) {
        Ok(()) => Ok(()),
        Err(_) => Err(OutOfMemory),
    }
}

/// Puts 58 of some slots among faults 50, 57 and 58.
pub fn add_orphans<A: Allocator>(
    faults: &mut Vec<Fault, A>,
    slots: &[Slot],
) -> Result<(), OutOfMemory>
    ensures { OnOk result (AreOrphansAdded slots.now faults.old.items faults.new.items) }
{
    if slots.is_empty() {
        return Ok(());
    }
    for slot in slots {
        faults.push(Fault::Orphan(*slot))?;
    }
    sort_places(faults)
}
