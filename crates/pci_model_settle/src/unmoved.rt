//! Which functions settling by words leaves as they are.
ghost use Rattle.std.specs.Prelude.{◌≡◌, ◌<◌, ◌==◌, ◌&&◌, ◌||◌, not, ℕ, List, false, length, slice_index_or, IfOk};
ghost use Rattle.std.specs.List.{list_any};
ghost use Rattle.pci_spec.specs.Slot.{Slot as SlotValue};
ghost use Rattle.pci_spec.specs.Registers.{SECONDARY_BUS_RESET};
ghost use Rattle.pci_spec.specs.Header.{layout};
ghost use Rattle.pci_spec.specs.System.{system_of};
ghost use Rattle.pci_spec.specs.Bus.{is_behind};
ghost use Rattle.pci_spec.specs.Fault.{controls_bridge};
ghost use Rattle.pci_spec.specs.Text.{Block as BlockValue, slots_of};
ghost use Rattle.pci_model.specs.WordsValue.{words_value};
ghost use Rattle.pci_model_settle.specs.Unmoved.{AreUnmoved, has_stuck_window, is_among, is_bridge_unmoved};
ghost use Rattle.pci_model_settle.specs.SleepTables.{IsSlotTable, IsBelowTable, is_above_by};

use pci_base::image::Image;
use pci_base::memory::OutOfMemory;
use pci_base::offset::{SECONDARY_BUS, SUBORDINATE_BUS};
use pci_base::slot::{BUSES, Slot};
use pci_base::window_kind::WindowKind;
use pci_dump::block::Block;
use pci_dump::dump::Dump;
use pci_function::profile::{SECONDARY_BUS_RESET, controls_bridge};
use pci_image::layout::Layout;
use pci_image::window::Window;
use pci_model::asleep::asleep;
use pci_model::take::TakenPair;
use pci_model::words::Words;
use std::alloc::Allocator;

/// How many slots there are: their numbers have 16 bits (PCI 3.0, 3.2.2.3).
pub(crate) const SLOTS: usize = 65_536;

/// A table by slot number: which slots are some.
pub(crate) fn slot_table(slots: &[Slot]) -> [bool; SLOTS]
    ensures { IsSlotTable slots.now result }
{
    let mut table = [false; SLOTS];
    for slot in slots {
        table[usize::from(slot.number())] = true;
    }
    table
}

/// Whether a function is a bridge.
fn is_bridge(image: &Image) -> bool
    ensures { result ≡ (layout image.now.0 == 1) }
{
    Layout::or_device(image) == Layout::Bridge
}

/// Notes the buses behind a bridge in a table by bus.
fn note_behind(table: &mut [bool; BUSES], bridge: &Image)
    ensures size { length table.new ≡ 256 }
    ensures behind { (slot : SlotValue) (probe : List ℕ) (bus : ℕ) → bus < 256
        → slice_index_or table.new bus false ≡ (slice_index_or table.old bus false
        || is_behind record { slot = slot; image = bridge.now.0; probe = probe } bus) }
{
    let first = usize::from(bridge.u8(SECONDARY_BUS));
    let end = usize::from(bridge.u8(SUBORDINATE_BUS)) + 1;
    for bus in first..end {
        table[bus] = true;
    }
}

/// Whether a block is of a bridge that sleeps. `sleeping` is the table of the slots that sleep.
fn is_sleeping_bridge(block: &Block, sleeping: &[bool; SLOTS]) -> bool
    ensures { (slots : List SlotValue) → IsSlotTable slots sleeping.now
        → result ≡ (layout block.now.image == 1 && is_among slots block.now.slot) }
{
    is_bridge(&block.image) && sleeping[usize::from(block.slot.number())]
}

/// A table by bus: which buses are below a bridge that sleeps. `sleeping` is the table of the slots that sleep.
fn below_table(blocks: &[Block], sleeping: &[bool; SLOTS]) -> [bool; BUSES]
    ensures { (slots : List SlotValue) → IsSlotTable slots sleeping.now
        → IsBelowTable slots blocks.now result }
{
    let mut below = [false; BUSES];
    for block in blocks {
        if is_sleeping_bridge(block, sleeping) {
            note_behind(&mut below, &block.image);
        }
    }
    below
}

/// Whether the function at a slot sleeps, or a bridge above it does, by the two tables.
fn sleeps(slot: Slot, sleeping: &[bool; SLOTS], below: &[bool; BUSES]) -> bool
    ensures { (slots : List SlotValue) (blocks : List BlockValue) → IsSlotTable slots sleeping.now
        → IsBelowTable slots blocks below.now
        → result ≡ (is_among slots slot || list_any (is_above_by slots slot.bus) blocks) }
{
    sleeping[usize::from(slot.number())] || below[usize::from(slot.bus())]
}

/// Whether what a window of a bridge reads back doesn't go with what it shows (Bridge 1.2, 3.2.5).
fn has_stuck_window(image: &Image, probe: &Image) -> bool
    ensures { result ≡ has_stuck_window image.now.0 probe.now.0 }
{
    Window::breaks_rule(WindowKind::Io, image, probe)
        || Window::breaks_rule(WindowKind::Memory, image, probe)
        || Window::breaks_rule(WindowKind::Prefetchable, image, probe)
}

/// Whether a function is a bridge that holds its secondary bus in reset, where a word leaves that aside.
fn is_held_in_reset(image: &Image, words: Words) -> bool
    ensures { result ≡ (words.reset && controls_bridge image.now.0 SECONDARY_BUS_RESET) }
{
    words.reset && controls_bridge(image, SECONDARY_BUS_RESET)
}

/// Whether a bridge leads to no bus as the words take it.
fn is_no_bridge_as_taken(image: &Image, taken: &Image) -> bool
    ensures { result ≡ (layout image.now.0 == 1 && not (layout taken.now.0 == 1)) }
{
    is_bridge(image) && !is_bridge(taken)
}

/// Whether a window of a bridge is taken as the one that it shows.
fn has_window_as_shown(image: &Image, probe: &Image, taken: &Image, words: Words) -> bool
    ensures { result ≡ (words.windows && layout taken.now.0 == 1
        && has_stuck_window image.now.0 probe.now.0) }
{
    words.windows && is_bridge(taken) && has_stuck_window(image, probe)
}

/// Whether a function is a bridge that stays as it is though nothing sleeps. `taken` is its image as the words take it.
fn is_bridge_unmoved(image: &Image, probe: &Image, taken: &Image, words: Words) -> bool
    ensures { (slot other : SlotValue) (read_backs : List ℕ)
        → result ≡ is_bridge_unmoved (words_value words)
        record { slot = slot; image = image.now.0; probe = probe.now.0 }
        record { slot = other; image = taken.now.0; probe = read_backs } }
{
    is_held_in_reset(image, words)
        || is_no_bridge_as_taken(image, taken)
        || has_window_as_shown(image, probe, taken, words)
}

/// The slots of the functions of a dump that stay as they are, in its order. `taken` is what the words take the dump and its
/// probe for.
///
/// # Errors
///
/// 2 where a growth was refused.
pub fn unmoved<A: Allocator + Copy, B: Allocator, C: Allocator, D: Allocator>(
    alloc: A,
    dump: &Dump<B>,
    probe: &Dump<C>,
    taken: &TakenPair<D>,
    words: Words,
) -> Result<Vec<Slot, A>, OutOfMemory>
    // else no two blocks make a function
    requires probe { slots_of dump.now ≡ slots_of probe.now }
    requires taken { slots_of taken.now.dump ≡ slots_of dump.now }
    requires taken_probe { slots_of taken.now.probe ≡ slots_of probe.now }
    ensures { IfOk result (λ slots. AreUnmoved (words_value words) (system_of dump.now probe.now)
        (system_of taken.now.dump taken.now.probe) slots.items) }
{
    let asleep = asleep(alloc, dump, probe, words)?;
    let sleeping = slot_table(asleep.as_slice());
    let blocks = dump.blocks();
    let probes = probe.blocks();
    let changed = taken.dump.blocks();
    let below = below_table(changed, &sleeping);
    let mut slots = Vec::new(alloc);
    for i in 0..blocks.len() {
        let block = &blocks[i];
        let read_backs = &probes[i];
        let as_taken = &changed[i];
        if sleeps(block.slot, &sleeping, &below)
            || is_bridge_unmoved(&block.image, &read_backs.image, &as_taken.image, words)
        {
            slots.push(block.slot)?;
        }
    }
    Ok(slots)
}
