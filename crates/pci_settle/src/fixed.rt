//! What of functions whose registers may not be written would have to be: parts that don't keep their places, and writes.
ghost use Rattle.std.specs.Prelude.{◌≡◌, Bool, length, map};
ghost use Rattle.std.specs.Option.{option_map};
ghost use Rattle.std.specs.List.{All};
ghost use Rattle.settle_spec.specs.Lists.{Request};
ghost use Rattle.settle_spec.specs.Parts.{FunctionPart};
ghost use Rattle.settle_spec.specs.Writes as spec;
ghost use Rattle.pci_base.specs.WindowKinds.{kind_value};
ghost use Rattle.pci_place.specs.Above.{system_in};
ghost use Rattle.pci_plan.specs.Writes.{write_value};
ghost use Rattle.pci_first_fit.specs.Slots.{demand_value};
ghost use Rattle.pci_settle_places.specs.Shown.{HasRegister};
ghost use Rattle.pci_kept.specs.Flags.{AreFlags};
ghost use Rattle.pci_settle.specs.Requests.{IsAskedOf};
ghost use Rattle.pci_settle.specs.Told.{IsTableOf};
ghost use Rattle.pci_settle.specs.Fixed.{fixed_part, fixed_register, is_bar_without, bar_without, window_without, bridge_without, rom_without, part_without, record_without};

use crate::lack::SettleFault;
use pci_base::offset::BASE_ADDRESS;
use pci_base::window_kind::WindowKind;
use pci_first_fit::kept::Kept;
use pci_first_fit::list::Lists;
use pci_first_fit::own::{Terms, is_left_bar};
use pci_function::record::{Bridge, Record};
use pci_image::bar::Bar;
use pci_image::window::Window;
use pci_place::above::{Above, aboves};
use pci_plan::write::Write;
use pci_settle_places::claim::is_rom_on;
use pci_tree::admitted::Admitted;
use std::alloc::Allocator;

/// Whether a BAR that isn't left is one that a table says no to.
fn is_bar_without(bar: &Bar, above: Above, terms: Terms, told: &Kept) -> bool
    requires { HasRegister bar.now }
    ensures { result ≡ is_bar_without above terms.entry told.now bar.now }
{
    !is_left_bar(bar, above, terms) && !told.bars[usize::from((bar.reg - BASE_ADDRESS) / 4)]
}

/// The offset of the first such BAR.
fn bar_without(bars: &[Bar], above: Above, terms: Terms, told: &Kept) -> Option<u8>
    requires { All HasRegister bars.now }
    ensures { result ≡ bar_without above terms.entry told.now bars.now }
{
    for bar in bars {
        if is_bar_without(bar, above, terms, told) {
            return Some(bar.reg);
        }
    }
    None
}

/// The offset of an open window that a table says no to.
fn window_without(kind: WindowKind, window: Option<Window>, told: &Kept) -> Option<u8>
    ensures { result ≡ window_without (kind_value kind) window told.now }
{
    match window {
        Some(window) if window.range().is_some() && !told.window(kind) => Some(kind.register()),
        _ => None,
    }
}

/// The offset of the first such window of a bridge.
fn bridge_without(bridge: Option<Bridge>, told: &Kept) -> Option<u8>
    ensures { result ≡ bridge_without bridge told.now }
{
    let windows = bridge?.windows;
    window_without(WindowKind::Io, windows.io, told)
        .or(window_without(WindowKind::Memory, Some(windows.mem), told))
        .or(window_without(WindowKind::Prefetchable, windows.pref, told))
}

/// The offset of a ROM that is on and that a table says no to.
fn rom_without(record: &Record, told: &Kept) -> Option<u8>
    ensures { result ≡ rom_without «record».now told.now }
{
    if is_rom_on(record.rom) && !told.rom {
        Some(record.rom_register())
    } else {
        None
    }
}

/// The offset of the first part of a function that a table says no to.
fn part_without(record: &Record, above: Above, terms: Terms, told: &Kept) -> Option<u8>
    requires { All HasRegister «record».now.bars.items }
    ensures { result ≡ part_without above terms.entry told.now «record».now }
{
    bar_without(record.bars.as_slice(), above, terms, told)
        .or(bridge_without(record.bridge, told))
        .or(rom_without(record, told))
}

/// The fault where a table says no to a part of a function whose registers may not be written.
fn record_without(
    record: &Record,
    fixed: bool,
    above: Above,
    terms: Terms,
    told: &Kept,
) -> Option<SettleFault>
    requires { All HasRegister «record».now.bars.items }
    ensures { result ≡ record_without fixed above terms.entry told.now «record».now }
{
    if !fixed {
        return None;
    }
    let reg = part_without(record, above, terms, told)?;
    Some(SettleFault::Fixed {
        slot: record.slot,
        reg,
    })
}

/// The fault 74 with the first part, by slot and register, that a table by function says no to, of the functions whose
/// registers may not be written. `fixed` has a flag for each slot number.
pub fn fixed_without<A: Allocator>(
    admitted: &Admitted<A>,
    lists: &Lists,
    fixed: &[bool],
    table: &[Kept],
) -> Option<SettleFault>
    // slot numbers index it
    requires fixed { length fixed.now ≡ 65536 }
    // a function's entry stands where its record does
    requires count { length table.now ≡ length (system_in admitted.now) }
    ensures { (q : Request) (test : FunctionPart → Bool)
        → IsAskedOf q admitted.now.roots (demand_value lists.now) → AreFlags q.fixed fixed.now
        → IsTableOf (system_in admitted.now) test table.now
        → result ≡ option_map fixed_part (spec.fixed_without test q (system_in admitted.now)) }
{
    let aboves = aboves(admitted);
    let terms = Terms::of(lists);
    let outline = admitted.outline();
    let records = outline.records();
    for k in 0..records.len() {
        let record = &records[k];
        let above = aboves[usize::from(record.slot.bus())];
        let is_fixed = fixed[usize::from(record.slot.number())];
        let fault = record_without(record, is_fixed, above, terms, &table[k]);
        if fault.is_some() {
            return fault;
        }
    }
    None
}

/// The fault 74 with the first write to a function whose registers may not be written. `fixed` has a flag for each slot
/// number.
pub fn fixed_write(fixed: &[bool], writes: &[Write]) -> Option<SettleFault>
    // slot numbers index it
    requires { length fixed.now ≡ 65536 }
    ensures { (q : Request) → AreFlags q.fixed fixed.now
        → result ≡ option_map fixed_register (spec.fixed_write q (map write_value writes.now)) }
{
    for write in writes {
        if fixed[usize::from(write.slot.number())] {
            return Some(SettleFault::Fixed {
                slot: write.slot,
                reg: write.off,
            });
        }
    }
    None
}
