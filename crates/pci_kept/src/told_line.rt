//! What is known of the ranges that a text tells of, as they lie in a system.
ghost use Rattle.std.specs.Prelude.{◌≡◌, ◌+◌, ◌<◌, ◌≤◌, IfOk, [], length};
ghost use Rattle.std.specs.List.{AllWithin};
ghost use Rattle.pci_spec.specs.System.{System};
ghost use Rattle.pci_spec.specs.Window.{MemoryWindow};
ghost use Rattle.settle_spec.specs.Lists.{Request};
ghost use Rattle.settle_spec.specs.Parts.{holds_range, bridge_over};
ghost use Rattle.settle_spec.specs.Stands.{range_class};
ghost use Rattle.judge_spec.specs.Told.{IsTold};
ghost use Rattle.judge_spec.specs.ToldClaims.{is_enabled_at, is_range_on};
ghost use Rattle.judge_spec.specs.ToldRegion.{told_extent};
ghost use Rattle.settle_laws.specs.Order.{level as level_of};
ghost use Rattle.pci_base.specs.Ranges.{decoded_range_of};
ghost use Rattle.pci_base.specs.WindowKinds.{kind_value};
ghost use Rattle.pci_base.specs.Space.{space_of};
ghost use Rattle.pci_tree.specs.Outline.{RiseBySlot};
ghost use Rattle.pci_tree.specs.Roots.{buses_of};
ghost use Rattle.pci_tree.specs.Ways.{IsBridgeToBus};
ghost use Rattle.pci_kept.specs.Boards.{IsTree};
ghost use Rattle.pci_kept.specs.ToldLines.{unnamed, AreToldLines};

use crate::collect::level;
use crate::place::is_held;
use pci_base::memory::OutOfMemory;
use pci_base::range::Range;
use pci_base::slot::{BUSES, Slot};
use pci_base::space::Space;
use pci_base::window_kind::WindowKind;
use pci_dump::told_range::{Mark, ToldRange};
use pci_function::record::Record;
use pci_tree::bus::record_at;
use pci_tree::roots::Roots;
use std::alloc::Allocator;

/// What is known of a told range.
#[derive(Clone, Copy, Debug)]
pub struct ToldLine {
    /// 0 where it is on a root, else one more than its bus number.
    pub level: u16,
    /// The class of the window over its bus through which it is reached.
    pub class: WindowKind,
    /// Whether it is answered, by its mark and its function's Command.
    pub on: bool,
}

/// The addresses of a told range.
pub fn extent(range: &ToldRange) -> Range
    ensures { decoded_range_of result ≡ told_extent range.now }
{
    Range {
        first: range.first,
        last: range.last,
    }
}

/// Whether the memory window over a bus holds a range.
fn is_in_memory_window(
    records: &[Record],
    over: &[Option<usize>; BUSES],
    bus: u8,
    range: Range,
) -> bool
    requires { IsBridgeToBus records.now over.now }
    ensures { (q : Request) → (s : System) → IsTree q s records.now
        → result ≡ holds_range MemoryWindow (decoded_range_of range) (bridge_over s bus) }
{
    let Some(index) = over[bus as usize] else {
        return false;
    };
    match &records[index].bridge {
        None => false,
        Some(bridge) => is_held(&bridge.windows, WindowKind::Memory, range),
    }
}

/// The class of the window through which a told range on a level is reached: a prefetchable one is in the memory window where
/// that holds it.
fn range_class(
    records: &[Record],
    over: &[Option<usize>; BUSES],
    level: u16,
    range: &ToldRange,
) -> WindowKind
    requires { IsBridgeToBus records.now over.now }
    ensures { (q : Request) → (s : System) → IsTree q s records.now → level ≡ level_of q range.now.slot.bus
        → kind_value result ≡ range_class q s (unnamed range.now) }
{
    if range.is_in(Space::Io) {
        return WindowKind::Io;
    }
    let bus = range.slot.bus();
    if range.prefetchable && level != 0 && !is_in_memory_window(records, over, bus, extent(range)) {
        WindowKind::Prefetchable
    } else {
        WindowKind::Memory
    }
}

/// Whether Command of the function at a slot enables a space.
fn is_enabled_at(records: &[Record], slot: Slot, space: Space) -> bool
    // it is found by halving
    requires { RiseBySlot records.now }
    ensures { (q : Request) → (s : System) → IsTree q s records.now
        → result ≡ is_enabled_at s slot (space_of space) }
{
    match record_at(records, slot) {
        None => false,
        Some(function) => space.is_on(function.command),
    }
}

/// Whether a told range is on: nobody is asleep where settling is asked for.
fn is_on(records: &[Record], range: &ToldRange) -> bool
    requires { RiseBySlot records.now }
    ensures { (q : Request) → (s : System) → IsTree q s records.now → q.told.asleep ≡ []
        → result ≡ is_range_on q.told s range.now }
{
    match range.mark {
        Mark::Command => is_enabled_at(records, range.slot, range.space),
        Mark::Always | Mark::Held => true,
    }
}

/// What is known of each told range, in the order of the text.
pub fn told_lines<A: Allocator>(
    alloc: A,
    records: &[Record],
    over: &[Option<usize>; BUSES],
    roots: &Roots,
    ranges: &[ToldRange],
) -> Result<Vec<ToldLine, A>, OutOfMemory>
    requires over { IsBridgeToBus records.now over.now }
    // the function of a range is found by halving
    requires rising { RiseBySlot records.now }
    ensures count { IfOk result (λ lines. length lines.items ≡ length ranges.now) }
    ensures lines { IfOk result (λ lines. (q : Request) → (s : System) → IsTree q s records.now
        → q.roots ≡ buses_of roots.now → q.told.ranges ≡ ranges.now → q.told.asleep ≡ []
        → AreToldLines q s lines.items) }
{
    let mut lines = Vec::new(alloc);
    for range in ranges {
        let level = level(roots, range.slot.bus());
        let class = range_class(records, over, level, range);
        let on = is_on(records, range);
        lines.push(ToldLine { level, class, on })?;
    }
    Ok(lines)
}

/// The index of the first told range on this bus or a higher one.
pub fn first_from(ranges: &[ToldRange], bus: u16) -> usize
    // they stand by slot, so it is found by halving
    requires { IsTold ranges.now }
    ensures bound { result ≤ length ranges.now }
    ensures before { AllWithin (λ r. r.slot.bus < bus) ranges.now 0 result }
    ensures after { AllWithin (λ r. bus ≤ r.slot.bus) ranges.now result (length ranges.now) }
{
    ranges.partition_point(|range| u16::from(range.slot.bus()) < bus)
}

/// The index of the first told range on a bus above this one.
pub fn first_above(ranges: &[ToldRange], bus: u8) -> usize
    requires { IsTold ranges.now }
    ensures bound { result ≤ length ranges.now }
    ensures before { AllWithin (λ r. r.slot.bus < bus + 1) ranges.now 0 result }
    ensures after { AllWithin (λ r. bus + 1 ≤ r.slot.bus) ranges.now result (length ranges.now) }
{
    first_from(ranges, u16::from(bus) + 1)
}
