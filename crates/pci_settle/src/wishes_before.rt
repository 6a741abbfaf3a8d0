//! Where the parts of functions are before any wish: where they stay, or else at their new places.
ghost use Rattle.std.specs.Prelude.{◌≡◌, ◌<◌, ◌+◌, ℕ, List, IfOk, OnOk, Option, length};
ghost use Rattle.std.specs.Option.{option_map};
ghost use Rattle.std.specs.List.{All, sum_by};
ghost use Rattle.pci_spec.specs.Decoded.{Range as DecodedRange};
ghost use Rattle.pci_base.specs.declared.window_kind.WindowKind.{WindowKind as CodeKind};
ghost use Rattle.pci_base.specs.Ranges.{decoded_range_of};
ghost use Rattle.pci_base.specs.Space.{space_of};
ghost use Rattle.pci_base.specs.WindowKinds.{kind_value, by_kind};
ghost use Rattle.pci_image.specs.Windows.{window_of};
ghost use Rattle.pci_tree.specs.Passes.{range_in};
ghost use Rattle.pci_settle_places.specs.Shown.{HasRegister};
ghost use Rattle.pci_grow.specs.RoomRows.{bus_level, row_number};
ghost use Rattle.pci_grow.specs.Located.{told_weight, located_total};
ghost use Rattle.pci_settle.specs.Before.{window_before, windows_before, AreWindowsBefore, bar_before, rom_before, bar_weight, record_weight, AreOwnBefore, HaveRegisters};

use crate::tables::Tables;
use pci_base::memory::OutOfMemory;
use pci_base::offset::BASE_ADDRESS;
use pci_base::range::Range;
use pci_base::space::Space;
use pci_base::window_kind::{ByKind, WindowKind};
use pci_first_fit::kept::Kept;
use pci_first_fit::over::open_range;
use pci_first_fit::table::{UNTOLD, WindowRanges, ranges_told};
use pci_function::record::Record;
use pci_grow::fill::Located;
use pci_image::bar::Bar;
use pci_image::rom::Rom;
use pci_image::window::Windows;
use pci_settle_places::places::Places;
use std::alloc::Allocator;

/// Where a window is before any wish: one that stays is where it grows to, or else where it is; another is at its place.
fn window_before(
    windows: &Windows,
    class: WindowKind,
    place: Option<Range>,
    kept: bool,
    grown: Option<Range>,
) -> Option<Range>
    ensures { option_map decoded_range_of result
        ≡ window_before (range_in (window_of windows.now (kind_value class)))
        (option_map decoded_range_of place) kept (option_map decoded_range_of grown) }
{
    if !kept {
        return place;
    }
    match grown {
        Some(range) => Some(range),
        None => open_range(windows, class),
    }
}

/// Where the windows of a function are before any wish; None of one that is closed, and of what is no bridge.
fn windows_of(record: &Record, places: &Places, kept: &Kept, grown: &WindowRanges) -> WindowRanges
    ensures { (class : CodeKind) → option_map decoded_range_of (by_kind result class)
        ≡ windows_before «record».now.bridge places.now kept.now grown.now (kind_value class) }
{
    let Some(bridge) = &record.bridge else {
        return UNTOLD;
    };
    let (windows, places, kept) = (&bridge.windows, &places.windows, &kept.windows);
    let class = WindowKind::Io;
    let io = window_before(windows, class, places.io, kept.io, grown.io);
    let class = WindowKind::Memory;
    let memory = window_before(windows, class, places.memory, kept.memory, grown.memory);
    let class = WindowKind::Prefetchable;
    let (place, stays) = (places.prefetchable, kept.prefetchable);
    let prefetchable = window_before(windows, class, place, stays, grown.prefetchable);
    ByKind {
        io,
        memory,
        prefetchable,
    }
}

/// Where the windows of each function are before any wish, in slot order.
pub fn windows_before<A: Allocator>(
    alloc: A,
    records: &[Record],
    tables: &Tables,
) -> Result<Vec<WindowRanges, A>, OutOfMemory>
    // a function's entries stand where its record does
    requires places { length tables.now.places.now ≡ length records.now }
    requires staying { length tables.now.staying.now ≡ length records.now }
    ensures count { IfOk result (λ table. length table.items ≡ length records.now) }
    ensures each { IfOk result (λ table. AreWindowsBefore records.now tables.now (length records.now) table.items) }
{
    let mut table = Vec::new(alloc);
    for k in 0..records.len() {
        let grown = ranges_told(tables.grown, k);
        let windows = windows_of(&records[k], &tables.places[k], &tables.staying[k], grown);
        table.push(windows)?;
    }
    Ok(table)
}

/// Where a BAR is before any wish.
fn bar_before(bar: &Bar, places: &Places, kept: &Kept) -> Option<Range>
    requires { HasRegister bar.now }
    ensures { result ≡ bar_before bar.now places.now kept.now }
{
    let number = (bar.reg - BASE_ADDRESS) / 4;
    if kept.bar(number) {
        Some(Range {
            first: bar.first,
            last: bar.last,
        })
    } else {
        places.bars[usize::from(number)]
    }
}

/// Where the ROM of a function is before any wish.
fn rom_before(rom: Option<Rom>, places: &Places, kept: &Kept) -> Option<Range>
    ensures { result ≡ rom_before rom places.now kept.now }
{
    match rom {
        Some(rom) if kept.rom => Some(Range {
            first: rom.first,
            last: rom.last,
        }),
        _ => places.rom,
    }
}

/// Adds a part, where it is somewhere.
fn add<A: Allocator>(
    parts: &mut Vec<Located, A>,
    bus: u8,
    space: Space,
    range: Option<Range>,
) -> Result<(), OutOfMemory>
    ensures { OnOk result ((roots : List ℕ) → (weight : DecodedRange → ℕ) → (n : ℕ)
        → located_total roots weight n parts.new.items ≡ located_total roots weight n parts.old.items
        + told_weight weight (row_number (bus_level roots bus) (space_of space)) n range) }
{
    if let Some(range) = range {
        parts.push(Located { bus, space, range })?;
    }
    Ok(())
}

/// Adds the BARs of a function.
fn add_bars<A: Allocator>(
    parts: &mut Vec<Located, A>,
    bus: u8,
    bars: &[Bar],
    places: &Places,
    kept: &Kept,
) -> Result<(), OutOfMemory>
    requires { All HasRegister bars.now }
    ensures { OnOk result ((roots : List ℕ) → (weight : DecodedRange → ℕ) → (n : ℕ)
        → located_total roots weight n parts.new.items ≡ located_total roots weight n parts.old.items
        + sum_by (bar_weight roots weight n bus places.now kept.now) bars.now) }
{
    for bar in bars {
        add(parts, bus, bar.kind.space(), bar_before(bar, places, kept))?;
    }
    Ok(())
}

/// Adds the BARs and the ROM of a function.
fn add_own<A: Allocator>(
    parts: &mut Vec<Located, A>,
    record: &Record,
    places: &Places,
    kept: &Kept,
) -> Result<(), OutOfMemory>
    requires { All HasRegister «record».now.bars.items }
    ensures { OnOk result ((roots : List ℕ) → (weight : DecodedRange → ℕ) → (n : ℕ)
        → located_total roots weight n parts.new.items ≡ located_total roots weight n parts.old.items
        + record_weight roots weight n «record».now places.now kept.now) }
{
    let bus = record.slot.bus();
    add_bars(parts, bus, record.bars.as_slice(), places, kept)?;
    add(parts, bus, Space::Mem, rom_before(record.rom, places, kept))?;
    Ok(())
}

/// The BARs and ROMs of all functions that are somewhere before any wish.
pub fn own_before<A: Allocator>(
    alloc: A,
    records: &[Record],
    tables: &Tables,
) -> Result<Vec<Located, A>, OutOfMemory>
    // a function's entries stand where its record does
    requires places { length tables.now.places.now ≡ length records.now }
    requires staying { length tables.now.staying.now ≡ length records.now }
    // places are told by the number of a BAR's register, so each has one
    requires registers { HaveRegisters records.now }
    ensures { IfOk result (λ parts. AreOwnBefore records.now tables.now (length records.now) parts.items) }
{
    let mut parts = Vec::new(alloc);
    for k in 0..records.len() {
        add_own(
            &mut parts,
            &records[k],
            &tables.places[k],
            &tables.staying[k],
        )?;
    }
    Ok(parts)
}
