//! The regions of a function: its enabled BARs, windows and ROM, each with the addresses that it claims.
ghost use Rattle.std.specs.Prelude.{◌≡◌, ◌≤◌, ◌++◌, OnOk, length};
ghost use Rattle.std.specs.List.{count_by};
ghost use Rattle.std.specs.Option.{is_some};
ghost use Rattle.pci_base.specs.WindowKinds.{kind_value};
ghost use Rattle.pci_base.specs.Space.{space_of};
ghost use Rattle.pci_tree.specs.Regions.{space_in, same_space, is_bar_of, bar_regions, kind_regions, bridge_regions, rom_regions, regions_of, window_in};

use super::window::range_of;
use pci_base::memory::OutOfMemory;
use pci_base::slot::Slot;
use pci_base::space::Space;
use pci_base::window_kind::WindowKind;
use pci_function::record::{Bridge, Record};
use pci_image::bar::{Bar, BarKind};
use pci_image::rom::Rom;
use pci_image::window::Windows;
use std::alloc::Allocator;

/// What a region is of a function.
#[derive(Clone, Copy, Debug, PartialEq, Eq)]
pub enum Part {
    Bar,
    Rom,
    Window,
}

/// An enabled BAR, ROM or window, with the addresses from `first` to `last` that it claims, both of them too.
#[derive(Clone, Copy, Debug, PartialEq, Eq)]
pub struct Region {
    pub slot: Slot,
    /// The byte offset of its register.
    pub reg: u8,
    pub part: Part,
    /// Whether it is a prefetchable BAR.
    pub prefetch: bool,
    pub first: u64,
    pub last: u64,
}

/// Whether a kind of BAR maps into a space.
fn maps_into(kind: BarKind, space: Space) -> bool
    ensures { result ≡ same_space (space_in kind) (space_of space) }
{
    match (kind, space) {
        (BarKind::Io, Space::Io) => true,
        (BarKind::Mem32 | BarKind::Mem64, Space::Mem) => true,
        _ => false,
    }
}

/// Adds the BARs of a space.
fn add_bars<A: Allocator>(
    out: &mut Vec<Region, A>,
    slot: Slot,
    bars: &[Bar],
    space: Space,
) -> Result<(), OutOfMemory>
    ensures { OnOk result
        (out.new.items ≡ out.old.items ++ bar_regions slot (space_of space) bars.now) }
{
    for bar in bars {
        if maps_into(bar.kind, space) {
            out.push(Region {
                slot,
                reg: bar.reg,
                part: Part::Bar,
                prefetch: bar.prefetch,
                first: bar.first,
                last: bar.last,
            })?;
        }
    }
    Ok(())
}

/// Adds a window that is open.
fn add_window<A: Allocator>(
    out: &mut Vec<Region, A>,
    slot: Slot,
    windows: &Windows,
    kind: WindowKind,
) -> Result<(), OutOfMemory>
    ensures { OnOk result
        (out.new.items ≡ out.old.items ++ kind_regions slot windows.now (kind_value kind)) }
{
    if let Some(range) = range_of(windows.get(kind)) {
        out.push(Region {
            slot,
            reg: kind.register(),
            part: Part::Window,
            prefetch: false,
            first: range.first,
            last: range.last,
        })?;
    }
    Ok(())
}

/// Adds the open windows of a space.
fn add_windows<A: Allocator>(
    out: &mut Vec<Region, A>,
    slot: Slot,
    bridge: Option<Bridge>,
    space: Space,
) -> Result<(), OutOfMemory>
    ensures { OnOk result
        (out.new.items ≡ out.old.items ++ bridge_regions slot (space_of space) bridge) }
{
    if let Some(bridge) = bridge {
        let windows = &bridge.windows;
        match space {
            Space::Io => add_window(out, slot, windows, WindowKind::Io)?,
            Space::Mem => {
                add_window(out, slot, windows, WindowKind::Memory)?;
                add_window(out, slot, windows, WindowKind::Prefetchable)?;
            }
        }
    }
    Ok(())
}

/// Adds a ROM that its own bit enables.
fn add_rom<A: Allocator>(
    out: &mut Vec<Region, A>,
    slot: Slot,
    rom: Option<Rom>,
    space: Space,
) -> Result<(), OutOfMemory>
    ensures { OnOk result (out.new.items ≡ out.old.items ++ rom_regions slot (space_of space) rom) }
{
    match (rom, space) {
        (Some(rom), Space::Mem) if rom.on => {
            out.push(Region {
                slot,
                reg: rom.reg,
                part: Part::Rom,
                prefetch: false,
                first: rom.first,
                last: rom.last,
            })?;
        }
        _ => {}
    }
    Ok(())
}

/// Adds the regions of a function and a space, in the order of their registers.
pub fn add_regions<A: Allocator>(
    out: &mut Vec<Region, A>,
    function: &Record,
    space: Space,
) -> Result<(), OutOfMemory>
    // in register order, so that those of a bus stand by slot and register without sorting
    ensures { OnOk result
        (out.new.items ≡ out.old.items ++ regions_of function.now (space_of space)) }
{
    if space.is_on(function.command) {
        add_bars(out, function.slot, &function.bars, space)?;
        add_windows(out, function.slot, function.bridge, space)?;
        add_rom(out, function.slot, function.rom, space)?;
    }
    Ok(())
}

/// How many BARs map into a space.
fn count_bars(bars: &[Bar], space: Space) -> usize
    ensures value { result ≡ count_by (is_bar_of (space_of space)) bars.now }
    ensures most { result ≤ length bars.now }
{
    bars.iter().filter(|bar| maps_into(bar.kind, space)).count()
}

/// Whether a window is open.
fn is_open(windows: &Windows, kind: WindowKind) -> bool
    ensures { result ≡ is_some (window_in (kind_value kind) windows.now) }
{
    range_of(windows.get(kind)).is_some()
}

/// How many windows of a function are open in a space.
fn count_windows(function: &Record, space: Space) -> usize
    ensures value { result
        ≡ length (bridge_regions function.now.slot (space_of space) function.now.bridge) }
    ensures most { result ≤ 2 }
{
    let Some(bridge) = function.bridge else {
        return 0;
    };
    let windows = &bridge.windows;
    match space {
        Space::Io => usize::from(is_open(windows, WindowKind::Io)),
        Space::Mem => {
            usize::from(is_open(windows, WindowKind::Memory))
                + usize::from(is_open(windows, WindowKind::Prefetchable))
        }
    }
}

/// How many ROMs of a function are on in a space: none, or one.
fn count_roms(function: &Record, space: Space) -> usize
    ensures value { result
        ≡ length (rom_regions function.now.slot (space_of space) function.now.rom) }
    ensures most { result ≤ 1 }
{
    match (function.rom, space) {
        (Some(rom), Space::Mem) if rom.on => 1,
        _ => 0,
    }
}

/// How many regions a function has in a space.
#[tactic(auto, using(crate::proofs::RegionCounts::counted))]
pub fn count_regions(function: &Record, space: Space) -> usize
    ensures { result ≡ length (regions_of function.now (space_of space)) }
{
    if !space.is_on(function.command) {
        return 0;
    }
    count_bars(&function.bars, space) + count_windows(function, space) + count_roms(function, space)
}
