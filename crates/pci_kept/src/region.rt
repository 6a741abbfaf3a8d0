//! The parts of a function that can stand, with all that tells whether they do.
ghost use Rattle.std.specs.Prelude.{◌≡◌, ◌++◌, OnOk};
ghost use Rattle.std.specs.List.{All};
ghost use Rattle.pci_tree.specs.Passes.{range_in};
ghost use Rattle.pci_first_fit.specs.Own.{bar_class_of};
ghost use Rattle.pci_kept.specs.Regions.{owned_region, kind_of, bar_space, HasBarNumber, owned_bar_region, owned_bar_regions, owned_window_regions, owned_bridge_regions, owned_rom_regions, record_regions};

use pci_base::memory::OutOfMemory;
use pci_base::offset::BASE_ADDRESS;
use pci_base::range::Range;
use pci_base::space::Space;
use pci_base::window_kind::WindowKind;
use pci_first_fit::kept::Part;
use pci_first_fit::over::Over;
use pci_first_fit::own::{Terms, class_of, is_left_bar};
use pci_function::record::{Bridge, Record};
use pci_image::bar::{Bar, BarKind};
use pci_image::rom::Rom;
use pci_image::window::{Window, Windows};
use std::alloc::Allocator;

/// What all parts of a function share.
#[derive(Clone, Copy, Debug)]
pub struct Owner {
    /// Which of the functions, in slot order.
    pub function: usize,
    pub bus: u8,
    /// 0 where it stands on a root, else one more than its bus number.
    pub level: u16,
    /// Whether its registers may not be written.
    pub fixed: bool,
    pub command: u16,
}

/// A BAR that isn't left, a ROM that is on, or an open window.
#[derive(Clone, Copy, Debug)]
pub struct Region {
    /// Which of the functions, in slot order.
    pub function: usize,
    pub bus: u8,
    /// 0 where the bus is a root, else one more than its number.
    pub level: u16,
    /// Whether the function's registers may not be written.
    pub fixed: bool,
    /// Whether Command enables its space.
    pub on: bool,
    /// Whether it leads to a told range that is on. It is noted when all parts are collected.
    pub leads: bool,
    /// Whether it can stand: where all is placed anew, only what leads to a told range can. It is noted with `leads`.
    pub can_stand: bool,
    pub part: Part,
    pub space: Space,
    /// The class of the window over its bus in which it can stand.
    pub class: WindowKind,
    pub range: Range,
}

impl Owner {
    /// A part of the function.
    fn region(self, part: Part, space: Space, class: WindowKind, range: Range) -> Region
        ensures { result ≡ owned_region self part space class range }
    {
        Region {
            function: self.function,
            bus: self.bus,
            level: self.level,
            fixed: self.fixed,
            on: space.is_on(self.command),
            leads: false,
            can_stand: false,
            part,
            space,
            class,
            range,
        }
    }
}

/// The space that a kind of BAR maps into.
fn bar_space(kind: BarKind) -> Space
    ensures { result ≡ bar_space kind }
{
    match kind {
        BarKind::Io => Space::Io,
        BarKind::Mem32 | BarKind::Mem64 => Space::Mem,
    }
}

/// The class of a BAR by what is over its bus.
fn bar_class(bar: &Bar, over: &Over, terms: Terms) -> WindowKind
    ensures { result ≡ kind_of (bar_class_of bar.now over.now terms.entry.prefetch_last) }
{
    class_of(bar, over, terms)
}

/// The part of a BAR.
fn bar_region(owner: Owner, bar: &Bar, over: &Over, terms: Terms) -> Region
    requires { HasBarNumber bar.now }
    ensures { result ≡ owned_bar_region owner over.now terms.entry bar.now }
{
    let part = Part::Bar((bar.reg - BASE_ADDRESS) / 4);
    let range = Range {
        first: bar.first,
        last: bar.last,
    };
    let class = bar_class(bar, over, terms);
    owner.region(part, bar_space(bar.kind), class, range)
}

/// Adds the BARs but those of I/O that are left.
fn add_bars<A: Allocator>(
    out: &mut Vec<Region, A>,
    owner: Owner,
    bars: &[Bar],
    over: &Over,
    terms: Terms,
) -> Result<(), OutOfMemory>
    requires { All HasBarNumber bars.now }
    ensures { OnOk result
        (out.new.items ≡ out.old.items ++ owned_bar_regions owner over.now terms.entry bars.now) }
{
    for bar in bars {
        if !is_left_bar(bar, over.above, terms) {
            out.push(bar_region(owner, bar, over, terms))?;
        }
    }
    Ok(())
}

/// Adds a window that is there and open.
fn add_window<A: Allocator>(
    out: &mut Vec<Region, A>,
    owner: Owner,
    kind: WindowKind,
    space: Space,
    window: Option<Window>,
) -> Result<(), OutOfMemory>
    ensures { OnOk result
        (out.new.items ≡ out.old.items ++ owned_window_regions owner kind space (range_in window)) }
{
    let Some(window) = window else {
        return Ok(());
    };
    if let Some(range) = window.range() {
        out.push(owner.region(Part::Window(kind), space, kind, range))?;
    }
    Ok(())
}

/// Adds the open windows of a bridge.
fn add_windows<A: Allocator>(
    out: &mut Vec<Region, A>,
    owner: Owner,
    bridge: Option<Bridge>,
) -> Result<(), OutOfMemory>
    ensures { OnOk result (out.new.items ≡ out.old.items ++ owned_bridge_regions owner bridge) }
{
    let Some(bridge) = bridge else {
        return Ok(());
    };
    let Windows { io, mem, pref } = bridge.windows;
    add_window(out, owner, WindowKind::Io, Space::Io, io)?;
    add_window(out, owner, WindowKind::Memory, Space::Mem, Some(mem))?;
    add_window(out, owner, WindowKind::Prefetchable, Space::Mem, pref)
}

/// Adds a ROM that is on.
fn add_rom<A: Allocator>(
    out: &mut Vec<Region, A>,
    owner: Owner,
    rom: Option<Rom>,
) -> Result<(), OutOfMemory>
    ensures { OnOk result (out.new.items ≡ out.old.items ++ owned_rom_regions owner rom) }
{
    if let Some(rom) = rom {
        if rom.on {
            let range = Range {
                first: rom.first,
                last: rom.last,
            };
            out.push(owner.region(Part::Rom, Space::Mem, WindowKind::Memory, range))?;
        }
    }
    Ok(())
}

/// Adds the parts of a function that can stand, in the order of their registers: BARs but those of I/O that are left, open
/// windows, and a ROM that is on.
pub fn add_regions<A: Allocator>(
    out: &mut Vec<Region, A>,
    owner: Owner,
    record: &Record,
    over: &Over,
    terms: Terms,
) -> Result<(), OutOfMemory>
    // a part is named by the number of its BAR's register
    requires { All HasBarNumber «record».now.bars.items }
    ensures { OnOk result
        (out.new.items ≡ out.old.items ++ record_regions owner over.now terms.entry «record».now) }
{
    add_bars(out, owner, record.bars.as_slice(), over, terms)?;
    add_windows(out, owner, record.bridge)?;
    add_rom(out, owner, record.rom)
}
