//! What of a function is placed in a class: BARs, the new window of a bridge, and a ROM that is on, but what keeps its
//! place.
ghost use Rattle.std.specs.Prelude.{◌≡◌, ◌<◌, ◌++◌, OnOk, IfSome, map};
ghost use Rattle.std.specs.List.{All};
ghost use Rattle.plan_spec.specs.Plan.{greatest};
ghost use Rattle.settle_spec.specs.Items.{highest_of_bar};
ghost use Rattle.settle_spec.specs.Lists as lists;
ghost use Rattle.pci_base.specs.WindowKinds.{kind_value};
ghost use Rattle.pci_place.specs.Pools.{pools_value};
ghost use Rattle.pci_first_fit.specs.Lists.{root_range_value};
ghost use Rattle.pci_first_fit.specs.Slots.{demand_value};
ghost use Rattle.pci_first_fit.specs.Own.{AreTerms, pools_to, class_anew, bar_class_of, first_bar_register, is_left_bar, is_own_bar, IsSpanned, HasBarRegister, asked_bar_item, asked_bar_items, rom_item, asked_rom_items, asked_window_items, situation_value, asked_record_items, AreItemsOf};

use crate::extent::Extent;
use crate::item::{Item, Part};
use crate::kept::Kept;
use crate::list::Lists;
use crate::over::{Over, is_held};
use crate::slots::Slots;
use crate::window::later;
use pci_base::image::Image;
use pci_base::memory::OutOfMemory;
use pci_base::offset::BASE_ADDRESS;
use pci_base::range::{Range, RootRange};
use pci_base::window_kind::WindowKind;
use pci_function::record::Record;
use pci_image::bar::{Bar, BarKind, is_io, is_wide};
use pci_image::rom::Rom;
use pci_place::above::Above;
use pci_place::class::class_of_bar;
use pci_place::pools::Pools;
use std::alloc::Allocator;

/// What classes and new windows are told by, of what is asked for.
#[derive(Clone, Copy, Debug)]
pub struct Terms<'a> {
    /// Whether there is a range of I/O: without one, I/O BARs are left.
    pub has_io: bool,
    /// The last address of prefetchable memory; None where it has no range, and prefetchable BARs are memory.
    pub prefetch_last: Option<u64>,
    /// The room that is wanted behind slots.
    pub slots: &'a Slots<'a>,
}

/// The greatest last address of some ranges.
fn greatest_last(list: &[RootRange]) -> u64
    ensures { result ≡ greatest (map (λ r. r.range.last) (map root_range_value list.now)) }
{
    let mut last = 0;
    for one in list {
        last = later(last, one.range.last);
    }
    last
}

impl<'a> Terms<'a> {
    /// The terms of some lists.
    pub fn of(lists: &'a Lists<'a>) -> Terms<'a>
        ensures { AreTerms (demand_value lists.now) result }
    {
        Terms {
            has_io: !lists.io.is_empty(),
            prefetch_last: if lists.pref.is_empty() {
                None
            } else {
                Some(greatest_last(lists.pref))
            },
            slots: &lists.slots,
        }
    }
}

/// Pools of which the prefetchable one ends at an address.
fn pools_to(last: u64) -> Pools
    ensures { pools_value result ≡ pools_to last }
{
    let none = Range { first: 0, last: 0 };
    Pools {
        io: none,
        mem: none,
        pref: Range { first: 0, last },
    }
}

/// The class of a BAR with these windows above it that no open window holds: without a range of prefetchable memory it
/// is never prefetchable.
fn class_anew(bar: &Bar, above: Above, terms: Terms) -> WindowKind
    ensures { kind_value result ≡ class_anew bar.now above terms.entry.prefetch_last }
{
    match terms.prefetch_last {
        Some(last) => class_of_bar(bar, above, &pools_to(last)),
        None if bar.kind == BarKind::Io => WindowKind::Io,
        None => WindowKind::Memory,
    }
}

/// The class of a BAR: a prefetchable one is of the class of the open window over it that holds it.
pub fn class_of(bar: &Bar, over: &Over, terms: Terms) -> WindowKind
    ensures { kind_value result ≡ bar_class_of bar.now over.now terms.entry.prefetch_last }
{
    let range = Range {
        first: bar.first,
        last: bar.last,
    };
    if bar.prefetch && is_held(over.windows.memory, range) {
        WindowKind::Memory
    } else if bar.prefetch && is_held(over.windows.prefetch, range) && over.above.pref {
        WindowKind::Prefetchable
    } else {
        class_anew(bar, over.above, terms)
    }
}

/// Whether an I/O BAR is left: there is no range of I/O, or a bridge above it has no I/O window.
pub fn is_left_bar(bar: &Bar, above: Above, terms: Terms) -> bool
    ensures { result ≡ is_left_bar bar.now above terms.entry.has_io }
{
    bar.kind == BarKind::Io && !(terms.has_io && above.io)
}

/// Which Base Address register starts a BAR, counted from 0.
fn bar_number(bar: &Bar) -> u8
    requires { HasBarRegister bar.now }
    ensures { result ≡ first_bar_register bar.now }
{
    (bar.reg - BASE_ADDRESS) / 4
}

/// What the items of a function in a class are found by.
#[derive(Clone, Copy)]
pub struct Situation<'a> {
    /// Which of the functions, in slot order.
    pub function: usize,
    /// What its registers read back.
    pub probe: &'a Image,
    pub class: WindowKind,
    /// What is over its bus.
    pub over: &'a Over,
    pub terms: Terms<'a>,
    /// The new window that it has as a bridge.
    pub window: Option<Extent>,
    /// What of it keeps its place.
    pub kept: &'a Kept,
}

/// Whether a BAR is placed in a class.
fn is_own_bar(bar: &Bar, situation: &Situation) -> bool
    requires { HasBarRegister bar.now }
    ensures { result ≡ is_own_bar (kind_value situation.now.class) situation.now.over.now
        situation.now.terms situation.now.kept.now bar.now }
{
    let over = situation.over;
    !is_left_bar(bar, over.above, situation.terms)
        && class_of(bar, over, situation.terms) == situation.class
        && !situation.kept.bar(bar_number(bar))
}

/// The highest address that a BAR can have, by what its register reads back: an I/O BAR may have 16 bits.
fn highest_of_bar(mask: u32) -> u64
    ensures { result ≡ highest_of_bar mask }
{
    if is_io(u64::from(mask)) {
        if mask <= 0xffff { 0xffff } else { 0xffff_ffff }
    } else if is_wide(mask) {
        u64::MAX
    } else {
        0xffff_ffff
    }
}

/// The item of a BAR, whose size is its alignment.
fn bar_item(function: usize, probe: &Image, bar: &Bar) -> Item
    requires { HasBarRegister bar.now }
    ensures { result ≡ asked_bar_item function probe.now.0 bar.now }
{
    let size = bar.last - bar.first + 1;
    Item {
        function,
        part: Part::Bar(bar_number(bar)),
        extent: Extent {
            size,
            alignment: size,
            highest: highest_of_bar(probe.u32(bar.reg)),
        },
    }
}

/// The item of a ROM, which is never above 4 GB.
fn rom_item(function: usize, rom: &Rom) -> Item
    requires { IsSpanned rom.now.first rom.now.last }
    ensures { result ≡ rom_item function rom.now }
{
    let size = rom.last - rom.first + 1;
    Item {
        function,
        part: Part::Rom,
        extent: Extent {
            size,
            alignment: size,
            highest: 0xffff_ffff,
        },
    }
}

/// Adds the BARs of a class that don't keep their places.
fn add_bars<A: Allocator>(
    items: &mut Vec<Item, A>,
    bars: &[Bar],
    situation: &Situation,
) -> Result<(), OutOfMemory>
    requires { All HasBarRegister bars.now }
    ensures { OnOk result (items.new.items ≡ items.old.items
        ++ asked_bar_items situation.now.function situation.now.probe.now.0
        (kind_value situation.now.class) situation.now.over.now situation.now.terms
        situation.now.kept.now bars.now) }
{
    for bar in bars {
        if is_own_bar(bar, situation) {
            items.push(bar_item(situation.function, situation.probe, bar))?;
        }
    }
    Ok(())
}

/// Adds a ROM that is on and doesn't keep its place, if the class is that of memory.
fn add_rom<A: Allocator>(
    items: &mut Vec<Item, A>,
    rom: Option<Rom>,
    situation: &Situation,
) -> Result<(), OutOfMemory>
    requires { IfSome rom (λ rom. IsSpanned rom.first rom.last) }
    ensures { OnOk result (items.new.items ≡ items.old.items
        ++ asked_rom_items situation.now.function (kind_value situation.now.class)
        situation.now.kept.now rom) }
{
    if let Some(rom) = rom {
        if rom.on && situation.class == WindowKind::Memory && !situation.kept.rom {
            items.push(rom_item(situation.function, &rom))?;
        }
    }
    Ok(())
}

/// Adds the new window of a bridge, where it has one and doesn't keep the one that it had.
fn add_window<A: Allocator>(
    items: &mut Vec<Item, A>,
    situation: &Situation,
) -> Result<(), OutOfMemory>
    ensures { OnOk result (items.new.items ≡ items.old.items
        ++ asked_window_items situation.now.function (kind_value situation.now.class)
        situation.now.kept.now situation.now.window) }
{
    if let Some(extent) = situation.window {
        if !situation.kept.window(situation.class) {
            items.push(Item {
                function: situation.function,
                part: Part::Window,
                extent,
            })?;
        }
    }
    Ok(())
}

/// Adds the items of a function in a class, in the order of their registers: BARs but those of I/O that are left, the new
/// window that it has as a bridge, and a ROM that is on; none of them where it keeps its place.
pub fn add_items<A: Allocator>(
    items: &mut Vec<Item, A>,
    record: &Record,
    situation: &Situation,
) -> Result<(), OutOfMemory>
    // else a register's number or a BAR's size would be below 0
    requires bars { All HasBarRegister «record».now.bars.items }
    // else its size would be below 0, too
    requires rom { IfSome «record».now.rom (λ rom. IsSpanned rom.first rom.last) }
    ensures items { OnOk result (items.new.items ≡ items.old.items
        ++ asked_record_items (situation_value situation.now) «record».now) }
    // they are those of the definitions, whatever system the record is of
    ensures exact { AreItemsOf (situation_value situation.now) «record».now }
{
    add_bars(items, record.bars.as_slice(), situation)?;
    add_window(items, situation)?;
    add_rom(items, record.rom, situation)
}
