//! What is placed: BARs, ROMs, and windows of bridges with something behind them.
ghost use Rattle.std.specs.Prelude.{◌≡◌, ℕ, ◌<◌, ◌≤◌, ◌^◌, ◌++◌, OnOk, IfOk, IfSome, slice_index};
ghost use Rattle.std.specs.List.{All, AllPairs};
ghost use Rattle.std.specs.List.Sorted.{IsPermutation};
ghost use Rattle.plan_spec.specs.Planning.Sorted.{group_of};
ghost use Rattle.pci_tree.specs.Roots.{buses_of};
ghost use Rattle.pci_base.specs.WindowKinds.{kind_value};
ghost use Rattle.pci_place.specs.Pools.{pools_value};
ghost use Rattle.pci_place.specs.Above.{AreAboves, system_in};
ghost use Rattle.pci_place.specs.Needs.{AreNeeds};
ghost use Rattle.pci_place.specs.Items.{IsBar, owned, bar_items, window_items, rom_items, record_items, AreItems, IsRooted};
ghost use Rattle.pci_place.specs.Sorting.{StandsEarlier, IsLarger, IsPlacedBefore};

use super::need::{Needs, bar_size, rom_size, window_size_of};
use super::pools::Pools;
use crate::above::Above;
use crate::class::class_of_bar;
use pci_base::memory::OutOfMemory;
use pci_base::offset::BASE_ADDRESS;
use pci_base::slot::BUSES;
use pci_base::window_kind::WindowKind;
use pci_function::record::{Bridge, Record};
use pci_image::bar::Bar;
use pci_image::rom::Rom;
use pci_tree::admitted::Admitted;
use pci_tree::roots::Roots;
use std::alloc::Allocator;
use std::cmp::Reverse;

/// What an item is of its function.
#[derive(Clone, Copy, Debug, PartialEq, Eq)]
pub enum Part {
    /// The BAR that this Base Address register starts, counted from 0.
    Bar(u8),
    Rom,
    /// The window of a bridge around what is behind this bus.
    Window { secondary: u8 },
}

/// A BAR, a ROM or a window that is to be placed.
#[derive(Clone, Copy, Debug)]
pub struct Item {
    /// Which of the functions, in slot order.
    pub function: usize,
    /// The bus that it stands on, 0 for each root: the roots' items are placed as those of one bus.
    pub group: u8,
    pub part: Part,
    pub size: u128,
}

/// The function that items are of.
#[derive(Clone, Copy, Debug)]
struct Owner {
    /// Which of the functions, in slot order.
    function: usize,
    /// The group of its bus.
    group: u8,
}

impl Owner {
    /// An item of this function.
    fn item(self, part: Part, size: u128) -> Item
        ensures { result ≡ owned self part size }
    {
        Item {
            function: self.function,
            group: self.group,
            part,
            size,
        }
    }
}

/// The class whose items are looked for, and what tells the class of a function's BARs.
#[derive(Clone, Copy)]
struct Sought<'a> {
    class: WindowKind,
    /// Which windows lead to the function's bus.
    above: Above,
    pools: &'a Pools,
}

/// Adds the BARs of a class.
fn add_bars<A: Allocator>(
    items: &mut Vec<Item, A>,
    owner: Owner,
    bars: &[Bar],
    sought: &Sought,
) -> Result<(), OutOfMemory>
    requires { All IsBar bars.now }
    ensures { OnOk result (items.new.items
        ≡ items.old.items ++ bar_items owner (kind_value sought.now.class) sought.now.above
        sought.now.pools.now bars.now) }
{
    for bar in bars {
        if class_of_bar(bar, sought.above, sought.pools) == sought.class {
            let part = Part::Bar((bar.reg - BASE_ADDRESS) / 4);
            items.push(owner.item(part, bar_size(bar)))?;
        }
    }
    Ok(())
}

/// Adds the window of a bridge with something behind it.
fn add_window<A: Allocator>(
    items: &mut Vec<Item, A>,
    owner: Owner,
    bridge: Option<Bridge>,
    class: WindowKind,
    needs: &Needs,
) -> Result<(), OutOfMemory>
    requires { (bus : ℕ) → bus < 256 → slice_index needs.now.of_bus bus ≤ 2 ^ 65 }
    ensures { OnOk result (items.new.items
        ≡ items.old.items ++ window_items owner (kind_value class) needs.now.of_bus bridge) }
{
    if let Some(bridge) = bridge {
        let secondary = bridge.secondary;
        let need = needs.of_bus[secondary as usize];
        if 0 < need {
            items.push(owner.item(Part::Window { secondary }, window_size_of(class, need)))?;
        }
    }
    Ok(())
}

/// Adds a ROM, if the class is that of memory.
fn add_rom<A: Allocator>(
    items: &mut Vec<Item, A>,
    owner: Owner,
    rom: Option<Rom>,
    class: WindowKind,
) -> Result<(), OutOfMemory>
    requires { IfSome rom (λ rom. rom.first ≤ rom.last) }
    ensures { OnOk result
        (items.new.items ≡ items.old.items ++ rom_items owner (kind_value class) rom) }
{
    if let Some(rom) = rom {
        if class == WindowKind::Memory {
            items.push(owner.item(Part::Rom, rom_size(&rom)))?;
        }
    }
    Ok(())
}

/// Adds the items of a class that a function has, in the order of their registers.
fn add_items<A: Allocator>(
    items: &mut Vec<Item, A>,
    owner: Owner,
    record: &Record,
    sought: &Sought,
    needs: &Needs,
) -> Result<(), OutOfMemory>
    requires bars { All IsBar «record».now.bars.items }
    requires rom { IfSome «record».now.rom (λ rom. rom.first ≤ rom.last) }
    requires needs { (bus : ℕ) → bus < 256 → slice_index needs.now.of_bus bus ≤ 2 ^ 65 }
    ensures { OnOk result (items.new.items
        ≡ items.old.items
        ++ record_items owner (kind_value sought.now.class) sought.now.above sought.now.pools.now
        needs.now.of_bus «record».now) }
{
    add_bars(items, owner, record.bars.as_slice(), sought)?;
    add_window(items, owner, record.bridge, sought.class, needs)?;
    add_rom(items, owner, record.rom, sought.class)
}

/// The group of a bus: the roots are one.
fn group_of(roots: &Roots, bus: u8) -> u8
    ensures { result ≡ group_of (buses_of roots.now) bus }
{
    if roots.has(bus) { 0 } else { bus }
}

/// The items of a class in slot and register order.
pub fn items_of<A: Allocator, B: Allocator>(
    alloc: A,
    admitted: &Admitted<B>,
    pools: &Pools,
    class: WindowKind,
    aboves: &[Above; BUSES],
    needs: &Needs,
) -> Result<Vec<Item, A>, OutOfMemory>
    // which windows lead to a BAR decides its class
    requires aboves { AreAboves (system_in admitted.now) aboves.now }
    // a window is as large as what is behind it, which is counted before
    requires needs { AreNeeds admitted.now.roots (system_in admitted.now) (pools_value pools.now)
        (kind_value class) needs.now }
    ensures items { IfOk result (λ items. AreItems admitted.now.roots (system_in admitted.now)
        (pools_value pools.now) (kind_value class) items.items) }
    // placing learns here that a bridge's group is done before what is behind it begins
    ensures rooted { OnOk result (IsRooted admitted.now.roots (system_in admitted.now)) }
{
    let outline = admitted.outline();
    let roots = outline.roots();
    let mut items = Vec::new(alloc);
    for (function, record) in outline.records().iter().enumerate() {
        let bus = record.slot.bus();
        let owner = Owner {
            function,
            group: group_of(&roots, bus),
        };
        let sought = Sought {
            class,
            above: aboves[bus as usize],
            pools,
        };
        add_items(&mut items, owner, record, &sought, needs)?;
    }
    Ok(items)
}

/// Sorts items by falling size; those of one size stay in their order.
fn sort_by_size<A: Allocator + Copy>(items: &mut Vec<Item, A>) -> Result<(), OutOfMemory>
    ensures permutation { IsPermutation items.old.items items.new.items }
    ensures sorted { OnOk result ((slot register : Item → ℕ)
        → AllPairs (StandsEarlier slot register) items.old.items
        → AllPairs (IsLarger slot register) items.new.items) }
{
    match items.sort_by_key(|item| Reverse(item.size)) {
        Ok(()) => Ok(()),
        Err(_) => Err(OutOfMemory),
    }
}

/// Sorts items by their group; those of one group stay in their order.
fn sort_by_group<A: Allocator + Copy>(items: &mut Vec<Item, A>) -> Result<(), OutOfMemory>
    ensures permutation { IsPermutation items.old.items items.new.items }
    ensures sorted { OnOk result ((slot register : Item → ℕ)
        → AllPairs (IsLarger slot register) items.old.items
        → AllPairs (IsPlacedBefore slot register) items.new.items) }
{
    match items.sort_by_key(|item| item.group) {
        Ok(()) => Ok(()),
        Err(_) => Err(OutOfMemory),
    }
}

/// Sorts items that stand in slot and register order into groups, and each group by falling size.
pub fn sort_items<A: Allocator + Copy>(items: &mut Vec<Item, A>) -> Result<(), OutOfMemory>
    // nothing is lost or doubled, also where there was no memory to sort with
    ensures permutation { IsPermutation items.old.items items.new.items }
    // by any two numbers that rise along the items: those of one size stay in their order
    ensures sorted { OnOk result ((slot register : Item → ℕ)
        → AllPairs (StandsEarlier slot register) items.old.items
        → AllPairs (IsPlacedBefore slot register) items.new.items) }
{
    sort_by_size(items)?;
    sort_by_group(items)
}
