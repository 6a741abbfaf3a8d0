//! What a window comes to where it takes all that has no place behind it.
ghost use Rattle.std.specs.Prelude.{◌≡◌, ℕ, ◌+◌, ◌++◌, ◌<◌, true, IfOk, IfSome, IfNone, length, map, slice_index_or};
ghost use Rattle.std.specs.List.{All};
ghost use Rattle.std.specs.List.Sorted.{IsNonDecreasingBy};
ghost use Rattle.pci_spec.specs.System.{System, IsSystem, Function, Part, window_space, Window as WindowPart};
ghost use Rattle.settle_spec.specs.Lines.{lines_on};
ghost use Rattle.settle_spec.specs.Lists.{Request};
ghost use Rattle.pci_base.specs.Ranges.{decoded_range_of};
ghost use Rattle.pci_base.specs.WindowKinds.{kind_value, by_kind};
ghost use Rattle.pci_place.specs.Above.{AreAboves, system_in};
ghost use Rattle.pci_first_fit.specs.Buses.{classing_value, bus_listing, AreInTurn};
ghost use Rattle.pci_first_fit.specs.Kept.{kept_of, nothing_kept};
ghost use Rattle.pci_first_fit.specs.Lines.{AreLineRows, AreLines, level_of};
ghost use Rattle.pci_first_fit.specs.Own.{asked_item_value};
ghost use Rattle.pci_first_fit.specs.Placings.{at_places};
ghost use Rattle.pci_first_fit.specs.Turns.{HasExtent};
ghost use Rattle.pci_kept.specs.Windows.{AreAllLawful};
ghost use Rattle.pci_grow.specs.Arounds.{AreRisingAtBothEnds, ArePlacesAround, HaveNoPlaces};
ghost use Rattle.pci_grow.specs.Grounds.{ground_value, AreAlike};
ghost use Rattle.pci_first_fit.specs.PlaceTables.{IsItemPart};
ghost use Rattle.pci_grow.specs.Putting.{ArePutOver, HasItemPart};
ghost use Rattle.pci_grow.specs.Rows.{region_row_number};
ghost use Rattle.pci_grow.specs.RoomRows.{row_number};
ghost use Rattle.pci_grow.specs.There.{tables_of, there_told, there_of, in_row};
ghost use Rattle.pci_grow.specs.Telling.{setting_value, IsGrowing, IsWindowWithReach, IsThereTold, IsComing, IsWindowNoted};

use crate::around::{Around, places_around};
use crate::beside::row;
use crate::ground::Ground;
use crate::halves::grown_to;
use crate::in_order::in_order;
use crate::put_all::put_all;
use crate::there::{There, held_with, held_with_places, in_row, there_in};
use pci_base::memory::OutOfMemory;
use pci_base::range::Range;
use pci_base::slot::BUSES;
use pci_base::space::Space;
use pci_base::window_kind::{ByKind, WindowKind};
use pci_first_fit::bus::items_in_turn;
use pci_first_fit::extent::Extent;
use pci_first_fit::item::Item;
use pci_first_fit::kept::{Kept, Part as KeptPart};
use pci_first_fit::lines::{Line, add_lines_on};
use pci_first_fit::listing::{Classing, Listing};
use pci_first_fit::table::{WindowRanges, tell};
use pci_function::record::Bridge;
use pci_kept::region::Region;
use std::alloc::Allocator;

/// What windows come to is found by.
#[derive(Drop)]
pub struct Setting<'a, 's, 'b, B: Allocator> {
    /// What the classes of BARs are told by.
    pub classing: &'b Classing<'a, 's, B>,
    /// The new windows over each bus, by class.
    pub windows: &'b ByKind<[Option<Extent>; BUSES]>,
    /// The parts that stand, row by row, and in a row by rising addresses.
    pub rows: &'b [Region],
    /// How far each window that stands can grow.
    pub reaches: &'b [WindowRanges],
    /// The ranges that a text tells of, by rising levels.
    pub lines: &'b [Line],
}

/// What a window comes to, and the items that are placed around it.
#[derive(Drop)]
pub struct Coming<A: Allocator> {
    pub range: Range,
    pub items: Vec<Item, A>,
    pub places: Vec<u64, A>,
}

/// The parts that stand on a bus that is no root, in the space of a class.
fn on_bus(rows: &[Region], bus: u8, class: WindowKind) -> &[Region]
    // rows are found by halves
    requires order { IsNonDecreasingBy region_row_number rows.now }
    ensures { result.now
        ≡ in_row (row_number (bus + 1) (window_space (kind_value class))) rows.now }
{
    in_row(rows, row(u16::from(bus) + 1, Space::of(class)))
}

/// The items of a bus in a class that aren't there, in the order in which they are placed.
fn items_behind<A: Allocator + Copy, B: Allocator>(
    alloc: A,
    setting: &Setting<B>,
    there: &There<A>,
    bus: u8,
    class: WindowKind,
) -> Result<Vec<Item, A>, OutOfMemory>
    // which windows lead to a BAR decides its class
    requires { AreAboves (system_in setting.now.classing.now.admitted.now)
        setting.now.classing.now.aboves.now }
    ensures turn { IfOk result (λ items. AreInTurn (bus_listing
        (classing_value setting.now.classing.now) (kind_value class) bus
        (by_kind setting.now.windows.now class) there.now.kept.items) items.items) }
    // places are looked for by sizes and alignments
    ensures lawful { AreAllLawful setting.now.windows.now
        → IfOk result (λ items. All HasExtent items.items) }
{
    let listing = Listing {
        classing: setting.classing,
        class,
        windows: setting.windows.get(class),
        kept: there.kept.as_slice(),
    };
    let items = items_in_turn(alloc, &listing, bus)?;
    Ok(items)
}

/// What is taken on the bus behind a bridge in the space of a class, in order: what is there, and what told ranges hold.
fn taken_behind<A: Allocator + Copy, B: Allocator>(
    alloc: A,
    setting: &Setting<B>,
    there: &There<A>,
    bus: u8,
    class: WindowKind,
) -> Result<Vec<Range, A>, OutOfMemory>
    // rows are found by halves
    requires order { IsNonDecreasingBy region_row_number setting.now.rows.now }
    requires rows { AreLineRows setting.now.lines.now }
    requires listed { AreRisingAtBothEnds (there_of (tables_of there.now)
        (in_row (row_number (bus + 1) (window_space (kind_value class))) setting.now.rows.now)) }
    ensures order { IfOk result (λ taken. AreRisingAtBothEnds taken.items) }
    ensures taken { IfOk result (λ taken. (q : Request) → (n : ℕ)
        → AreLines q.roots q.told.ranges setting.now.lines.now → level_of q.roots n ≡ bus + 1
        → AreAlike (map decoded_range_of taken.items) (lines_on q (window_space (kind_value class)) n
        ++ map decoded_range_of (there_of (tables_of there.now)
        (in_row (row_number (bus + 1) (window_space (kind_value class))) setting.now.rows.now)))) }
{
    let taken = there_in(alloc, on_bus(setting.rows, bus, class), there)?;
    if setting.lines.is_empty() {
        return Ok(taken);
    }
    let mut all = Vec::new(alloc);
    let level = u16::from(bus) + 1;
    add_lines_on(&mut all, setting.lines, level, Space::of(class))?;
    all.extend_from_slice(taken.as_slice())?;
    let ordered = in_order(alloc, all)?;
    Ok(ordered)
}

/// The places of items around a window beside what is taken; None where one of them has none.
fn places_of<A: Allocator + Copy>(
    alloc: A,
    ground: &Ground,
    mut taken: Vec<Range, A>,
    items: &[Item],
) -> Result<Option<Vec<u64, A>>, OutOfMemory>
    // without an address it has no last one, and of 0 there is no multiple
    requires items { All HasExtent items.now }
    requires rows { AreLineRows ground.now.lines.now }
    // what is free lies between two that follow one another
    requires listed { AreRisingAtBothEnds taken.items }
    ensures some { IfOk result (λ places. IfSome places (λ table. ArePlacesAround ground.now.around
        (ground_value ground.now) taken.items items.now table.items)) }
    ensures none { IfOk result (λ places. IfNone places (HaveNoPlaces ground.now.around
        (ground_value ground.now) taken.items items.now)) }
{
    let mut places = vec![in alloc; 0; items.len()]?;
    let lack = places_around(alloc, ground, &mut taken, items, places.as_mut_slice())?;
    if lack.is_some() {
        return Ok(None);
    }
    Ok(Some(places))
}

/// What a window that stands comes to; None where something behind it has no place around it.
pub fn comes_to<A: Allocator + Copy, B: Allocator>(
    alloc: A,
    setting: &Setting<B>,
    there: &There<A>,
    bridge: &Bridge,
    class: WindowKind,
    around: &Around,
) -> Result<Option<Coming<A>>, OutOfMemory>
    // which windows lead to a BAR decides its class
    requires above { AreAboves (system_in setting.now.classing.now.admitted.now)
        setting.now.classing.now.aboves.now }
    // places are looked for by sizes and alignments
    requires lawful { AreAllLawful setting.now.windows.now }
    // rows are found by halves
    requires order { IsNonDecreasingBy region_row_number setting.now.rows.now }
    requires rows { AreLineRows setting.now.lines.now }
    // what is free lies between two that follow one another
    requires listed { AreRisingAtBothEnds (there_of (tables_of there.now)
        (in_row (row_number (bridge.now.secondary + 1) (window_space (kind_value class))) setting.now.rows.now)) }
    ensures comes { IfOk result (λ coming. (q : Request) → (f : Function)
        → IsGrowing q (setting_value setting.now)
        → IsWindowWithReach q (system_in setting.now.classing.now.admitted.now) f bridge.now class around.now
        → IsThereTold q (system_in setting.now.classing.now.admitted.now) (tables_of there.now)
        → IsComing q (system_in setting.now.classing.now.admitted.now)
        (there_told (system_in setting.now.classing.now.admitted.now) (tables_of there.now))
        (kind_value class) f coming) }
    // an item's place stands at its index
    ensures count { IfOk result (λ coming. IfSome coming (λ x. length x.places.items
        ≡ length x.items.items)) }
{
    let bus = bridge.secondary;
    let items = items_behind(alloc, setting, there, bus, class)?;
    let taken = taken_behind(alloc, setting, there, bus, class)?;
    let ground = Ground {
        around: *around,
        records: setting.classing.admitted.outline().records(),
        lines: setting.lines,
        class,
    };
    let Some(places) = places_of(alloc, &ground, taken, items.as_slice())? else {
        return Ok(None);
    };
    let behind = on_bus(setting.rows, bus, class);
    let held = held_with(class, around.window, behind, there);
    let all = held_with_places(held, items.as_slice(), places.as_slice());
    let range = grown_to(class, around.window, all);
    Ok(Some(Coming {
        range,
        items,
        places,
    }))
}

/// Notes that a window is kept.
fn note_kept(table: &mut [Kept], function: usize, class: WindowKind)
    // there is an entry for the function
    requires { function < length table.old }
    ensures count { length table.new ≡ length table.old }
    ensures kept { kept_of (slice_index_or table.new function nothing_kept) (WindowPart (kind_value class)) ≡ true }
    // windows are noted one after another
    ensures others { (j : ℕ) → (part : Part) → ((j ≡ function) → (part ≡ WindowPart (kind_value class)) → ⊥)
        → kept_of (slice_index_or table.new j nothing_kept) part
        ≡ kept_of (slice_index_or table.old j nothing_kept) part }
{
    table[function].note(KeptPart::Window(class));
}

/// Notes that a window is there with what it comes to.
pub fn note_coming<A: Allocator>(
    there: &mut There<A>,
    function: usize,
    class: WindowKind,
    coming: &Coming<A>,
)
    // there is an entry for the function
    requires kept { function < length there.old.kept.items }
    requires grown { function < length there.old.grown.items }
    // and for that of each item
    requires functions { All (λ i. i.function < length there.old.places.items) coming.now.items.items }
    requires parts { All (λ i. IsItemPart i.part) coming.now.items.items }
    // an item's place stands at its index
    requires count { length coming.now.places.items ≡ length coming.now.items.items }
    ensures noted { IsWindowNoted (tables_of there.old) (tables_of there.new) function class coming.now.range }
    ensures placed { (s : System) → IsSystem s → length s ≡ length there.old.places.items
        → All (HasItemPart s (kind_value class)) coming.now.items.items
        → ArePutOver s (at_places (map (asked_item_value s (kind_value class)) coming.now.items.items) coming.now.places.items)
        there.old.places.items there.new.places.items }
{
    tell(
        there.grown.as_mut_slice(),
        function,
        class,
        Some(coming.range),
    );
    note_kept(there.kept.as_mut_slice(), function, class);
    put_all(
        there.places.as_mut_slice(),
        class,
        coming.items.as_slice(),
        coming.places.as_slice(),
    );
}
