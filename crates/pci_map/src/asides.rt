//! The regions that have no line at a place: those out of place, and those that are left, each below a heading.
ghost use Rattle.std.specs.Prelude.{◌≡◌, ◌≤◌, length, MatchBool, MatchOption, OnOk};
ghost use Rattle.std.specs.String.{string_bytes};
ghost use Rattle.pci_spec.specs.System.{System, Io, Memory};
ghost use Rattle.judge_spec.specs.Given.{Given as GivenValue};
ghost use Rattle.judge_spec.specs.ToldClaims.{Told as ToldValue};
ghost use Rattle.judge_spec.specs.ToldRegion.{IsToldIn};
ghost use Rattle.judge_spec.specs.Regions.{Own, IsIn};
ghost use Rattle.pci_base.specs.Space.{space_of};
ghost use Rattle.pci_tree.specs.Outline.{Tree};
ghost use Rattle.pci_tree.specs.declared.region.Region.{Region as RegionValue};
ghost use Rattle.pci_claims.specs.Found.{IsFoundIn};
ghost use Rattle.pci_claims.specs.Values.{code_given_value, told_value};
ghost use Rattle.pci_map.specs.Values.{value_of};
ghost use Rattle.pci_map.specs.Seats.{told_region_value};
ghost use Rattle.pci_map.specs.Mapped.{AreToldOn, IsSystemOf, IsSystemWith};
ghost use Rattle.pci_map.specs.Above.{AreSentAbove};
ghost use Rattle.pci_map.specs.Ways.{AreWays};
ghost use Rattle.pci_map.specs.Asides.{IsListedAt, AreFoundBy, IsRecordIn, IsRegionAside, HasAside, HasNoAside, IsNamedAt, IsNamedAtRegister, IsOfRegisters, IsTheRange, IsRangeFrom, AreAsides, AreAsidesTold};

use super::above::{is_line_outside, is_out_of_place};
use super::addresses::Addresses;
use super::left::{Windows, is_left};
use super::line::{push_region, push_told_line};
use super::mapped::Mapped;
use super::off::push_section;
use super::seat::ToldRegion;
use super::ways::Spot;
use pci_base::memory::OutOfMemory;
use pci_base::slot::Slot;
use pci_base::space::Space;
use pci_claims::given::Given;
use pci_dump::told_list::first_of_slot;
use pci_function::record::Record;
use pci_tree::region::{Region, add_regions};
use std::alloc::{Allocator, Global};
use std::marker::Model;

/// How many registers of four bytes a header has (PCI 3.0, 6.1).
const REGISTERS: u8 = 16;

/// The lines of regions that have none at a place, by slot and register.
#[derive(Drop)]
struct Asides<A: Allocator = Global> {
    /// Those of BARs and ROMs that are out of place.
    outside: String<A>,
    /// Those of the others that are left.
    unreached: String<A>,
}

impl<A: Allocator> Model for Asides<A> {
    ghost use Rattle.std.specs.String.{string_bytes};
    ghost use Rattle.pci_map.specs.Asides.{AsideTexts};

    ghost Value = { AsideTexts };

    ghost view = { λ a. record { outside = string_bytes a.outside; unreached = string_bytes a.unreached } };
}

/// What leads to each bus, with what is given.
#[derive(Drop)]
struct Routes<'a, A: Allocator> {
    given: Given<'a>,
    /// The windows above it, and what their bridge takes.
    ways: &'a [Option<Windows<A>>],
    /// What is sent to the root above it.
    above: &'a [Addresses<A>],
}

/// The regions of a function, by space.
#[derive(Drop)]
struct FunctionRegions<'a> {
    slot: Slot,
    io: &'a [Region],
    memory: &'a [Region],
}

/// Fills a list with the regions of a function and a space.
fn find_regions<A: Allocator>(
    regions: &mut Vec<Region, A>,
    function: &Record,
    space: Space,
) -> Result<(), OutOfMemory>
    ensures { OnOk result ((s : System) → IsRecordIn s function.now
        → AreFoundBy s function.now.slot (space_of space) regions.new.items) }
{
    regions.clear();
    add_regions(regions, function, space)
}

/// The same, of a list for each space.
fn find_both<A: Allocator>(
    io: &mut Vec<Region, A>,
    memory: &mut Vec<Region, A>,
    function: &Record,
) -> Result<(), OutOfMemory>
    ensures { OnOk result ((s : System) → IsRecordIn s function.now
        → AreFoundBy s function.now.slot Io io.new.items
        × AreFoundBy s function.now.slot Memory memory.new.items) }
{
    find_regions(io, function, Space::Io)?;
    find_regions(memory, function, Space::Mem)
}

/// Whether a BAR, a ROM or a window is out of place or left.
fn is_aside<A: Allocator>(routes: &Routes<'_, A>, space: Space, slot: Slot, region: &Region) -> bool
    // bus numbers index it
    requires { length routes.now.ways.now ≡ 256 }
    ensures { (told : ToldValue) (given : GivenValue) (t : Tree) (s : System)
        → AreSentAbove given t s routes.now.above.now → AreWays given t.roots s routes.now.ways.now
        → IsFoundIn s slot region.now.reg (space_of space) region.now
        → MatchBool result (IsRegionAside told given t.roots s (Own (value_of (space_of space) region.now)))
        (IsRegionAside told given t.roots s (Own (value_of (space_of space) region.now)) → ⊥) }
{
    if is_out_of_place(routes.above, space, slot.bus(), region) {
        return true;
    }
    is_left(routes.ways, slot.bus(), space, region.first)
}

/// Whether one of the regions of a function and a space is out of place or left.
fn has_aside<A: Allocator>(
    routes: &Routes<'_, A>,
    regions: &[Region],
    space: Space,
    slot: Slot,
) -> bool
    requires { length routes.now.ways.now ≡ 256 }
    ensures { (told : ToldValue) (given : GivenValue) (t : Tree) (s : System)
        → AreSentAbove given t s routes.now.above.now → AreWays given t.roots s routes.now.ways.now
        → AreFoundBy s slot (space_of space) regions.now
        → MatchBool result (HasAside told given t.roots s (space_of space) regions.now)
        (HasNoAside told given t.roots s (space_of space) regions.now) }
{
    for region in regions {
        if is_aside(routes, space, slot, region) {
            return true;
        }
    }
    false
}

/// The region at a register.
fn at_register(regions: &[Region], reg: u8) -> Option<&Region>
    ensures { MatchOption result ((q : RegionValue) → IsListedAt regions.now reg q → ⊥)
        (λ q. IsListedAt regions.now reg q.now) }
{
    for region in regions {
        if region.reg == reg {
            return Some(region);
        }
    }
    None
}

/// Appends the line of the region at a spot, if it is out of place or left.
fn push_aside_in<A: Allocator, B: Allocator>(
    asides: &mut Asides<B>,
    routes: &Routes<'_, A>,
    regions: &[Region],
    spot: Spot,
) -> Result<(), OutOfMemory>
    requires { length routes.now.ways.now ≡ 256 }
    ensures { OnOk result ((told : ToldValue) (t : Tree) (s : System)
        → AreSentAbove (code_given_value routes.now.given) t s routes.now.above.now → AreWays (code_given_value routes.now.given) t.roots s routes.now.ways.now
        → AreFoundBy s spot.slot (space_of spot.space) regions.now
        → AreAsides told (code_given_value routes.now.given) t.roots s (IsNamedAt spot.slot spot.register (space_of spot.space)) asides.old asides.new) }
{
    let Some(region) = at_register(regions, spot.register) else {
        return Ok(());
    };
    if is_out_of_place(routes.above, spot.space, spot.slot.bus(), region) {
        push_region(&mut asides.outside, &routes.given, 1, spot.space, region)?;
        return Ok(());
    }
    if !is_left(routes.ways, spot.slot.bus(), spot.space, region.first) {
        return Ok(());
    }
    push_region(&mut asides.unreached, &routes.given, 1, spot.space, region)?;
    Ok(())
}

/// Appends the line of the region at a slot and a register, if it is out of place or left: no register has regions of
/// both spaces.
fn push_aside_at<A: Allocator, B: Allocator>(
    asides: &mut Asides<B>,
    routes: &Routes<'_, A>,
    function: &FunctionRegions<'_>,
    register: u8,
) -> Result<(), OutOfMemory>
    requires { length routes.now.ways.now ≡ 256 }
    ensures { OnOk result ((told : ToldValue) (t : Tree) (s : System)
        → AreSentAbove (code_given_value routes.now.given) t s routes.now.above.now → AreWays (code_given_value routes.now.given) t.roots s routes.now.ways.now
        → AreFoundBy s function.now.slot Io function.now.io.now
        → AreFoundBy s function.now.slot Memory function.now.memory.now
        → AreAsides told (code_given_value routes.now.given) t.roots s (IsNamedAtRegister function.now.slot register) asides.old asides.new) }
{
    let slot = function.slot;
    let io_spot = Spot {
        slot,
        register,
        space: Space::Io,
    };
    let memory_spot = Spot {
        slot,
        register,
        space: Space::Mem,
    };
    push_aside_in(asides, routes, function.io, io_spot)?;
    push_aside_in(asides, routes, function.memory, memory_spot)
}

/// Appends the lines of the regions of a function that are out of place or left, by register.
fn push_by_register<A: Allocator, B: Allocator>(
    asides: &mut Asides<B>,
    routes: &Routes<'_, A>,
    function: &FunctionRegions<'_>,
) -> Result<(), OutOfMemory>
    requires { length routes.now.ways.now ≡ 256 }
    ensures { OnOk result ((told : ToldValue) (t : Tree) (s : System)
        → AreSentAbove (code_given_value routes.now.given) t s routes.now.above.now → AreWays (code_given_value routes.now.given) t.roots s routes.now.ways.now
        → AreFoundBy s function.now.slot Io function.now.io.now
        → AreFoundBy s function.now.slot Memory function.now.memory.now
        → AreAsides told (code_given_value routes.now.given) t.roots s (IsOfRegisters function.now.slot) asides.old asides.new) }
{
    for register in 0..REGISTERS {
        push_aside_at(asides, routes, function, 4 * register)?;
    }
    Ok(())
}

/// The same; the registers of a function without such regions aren't gone through.
fn push_asides_of<A: Allocator, B: Allocator>(
    asides: &mut Asides<B>,
    routes: &Routes<'_, A>,
    function: &FunctionRegions<'_>,
) -> Result<(), OutOfMemory>
    requires { length routes.now.ways.now ≡ 256 }
    ensures { OnOk result ((told : ToldValue) (t : Tree) (s : System)
        → AreSentAbove (code_given_value routes.now.given) t s routes.now.above.now → AreWays (code_given_value routes.now.given) t.roots s routes.now.ways.now
        → AreFoundBy s function.now.slot Io function.now.io.now
        → AreFoundBy s function.now.slot Memory function.now.memory.now
        → AreAsides told (code_given_value routes.now.given) t.roots s (IsOfRegisters function.now.slot) asides.old asides.new) }
{
    if has_aside(routes, function.io, Space::Io, function.slot)
        || has_aside(routes, function.memory, Space::Mem, function.slot)
    {
        return push_by_register(asides, routes, function);
    }
    Ok(())
}

/// Appends the line of a told range, if it is out of place or left.
fn push_told_aside<A: Allocator, B: Allocator>(
    asides: &mut Asides<B>,
    routes: &Routes<'_, A>,
    line: &ToldRegion<'_>,
) -> Result<(), OutOfMemory>
    requires { length routes.now.ways.now ≡ 256 }
    ensures { OnOk result ((told : ToldValue) (t : Tree) (s : System)
        → IsSystemOf told (code_given_value routes.now.given) t routes.now.above.now s
        → AreWays (code_given_value routes.now.given) t.roots s routes.now.ways.now
        → IsToldIn told s (told_region_value line.now)
        → AreAsides told (code_given_value routes.now.given) t.roots s (IsTheRange (told_region_value line.now)) asides.old asides.new) }
{
    if is_line_outside(routes.above, line) {
        push_told_line(&mut asides.outside, 1, line)?;
        return Ok(());
    }
    if !is_left(
        routes.ways,
        line.slot().bus(),
        line.space(),
        line.range().first,
    ) {
        return Ok(());
    }
    push_told_line(&mut asides.unreached, 1, line)?;
    Ok(())
}

/// Appends the lines of told ranges from one index to before another that are out of place or left.
fn push_told_asides<A: Allocator, B: Allocator>(
    asides: &mut Asides<B>,
    routes: &Routes<'_, A>,
    mapped: &Mapped<'_, '_, A>,
    first: usize,
    end: usize,
) -> Result<(), OutOfMemory>
    requires ways { length routes.now.ways.now ≡ 256 }
    requires told { AreToldOn (told_value mapped.now.told) mapped.now.outline.now mapped.now.on.now }
    requires low { first ≤ end }
    requires high { end ≤ length mapped.now.told.ranges.now }
    ensures { OnOk result ((s : System)
        → IsSystemOf (told_value mapped.now.told) (code_given_value routes.now.given) mapped.now.outline.now routes.now.above.now s
        → AreWays (code_given_value routes.now.given) mapped.now.outline.now.roots s routes.now.ways.now
        → AreAsides (told_value mapped.now.told) (code_given_value routes.now.given) mapped.now.outline.now.roots s
        (IsRangeFrom first end) asides.old asides.new) }
{
    for i in first..end {
        if mapped.on[i] {
            let line = ToldRegion {
                register: 256 + i as u16,
                told: &mapped.told.ranges[i],
            };
            push_told_aside(asides, routes, &line)?;
        }
    }
    Ok(())
}

/// Appends the lines of all regions that are out of place or left, by slot and register.
fn push_all<A: Allocator + Copy, B: Allocator>(
    alloc: A,
    asides: &mut Asides<B>,
    mapped: &Mapped<'_, '_, A>,
) -> Result<(), OutOfMemory>
    requires told { AreToldOn (told_value mapped.now.told) mapped.now.outline.now mapped.now.on.now }
    // bus numbers index it
    requires ways { length mapped.now.ways.now ≡ 256 }
    ensures { OnOk result ((s : System)
        → IsSystemWith (told_value mapped.now.told) (code_given_value mapped.now.given) mapped.now.outline.now mapped.now.above.now mapped.now.ways.now mapped.now.takers.now s
        → AreAsides (told_value mapped.now.told) (code_given_value mapped.now.given) mapped.now.outline.now.roots s
        (IsIn (told_value mapped.now.told) s) asides.old asides.new) }
{
    let routes = Routes {
        given: mapped.given,
        ways: mapped.ways,
        above: mapped.above,
    };
    // These two lists serve all functions.
    let mut io_list = Vec::new(alloc);
    let mut memory_list = Vec::new(alloc);
    let ranges = mapped.told.ranges;
    let mut next = 0;
    let records = mapped.outline.records();
    for function in records {
        let slot = function.slot;
        // a told range stands behind the registers of its slot
        let end = first_of_slot(ranges, slot);
        push_told_asides(asides, &routes, mapped, next, end)?;
        next = end;
        find_both(&mut io_list, &mut memory_list, function)?;
        let io = io_list.as_slice();
        let memory = memory_list.as_slice();
        push_asides_of(asides, &routes, &FunctionRegions { slot, io, memory })?;
    }
    push_told_asides(asides, &routes, mapped, next, ranges.len())
}

/// Appends a line for each region that has none at a place, by slot and register: below the heading `outside` those that
/// are out of place, and below `unreached` the others: no windows lead to them, and no bridge takes them.
pub fn push_asides<A: Allocator + Copy, B: Allocator>(
    alloc: A,
    text: &mut String<B>,
    mapped: &Mapped<'_, '_, A>,
) -> Result<(), OutOfMemory>
    requires told { AreToldOn (told_value mapped.now.told) mapped.now.outline.now mapped.now.on.now }
    // bus numbers index it
    requires ways { length mapped.now.ways.now ≡ 256 }
    ensures { OnOk result ((s : System)
        → IsSystemWith (told_value mapped.now.told) (code_given_value mapped.now.given) mapped.now.outline.now mapped.now.above.now mapped.now.ways.now mapped.now.takers.now s
        → AreAsidesTold (told_value mapped.now.told) (code_given_value mapped.now.given) mapped.now.outline.now.roots s
        (string_bytes text.old) (string_bytes text.new)) }
{
    let mut asides = Asides {
        outside: String::new(alloc),
        unreached: String::new(alloc),
    };
    push_all(alloc, &mut asides, mapped)?;
    push_section(text, "outside", asides.outside.as_str())?;
    push_section(text, "unreached", asides.unreached.as_str())?;
    Ok(())
}
