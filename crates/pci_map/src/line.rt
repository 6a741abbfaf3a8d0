//! The lines of a map.
ghost use Rattle.std.specs.Prelude.{◌≡◌, ◌+◌, ◌*◌, ◌≤◌, ◌++◌, ◌∷◌, IsAscii, OnOk, map};
ghost use Rattle.std.specs.String.{string_bytes};
ghost use Rattle.std.specs.List.{flat_map};
ghost use Rattle.pci_spec.specs.Listing.{range_text};
ghost use Rattle.pci_spec.specs.Why.{amount_text, address_count};
ghost use Rattle.judge_spec.specs.ToldLine.{register_text};
ghost use Rattle.judge_spec.specs.Regions.{Own};
ghost use Rattle.judge_spec.specs.MapText.{indent, part_name, told_part_name, map_told_line, map_region_line, free_line, bus_heading, taking_heading};
ghost use Rattle.pci_claims.specs.Values.{code_given_value};
ghost use Rattle.arrayvec.specs.ArrayVec.{array_vec_len};
ghost use Rattle.pci_base.specs.Ranges.{decoded_range_of};
ghost use Rattle.pci_base.specs.Space.{space_of};
ghost use Rattle.pci_map.specs.Values.{region_part, value_of};
ghost use Rattle.pci_map.specs.Seats.{told_region_value, seat_value};
ghost use Rattle.pci_map.specs.Lines.{isa_ending, name_ending, region_line_by};

use super::cells::{CELLS_MAX, Cells, push_cells, put, put_byte, put_bytes, put_slot};
use super::seat::{Seat, ToldRegion};
use pci_base::range::Range;
use pci_base::slot::Slot;
use pci_base::space::Space;
use pci_claims::given::Given;
use pci_claims::isa::is_cut;
use pci_listing::amount::{amount_of, unit_name};
use pci_listing::hex_text::{push_byte, push_slot};
use pci_tree::region::{Part, Region};
use std::alloc::{AllocError, Allocator};

/// How many steps of depth are appended at once.
const STEPS: u32 = 32;

/// The spaces of so many steps.
static SPACES: [u8; 64] = [b' '; 64];

/// Appends the spaces of so many times 32 steps of depth.
fn push_steps<A: Allocator>(text: &mut String<A>, count: u32) -> Result<(), AllocError>
    ensures { OnOk result (string_bytes text.new ≡ string_bytes text.old ++ indent (32 * count)) }
{
    for _ in 0..count {
        text.push_str("                                                                ")?;
    }
    Ok(())
}

/// Puts two spaces for each step of depth there.
#[inline(always)]
fn put_indent(cells: &mut Cells, depth: u32)
    requires depth { depth ≤ 32 }
    requires room { array_vec_len cells.old + 2 * depth ≤ CELLS_MAX }
    ensures text { cells.new.items ≡ cells.old.items ++ indent depth }
    ensures len { array_vec_len cells.new ≡ array_vec_len cells.old + 2 * depth }
{
    put(cells, &SPACES[..2 * depth as usize]);
}

/// Puts the name of a region there.
#[inline(always)]
fn put_name(cells: &mut Cells, region: &Region)
    requires { array_vec_len cells.old + 8 ≤ CELLS_MAX }
    ensures text { cells.new.items
        ≡ cells.old.items ++ part_name (region_part region.now) region.now.prefetch }
    ensures len { array_vec_len cells.new ≤ array_vec_len cells.old + 8 }
{
    match (region.part, region.prefetch) {
        (Part::Bar, true) => put(cells, b"bar pref"),
        (Part::Bar, false) => put(cells, b"bar"),
        (Part::Rom, _) => put(cells, b"rom"),
        (Part::Window, _) => put(cells, b"window"),
    }
}

/// Puts whether a told range is held there, and whether it is prefetchable.
#[inline(always)]
fn put_told_name(cells: &mut Cells, line: &ToldRegion<'_>)
    requires { array_vec_len cells.old + 9 ≤ CELLS_MAX }
    ensures text { cells.new.items ≡ cells.old.items ++ told_part_name (told_region_value line.now) }
    ensures len { array_vec_len cells.new ≤ array_vec_len cells.old + 9 }
{
    let told = line.told;
    match (line.is_held(), told.prefetchable) {
        (false, false) => put(cells, b"told"),
        (false, true) => put(cells, b"told pref"),
        (true, false) => put(cells, b"held"),
        (true, true) => put(cells, b"held pref"),
    }
}

/// Puts the number of a told range's line there, as `+1`.
#[inline(always)]
fn put_number(cells: &mut Cells, line: &ToldRegion<'_>)
    requires { array_vec_len cells.old + 6 ≤ CELLS_MAX }
    ensures text { cells.new.items ≡ cells.old.items ++ register_text line.now.register }
    ensures len { array_vec_len cells.new ≤ array_vec_len cells.old + 6 }
    // so the text that the cells become is UTF-8
    ensures ascii { IsAscii (register_text line.now.register) }
{
    let mut digits = itoa::Buffer::new();
    cells.push(b'+');
    put(cells, digits.format(line.register - 255).as_bytes());
}

/// Puts the name of a told range there, behind a space, where it has one.
#[inline(always)]
fn put_range_name(cells: &mut Cells, line: &ToldRegion<'_>)
    requires { array_vec_len cells.old + 33 ≤ CELLS_MAX }
    ensures text { cells.new.items ≡ cells.old.items ++ name_ending line.now.told.now.name }
    ensures len { array_vec_len cells.new ≤ array_vec_len cells.old + 33 }
{
    let told = line.told;
    if told.name.is_empty() {
        return;
    }
    cells.push(b' ');
    put(cells, told.name.as_slice());
}

/// Puts what the line of a window that ISA Enable cuts ends with there.
#[inline(always)]
fn put_isa(cells: &mut Cells, cut: bool)
    requires { array_vec_len cells.old + 4 ≤ CELLS_MAX }
    ensures text { cells.new.items ≡ cells.old.items ++ isa_ending cut }
    ensures len { array_vec_len cells.new ≤ array_vec_len cells.old + 4 }
{
    if cut {
        put(cells, b" isa");
    }
}

/// Puts first and last address of a range there.
#[inline(always)]
fn put_range(cells: &mut Cells, space: Space, range: Range)
    requires { array_vec_len cells.old + 33 ≤ CELLS_MAX }
    ensures text { cells.new.items
        ≡ cells.old.items ++ range_text (space_of space) (decoded_range_of range) }
    ensures len { array_vec_len cells.new ≤ array_vec_len cells.old + 33 }
{
    match space {
        Space::Io => {
            put_bytes(cells, range.first, 4);
            cells.push(b'-');
            put_bytes(cells, range.last, 4);
        }
        Space::Mem => {
            put_bytes(cells, range.first, 8);
            cells.push(b'-');
            put_bytes(cells, range.last, 8);
        }
    }
}

/// Puts a number of addresses there.
#[inline(always)]
fn put_count(cells: &mut Cells, number: u128)
    requires { array_vec_len cells.old + 40 ≤ CELLS_MAX }
    ensures text { cells.new.items ≡ cells.old.items ++ amount_text number }
    ensures len { array_vec_len cells.new ≤ array_vec_len cells.old + 40 }
    ensures ascii { IsAscii (amount_text number) }
{
    let amount = amount_of(number);
    let mut digits = itoa::Buffer::new();
    put(cells, digits.format(amount.number).as_bytes());
    put(cells, unit_name(amount.unit).as_bytes());
}

/// Puts a range with the number of its addresses there, as `0000c000-0000c01f 32`.
#[inline(always)]
fn put_extent(cells: &mut Cells, depth: u32, space: Space, range: Range)
    requires depth { depth ≤ 32 }
    requires room { array_vec_len cells.old + 138 ≤ CELLS_MAX }
    ensures text { cells.new.items ≡ cells.old.items ++ (indent depth
        ++ (range_text (space_of space) (decoded_range_of range)
        ++ (32 ∷ amount_text (address_count (decoded_range_of range))))) }
    ensures len { array_vec_len cells.new ≤ array_vec_len cells.old + 138 }
    ensures ascii { IsAscii (amount_text (address_count (decoded_range_of range))) }
{
    let count = (u128::from(range.last) + 1).saturating_sub(u128::from(range.first));
    put_indent(cells, depth);
    put_range(cells, space, range);
    cells.push(b' ');
    put_count(cells, count);
}

/// Appends the line of a region, by whether ISA Enable cuts it.
pub fn push_region_line<A: Allocator>(
    text: &mut String<A>,
    depth: u32,
    space: Space,
    region: &Region,
    cut: bool,
) -> Result<(), AllocError>
    ensures { OnOk result (string_bytes text.new ≡ string_bytes text.old
        ++ region_line_by depth (value_of (space_of space) region.now) cut) }
{
    let range = Range {
        first: region.first,
        last: region.last,
    };
    let mut cells = Cells::new();
    put_extent(&mut cells, depth % STEPS, space, range);
    cells.push(b' ');
    put_name(&mut cells, region);
    cells.push(b' ');
    put_slot(&mut cells, region.slot);
    cells.push(b' ');
    put_byte(&mut cells, region.reg);
    put_isa(&mut cells, cut);
    cells.push(b'\n');
    push_steps(text, depth / STEPS)?;
    push_cells(text, &cells)
}

/// Appends the line of a region, with what is given.
pub fn push_region<A: Allocator>(
    text: &mut String<A>,
    given: &Given<'_>,
    depth: u32,
    space: Space,
    region: &Region,
) -> Result<(), AllocError>
    ensures { OnOk result (string_bytes text.new ≡ string_bytes text.old
        ++ map_region_line (code_given_value given.now) depth (Own (value_of (space_of space) region.now))) }
{
    push_region_line(text, depth, space, region, is_cut(given, space, region))
}

/// Appends the line of a told range.
pub fn push_told_line<A: Allocator>(
    text: &mut String<A>,
    depth: u32,
    line: &ToldRegion<'_>,
) -> Result<(), AllocError>
    ensures { OnOk result
        (string_bytes text.new ≡ string_bytes text.old ++ map_told_line depth (told_region_value line.now)) }
{
    let mut cells = Cells::new();
    put_extent(&mut cells, depth % STEPS, line.space(), line.range());
    cells.push(b' ');
    put_told_name(&mut cells, line);
    cells.push(b' ');
    put_slot(&mut cells, line.slot());
    cells.push(b' ');
    put_number(&mut cells, line);
    put_range_name(&mut cells, line);
    cells.push(b'\n');
    push_steps(text, depth / STEPS)?;
    push_cells(text, &cells)
}

/// Appends the line of a region of a bus, with what is given.
pub fn push_line<A: Allocator>(
    text: &mut String<A>,
    given: &Given<'_>,
    depth: u32,
    space: Space,
    seat: &Seat<'_>,
) -> Result<(), AllocError>
    ensures { OnOk result (string_bytes text.new ≡ string_bytes text.old
        ++ map_region_line (code_given_value given.now) depth (seat_value (space_of space) seat.now)) }
{
    match seat {
        Seat::Own(region) => push_region(text, given, depth, space, region),
        Seat::OfLine(line) => push_told_line(text, depth, line),
    }
}

/// Appends the line of a free run.
fn push_run<A: Allocator>(
    text: &mut String<A>,
    depth: u32,
    space: Space,
    range: Range,
) -> Result<(), AllocError>
    ensures { OnOk result (string_bytes text.new ≡ string_bytes text.old
        ++ free_line depth (space_of space) (decoded_range_of range)) }
{
    let mut cells = Cells::new();
    put_extent(&mut cells, depth % STEPS, space, range);
    put(&mut cells, b" free\n");
    push_steps(text, depth / STEPS)?;
    push_cells(text, &cells)
}

/// Appends the lines of free runs.
pub fn push_runs<A: Allocator>(
    text: &mut String<A>,
    depth: u32,
    space: Space,
    runs: &[Range],
) -> Result<(), AllocError>
    ensures { OnOk result (string_bytes text.new ≡ string_bytes text.old
        ++ flat_map (free_line depth (space_of space)) (map decoded_range_of runs.now)) }
{
    for run in runs {
        push_run(text, depth, space, *run)?;
    }
    Ok(())
}

/// Appends the heading of a root bus and a space, as `bus 00 mem`.
pub fn push_heading<A: Allocator>(
    text: &mut String<A>,
    bus: u8,
    space: Space,
) -> Result<(), AllocError>
    ensures { OnOk result
        (string_bytes text.new ≡ string_bytes text.old ++ bus_heading bus (space_of space)) }
{
    text.push_str("bus ")?;
    push_byte(text, bus)?;
    match space {
        Space::Io => text.push_str(" io\n"),
        Space::Mem => text.push_str(" mem\n"),
    }
}

/// Appends the heading of what a bridge takes, as `  unclaimed 00:1e.0`.
pub fn push_taking_heading<A: Allocator>(text: &mut String<A>, slot: Slot) -> Result<(), AllocError>
    ensures { OnOk result
        (string_bytes text.new ≡ string_bytes text.old ++ taking_heading slot) }
{
    text.push_str("  unclaimed ")?;
    push_slot(text, slot)?;
    text.push_str("\n")?;
    Ok(())
}
