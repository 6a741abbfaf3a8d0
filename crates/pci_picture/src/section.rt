//! A section of a map: its axis, its boxes, and the ranges that its faults tell.
ghost use Rattle.std.specs.Prelude.{◌≡◌, ◌≤◌, ◌+◌, ◌-◌, ◌^◌, ◌++◌, ℕ, List, [], codes, min, IfOk, OnOk};
ghost use Rattle.pci_picture.specs.BoardLooks.{look_read};
ghost use Rattle.pci_picture.specs.Canvases.{AddsBoxOf, AddsSome, AddsToCanvas, WritesBytes};
ghost use Rattle.pci_picture.specs.Drawings.{AreFramed, AreOfSection};
ghost use Rattle.pci_picture.specs.Labels.{cut_words, label_text};
ghost use Rattle.pci_picture.specs.Lines.{words_in_line};
ghost use Rattle.pci_picture.specs.Marks.{has_naming, key_of_region};
ghost use Rattle.pci_picture.specs.Named.{words_of_buses};
ghost use Rattle.pci_picture.specs.RegionWords.{class_of_first, first_words, numbers_naming};
ghost use Rattle.pci_picture.specs.Roots.{listed_functions};
ghost use Rattle.pci_picture.specs.Spots.{spot_at};
ghost use Rattle.pci_picture.specs.Trees.{down};

use super::board::Board;
use super::canvas::{Canvas, Label, Shape};
use super::elements::Frame;
use super::faults::Fault;
use super::function::Buses;
use super::heights::{Heights, LINE, Run};
use super::lanes::Width;
use super::look::{class_of, put_marks};
use super::memory::OutOfMemory;
use super::plan::{AXIS, Member, Placed, Plan, Site, frame_of};
use super::region::{Part, Region};
use super::tellings::{Told, with_key};
use super::words::{Words, hex_digits};
use std::alloc::Allocator;

/// Draws a run that a line covers at the axis: its first address, and a tick.
fn draw_covered<A: Allocator + Copy>(
    canvas: &mut Canvas<A>,
    site: &Site,
    digits: usize,
    run: &Run,
) -> Result<(), OutOfMemory>
    ensures adds { OnOk result (AddsToCanvas [] canvas.old canvas.new) }
    ensures writes { OnOk result (WritesBytes [] canvas.old canvas.new) }
{
    let axis = site.x.saturating_add(AXIS);
    let all = hex_digits(low_bits(run.begin));
    let bytes = &all[16 - digits.min(16)..];
    let zeros = bytes
        .iter()
        .position(|byte| *byte != b'0')
        .unwrap_or(bytes.len());
    let faint = bytes.get(..zeros).unwrap_or(&[]);
    let (x, y) = (axis.saturating_sub(6), run.y.saturating_add(11));
    canvas.add_axis(x, y, faint, bytes.get(zeros..).unwrap_or(&[]))?;
    canvas.add_tick(axis.saturating_sub(4), run.y)
}

/// Draws a run that no line covers at the axis: the last address before it, and a line over the gap.
fn draw_gap<A: Allocator + Copy>(
    alloc: A,
    canvas: &mut Canvas<A>,
    site: &Site,
    digits: usize,
    run: &Run,
) -> Result<(), OutOfMemory>
    ensures adds { OnOk result (AddsToCanvas [] canvas.old canvas.new) }
    ensures writes { OnOk result (WritesBytes [] canvas.old canvas.new) }
{
    let axis = site.x.saturating_add(AXIS);
    let mut words = Words::of(alloc, b"to ")?;
    words.put_hex(low_bits(run.begin.saturating_sub(1)), digits)?;
    let (x, y) = (axis.saturating_sub(6), run.y.saturating_add(11));
    canvas.add_axis(x, y, words.bytes.as_slice(), b"")?;
    let right = axis.saturating_add(site.width);
    canvas.add_gap(axis, run.y.saturating_add(run.height / 2), right)
}

/// Draws one run at the axis.
fn draw_run<A: Allocator + Copy>(
    alloc: A,
    canvas: &mut Canvas<A>,
    site: &Site,
    digits: usize,
    run: &Run,
) -> Result<(), OutOfMemory>
    ensures adds { OnOk result (AddsToCanvas [] canvas.old canvas.new) }
    ensures writes { OnOk result (WritesBytes [] canvas.old canvas.new) }
{
    if run.is_covered {
        draw_covered(canvas, site, digits, run)
    } else {
        draw_gap(alloc, canvas, site, digits, run)
    }
}

/// The lower 64 bits of an address.
fn low_bits(address: u128) -> u64 {
    (address % (1 << 64)) as u64
}

/// Draws the axis of a section.
fn draw_axis<A: Allocator + Copy>(
    alloc: A,
    canvas: &mut Canvas<A>,
    site: &Site,
    regions: &[Region<'_>],
    heights: &Heights<A>,
) -> Result<(), OutOfMemory>
    ensures adds { OnOk result (AddsToCanvas [] canvas.old canvas.new) }
    ensures writes { OnOk result (WritesBytes [] canvas.old canvas.new) }
{
    let mut digits = 0;
    let mut last = 0;
    for (index, region) in regions.iter().enumerate() {
        if index == 0 {
            digits = region.digits;
        }
        last = region.last.max(last);
    }
    for run in &heights.runs {
        draw_run(alloc, canvas, site, digits, run)?;
    }
    let mut words = Words::of(alloc, b"to ")?;
    words.put_hex(last, digits)?;
    let label = Label {
        x: site.x.saturating_add(AXIS - 6),
        y: heights.bottom.saturating_add(11),
        class: b"axis faint",
    };
    canvas.add_heading(label, words.bytes.as_slice())
}

/// The name of a region's box, by which a link finds it: `r00:1f.2-24`, none where it is free.
fn anchor_of<A: Allocator + Copy>(alloc: A, region: &Region<'_>) -> Result<Words<A>, OutOfMemory> {
    let mut anchor = Words::new(alloc);
    if region.part != Part::Free {
        anchor.put_all(&[
            b"r".as_slice(),
            region.slot,
            b"-".as_slice(),
            region.register,
        ])?;
    }
    Ok(anchor)
}

/// Draws the box of a region.
fn draw_box<A: Allocator + Copy>(
    alloc: A,
    canvas: &mut Canvas<A>,
    board: &Board<'_, A>,
    placed: &Placed<'_>,
    at: Frame,
) -> Result<(), OutOfMemory>
    ensures adds { OnOk result (AddsBoxOf
        ((look_read board.entry.now).class placed.entry.now.is_lost placed.entry.now.region.line.now)
        ((look_read board.entry.now).said placed.entry.now.region.line.now) placed.entry.now.region.line.now
        at.x at.y at.width at.height canvas.old canvas.new) }
    ensures writes { OnOk result (WritesBytes [] canvas.old canvas.new) }
{
    let region = &placed.region;
    let class = class_of(&board.faults, region, placed.is_lost);
    let anchor = anchor_of(alloc, region)?;
    let shape = Shape {
        at,
        class: class.as_bytes(),
        anchor: anchor.bytes.as_slice(),
    };
    let title = board.title(alloc, region)?;
    let lines = title.bytes.as_slice();
    canvas.add_box(shape, lines)
}

/// Appends the words of a region's box. Its answer is their class.
fn put_words<A: Allocator + Copy>(
    words: &mut Words<A>,
    board: &Board<'_, A>,
    region: &Region<'_>,
) -> Result<&'static str, OutOfMemory>
    ensures puts { OnOk result (words.new.bytes.items ≡ words.old.bytes.items ++ first_words (numbers_naming
        (has_naming board.now.faults.faults.items board.now.faults.namings.items) (key_of_region (words_in_line region.now.line.now)))
        (listed_functions board.now.functions.items) (words_in_line region.now.line.now)) }
    ensures class { IfOk result (λ class. class.now ≡ class_of_first (numbers_naming (has_naming board.entry.now.faults.faults.items
        board.entry.now.faults.namings.items) (key_of_region (words_in_line region.entry.now.line.now))) (words_in_line region.entry.now.line.now)) }
{
    match region.part {
        Part::Free => {
            words.put(b"free ")?;
            words.put_size(region.size)?;
            Ok("quiet")
        }
        Part::Window => {
            words.put_region(region)?;
            Ok("bold")
        }
        _ => {
            let is_marked = put_marks(words, &board.faults, region)?;
            words.put_region(region)?;
            board.put_called(words, region)?;
            Ok(if is_marked { "alarm" } else { "" })
        }
    }
}

/// Writes the words in the box of a region.
fn write_region<A: Allocator + Copy>(
    alloc: A,
    canvas: &mut Canvas<A>,
    board: &Board<'_, A>,
    placed: &Placed<'_>,
    at: Frame,
) -> Result<(), OutOfMemory>
    ensures adds { OnOk result (AddsToCanvas [] canvas.old canvas.new) }
    ensures words { OnOk result ((width : ℕ) (class title : List ℕ) → WritesBytes ((look_read board.entry.now).words placed.entry.now.width
        (spot_at placed.entry.now.width.left at.y width at.height class title placed.entry.now.region.line.now)) canvas.old canvas.new) }
{
    let region = &placed.region;
    let width = placed.width;
    let is_window = region.part == Part::Window;
    let inner = if is_window { width.inner } else { width.right };
    let room = inner.saturating_sub(width.left).saturating_sub(6);
    let mut words = Words::new(alloc);
    let class = put_words(&mut words, board, region)?;
    let label = Label {
        x: width.left.saturating_add(5),
        y: at.y.saturating_add(11),
        class: class.as_bytes(),
    };
    canvas.add_cut(label, &mut words, room)?;
    if !is_window || at.height.saturating_add(1) < 2 * LINE {
        return Ok(());
    }
    write_buses(alloc, canvas, board.buses(region), label, room)
}

/// Writes the buses behind a window below its first line.
fn write_buses<A: Allocator + Copy>(
    alloc: A,
    canvas: &mut Canvas<A>,
    buses: Option<Buses>,
    above: Label<'_>,
    room: u64,
) -> Result<(), OutOfMemory>
    ensures adds { OnOk result (AddsToCanvas [] canvas.old canvas.new) }
    ensures writes { OnOk result (WritesBytes (label_text above.entry.x (down above.entry.y 12) (codes "quiet")
        (cut_words room (codes "to " ++ words_of_buses buses))) canvas.old canvas.new) }
{
    let mut words = Words::of(alloc, b"to ")?;
    words.put_buses(buses)?;
    let label = Label {
        x: above.x,
        y: above.y.saturating_add(12),
        class: b"quiet",
    };
    canvas.add_cut(label, &mut words, room)
}

/// Draws a box that is about a fault, with the lines of the fault as its title.
fn draw_fault<A: Allocator + Copy>(
    alloc: A,
    canvas: &mut Canvas<A>,
    board: &Board<'_, A>,
    fault: &Fault,
    at: Frame,
    class: &[u8],
) -> Result<(), OutOfMemory>
    ensures { OnOk result (AddsToCanvas [] canvas.old canvas.new) }
{
    let title = board.fault_title(alloc, fault)?;
    let lines = title.bytes.as_slice();
    let shape = Shape {
        at,
        class,
        anchor: b"",
    };
    canvas.add_box(shape, lines)
}

/// The left end of the boxes of the regions that a fault names, and their right end; nothing where none is here.
fn ends_of<A: Allocator + Copy>(plan: &Plan<'_, A>, fault: &Fault) -> Option<(u64, u64)> {
    let mut left = u64::MAX;
    let mut right = 0;
    for naming in [fault.keys.first(), fault.keys.last()] {
        let Some(key) = naming else {
            continue;
        };
        for one in with_key(plan.keys.as_slice(), key) {
            if let Some(placed) = plan.placed.get(one.index) {
                left = placed.width.left.min(left);
                right = placed.width.right.saturating_sub(2).max(right);
            }
        }
    }
    if left == u64::MAX {
        None
    } else {
        Some((left, right))
    }
}

/// Draws the range that two regions share, over both.
#[tactic(auto, using(crate::proofs::Boxes::unchanged))]
fn draw_shared<A: Allocator + Copy>(
    alloc: A,
    canvas: &mut Canvas<A>,
    board: &Board<'_, A>,
    plan: &Plan<'_, A>,
    range: &Told,
) -> Result<(), OutOfMemory>
    ensures { OnOk result (AddsToCanvas [] canvas.old canvas.new) }
{
    let Some(fault) = board.faults.faults.get(range.fault) else {
        return Ok(());
    };
    let Some((left, right)) = ends_of(plan, fault) else {
        return Ok(());
    };
    let y = plan.heights.y(u128::from(range.first));
    let end = plan.heights.y(u128::from(range.last) + 1);
    let at = Frame {
        x: left,
        y,
        width: right.saturating_sub(left).max(1),
        height: end.saturating_sub(y).saturating_sub(1).max(3),
    };
    draw_fault(alloc, canvas, board, fault, at, b"shared")
}

/// The words `S r would fit` of the region that a fault names last.
fn fit_words<A: Allocator + Copy>(
    alloc: A,
    plan: &Plan<'_, A>,
    fault: &Fault,
) -> Result<Words<A>, OutOfMemory> {
    let mut words = Words::new(alloc);
    if let Some(one) = fault
        .keys
        .last()
        .and_then(|key| with_key(plan.keys.as_slice(), key).first())
    {
        if let Some(placed) = plan.placed.get(one.index) {
            words.put(placed.region.slot)?;
            words.put(b" ")?;
            words.put(placed.region.register)?;
        }
    }
    words.put(b" would fit")?;
    Ok(words)
}

/// Draws where the region that a fault names last would fit, over the first free line that has the range.
#[tactic(auto, using(crate::proofs::Boxes::unchanged))]
fn draw_fits<A: Allocator + Copy>(
    alloc: A,
    canvas: &mut Canvas<A>,
    board: &Board<'_, A>,
    plan: &Plan<'_, A>,
    range: &Told,
) -> Result<(), OutOfMemory>
    ensures { OnOk result (AddsToCanvas [] canvas.old canvas.new) }
{
    let (Some(fault), Some(free)) = (board.faults.faults.get(range.fault), free_line(plan, range))
    else {
        return Ok(());
    };
    let y = plan.heights.y(u128::from(range.first));
    let end = plan.heights.y(u128::from(range.last) + 1);
    let width = free.right.saturating_sub(2).saturating_sub(free.left);
    let at = Frame {
        x: free.left.saturating_add(90),
        y: y.saturating_add(1),
        width: width.saturating_sub(92).max(1),
        height: end.saturating_sub(y).saturating_sub(3),
    };
    draw_fault(alloc, canvas, board, fault, at, b"fits")?;
    let label = Label {
        x: free.left.saturating_add(96),
        y: y.saturating_add(11),
        class: b"good",
    };
    let mut words = fit_words(alloc, plan, fault)?;
    canvas.add_cut(label, &mut words, width.saturating_sub(100))
}

/// The width of the first free line that has a range.
fn free_line<A: Allocator + Copy>(plan: &Plan<'_, A>, range: &Told) -> Option<Width> {
    for placed in &plan.placed {
        let region = &placed.region;
        if region.part == Part::Free && region.first <= range.first && range.last <= region.last {
            return Some(placed.width);
        }
    }
    None
}

/// Draws the regions of a section.
fn draw_regions<A: Allocator + Copy>(
    alloc: A,
    canvas: &mut Canvas<A>,
    board: &Board<'_, A>,
    plan: &Plan<'_, A>,
) -> Result<(), OutOfMemory>
    ensures { OnOk result (AddsSome (AreFramed (look_read board.entry.now) plan.entry.now.placed.items
        plan.entry.now.heights.runs.items plan.entry.now.heights.bottom) canvas.old canvas.new) }
{
    for placed in &plan.placed {
        let at = frame_of(&plan.heights, placed);
        draw_box(alloc, canvas, board, placed, at)?;
        write_region(alloc, canvas, board, placed, at)?;
    }
    Ok(())
}

/// Draws the ranges that the faults of a section tell.
fn draw_tellings<A: Allocator + Copy>(
    alloc: A,
    canvas: &mut Canvas<A>,
    board: &Board<'_, A>,
    plan: &Plan<'_, A>,
) -> Result<(), OutOfMemory>
    ensures { OnOk result (AddsToCanvas [] canvas.old canvas.new) }
{
    for range in &plan.tellings.shared {
        draw_shared(alloc, canvas, board, plan, range)?;
    }
    for fit in &plan.tellings.fits {
        draw_fits(alloc, canvas, board, plan, fit)?;
    }
    Ok(())
}

/// Writes the heading of a section.
fn write_heading<A: Allocator + Copy>(
    alloc: A,
    canvas: &mut Canvas<A>,
    site: &Site,
) -> Result<(), OutOfMemory>
    ensures adds { OnOk result (AddsToCanvas [] canvas.old canvas.new) }
    ensures writes { OnOk result (WritesBytes [] canvas.old canvas.new) }
{
    let mut heading = Words::of(alloc, b"bus ")?;
    heading.put_hex(u64::from(site.bus()), 2)?;
    heading.put(if site.is_io() { b", I/O" } else { b", memory" })?;
    let label = Label {
        x: site.x,
        y: site.y.saturating_add(13),
        class: b"head",
    };
    canvas.add_heading(label, heading.bytes.as_slice())
}

/// Where a section ends, of the height below its last address.
fn end_of(bottom: u64) -> u64
    ensures below { bottom ≤ result }
    ensures exact { result ≡ min (bottom + 30) (2 ^ 64 - 1) }
{
    bottom.saturating_add(30)
}

/// Draws a section. Its answer is where it ends.
pub fn draw_section<A: Allocator + Copy>(
    alloc: A,
    canvas: &mut Canvas<A>,
    board: &Board<'_, A>,
    site: &Site,
    members: &[Member<'_>],
) -> Result<u64, OutOfMemory>
    ensures drawn { IfOk result (λ end. AddsSome (AreOfSection (look_read board.entry.now) site.now members.entry.now end)
        canvas.old canvas.new) }
    ensures down { IfOk result (λ end. site.now.y ≤ end) }
{
    write_heading(alloc, canvas, site)?;
    let plan = Plan::of(alloc, &board.faults, site, members)?;
    let mut every = Vec::new(alloc);
    for placed in &plan.placed {
        every.push(placed.region)?;
    }
    draw_axis(alloc, canvas, site, every.as_slice(), &plan.heights)?;
    draw_regions(alloc, canvas, board, &plan)?;
    draw_tellings(alloc, canvas, board, &plan)?;
    Ok(end_of(plan.heights.bottom))
}
