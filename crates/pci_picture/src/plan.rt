//! Where each part of a section stands: its heights and the widths of its lines.

ghost use Rattle.std.specs.Prelude.{◌≡◌, ◌<◌, ◌≤◌, ◌+◌, ◌-◌, ◌^◌, ◌++◌, IfOk, OnOk, max, true, false};
ghost use Rattle.std.specs.List.Sorted.{IsNonDecreasingBy, IsPermutation};
ghost use Rattle.pci_picture.specs.Cuts.{cuts_told, ends_of_all_told, ends_of_kind};
ghost use Rattle.pci_picture.specs.Drawings.{ArePlanned, IsFramed};
ghost use Rattle.pci_picture.specs.FaultLines.{faults_read};
ghost use Rattle.pci_picture.specs.Lanes.{IsIndented};
ghost use Rattle.pci_picture.specs.Looks.{Look, looks_of, looks_placed, looks_up_to};
ghost use Rattle.pci_picture.specs.Maps.{lines_of_regions, regions_of_members, regions_placed};
ghost use Rattle.pci_picture.specs.Sides.{AddsWidths, StandBesideIn, count_in_place, widths_placed};
ghost use Rattle.pci_picture.specs.Spots.{base_of_section};
ghost use Rattle.pci_picture.specs.Stacked.{height_at};
ghost use Rattle.pci_picture.specs.Tellings.{ranges_of_faults};

use super::elements::Frame;
use super::faults::Faults;
use super::heights::{Cut, Heights};
use super::lanes::{Width, widths};
use super::memory::OutOfMemory;
use super::region::Region;
use super::tellings::{Index, Tellings, Told, keys_of, tellings_of};
use std::alloc::Allocator;

/// The width of the axis.
pub const AXIS: u64 = 132;

/// The width for what is out of place or not reached.
pub const LOST: u64 = 240;

/// Where a section stands.
#[derive(Clone, Copy)]
pub struct Site {
    /// The number of the section.
    pub section: u16,
    pub x: u64,
    pub y: u64,
    /// The width of its boxes.
    pub width: u64,
    /// The width of a window's own text.
    pub column: u64,
}

impl Site {
    /// The root bus of the section.
    pub fn bus(&self) -> u8 {
        (self.section / 2 % 256) as u8
    }

    /// Whether it is of I/O space.
    pub fn is_io(&self) -> bool {
        self.section % 2 == 0
    }

    /// Past 2 to which power each doubling of addresses adds to their height.
    fn base(&self) -> u32
        ensures exact { result ≡ base_of_section self.now.section }
        ensures low { result ≤ 12 }
    {
        if self.section % 2 == 0 { 4 } else { 12 }
    }
}

/// A region, and the section in which it is drawn.
#[derive(Clone, Copy)]
pub struct Member<'a> {
    /// The number of the section.
    pub section: u16,
    /// Whether it is out of place or not reached.
    pub is_lost: bool,
    /// The first address of the line of depth 1 that it is, or stands inside.
    pub top: u64,
    pub region: Region<'a>,
}

impl Member<'_> {
    ghost use Rattle.pci_picture.specs.Maps.{rank_of};

    /// The sort key of a region in its section. Lines of depth 1 are sorted by their first addresses, and what is inside
    /// stays behind its line. Those that are lost are sorted by address and key.
    pub fn rank(&self) -> (u64, u64)
        ensures { result ≡ rank_of self.entry.now }
    {
        if self.is_lost {
            (self.region.first, self.region.key)
        } else {
            (self.top, 0)
        }
    }
}

/// A region with its place.
#[derive(Clone, Copy)]
pub struct Placed<'a> {
    pub region: Region<'a>,
    pub width: Width,
    /// Whether it is out of place or not reached.
    pub is_lost: bool,
}

/// Adds both ends of each range as cuts. Such a range doesn't count as covered.
fn push_cuts<A: Allocator + Copy>(
    cuts: &mut Vec<Cut, A>,
    ranges: &[Told],
) -> Result<(), OutOfMemory>
    ensures { OnOk result (cuts.new.items ≡ cuts.old.items ++ ends_of_all_told ranges.entry.now) }
{
    for range in ranges {
        let first = u128::from(range.first);
        let end = u128::from(range.last) + 1;
        cuts.push(Cut {
            at: first,
            end: first,
        })?;
        cuts.push(Cut { at: end, end })?;
    }
    Ok(())
}

/// Adds the last ends of some regions as cuts: those of windows, or those of all others.
fn push_ends<A: Allocator + Copy>(
    cuts: &mut Vec<Cut, A>,
    regions: &[Region<'_>],
    of_windows: bool,
) -> Result<(), OutOfMemory>
    ensures { OnOk result (cuts.new.items ≡ cuts.old.items ++ ends_of_kind of_windows regions.entry.now) }
{
    for region in regions {
        if region.is_window() == of_windows {
            let end = u128::from(region.last) + 1;
            cuts.push(Cut { at: end, end })?;
        }
    }
    Ok(())
}

/// The cuts of a section, by rising address.
fn cuts_of<A: Allocator + Copy>(
    alloc: A,
    regions: &[Region<'_>],
    tellings: &Tellings<A>,
) -> Result<Vec<Cut, A>, OutOfMemory>
    ensures sorted { IfOk result (λ cuts. IsNonDecreasingBy (λ cut. cut.at) cuts.items) }
    ensures all { IfOk result (λ cuts. IsPermutation
        (cuts_told regions.entry.now tellings.entry.now.shared.items tellings.entry.now.fits.items) cuts.items) }
{
    let mut cuts = Vec::new(alloc);
    for region in regions {
        cuts.push(Cut {
            at: u128::from(region.first),
            end: u128::from(region.last) + 1,
        })?;
    }
    // most cuts of each kind come in the order of addresses, which the sort makes use of
    push_ends(&mut cuts, regions, false)?;
    push_ends(&mut cuts, regions, true)?;
    push_cuts(&mut cuts, tellings.shared.as_slice())?;
    push_cuts(&mut cuts, tellings.fits.as_slice())?;
    cuts.sort_by_key(|cut| cut.at)?;
    Ok(cuts)
}

/// The ranges that the faults of a section tell, its places, and its heights.
#[derive(Drop)]
pub struct Plan<'a, A: Allocator> {
    pub placed: Vec<Placed<'a>, A>,
    pub keys: Vec<Index, A>,
    pub tellings: Tellings<A>,
    pub heights: Heights<A>,
}

impl<'a, A: Allocator + Copy> Plan<'a, A> {
    /// Where everything of a section stands: the lines below its heading, and behind them those of its root and space
    /// that are out of place or not reached.
    pub fn of(
        alloc: A,
        faults: &Faults<'_, A>,
        site: &Site,
        members: &[Member<'a>],
    ) -> Result<Plan<'a, A>, OutOfMemory>
        ensures placed { IfOk result (λ plan. regions_placed plan.placed.items ≡ regions_of_members members.entry.now) }
        ensures planned { IfOk result (λ plan. plan.heights.bottom < 2 ^ 64 - 1
            → ArePlanned site.now.section (site.now.y + 22)
            (ranges_of_faults (faults_read faults.entry.now) (lines_of_regions (regions_of_members members.entry.now)))
            (lines_of_regions (regions_of_members members.entry.now)) plan.heights.runs.items plan.heights.bottom) }
        ensures down { IfOk result (λ plan. site.now.y ≤ plan.heights.bottom) }
        ensures looks { IfOk result (λ plan. (look : Look) → looks_placed look plan.placed.items
            ≡ looks_up_to look (count_in_place members.entry.now) (regions_of_members members.entry.now)) }
        ensures beside { IfOk result (λ plan. StandBesideIn site.now (count_in_place members.entry.now)
            (regions_of_members members.entry.now) (widths_placed plan.placed.items)) }
    {
        let regions = regions_of(alloc, members)?;
        let every = regions.as_slice();
        let keys = keys_of(alloc, faults, every)?;
        let tellings = tellings_of(alloc, faults, every, keys.as_slice())?;
        let cuts = cuts_of(alloc, every, &tellings)?;
        let base = site.base();
        let heights = Heights::of(alloc, cuts.as_slice(), base, site.y.saturating_add(22))?;
        let placed = placed_of(alloc, site, every, lost_from(members))?;
        Ok(Plan {
            placed,
            keys,
            tellings,
            heights,
        })
    }
}

/// The regions of some members.
fn regions_of<'a, A: Allocator + Copy>(
    alloc: A,
    members: &[Member<'a>],
) -> Result<Vec<Region<'a>, A>, OutOfMemory>
    ensures { IfOk result (λ regions. regions.items ≡ regions_of_members members.entry.now) }
{
    let mut regions = Vec::new(alloc);
    for member in members {
        regions.push(member.region)?;
    }
    Ok(regions)
}

/// How many members stand before the first one that is lost.
fn lost_from(members: &[Member<'_>]) -> usize
    ensures { result ≡ count_in_place members.entry.now }
{
    members
        .iter()
        .position(|member| member.is_lost)
        .unwrap_or(members.len())
}

/// The places of the regions of a section. Those from an index on are lost.
fn placed_of<'a, A: Allocator + Copy>(
    alloc: A,
    site: &Site,
    regions: &[Region<'a>],
    index: usize,
) -> Result<Vec<Placed<'a>, A>, OutOfMemory>
    ensures regions { IfOk result (λ placed. regions_placed placed.items ≡ regions.entry.now) }
    ensures looks { IfOk result (λ placed. (look : Look) → looks_placed look placed.items ≡ looks_up_to look index regions.entry.now) }
    ensures beside { IfOk result (λ placed. StandBesideIn site.now index regions.entry.now (widths_placed placed.items)) }
{
    let left = site.x.saturating_add(AXIS);
    let edge = left.saturating_add(site.width);
    let (inside, lost) = regions.split_at(index.min(regions.len()));
    let split = if lost.is_empty() {
        edge
    } else {
        edge.saturating_sub(LOST)
    };
    let whole = Width {
        left,
        right: split,
        inner: left,
    };
    let beside = split.saturating_add(8);
    let outer = Width {
        left: beside,
        right: edge,
        inner: beside,
    };
    let mut placed = Vec::new(alloc);
    let column = site.column;
    place(alloc, &mut placed, inside, whole, column, false)?;
    place(alloc, &mut placed, lost, outer, column, true)?;
    Ok(placed)
}

/// Gives regions their places in a width, with `column` units for the text of a window.
fn place<'a, A: Allocator + Copy>(
    alloc: A,
    placed: &mut Vec<Placed<'a>, A>,
    regions: &[Region<'a>],
    whole: Width,
    column: u64,
    is_lost: bool,
) -> Result<(), OutOfMemory>
    ensures regions { OnOk result (regions_placed placed.new.items ≡ regions_placed placed.old.items ++ regions.entry.now) }
    ensures looks { OnOk result ((look : Look) → looks_placed look placed.new.items
        ≡ looks_placed look placed.old.items ++ looks_of look is_lost regions.entry.now) }
    ensures widths { OnOk result (IsIndented regions.entry.now → AddsWidths whole.left whole.right column regions.entry.now
        (widths_placed placed.old.items) (widths_placed placed.new.items)) }
{
    let widths = widths(alloc, regions, whole.left, whole.right, column)?;
    for (index, region) in regions.iter().enumerate() {
        let width = widths.get(index).copied().unwrap_or(whole);
        placed.push(Placed {
            region: *region,
            width,
            is_lost,
        })?;
    }
    Ok(())
}

/// Where the box of a region stands.
pub fn frame_of<A: Allocator + Copy>(heights: &Heights<A>, placed: &Placed<'_>) -> Frame
    ensures framed { IsNonDecreasingBy (λ run. run.begin) heights.now.runs.items
        → IsFramed (height_at heights.now.runs.items heights.now.bottom)
        placed.entry.now.region.first placed.entry.now.region.last result.y result.height }
    ensures left { result.x ≡ placed.entry.now.width.left }
    ensures width { result.width ≡ max 1 (placed.entry.now.width.right - placed.entry.now.width.left - 2) }
{
    let y = heights.y(u128::from(placed.region.first));
    let end = heights.y(u128::from(placed.region.last) + 1);
    let width = placed
        .width
        .right
        .saturating_sub(placed.width.left)
        .saturating_sub(2);
    Frame {
        x: placed.width.left,
        y,
        width: width.max(1),
        height: end.saturating_sub(y).saturating_sub(1),
    }
}
