//! Widths: lines that overlap stand side by side.

ghost use Rattle.std.specs.Prelude.{◌≡◌, ◌<◌, ◌≤◌, ◌⊎◌, ◌+◌, ◌-◌, ◌^◌, IfOk, IfSome, OnOk, Some, None, length, take, slice_index, slice_index_or};
ghost use Rattle.std.specs.List.{All};
ghost use Rattle.pci_picture.specs.Lanes.{AreDeep, AreNested, BeginInside, HaveColumns, HaveShares, inner_begin, IsIndented, IsOrdered, SiblingsRise, StandSideBySide, StandsBetween};
ghost use Rattle.pci_picture.specs.Seats.{AddsNoLane, AreSeatedApart, AreWidthsOfSeats, BeginsGroup, HasLane, HaveParents, HaveLanes, HaveSeatColumns, HaveWindows, HoldLanesTogether, IsGroupAmong, IsGroupGiven, IsLaneAdded, IsLaneGiven, IsLevelAdded, IsSeatGiven, IsWidened, IsWidthOfLane, IsWindowTold, JoinsGroup, KeepLanes, NoneEndsBefore, SameButLanes, lane_at, outer_at};

use super::memory::OutOfMemory;
use super::region::Region;
use std::alloc::Allocator;

/// The place of a line among those of its parent: its lane, and which group it is of.
#[derive(Clone, Copy)]
struct Seat {
    lane: usize,
    group: usize,
    /// The index of the line that it stands inside.
    parent: Option<usize>,
    is_window: bool,
}

/// From where to where a line reaches; what is inside it begins at `inner`.
#[derive(Clone, Copy)]
pub struct Width {
    pub left: u64,
    pub right: u64,
    pub inner: u64,
}

/// The lines of one parent that were seated so far.
#[derive(Drop)]
struct Level<A: Allocator> {
    parent: Option<usize>,
    group: usize,
    /// The greatest last address of the group, none before the first line.
    until: Option<u64>,
    /// No lane ended before this address.
    least: u64,
    /// The last address of each lane.
    ends: Vec<u64, A>,
}

/// The seats of some lines.
#[derive(Drop)]
struct Seats<A: Allocator> {
    seats: Vec<Seat, A>,
    /// How many lanes each group has.
    lanes: Vec<usize, A>,
}

impl<A: Allocator + Copy> Level<A> {
    /// A lane whose last line ended before an address, the least one.
    fn free_lane(&self, first: u64) -> Option<usize>
        ensures some { IfSome result (λ lane. (lane < length self.now.ends.items) × (slice_index self.now.ends.items lane < first)) }
        ensures none { NoneEndsBefore self.now.least self.now.ends.items → result ≡ None → NoneEndsBefore first self.now.ends.items }
    {
        // where no lane ended before `first`, none is searched
        if first <= self.least {
            return None;
        }
        self.ends.iter().position(|end| *end < first)
    }

    /// Gives a line the least lane whose last line ended before it.
    fn seat(&mut self, first: u64, last: u64) -> Result<usize, OutOfMemory>
        ensures same { SameButLanes self.old self.new }
        ensures small { IfOk result (λ lane. lane + 1 < 2 ^ 64) }
        ensures given { IfOk result (λ lane. IsLaneGiven self.old.ends.items first last lane self.new.ends.items) }
        ensures least { first ≤ last → NoneEndsBefore self.old.least self.old.ends.items → OnOk result (NoneEndsBefore self.new.least self.new.ends.items) }
        ensures full { NoneEndsBefore self.old.least self.old.ends.items
            → IfOk result (λ lane. lane ≡ length self.old.ends.items → NoneEndsBefore first self.old.ends.items) }
    {
        match self.free_lane(first) {
            Some(lane) => {
                self.ends[lane] = last;
                Ok(lane)
            }
            None => {
                let lane = self.ends.len();
                self.ends.push(last)?;
                self.least = self.least.min(last);
                Ok(lane)
            }
        }
    }
}

/// How many lanes there are up to the one with an index.
fn lanes_to(lane: usize) -> usize
    ensures least { lane ≤ result }
    ensures most { result ≤ lane + 1 }
    ensures more { lane + 1 < 2 ^ 64 → lane < result }
{
    lane.saturating_add(1)
}

/// Makes room for a lane in its group.
fn widen<A: Allocator + Copy>(lanes: &mut Vec<usize, A>, group: usize, lane: usize)
    ensures kept { KeepLanes lanes.old.items lanes.new.items }
    ensures has { group < length lanes.old.items → lane + 1 < 2 ^ 64 → HasLane lanes.new.items group lane }
    ensures size { length lanes.new.items ≡ length lanes.old.items }
    ensures widened { IsWidened group lane lanes.old.items lanes.new.items }
{
    if let Some(count) = lanes.get_mut(group) {
        *count = (*count).max(lanes_to(lane));
    }
}

impl<A: Allocator + Copy> Seats<A> {
    /// Begins a group of the lines of a parent, where a line begins behind all lines before it. Any other line joins the
    /// group that is there.
    fn begin(&mut self, level: &mut Level<A>, first: u64, last: u64) -> Result<(), OutOfMemory>
        ensures parent { level.new.parent ≡ level.old.parent }
        ensures seats { self.new.seats.items ≡ self.old.seats.items }
        ensures kept { KeepLanes self.old.lanes.items self.new.lanes.items }
        ensures no_lane { AddsNoLane self.old.lanes.items self.new.lanes.items }
        ensures given { OnOk result (IsGroupGiven level.old level.new self.old.lanes.items self.new.lanes.items) }
        ensures least { NoneEndsBefore level.old.least level.old.ends.items → OnOk result (NoneEndsBefore level.new.least level.new.ends.items) }
        ensures among { OnOk result (IsGroupAmong level.old.until level.old.group (length self.old.lanes.items)
            → level.new.group < length self.new.lanes.items) }
        ensures group { OnOk result (JoinsGroup last level.old level.new ⊎ BeginsGroup first last level.old level.new) }
    {
        match level.until {
            Some(until) if first <= until => {
                level.until = Some(until.max(last));
                Ok(())
            }
            _ => {
                level.group = self.lanes.len();
                level.until = Some(last);
                level.least = u64::MAX;
                level.ends.clear();
                self.lanes.push(0)?;
                Ok(())
            }
        }
    }

    /// Seats a line among those of its parent.
    fn add(&mut self, level: &mut Level<A>, region: &Region<'_>) -> Result<(), OutOfMemory>
        ensures given { OnOk result (IsSeatGiven region.entry.now.first region.entry.now.last level.old level.new
            self.old.seats.items self.new.seats.items) }
        ensures lane { OnOk result (IsLaneAdded level.old level.new self.old.seats.items self.new.seats.items
            self.old.lanes.items self.new.lanes.items) }
        ensures window { OnOk result (IsWindowTold region.entry.now self.old.seats.items self.new.seats.items) }
    {
        self.begin(level, region.first, region.last)?;
        let lane = level.seat(region.first, region.last)?;
        widen(&mut self.lanes, level.group, lane);
        self.seats.push(Seat {
            lane,
            group: level.group,
            parent: level.parent,
            is_window: region.is_window(),
        })?;
        Ok(())
    }
}

/// The index of the line that the line after `count` lines stands inside: the last of these, or none at depth 1.
fn parent_of(count: usize, depth: usize) -> Option<usize>
    ensures top { depth ≤ 1 → result ≡ None }
    ensures inner { 1 < depth → 0 < count → result ≡ Some (count - 1) }
{
    if depth <= 1 {
        None
    } else {
        count.checked_sub(1)
    }
}

/// Keeps the levels down to a depth, and adds one there if they don't reach down to it. `count` lines were seated.
fn open_level<A: Allocator + Copy>(
    alloc: A,
    levels: &mut Vec<Level<A>, A>,
    count: usize,
    depth: usize,
) -> Result<(), OutOfMemory>
    ensures kept { depth ≤ length levels.old.items → OnOk result (levels.new.items ≡ take depth levels.old.items) }
    ensures opened { length levels.old.items < depth → OnOk result (IsLevelAdded count depth levels.old.items levels.new.items) }
{
    levels.truncate(depth);
    if levels.len() < depth {
        levels.push(Level {
            parent: parent_of(count, depth),
            group: 0,
            until: None,
            least: u64::MAX,
            ends: Vec::new(alloc),
        })?;
    }
    Ok(())
}

/// The seats of lines in the order of the map.
fn seats_of<A: Allocator + Copy>(alloc: A, regions: &[Region<'_>]) -> Result<Seats<A>, OutOfMemory>
    ensures count { AreDeep regions.entry.now → IfOk result (λ seats. length seats.seats.items ≡ length regions.entry.now) }
    ensures parents { IsIndented regions.entry.now → IfOk result (λ seats. HaveParents regions.entry.now seats.seats.items) }
    ensures apart { IsIndented regions.entry.now → SiblingsRise regions.entry.now
        → IfOk result (λ seats. AreSeatedApart regions.entry.now seats.seats.items (length regions.entry.now)) }
    ensures lanes { IfOk result (λ seats. HaveLanes seats.seats.items seats.lanes.items) }
    ensures windows { AreDeep regions.entry.now → IfOk result (λ seats. HaveWindows regions.entry.now seats.seats.items) }
    ensures together { IsIndented regions.entry.now → SiblingsRise regions.entry.now
        → IfOk result (λ seats. HoldLanesTogether regions.entry.now seats.seats.items seats.lanes.items) }
{
    let mut seats = Seats {
        seats: Vec::new(alloc),
        lanes: Vec::new(alloc),
    };
    let mut levels: Vec<Level<A>, A> = Vec::new(alloc);
    for region in regions {
        open_level(alloc, &mut levels, seats.seats.len(), region.depth)?;
        if let Some(level) = levels.last_mut() {
            seats.add(level, region)?;
        }
    }
    Ok(seats)
}

/// Where the lane with the index `lane` begins, of `lanes` lanes between left and right.
fn lane_left(left: u64, right: u64, lane: usize, lanes: usize) -> u64
    ensures { result ≡ lane_at left right lane lanes }
{
    let width = u128::from(right.saturating_sub(left));
    let lanes = if lanes == 0 { 1 } else { lanes };
    let shift = width.saturating_mul(lane as u128) / lanes as u128;
    left.saturating_add(shift.min(width) as u64)
}

/// The width of the line that a seat stands inside, or the whole.
fn outer_of(widths: &[Width], parent: Option<usize>, whole: Width) -> Width
    ensures { result ≡ outer_at widths.now parent whole }
{
    match parent {
        Some(parent) if parent < widths.len() => widths[parent],
        _ => whole,
    }
}

/// The width of a seat, in one of `lanes` lanes inside another width.
fn width_of(outer: Width, seat: Seat, lanes: usize, column: u64) -> Width
    ensures lane { IsWidthOfLane outer seat.lane lanes result }
    ensures inner { result.inner ≡ inner_begin seat.is_window column result }
{
    let begin = lane_left(outer.inner, outer.right, seat.lane, lanes);
    let end = lane_left(outer.inner, outer.right, lanes_to(seat.lane), lanes);
    let inner = if seat.is_window {
        begin.saturating_add(column).min(end)
    } else {
        end
    };
    Width {
        left: begin,
        right: end,
        inner,
    }
}

/// How many lanes a group has.
fn lanes_of(lanes: &[usize], group: usize) -> usize
    ensures { result ≡ slice_index_or lanes.now group 1 }
{
    match lanes.get(group) {
        Some(count) => *count,
        None => 1,
    }
}

/// The widths of seats inside a whole one. `lanes` has how many lanes each group has.
fn widths_of<A: Allocator + Copy>(
    alloc: A,
    seats: &[Seat],
    lanes: &[usize],
    whole: Width,
    column: u64,
) -> Result<Vec<Width, A>, OutOfMemory>
    ensures count { IfOk result (λ widths. length widths.items ≡ length seats.entry.now) }
    ensures placed { IfOk result (λ widths. AreWidthsOfSeats whole seats.entry.now lanes.entry.now widths.items (length seats.entry.now)) }
    ensures columns { IfOk result (λ widths. HaveSeatColumns seats.entry.now column widths.items (length seats.entry.now)) }
    ensures ordered { IfOk result (λ widths. All IsOrdered widths.items) }
    ensures inside { whole.left ≤ whole.inner → whole.inner ≤ whole.right
        → IfOk result (λ widths. All (StandsBetween whole.left whole.right) widths.items) }
{
    let mut widths: Vec<Width, A> = Vec::new(alloc);
    for seat in seats {
        let outer = outer_of(widths.as_slice(), seat.parent, whole);
        let count = lanes_of(lanes, seat.group);
        widths.push(width_of(outer, *seat, count, column))?;
    }
    Ok(widths)
}

/// The widths of lines in the order of the map, between left and right. A window has `column` units for its own text.
pub fn widths<A: Allocator + Copy>(
    alloc: A,
    regions: &[Region<'_>],
    left: u64,
    right: u64,
    column: u64,
) -> Result<Vec<Width, A>, OutOfMemory>
    // a line at depth 0 has no width
    ensures count { AreDeep regions.entry.now → IfOk result (λ widths. length widths.items ≡ length regions.entry.now) }
    ensures ordered { IfOk result (λ widths. All IsOrdered widths.items) }
    ensures inside { left ≤ right → IfOk result (λ widths. All (StandsBetween left right) widths.items) }
    ensures columns { AreDeep regions.entry.now → IfOk result (λ widths. HaveColumns regions.entry.now column widths.items) }
    ensures nested { IsIndented regions.entry.now → IfOk result (λ widths. AreNested regions.entry.now widths.items) }
    ensures begin { IsIndented regions.entry.now → IfOk result (λ widths. BeginInside regions.entry.now left right widths.items) }
    ensures apart { IsIndented regions.entry.now → SiblingsRise regions.entry.now
        → IfOk result (λ widths. StandSideBySide regions.entry.now widths.items) }
    ensures shares { IsIndented regions.entry.now → SiblingsRise regions.entry.now
        → IfOk result (λ widths. HaveShares regions.entry.now left right widths.items) }
{
    let seats = seats_of(alloc, regions)?;
    let whole = Width {
        left,
        right,
        inner: left,
    };
    widths_of(
        alloc,
        seats.seats.as_slice(),
        seats.lanes.as_slice(),
        whole,
        column,
    )
}
