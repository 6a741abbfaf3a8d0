//! Which parts of a bridge lead to a told range: an open window of its class that holds it whole, and a BAR or a ROM
//! of its space where it is answered whatever Command says.
ghost use Rattle.std.specs.Prelude.{◌≡◌, ◌<◌, ◌≤◌, ◌||◌, not, ℕ, IsTrue, IsFalse, IfOk, length, slice_index_or};
ghost use Rattle.std.specs.List.{All, AllPairs, AllWithin};
ghost use Rattle.pci_spec.specs.System.{System};
ghost use Rattle.settle_spec.specs.Lists.{Request};
ghost use Rattle.settle_spec.specs.Stands.{leads_to_told};
ghost use Rattle.judge_spec.specs.Told.{IsTold, ToldRange as RangeValue};
ghost use Rattle.pci_kept.specs.Boards.{IsTree, IsKnown};
ghost use Rattle.pci_kept.specs.Known.{region_value, AreParts};
ghost use Rattle.pci_kept.specs.ToldLines.{AreToldLines, leads_to_line};
ghost use Rattle.pci_kept.specs.Leads.{leads_to_lines, noted, AreReachable, AreKnownParts};

use crate::region::Region;
use crate::told_line::{ToldLine, extent, first_above, first_from};
use pci_base::memory::OutOfMemory;
use pci_dump::told_range::{Mark, ToldRange};
use pci_first_fit::kept::Part;
use pci_first_fit::over::is_within;
use pci_function::record::Record;
use std::alloc::Allocator;

/// The ranges of a text, with what is known of each.
#[derive(Clone, Copy)]
pub struct Told<'a> {
    pub ranges: &'a [ToldRange],
    pub lines: &'a [ToldLine],
}

/// The ranges of a text, and those among them that a part can lead to.
#[derive(Clone, Copy)]
pub struct Reachable<'a> {
    pub told: Told<'a>,
    /// The indexes of those that aren't held, rising: nothing leads to a held range.
    pub indexes: &'a [usize],
}

/// The indexes of the told ranges that aren't held, rising.
pub fn reachable_indexes<A: Allocator>(
    alloc: A,
    ranges: &[ToldRange],
) -> Result<Vec<usize, A>, OutOfMemory>
    ensures { IfOk result (λ indexes. AreReachable ranges.now indexes.items) }
{
    let mut indexes = Vec::new(alloc);
    for index in 0..ranges.len() {
        if !ranges[index].is_held() {
            indexes.push(index)?;
        }
    }
    Ok(indexes)
}

/// How many of rising indexes are below another one.
fn count_below(indexes: &[usize], end: usize) -> usize
    requires { AllPairs (λ j k. j < k) indexes.now }
    ensures bound { result ≤ length indexes.now }
    ensures before { AllWithin (λ k. k < end) indexes.now 0 result }
    ensures after { AllWithin (λ k. end ≤ k) indexes.now result (length indexes.now) }
{
    indexes.partition_point(|index| *index < end)
}

/// Whether a part of a bridge leads to a told range behind it that is on, or to any.
fn leads_to(region: &Region, range: &ToldRange, line: ToldLine, any: bool) -> bool
    ensures { result ≡ leads_to_line any region.now range.now line }
{
    if !(any || line.on) || range.is_held() {
        return false;
    }
    match region.part {
        Part::Window(kind) => kind == line.class && is_within(extent(range), region.range),
        Part::Bar(_) | Part::Rom => {
            matches!(range.mark, Mark::Always) && range.is_in(region.space)
        }
    }
}

/// Whether a part leads to a told range that is on, or to any, of those from an index up to another.
fn leads_to_some(
    reachable: &Reachable,
    first: usize,
    end: usize,
    region: &Region,
    any: bool,
) -> bool
    requires reachable { AreReachable reachable.now.told.ranges.now reachable.now.indexes.now }
    requires count { length reachable.now.told.lines.now ≡ length reachable.now.told.ranges.now }
    requires end { end ≤ length reachable.now.told.ranges.now }
    ensures some { IsTrue result → (k : ℕ) × (first ≤ k) × (k < end)
        × ((t : RangeValue) → (d : ToldLine) → IsTrue (leads_to_line any region.now
        (slice_index_or reachable.now.told.ranges.now k t)
        (slice_index_or reachable.now.told.lines.now k d))) }
    ensures none { IsFalse result → (k : ℕ) → (t : RangeValue) → (d : ToldLine) → first ≤ k → k < end
        → IsFalse (leads_to_line any region.now
        (slice_index_or reachable.now.told.ranges.now k t)
        (slice_index_or reachable.now.told.lines.now k d)) }
{
    let ranges = reachable.told.ranges;
    let lines = reachable.told.lines;
    let from = count_below(reachable.indexes, first);
    let to = count_below(reachable.indexes, end);
    for at in from..to {
        let index = reachable.indexes[at];
        if leads_to(region, &ranges[index], lines[index], any) {
            return true;
        }
    }
    false
}

/// Whether a part leads to a told range that is on, or to any.
fn leads_to_one(records: &[Record], reachable: &Reachable, region: &Region, any: bool) -> bool
    requires told { IsTold reachable.now.told.ranges.now }
    requires reachable { AreReachable reachable.now.told.ranges.now reachable.now.indexes.now }
    requires count { length reachable.now.told.lines.now ≡ length reachable.now.told.ranges.now }
    requires function { region.now.function < length records.now }
    ensures { (q : Request) → (s : System) → IsTree q s records.now
        → q.told.ranges ≡ reachable.now.told.ranges.now
        → AreToldLines q s reachable.now.told.lines.now → IsKnown q s region.now
        → result ≡ leads_to_lines any q s (region_value s region.now) }
{
    if reachable.indexes.is_empty() {
        return false;
    }
    let Some(bridge) = records[region.function].bridge else {
        return false;
    };
    let ranges = reachable.told.ranges;
    let first = first_from(ranges, u16::from(bridge.secondary));
    let end = first_above(ranges, bridge.subordinate);
    leads_to_some(reachable, first, end, region, any)
}

/// Whether a part can stand: where all is placed anew, only what leads to a told range can.
fn can_stand(records: &[Record], reachable: &Reachable, region: &Region, anew: bool) -> bool
    requires told { IsTold reachable.now.told.ranges.now }
    requires reachable { AreReachable reachable.now.told.ranges.now reachable.now.indexes.now }
    requires count { length reachable.now.told.lines.now ≡ length reachable.now.told.ranges.now }
    requires function { region.now.function < length records.now }
    ensures { (q : Request) → (s : System) → IsTree q s records.now
        → q.told.ranges ≡ reachable.now.told.ranges.now
        → AreToldLines q s reachable.now.told.lines.now → IsKnown q s region.now
        → result ≡ (leads_to_told q s (region_value s region.now) || not anew) }
{
    if anew {
        leads_to_one(records, reachable, region, true)
    } else {
        true
    }
}

/// A part with what is noted of it.
fn noted(region: &Region, leads: bool, can_stand: bool) -> Region
    ensures { result ≡ noted leads can_stand region.now }
{
    Region {
        leads,
        can_stand,
        ..*region
    }
}

/// Notes of each part whether it leads to a told range that is on, and whether it can stand.
pub fn note_leads(records: &[Record], reachable: &Reachable, anew: bool, regions: &mut [Region])
    requires told { IsTold reachable.now.told.ranges.now }
    // those behind a bridge are found by halving
    requires reachable { AreReachable reachable.now.told.ranges.now reachable.now.indexes.now }
    requires count { length reachable.now.told.lines.now ≡ length reachable.now.told.ranges.now }
    requires functions { All (λ r. r.function < length records.now) regions.old }
    ensures { (q : Request) → (s : System) → IsTree q s records.now
        → q.told.ranges ≡ reachable.now.told.ranges.now
        → AreToldLines q s reachable.now.told.lines.now → AreParts q s regions.old → q.anew ≡ anew
        → AreKnownParts q s regions.new }
{
    for index in 0..regions.len() {
        let leads = leads_to_one(records, reachable, &regions[index], false);
        let can_stand = can_stand(records, reachable, &regions[index], anew);
        regions[index] = noted(&regions[index], leads, can_stand);
    }
}
