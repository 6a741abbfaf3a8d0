//! What told ranges hold behind new windows, where that can keep a place from being free.
ghost use Rattle.std.specs.Prelude.{◌≡◌, ◌<◌, IfOk, length, map};
ghost use Rattle.std.specs.List.{All};
ghost use Rattle.pci_first_fit.specs.Placings.{HasListAt};
ghost use Rattle.pci_settle_places.specs.Candidates.{IsWithin};
ghost use Rattle.pci_settle_places.specs.Stretches.{AreStretches};
ghost use Rattle.pci_settle_places.specs.Taken.{AreBehindOne, AreNearBehindEach};

use crate::candidate::Candidate;
use crate::staying::Staying;
use crate::stretch::{Sought, sought_rows};
use pci_base::memory::OutOfMemory;
use pci_base::range::Range;
use pci_base::space::Space;
use pci_first_fit::item::Part;
use pci_first_fit::placing::Wanted;
use pci_function::record::Record;
use std::alloc::Allocator;

/// What is wanted for some items, in lists of ranges.
#[derive(Drop)]
pub struct Asked<'a, A: Allocator> {
    pub lists: &'a [Vec<Range, A>],
    pub wanted: &'a [Wanted],
}

/// What lines hold behind an item: all that share an address with the ranges in which its place is looked for, and perhaps
/// others. Nothing where it is no new window.
fn behind_one<A: Allocator>(
    alloc: A,
    records: &[Record],
    staying: &Staying,
    candidate: &Candidate,
    ranges: &[Range],
) -> Result<Vec<Range, A>, OutOfMemory>
    requires within { candidate.now.item.function < length records.now }
    requires stretches { AreStretches staying.now.lines.now staying.now.stretches.now }
    ensures { IfOk result (λ found. AreBehindOne records.now staying.now.lines.now ranges.now candidate.now
        found.items) }
{
    let item = candidate.item;
    match item.part {
        Part::Bar(_) | Part::Rom => Ok(Vec::new(alloc)),
        Part::Window => match &records[item.function].bridge {
            None => Ok(Vec::new(alloc)),
            Some(bridge) => {
                let space = Space::of(candidate.class);
                let sought = Sought {
                    bridge,
                    space,
                    ranges,
                };
                let found = sought_rows(alloc, staying.stretches, &sought)?;
                Ok(found)
            }
        },
    }
}

/// What lines hold behind each of some items, by index: all that share an address with the ranges in which its place is looked
/// for, and perhaps others. Nothing where it is no new window; where nothing is told the table is empty.
pub fn behind_each<A: Allocator + Copy>(
    alloc: A,
    records: &[Record],
    staying: &Staying,
    candidates: &[Candidate],
    asked: &Asked<A>,
) -> Result<Vec<Vec<Range, A>, A>, OutOfMemory>
    requires within { All (IsWithin (length records.now)) candidates.now }
    requires stretches { AreStretches staying.now.lines.now staying.now.stretches.now }
    // each names its list by index
    requires wanted { All (HasListAt (length asked.now.lists.now)) asked.now.wanted.now }
    requires count { length asked.now.wanted.now ≡ length candidates.now }
    ensures { IfOk result (λ behind. AreNearBehindEach records.now staying.now.lines.now
        (map (λ list. list.items) asked.now.lists.now) asked.now.wanted.now candidates.now
        (map (λ list. list.items) behind.items)) }
{
    let mut all = Vec::new(alloc);
    if staying.lines.is_empty() {
        return Ok(all);
    }
    for index in 0..candidates.len() {
        let list = asked.wanted[index].list;
        let ranges = asked.lists[list].as_slice();
        all.push(behind_one(alloc, records, staying, &candidates[index], ranges)?)?;
    }
    Ok(all)
}
