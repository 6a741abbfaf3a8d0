//! What stands, row by row, and how far its windows can grow.
ghost use Rattle.std.specs.Prelude.{◌≡◌, ◌⊎◌, None, Some, IsTrue, IsFalse, IfSome, IfOk};
ghost use Rattle.std.specs.List.{All};
ghost use Rattle.pci_place.specs.Above.{system_in};
ghost use Rattle.pci_first_fit.specs.Slots.{demand_value};
ghost use Rattle.pci_kept.specs.Known.{asked_by_rules};
ghost use Rattle.pci_grow.specs.Reaching.{reaching_value, IsReaching, tells_whole, TellsWhole};

use crate::beside::standing_in_rows;
use crate::reach::{Board, find_reaches};
use pci_base::memory::OutOfMemory;
use pci_first_fit::kept::Kept;
use pci_first_fit::lines::{Line, lines};
use pci_first_fit::list::Lists;
use pci_first_fit::table::{WindowRanges, nothing_told};
use pci_kept::collect::regions;
use pci_kept::pass::standing;
use pci_kept::place::bridges_over;
use pci_kept::region::Region;
use pci_kept::rules::Rules;
use pci_kept::windows::{TooLarge, is_whole_range};
use pci_tree::admitted::Admitted;
use std::alloc::Allocator;

/// What stands, and how far its windows can grow.
#[derive(Drop)]
pub struct Reaching<A: Allocator> {
    /// The parts of all functions, by rising slots.
    pub regions: Vec<Region, A>,
    /// Which of them stand, by function in slot order.
    pub kept: Vec<Kept, A>,
    /// Those that stand, row by row, and in a row by rising addresses.
    pub rows: Vec<Region, A>,
    /// How far each window that stands can grow.
    pub reaches: Vec<WindowRanges, A>,
    /// The ranges that a text tells of, by rising levels.
    pub lines: Vec<Line, A>,
}

/// What stands, and how far its windows can grow.
pub fn all_reaches<A: Allocator + Copy, B: Allocator>(
    alloc: A,
    admitted: &Admitted<B>,
    lists: &Lists,
    rules: &Rules,
) -> Result<Reaching<A>, OutOfMemory>
    ensures { IfOk result (λ reaching. IsReaching
        (asked_by_rules admitted.now.roots (demand_value lists.now) rules.now) (system_in admitted.now)
        (reaching_value reaching)) }
{
    let outline = admitted.outline();
    let records = outline.records();
    let roots = outline.roots();
    let regions = regions(alloc, admitted, lists, rules)?;
    let kept = standing(alloc, admitted, lists, rules)?;
    let rows = standing_in_rows(alloc, regions.as_slice(), kept.as_slice())?;
    let lines = lines(alloc, lists.told, &roots)?;
    let board = Board {
        records,
        over: &bridges_over(records),
        lists,
        told: lists.told.as_slice(),
        lines: lines.as_slice(),
    };
    let mut reaches = nothing_told(alloc, records.len())?;
    find_reaches(&board, rows.as_slice(), reaches.as_mut_slice());
    Ok(Reaching {
        regions,
        kept,
        rows,
        reaches,
        lines,
    })
}

/// Whether something told of the windows of a function has all addresses of 64 bits.
fn tells_whole(ranges: &WindowRanges) -> bool
    ensures { result ≡ tells_whole ranges.now }
{
    is_whole_range(ranges.io)
        || is_whole_range(ranges.memory)
        || is_whole_range(ranges.prefetchable)
}

/// Whether something that a table tells has.
fn tell_whole(reaches: &[WindowRanges]) -> bool
    ensures none { IsFalse result → All (λ ranges. IsFalse (tells_whole ranges)) reaches.now }
    ensures some { IsTrue result → TellsWhole reaches.now }
{
    for k in 0..reaches.len() {
        if tells_whole(&reaches[k]) {
            return true;
        }
    }
    false
}

/// The bridge around whose new window it isn't known what grows: one is too large, and a window that stands may have room for it.
pub fn unknown_around(large: Option<TooLarge>, reaches: &[WindowRanges]) -> Option<TooLarge>
    ensures some { IfSome result (λ window. (large ≡ Some window) × TellsWhole reaches.now) }
    ensures none { result ≡ None
        → (large ≡ None) ⊎ All (λ ranges. IsFalse (tells_whole ranges)) reaches.now }
{
    match large {
        Some(window) if tell_whole(reaches) => Some(window),
        _ => None,
    }
}
