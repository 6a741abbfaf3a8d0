//! Heights of a section: where each address stands.

ghost use Rattle.std.specs.Prelude.{◌≡◌, ◌<◌, ◌≤◌, ◌+◌, ◌-◌, ◌*◌, ◌^◌, ℕ, IfOk, length, max};
ghost use Rattle.std.specs.List.{slice_index_or};
ghost use Rattle.std.specs.List.Sorted.{IsNonDecreasingBy};
ghost use Rattle.pci_picture.specs.declared.heights.Cut.{Cut};
ghost use Rattle.pci_picture.specs.declared.heights.Run.{Run};
ghost use Rattle.pci_picture.specs.Cuts.{HasCutAt};
ghost use Rattle.pci_picture.specs.Heights.{IsHeightOf};
ghost use Rattle.pci_picture.specs.Stacked.{AreHeights, IsRunAdded, height_at};

use super::memory::OutOfMemory;
use std::alloc::Allocator;

/// The height of a line of words.
pub const LINE: u64 = 14;

/// The height of a gap that no line covers.
const GAP: u64 = 14;

/// An address at which something begins or ends. What begins there ends before `end`; else `end` is no more than `at`.
#[derive(Clone, Copy)]
pub struct Cut {
    pub at: u128,
    pub end: u128,
}

/// The addresses between two neighbouring cuts, and where they stand.
#[derive(Clone, Copy)]
pub struct Run {
    pub begin: u128,
    pub end: u128,
    pub y: u64,
    pub height: u64,
    /// Whether a line covers it.
    pub is_covered: bool,
}

/// The heights of a section.
#[derive(Drop)]
pub struct Heights<A: Allocator> {
    pub runs: Vec<Run, A>,
    pub bottom: u64,
}

/// The height of `count` addresses that a line covers: that of a line of words, and 1 for each doubling past 2^base.
fn covered_height(count: u128, base: u32) -> u64
    requires { base ≤ 12 }
    ensures exact { IsHeightOf base count result }
    ensures least { 0 < result }
    ensures most { result ≤ 142 }
{
    LINE + u64::from(128 - (count >> (base + 1)).leading_zeros())
}

/// The address of the first cut, 0 where there is none.
fn first_address(cuts: &[Cut]) -> u128
    ensures least { IsNonDecreasingBy (λ cut. cut.at) cuts.now → (k : ℕ) (cut : Cut) → k < length cuts.now
        → result ≤ (slice_index_or cuts.now k cut).at }
    ensures is_cut { 0 < length cuts.now → HasCutAt cuts.now result }
{
    if cuts.is_empty() { 0 } else { cuts[0].at }
}

impl<A: Allocator + Copy> Heights<A> {
    /// Adds the addresses from `begin` up to a cut, and answers where the next ones begin.
    fn add(
        &mut self,
        begin: u128,
        cut: u128,
        is_covered: bool,
        base: u32,
    ) -> Result<u128, OutOfMemory>
        requires { base ≤ 12 }
        ensures next { IfOk result (λ next. next ≡ max begin cut) }
        ensures same { cut ≤ begin → IfOk result (λ _. (self.new.runs.items ≡ self.old.runs.items)
            × (self.new.bottom ≡ self.old.bottom)) }
        ensures added { begin < cut → self.old.bottom + 142 < 2 ^ 64 → IfOk result (λ _.
            IsRunAdded base is_covered self.old.runs.items begin self.old.bottom cut self.new.runs.items self.new.bottom) }
        ensures uncut { begin < cut → IfOk result (λ _. self.new.bottom < 2 ^ 64 - 1 →
            IsRunAdded base is_covered self.old.runs.items begin self.old.bottom cut self.new.runs.items self.new.bottom) }
        ensures down { IfOk result (λ _. self.old.bottom ≤ self.new.bottom) }
    {
        if cut <= begin {
            return Ok(begin);
        }
        let height = if is_covered {
            covered_height(cut - begin, base)
        } else {
            GAP
        };
        self.runs.push(Run {
            begin,
            end: cut,
            y: self.bottom,
            height,
            is_covered,
        })?;
        self.bottom = self.bottom.saturating_add(height);
        Ok(cut)
    }

    /// The heights of a section that begins at `top`, of its cuts by rising address.
    pub fn of(alloc: A, cuts: &[Cut], base: u32, top: u64) -> Result<Heights<A>, OutOfMemory>
        requires { base ≤ 12 }
        // `top` and 142 units for each cut have to fit in 64 bits
        ensures fits { IsNonDecreasingBy (λ cut. cut.at) cuts.now → top + 142 * length cuts.now < 2 ^ 64
            → IfOk result (λ heights. AreHeights base top cuts.now heights.runs.items heights.bottom) }
        // or the bottom was not cut off at 64 bits
        ensures uncut { IsNonDecreasingBy (λ cut. cut.at) cuts.now → IfOk result (λ heights.
            heights.bottom < 2 ^ 64 - 1 → AreHeights base top cuts.now heights.runs.items heights.bottom) }
        ensures down { IfOk result (λ heights. top ≤ heights.bottom) }
    {
        let mut heights = Heights {
            runs: Vec::new(alloc),
            bottom: top,
        };
        let mut begin = first_address(cuts);
        let mut reach = begin;
        for cut in cuts {
            begin = heights.add(begin, cut.at, begin < reach, base)?;
            reach = cut.end.max(reach);
        }
        Ok(heights)
    }

    /// Where an address stands.
    pub fn y(&self, address: u128) -> u64
        // the runs are sorted, so a binary search finds it
        ensures { IsNonDecreasingBy (λ run. run.begin) self.now.runs.items
            → result ≡ height_at self.now.runs.items self.now.bottom address }
    {
        let index = self.runs.partition_point(|run| run.begin < address);
        match self.runs.get(index) {
            Some(run) => run.y,
            None => self.bottom,
        }
    }
}
