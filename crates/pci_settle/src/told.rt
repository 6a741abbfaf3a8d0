//! Told ranges that can't be kept: the range of the lowest line is named.
ghost use Rattle.std.specs.Prelude.{◌≡◌, ◌+◌, ◌<◌, ◌≤◌, ◌&&◌, ◌||◌, not, IfOk, length, map};
ghost use Rattle.std.specs.List.{AllWithin};
ghost use Rattle.pci_spec.specs.Slot.{slot_number};
ghost use Rattle.pci_spec.specs.System.{System};
ghost use Rattle.pci_spec.specs.Text.{IsDump};
ghost use Rattle.judge_spec.specs.ToldClaims.{is_marked_held};
ghost use Rattle.settle_spec.specs.Lines.{is_marked_command, is_marked_always};
ghost use Rattle.settle_spec.specs.Lists.{Request};
ghost use Rattle.settle_spec.specs.Kept.{Kept as Keeping};
ghost use Rattle.settle_spec.specs.Keeping.Writes.{is_not_reached, does_not_stay, would_be_switched};
ghost use Rattle.pci_base.specs.Space.{space_of};
ghost use Rattle.pci_tree.specs.Admission.{Admission, IsAdmitted};
ghost use Rattle.pci_place.specs.Above.{system_in};
ghost use Rattle.pci_first_fit.specs.Slots.{demand_value};
ghost use Rattle.pci_kept.specs.Known.{asked_by_rules};
ghost use Rattle.pci_settle.specs.Told.{IsTableOf};
ghost use Rattle.pci_settle.specs.Dumps.{IsSettledDump};
ghost use Rattle.pci_settle.specs.declared.lack.SettleFault.TheVariants as fault;
ghost use Rattle.pci_settle.specs.ToldEndings.{first_told, known_told_value, known_value, HasEachFlag, KnowsTold, AreKeptAbove, is_enabled_in_blocks, AreFlagsThen, AreClearAbove, AlwaysStand};

use crate::lack::SettleFault;
use crate::way::{ByClass, Way};
use pci_base::memory::OutOfMemory;
use pci_base::offset::COMMAND;
use pci_base::slot::{BUSES, Slot};
use pci_base::space::Space;
use pci_dump::block::Block;
use pci_dump::told_range::{Mark, ToldRange};
use pci_first_fit::kept::Kept;
use pci_first_fit::list::Lists;
use pci_first_fit::told::ToldRanges;
use pci_kept::pass::standing;
use pci_kept::place::bridges_over;
use pci_kept::rules::Rules;
use pci_kept::standing_ranges::standing_ranges;
use pci_kept::told_line::{ToldLine, told_lines};
use pci_tree::admitted::Admitted;
use std::alloc::{Allocator, Global};

/// What is known of told ranges, each by its index in the text.
#[derive(Clone, Copy)]
pub struct Told<'a> {
    pub ranges: ToldRanges<'a>,
    /// As each lies on the board.
    pub lines: &'a [ToldLine],
    /// Whether each stands.
    pub standing: &'a [bool],
}

/// What is known of told ranges, by their indexes in the text.
#[derive(Drop)]
pub struct KnownRanges<A: Allocator = Global> {
    lines: Vec<ToldLine, A>,
    pub standing: Vec<bool, A>,
}

impl<A: Allocator> KnownRanges<A> {
    /// The same beside the ranges.
    pub fn told<'a>(&'a self, ranges: ToldRanges<'a>) -> Told<'a>
        ensures value { known_told_value result ≡ known_value self.now ranges.entry }
        ensures ranges { result.ranges ≡ ranges.entry }
    {
        Told {
            ranges,
            lines: self.lines.as_slice(),
            standing: self.standing.as_slice(),
        }
    }
}

/// Which told ranges are on and which stand where they are. Where nothing is told, nothing is asked.
///
/// Errors: 2 `OutOfMemory` where a growth was refused.
#[inline(never)]
pub fn known_ranges<A: Allocator + Copy, B: Allocator>(
    alloc: A,
    admitted: &Admitted<B>,
    lists: &Lists,
    rules: &Rules,
) -> Result<KnownRanges<A>, OutOfMemory>
    ensures flags { IfOk result (λ known. HasEachFlag (known_value known lists.now.told)) }
    ensures known { IfOk result (λ known. KnowsTold
        (asked_by_rules admitted.now.roots (demand_value lists.now) rules.now) (system_in admitted.now)
        (known_value known lists.now.told)) }
{
    let ranges = lists.told.as_slice();
    if ranges.is_empty() {
        return Ok(KnownRanges {
            lines: Vec::new(alloc),
            standing: Vec::new(alloc),
        });
    }
    let outline = admitted.outline();
    let records = outline.records();
    let over = bridges_over(records);
    let lines = told_lines(alloc, records, &over, &outline.roots(), ranges)?;
    let stand = standing(alloc, admitted, lists, rules)?;
    let standing = standing_ranges(alloc, admitted, lists, rules, stand.as_slice())?;
    Ok(KnownRanges { lines, standing })
}

/// The fault that names the range at an index by its line.
fn fault_of_line(slot: Slot, index: usize) -> SettleFault
    // a text has at most 4,096 lines
    requires { index < 4096 }
    ensures { result ≡ fault.Told slot (index + 1) }
{
    let line = index as u16 + 1;
    SettleFault::Told { slot, line }
}

/// Whether a range that is on or off, and stands or doesn't, isn't reached: nobody has to reach one that is held.
fn is_unreached(range: &ToldRange, is_on: bool, stands: bool) -> bool
    ensures { result ≡ (not (is_marked_held range.now.mark) && is_on && not stands) }
{
    range.mark != Mark::Held && is_on && !stands
}

/// The fault 75 with the lowest line whose range is on and doesn't stand.
pub fn first_unreached(told: &Told) -> Option<SettleFault>
    requires { HasEachFlag (known_told_value told.now) }
    ensures { (q : Request) → (s : System) → KnowsTold q s (known_told_value told.now)
        → result ≡ first_told q (is_not_reached q s) }
{
    let ranges = told.ranges.as_slice();
    for index in 0..ranges.len() {
        let range = &ranges[index];
        if is_unreached(range, told.lines[index].on, told.standing[index]) {
            return Some(fault_of_line(range.slot, index));
        }
    }
    None
}

/// Of each bus the classes in which all windows of the bridges above it stay. `table` is what stays, by function in slot order.
fn kept_above<A: Allocator>(admitted: &Admitted<A>, table: &[Kept]) -> [ByClass; BUSES]
    // a function's entry stands where its record does
    requires { length table.now ≡ length (system_in admitted.now) }
    ensures { (q : Request) → (keep : Keeping) → q.roots ≡ admitted.now.roots
        → IsTableOf (system_in admitted.now) keep.stays table.now
        → AreKeptAbove q (system_in admitted.now) keep result }
{
    let outline = admitted.outline();
    let records = outline.records();
    let mut ways = [ByClass::ALL; BUSES];
    for k in 0..records.len() {
        let record = &records[k];
        let bus = record.slot.bus();
        let way = ways[usize::from(bus)];
        let kept = &table[k];
        if let Some(bridge) = &record.bridge {
            ways[usize::from(bridge.secondary)] = way.and_kept(&kept.windows);
        }
    }
    ways
}

/// Whether a range that stands or doesn't would be cut off, where all windows of its class above it stay or don't.
fn is_cut(stands: bool, is_kept: bool) -> bool
    ensures { result ≡ (stands && not is_kept) }
{
    stands && !is_kept
}

/// The fault 75 with the lowest line whose range stands and doesn't stay. `ways` tells of each bus in which classes all windows
/// of the bridges above it stay.
fn first_cut_by(told: &Told, ways: &[ByClass; BUSES]) -> Option<SettleFault>
    requires { HasEachFlag (known_told_value told.now) }
    ensures { (q : Request) → (s : System) → (keep : Keeping) → KnowsTold q s (known_told_value told.now)
        → AreKeptAbove q s keep ways.now
        → result ≡ first_told q (does_not_stay q s keep) }
{
    let ranges = told.ranges.as_slice();
    for index in 0..ranges.len() {
        let range = &ranges[index];
        let way = ways[usize::from(range.slot.bus())];
        if is_cut(told.standing[index], way.get(told.lines[index].class)) {
            return Some(fault_of_line(range.slot, index));
        }
    }
    None
}

/// The fault 75 with the lowest line whose range stands and doesn't stay. `table` is what stays, by function in slot order.
pub fn first_cut<A: Allocator>(
    admitted: &Admitted<A>,
    told: &Told,
    table: &[Kept],
) -> Option<SettleFault>
    requires flags { HasEachFlag (known_told_value told.now) }
    // a function's entry stands where its record does
    requires table { length table.now ≡ length (system_in admitted.now) }
    ensures { (q : Request) → (keep : Keeping) → q.roots ≡ admitted.now.roots
        → KnowsTold q (system_in admitted.now) (known_told_value told.now)
        → IsTableOf (system_in admitted.now) keep.stays table.now
        → result ≡ first_told q (does_not_stay q (system_in admitted.now) keep) }
{
    if told.standing.is_empty() {
        return None;
    }
    first_cut_by(told, &kept_above(admitted, table))
}

/// The index of the first block whose slot isn't below one, or the number of blocks.
fn first_not_below(blocks: &[Block], slot: Slot) -> usize
    requires { IsDump blocks.now }
    ensures bound { result ≤ length blocks.now }
    ensures before { AllWithin (λ b. slot_number b.slot < slot_number slot) blocks.now 0 result }
    ensures after { AllWithin (λ b. slot_number slot ≤ slot_number b.slot) blocks.now result
        (length blocks.now) }
{
    let number = slot.number();
    blocks.partition_point(|block| block.slot.number() < number)
}

/// Whether Command of the function at a slot enables a space in blocks. It doesn't where no block has the slot.
fn is_on_in(blocks: &[Block], slot: Slot, space: Space) -> bool
    // its block is found by halving
    requires { IsDump blocks.now }
    ensures { result ≡ is_enabled_in_blocks blocks.now slot (space_of space) }
{
    let index = first_not_below(blocks, slot);
    if index == blocks.len() {
        return false;
    }
    let block = &blocks[index];
    block.slot == slot && space.is_on(block.image.u16(COMMAND))
}

/// Of each range whether Command of its function enables its space in blocks.
fn flags_then<A: Allocator>(
    alloc: A,
    ranges: &[ToldRange],
    blocks: &[Block],
) -> Result<Vec<bool, A>, OutOfMemory>
    // a block is found by halving
    requires { IsDump blocks.now }
    ensures { IfOk result (λ flags. flags.items
        ≡ map (λ r. is_enabled_in_blocks blocks.now r.slot r.space) ranges.now) }
{
    let mut flags = Vec::new(alloc);
    for range in ranges {
        flags.push(is_on_in(blocks, range.slot, range.space))?;
    }
    Ok(flags)
}

/// Whether a range would be switched: one marked `command` that doesn't stand would be on, or a bridge above one marked `always`
/// is shut meanwhile.
fn is_switched(range: &ToldRange, stands: bool, is_on_then: bool, is_clear: bool) -> bool
    ensures { result ≡ ((is_marked_command range.now.mark && not stands && is_on_then)
        || (is_marked_always range.now.mark && not is_clear)) }
{
    match range.mark {
        Mark::Command => !stands && is_on_then,
        Mark::Always => !is_clear,
        Mark::Held => false,
    }
}

/// The fault 75 with the lowest line whose range would be switched. `on_then` are flags of the ranges whose space Command of their
/// functions enables in the result, and `ways` tells of each bus in which spaces no bridge above it is shut.
fn first_switched(told: &Told, on_then: &[bool], ways: &[Way]) -> Option<SettleFault>
    requires flags { HasEachFlag (known_told_value told.now) }
    // bus numbers index them
    requires buses { length ways.now ≡ 256 }
    requires then { length on_then.now ≡ length told.now.ranges.ranges.now }
    ensures { (q : Request) → (s : System) → (keep : Keeping) → KnowsTold q s (known_told_value told.now)
        → AreFlagsThen q s keep on_then.now → AreClearAbove q s keep ways.now → AlwaysStand q s
        → result ≡ first_told q (would_be_switched q s keep) }
{
    let ranges = told.ranges.as_slice();
    for index in 0..ranges.len() {
        let range = &ranges[index];
        let way = ways[usize::from(range.slot.bus())];
        let is_clear = way.clear.get(range.space);
        if is_switched(range, told.standing[index], on_then[index], is_clear) {
            return Some(fault_of_line(range.slot, index));
        }
    }
    None
}

/// The fault 75 with the lowest line whose range would be switched, where `blocks` are those of the settled dump, and `ways`
/// tells of each bus in which spaces no bridge above it is shut. Each `always` range stands.
///
/// Errors: 2 `OutOfMemory` where a growth was refused.
pub fn switched<A: Allocator>(
    alloc: A,
    told: &Told,
    blocks: &[Block],
    ways: &[Way],
) -> Result<Option<SettleFault>, OutOfMemory>
    requires flags { HasEachFlag (known_told_value told.now) }
    // a block is found by halving
    requires dump { IsDump blocks.now }
    // bus numbers index them
    requires buses { length ways.now ≡ 256 }
    ensures { IfOk result (λ found. (q : Request) → (keep : Keeping) → (a : Admission) → IsAdmitted a
        → KnowsTold q (system_in a) (known_told_value told.now) → IsSettledDump q keep a blocks.now
        → AreClearAbove q (system_in a) keep ways.now → AlwaysStand q (system_in a)
        → found ≡ first_told q (would_be_switched q (system_in a) keep)) }
{
    if told.standing.is_empty() {
        return Ok(None);
    }
    let on_then = flags_then(alloc, told.ranges.as_slice(), blocks)?;
    Ok(first_switched(told, on_then.as_slice(), ways))
}

/// The same flags once more.
///
/// Errors: 2 `OutOfMemory` where a growth was refused.
pub fn copy_of<A: Allocator>(alloc: A, flags: &[bool]) -> Result<Vec<bool, A>, OutOfMemory>
    ensures { IfOk result (λ copy. copy.items ≡ flags.now) }
{
    let mut copy = Vec::new(alloc);
    copy.extend_from_slice(flags)?;
    Ok(copy)
}
