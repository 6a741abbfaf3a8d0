//! Settling: the dump in which all has its place, and the writes that lead there.
ghost use Rattle.std.specs.Prelude.{◌≡◌, ◌==◌, ◌&&◌, ◌≤◌, ◌<◌, ◌^◌, ◌⊎◌, ℕ, IfOk, IfErr, OnOk, length, map, take};
ghost use Rattle.std.specs.List.{All};
ghost use Rattle.pci_spec.specs.Sound.{IsSound};
ghost use Rattle.pci_spec.specs.System.{system_of};
ghost use Rattle.pci_spec.specs.Machine.{system_after};
ghost use Rattle.settle_spec.specs.Lists.{Request};
ghost use Rattle.settle_spec.specs.Writes as spec;
ghost use Rattle.settle_spec.specs.Kept.{Kept as Keeping};
ghost use Rattle.settle_spec.specs.Sparing.{without_slots};
ghost use Rattle.pci_base.specs.declared.memory.Refused.TheVariants as refused;
ghost use Rattle.pci_tree.specs.Admission.{IsAdmitted};
ghost use Rattle.pci_place.specs.Above.{system_in};
ghost use Rattle.pci_plan.specs.Moves.{IsMove};
ghost use Rattle.pci_plan.specs.Writes.{write_value};
ghost use Rattle.pci_first_fit.specs.Slots.{demand_value};
ghost use Rattle.pci_kept.specs.Flags.{AreFlags};
ghost use Rattle.pci_kept.specs.Known.{asked_by_rules};
ghost use Rattle.pci_settle_places.specs.Placed.{CanBeLeft, ArePlacesOff};
ghost use Rattle.pci_settle.specs.Requests.{request, CanStay};
ghost use Rattle.pci_settle.specs.Dumps.{IsSettledByWrites};
ghost use Rattle.pci_settle.specs.Denied.{denied_value, IsSpared};
ghost use Rattle.pci_settle.specs.Bounded.{HasBounds, AreBounds};
ghost use Rattle.pci_settle.specs.PlacedBy.{IsPlacedBy};
ghost use Rattle.pci_settle.specs.AsTold.{EndsAsTold, StopsAsTold, AlwaysReaches, EndsOffLines};
ghost use Rattle.pci_settle.specs.ToldEndings.{AreClearAbove};
ghost use Rattle.pci_settle.specs.Ended.{ended_value, held_value, IsEndOfSettling};
ghost use Rattle.pci_settle.specs.Endings.{IsLackOff, AreAskedFor, IsEndedBy, IsNotGrown, kept_after, IsEndedAfter, IsRefusal, HasNoAssumed};

use crate::assumed::first_assumed;
use crate::bounds::Bounds;
use crate::dump::{Images, settled_dump};
use crate::ended::{Ended, Held};
use crate::fixed::fixed_write;
use crate::growth::settle_grown;
use crate::lack::{SettleFault, fault_of};
use crate::shut::all_closings;
use crate::sparing::settle_sparing;
use crate::standing::{settle_all, settle_standing};
use crate::tables::Tables;
use crate::told::{known_ranges, switched};
use crate::way::Way;
use crate::writes::{Writes, writes_to};
use pci_base::memory::{OutOfMemory, Refused};
use pci_base::range::RootRange;
use pci_base::slot::Slot;
use pci_dump::dump::Dump;
use pci_first_fit::kept::Kept;
use pci_first_fit::list::Lists;
use pci_first_fit::over::{Left, OpenWindows};
use pci_kept::rules::Rules;
use pci_plan::moving::Move;
use pci_settle_places::place::place;
use pci_settle_places::places::Places;
use pci_tree::admitted::Admitted;
use std::alloc::{Allocator, Global};

/// A window of a bridge with a slot in which the spare that is wanted has no room.
#[derive(Clone, Copy, Debug, PartialEq, Eq)]
pub struct Denied {
    /// The bridge.
    pub slot: Slot,
    /// The byte offset of the window's first register: `1c` of I/O, `20` of memory, `24` of prefetchable memory.
    pub register: u8,
}

/// What settling leads to.
#[derive(Drop)]
pub struct Settled<A: Allocator = Global> {
    /// The dump after all writes.
    pub dump: Dump<A>,
    pub writes: Writes<A>,
    /// The windows whose spares have no room, the highest slot first, and of a slot by rising register.
    pub denied: Vec<Denied, A>,
}

impl<A: Allocator> Settled<A> {
    /// The settling as `apply` of `pci_plan` takes it. `settle` answers one from the dump that it was given.
    pub fn as_move<'a, B: Allocator>(&'a self, admitted: &'a Admitted<B>) -> Move<'a, B>
        requires { IsMove record {
          start = admitted.now;
          dump = self.now.dump;
          writes = map write_value self.now.writes.all.items;
          safe_from = self.now.writes.closings;
        } }
        ensures { result ≡ record {
          start = admitted.entry.now;
          dump = self.entry.now.dump;
          writes = map write_value self.entry.now.writes.all.items;
          safe_from = self.entry.now.writes.closings;
        } }
    {
        Move::of(
            admitted,
            self.dump.blocks(),
            self.writes.all.as_slice(),
            self.writes.closings,
        )
    }
}

/// The new places of all parts that don't stay, or the fault where something has none.
fn places<A: Allocator + Copy, B: Allocator>(
    alloc: A,
    admitted: &Admitted<B>,
    lists: &Lists,
    left: &Left,
) -> Result<Vec<Places, A>, Refused<SettleFault>>
    requires { CanBeLeft admitted.now.roots (system_in admitted.now) (demand_value lists.now) left.now }
    ensures places { IfOk result (λ table. ArePlacesOff admitted.now.roots (system_in admitted.now)
        (demand_value lists.now) left.now table.items) }
    ensures fault { IfErr result (IsLackOff admitted.now (demand_value lists.now) left.now) }
    // who looks up a block of the settled dump needs a probe of the same slots
    ensures admitted { IsAdmitted admitted.now }
{
    // what it was admitted by: the contract speaks of the system that it makes
    let _outline = admitted.outline();
    match place(alloc, admitted, lists, left) {
        Ok(table) => Ok(table),
        Err(Refused::Memory) => Err(Refused::Memory),
        Err(Refused::Fault(unplaced)) => Err(Refused::Fault(fault_of(admitted, unplaced))),
    }
}

/// What settling comes to, and what the bridges above each bus are meanwhile.
#[derive(Drop)]
struct SettledAt<A: Allocator> {
    settled: Settled<A>,
    /// By bus number.
    ways: Vec<Way, A>,
}

/// What settling comes to by tables of what is known of each function: the places that parts get, none for what stays, what
/// stays, and what windows that grow come to. `overs` has the open windows over each bus, which are none where all is placed
/// anew.
///
/// Errors: 2 `OutOfMemory` where a growth was refused.
fn settled_at<'a, A: Allocator + Copy, B: Allocator>(
    alloc: A,
    admitted: &Admitted<B>,
    lists: &Lists,
    overs: &[OpenWindows],
    tables: &Tables<'a>,
) -> Result<SettledAt<A>, OutOfMemory>
    // a function's places stand where its record does
    requires places { length tables.now.places.now ≡ length (system_in admitted.now) }
    // what stays of a function stands where its record does
    requires staying { length tables.now.staying.now ≡ length (system_in admitted.now) }
    // a told range has its flag by its index
    requires told { length tables.now.standing.now ≡ length lists.now.told.ranges.now }
    // a title is the caller's own text, and no register
    ensures titles { IfOk result
        (λ x. map (λ b. b.title) x.settled.dump ≡ map (λ b. b.title) admitted.now.dump) }
    // bus numbers index them
    ensures buses { IfOk result (λ x. length x.ways.items ≡ 256) }
    ensures settled { IfOk result (λ x. (q : Request) (keep : Keeping)
        → IsPlacedBy q keep admitted.now lists.now overs.now tables.now
        → IsSettledByWrites q keep admitted.now x.settled.dump (map write_value x.settled.writes.all.items)
        x.settled.writes.closings) }
    ensures ways { IfOk result (λ x. (q : Request) (keep : Keeping)
        → IsPlacedBy q keep admitted.now lists.now overs.now tables.now
        → AreClearAbove q (system_in admitted.now) keep x.ways.items) }
{
    let dump = settled_dump(alloc, admitted, lists, tables, &[])?;
    let images = Images {
        plain: dump.blocks(),
        settled: dump.blocks(),
    };
    let closings = all_closings(alloc, admitted, lists, overs, &images, tables)?;
    let writes = writes_to(alloc, admitted, images.settled, closings.each.as_slice())?;
    let settled = Settled {
        dump,
        writes,
        denied: Vec::new(alloc),
    };
    Ok(SettledAt {
        settled,
        ways: closings.ways,
    })
}

/// Settles once it is known what is kept: which parts stay, by function in slot order, and what `left` tells of windows that
/// grow. Each fixed part and each told range that is on stands and stays.
#[inline(never)]
pub fn settle_held<A: Allocator + Copy, B: Allocator>(
    alloc: A,
    admitted: &Admitted<B>,
    lists: &Lists,
    bounds: &Bounds,
    left: &Left,
    staying: &[Kept],
) -> Result<Held<A>, Refused<SettleFault>>
    requires bounds { HasBounds bounds.now }
    // they are of the ranges that are told
    requires told { bounds.now.told.ranges ≡ lists.now.told }
    requires staying { length staying.now ≡ length (system_in admitted.now) }
    requires left { CanBeLeft admitted.now.roots (system_in admitted.now) (demand_value lists.now) left.now }
    ensures titles { IfOk result
        (λ x. map (λ b. b.title) x.settled.dump ≡ map (λ b. b.title) admitted.now.dump) }
    ensures places { IfOk result (λ x. length x.places.items ≡ length (system_in admitted.now)) }
    ensures ends { IfOk result (λ x. (q : Request) (keep : Keeping)
        → AreBounds q (system_in admitted.now) bounds.now
        → AreAskedFor q keep admitted.now (demand_value lists.now) left.now staying.now
        → IsEndOfSettling q keep admitted.now
        (held_value x staying.now left.now.grown.now bounds.now.told.standing.now)) }
    ensures refusal { IfErr result (λ e. (q : Request) (keep : Keeping)
        → AreBounds q (system_in admitted.now) bounds.now
        → AreAskedFor q keep admitted.now (demand_value lists.now) left.now staying.now
        → IsEndedBy admitted.now q keep e) }
{
    let table = places(alloc, admitted, lists, left)?;
    let tables = Tables {
        places: table.as_slice(),
        staying,
        grown: left.grown,
        standing: bounds.told.standing,
    };
    let SettledAt { settled, ways } = settled_at(alloc, admitted, lists, left.over, &tables)?;
    if let Some(fault) = fixed_write(bounds.fixed, settled.writes.all.as_slice()) {
        return Err(Refused::Fault(fault));
    }
    if let Some(fault) = switched(alloc, &bounds.told, settled.dump.blocks(), ways.as_slice())? {
        return Err(Refused::Fault(fault));
    }
    Ok(Held {
        settled,
        places: table,
    })
}

/// Settles beside what stays as it stands, once windows that grow were refused by this fault. A new window that is too large for
/// these has no place beside what stands either.
#[inline(never)]
fn settle_ungrown<A: Allocator + Copy, B: Allocator>(
    alloc: A,
    admitted: &Admitted<B>,
    lists: &Lists,
    rules: &Rules,
    bounds: &Bounds,
    fault: SettleFault,
) -> Result<Ended<A>, Refused<SettleFault>>
    requires has { HasBounds bounds.now }
    requires told { bounds.now.told.ranges ≡ lists.now.told }
    requires bounds { AreBounds (asked_by_rules admitted.now.roots (demand_value lists.now) rules.now)
        (system_in admitted.now) bounds.now }
    requires rest { CanStay (asked_by_rules admitted.now.roots (demand_value lists.now) rules.now) }
    // else windows would grow
    requires fault { IsNotGrown admitted.now
        (asked_by_rules admitted.now.roots (demand_value lists.now) rules.now) (refused.Fault fault) }
    ensures titles { IfOk result
        (λ x. map (λ b. b.title) x.settled.dump ≡ map (λ b. b.title) admitted.now.dump) }
    ensures places { IfOk result (λ x. length x.places.items ≡ length (system_in admitted.now)) }
    ensures staying { IfOk result (λ x. length x.staying.items ≡ length (system_in admitted.now)) }
    ensures told { IfOk result (λ x. length x.standing.items ≡ length lists.now.told.ranges.now) }
    ensures ends { IfOk result (λ x. IsEndOfSettling
        (asked_by_rules admitted.now.roots (demand_value lists.now) rules.now)
        (kept_after (asked_by_rules admitted.now.roots (demand_value lists.now) rules.now)
        (system_in admitted.now)) admitted.now (ended_value x)) }
    ensures refusal { IfErr result (λ e. IsEndedAfter admitted.now
        (asked_by_rules admitted.now.roots (demand_value lists.now) rules.now) e) }
{
    let ended = settle_standing(alloc, admitted, lists, rules, bounds)?;
    if fault.is_too_large() {
        return Err(Refused::Fault(fault));
    }
    Ok(ended)
}

/// Settles where windows grow, or else beside what stays as it stands.
#[inline(never)]
fn settle_rest<A: Allocator + Copy, B: Allocator>(
    alloc: A,
    admitted: &Admitted<B>,
    lists: &Lists,
    rules: &Rules,
    flags: &[bool],
) -> Result<Ended<A>, Refused<SettleFault>>
    requires flags { AreFlags rules.now.fixed.now flags.now }
    requires rest { CanStay (asked_by_rules admitted.now.roots (demand_value lists.now) rules.now) }
    ensures titles { IfOk result
        (λ x. map (λ b. b.title) x.settled.dump ≡ map (λ b. b.title) admitted.now.dump) }
    ensures places { IfOk result (λ x. length x.places.items ≡ length (system_in admitted.now)) }
    ensures staying { IfOk result (λ x. length x.staying.items ≡ length (system_in admitted.now)) }
    ensures told { IfOk result (λ x. length x.standing.items ≡ length lists.now.told.ranges.now) }
    ensures ends { IfOk result (λ x. IsEndOfSettling
        (asked_by_rules admitted.now.roots (demand_value lists.now) rules.now)
        (kept_after (asked_by_rules admitted.now.roots (demand_value lists.now) rules.now)
        (system_in admitted.now)) admitted.now (ended_value x)) }
    ensures refusal { IfErr result (λ e. IsEndedAfter admitted.now
        (asked_by_rules admitted.now.roots (demand_value lists.now) rules.now) e) }
{
    let known = known_ranges(alloc, admitted, lists, rules)?;
    let bounds = Bounds {
        fixed: flags,
        told: known.told(lists.told),
    };
    match settle_grown(alloc, admitted, lists, rules, &bounds) {
        Ok(ended) => Ok(ended),
        Err(Refused::Memory) => Err(Refused::Memory),
        Err(Refused::Fault(fault)) => {
            settle_ungrown(alloc, admitted, lists, rules, &bounds, fault)
        }
    }
}

/// Whether all is placed anew and nothing is told: then nothing stays.
fn is_all_moved(lists: &Lists, rules: &Rules) -> bool
    ensures { result ≡ (rules.now.anew && length lists.now.told.ranges.now == 0) }
{
    rules.anew && lists.told.as_slice().is_empty()
}

/// Settles in lists that are fine.
pub fn settle_listed<A: Allocator + Copy, B: Allocator>(
    alloc: A,
    admitted: &Admitted<B>,
    lists: &Lists,
    rules: &Rules,
    flags: &[bool],
) -> Result<Ended<A>, Refused<SettleFault>>
    requires flags { AreFlags rules.now.fixed.now flags.now }
    ensures titles { IfOk result
        (λ x. map (λ b. b.title) x.settled.dump ≡ map (λ b. b.title) admitted.now.dump) }
    ensures places { IfOk result (λ x. length x.places.items ≡ length (system_in admitted.now)) }
    ensures staying { IfOk result (λ x. length x.staying.items ≡ length (system_in admitted.now)) }
    ensures told { IfOk result (λ x. length x.standing.items ≡ length lists.now.told.ranges.now) }
    ensures ends { IfOk result (λ x. IsEndOfSettling
        (asked_by_rules admitted.now.roots (demand_value lists.now) rules.now)
        (kept_after (asked_by_rules admitted.now.roots (demand_value lists.now) rules.now)
        (system_in admitted.now)) admitted.now (ended_value x)) }
    ensures refusal { IfErr result (λ e. IsEndedAfter admitted.now
        (asked_by_rules admitted.now.roots (demand_value lists.now) rules.now) e) }
{
    if is_all_moved(lists, rules) {
        settle_all(alloc, admitted, lists, flags)
    } else {
        settle_rest(alloc, admitted, lists, rules, flags)
    }
}

/// The last address of a range.
fn last_of(one: &RootRange) -> u64
    ensures { one.now.range.last ≤ result }
{
    one.range.last
}

/// Each range of a list ends in 64 bits: read for what it says of the list.
fn end_in_64_bits(list: &[RootRange])
    ensures { All (λ r. r.range.last < 2 ^ 64) list.now }
{
    for i in 0..list.len() {
        let _last = last_of(&list[i]);
    }
}

/// Settles: what stands with room for what is behind it stays where it is, and a window that stands grows where it lacks that
/// room and has it beside itself. Where all is placed anew, only what leads to a told range stands. All else is placed in the
/// lists, off told ranges. Where that can't be done no window grows. Answers the dump that shows the places and the writes that
/// lead there. That dump is sound, and so is what stands after the first writes, once all that close are made, and from a sound
/// start at any time. Both are sound beside told ranges, too, where each slot of these is listed and their buses are led to.
///
/// Errors, the first of these that is there: 70 `BadLists` where the lists are refused; 76 `Assumed` with the first BAR, or
/// ROM that is on, whose read back is assumed, as the titles of the probe tell; 75 `Told` with the lowest line whose range is
/// on and doesn't stand; 74 `Fixed` with the first part of a function of `fixed` that doesn't stand; 75 `Told` with the lowest
/// line whose range stands and doesn't stay; 74 `Fixed` with the first part that doesn't stay; 72 `NoRoom` with the first part
/// on the roots that has no place in I/O; 72 `TooLarge` where a new window would have 2^64 addresses or more; 72 `NoRoom` with
/// the first part that has no place in memory; 74 `Fixed` with the first write to a function of `fixed`; 75 `Told` with the
/// lowest line whose range would be switched. 2 `Memory` where a growth was refused.
///
/// Where an open window has all addresses of 64 bits, and a function is fixed and not all is placed anew, or a range is told, 72
/// `TooLarge` comes right after 74 of what doesn't stand: such a window may have room for another of 2^64 addresses, so it
/// isn't known what stays. Nor is it known which windows would grow where one could grow to all addresses and a new window
/// would have 2^64 or more: then none does.
pub fn settle<A: Allocator + Copy, B: Allocator>(
    alloc: A,
    admitted: &Admitted<B>,
    lists: &Lists,
    fixed: &[Slot],
    anew: bool,
) -> Result<Settled<A>, Refused<SettleFault>>
    ensures sound { IfOk result
        (λ x. IsSound admitted.now.roots (system_of x.dump admitted.now.probe)) }
    ensures stops { IfOk result (λ x. (k : ℕ)
        → (x.writes.closings ≤ k) ⊎ IsSound admitted.now.roots (system_in admitted.now)
        → IsSound admitted.now.roots
        (system_after (system_in admitted.now) (take k (map write_value x.writes.all.items)))) }
    ensures reached { IfOk result
        (λ x. system_after (system_in admitted.now) (map write_value x.writes.all.items)
        ≡ system_of x.dump admitted.now.probe) }
    // with what is told: sound where its slots are listed and its buses are led to
    ensures told_sound { IfOk result (λ x. EndsAsTold
        (request admitted.now.roots (demand_value lists.now) fixed.now anew) (system_in admitted.now)
        (system_of x.dump admitted.now.probe)) }
    ensures told_stops { IfOk result (λ x. StopsAsTold
        (request admitted.now.roots (demand_value lists.now) fixed.now anew) (system_in admitted.now)
        (map write_value x.writes.all.items) x.writes.closings) }
    // what is answered always is reached at each stop, whatever the start
    ensures always { IfOk result (λ x. AlwaysReaches
        (request admitted.now.roots (demand_value lists.now) fixed.now anew) (system_in admitted.now)
        (map write_value x.writes.all.items)) }
    ensures off_lines { IfOk result (λ x. EndsOffLines
        (request admitted.now.roots (demand_value lists.now) fixed.now anew) (system_in admitted.now)
        (system_of x.dump admitted.now.probe)) }
    // by it `as_move` can be asked for
    ensures moves { IfOk result (λ x. IsMove record {
      start = admitted.now;
      dump = x.dump;
      writes = map write_value x.writes.all.items;
      safe_from = x.writes.closings;
    }) }
    // a title is the caller's own text, and no register
    ensures titles { IfOk result
        (λ x. map (λ b. b.title) x.dump ≡ map (λ b. b.title) admitted.now.dump) }
    // what a guessed size would move is never moved
    ensures sized { OnOk result (HasNoAssumed admitted.now) }
    // Each spare is denied or has room. Where no new window with its spare would have 2^64 addresses or more, it is settled as
    // the definitions say.
    ensures spared { IfOk result (λ x. IsSpared
        (request admitted.now.roots (demand_value lists.now) fixed.now anew) admitted.now x.dump
        (map write_value x.writes.all.items) x.writes.closings (map denied_value x.denied.items)) }
    // slots refuse nothing: what is refused is refused without them
    ensures refusal { IfErr result (λ e. IsRefusal admitted.now
        (without_slots (request admitted.now.roots (demand_value lists.now) fixed.now anew)) e) }
{
    let roots = admitted.outline().roots();
    end_in_64_bits(lists.pref);
    if lists.are_bad(&roots) {
        return Err(Refused::Fault(SettleFault::BadLists));
    }
    if let Some(fault) = first_assumed(admitted) {
        return Err(Refused::Fault(fault));
    }
    let settled = settle_sparing(alloc, admitted, lists, &Rules { fixed, anew })?;
    Ok(settled)
}
