//! The addresses that a bridge passes, and what it leaves of a list of ranges.
ghost use Rattle.std.specs.Prelude.{◌≡◌, ◌+◌, ◌-◌, ◌^◌, ◌<◌, ◌≤◌, ◌↔◌, ◌⊎◌, ℕ, length, min, IfOk, OnOk, IfSome};
ghost use Rattle.std.specs.List.{filter, flat_map};
ghost use Rattle.pci_tree.specs.Ranges.{Holds, Covers, IsCanonical};
ghost use Rattle.pci_tree.specs.Passing.{Passes, IsPassed, HoldsSome, IsPush, IsReach, has_common, ranges_of};

use super::ranges::meet;
use pci_base::memory::OutOfMemory;
use pci_base::range::Range;
use std::alloc::Allocator;

/// What a bridge passes: nothing, one range, or two with at least one address between them.
#[derive(Clone, Copy, Debug, PartialEq, Eq)]
pub enum Forwarded {
    Nothing,
    One(Range),
    Two(Range, Range),
}

/// What two ranges pass together.
fn join(r: Range, s: Range) -> Forwarded
    requires first { r.first ≤ r.last }
    requires second { s.first ≤ s.last }
    ensures lawful { IsPassed result }
    ensures exact { (a : ℕ) → Passes result a ↔ (Holds r a ⊎ Holds s a) }
{
    if r.last < s.first && 1 < s.first - r.last {
        return Forwarded::Two(r, s);
    }
    if s.last < r.first && 1 < r.first - s.last {
        return Forwarded::Two(s, r);
    }
    let first = if r.first < s.first { r.first } else { s.first };
    let last = if r.last < s.last { s.last } else { r.last };
    Forwarded::One(Range { first, last })
}

/// What a bridge passes by two windows, each of which may be absent.
pub fn union(v: Option<Range>, w: Option<Range>) -> Forwarded
    // else an empty range could be passed on, which no list of ranges may have
    requires first { IfSome v (λ r. r.first ≤ r.last) }
    requires second { IfSome w (λ r. r.first ≤ r.last) }
    // one range where the two touch, so that what is passed on keeps its gaps
    ensures lawful { IsPassed result }
    ensures exact { (a : ℕ) → Passes result a ↔ (HoldsSome v a ⊎ HoldsSome w a) }
{
    match v {
        None => match w {
            None => Forwarded::Nothing,
            Some(s) => Forwarded::One(s),
        },
        Some(r) => match w {
            None => Forwarded::One(r),
            Some(s) => join(r, s),
        },
    }
}

/// Adds what two ranges have in common to ranges that lie below one of them.
fn add_meet<A: Allocator>(out: &mut Vec<Range, A>, r: Range, w: Range) -> Result<(), OutOfMemory>
    requires canonical { IsCanonical out.old.items }
    requires below { (a : ℕ) → Covers out.old.items a → (a + 1 < r.first) ⊎ (a + 1 < w.first) }
    ensures { OnOk result (IsPush out.old.items out.new.items (λ a. Holds r a × Holds w a)) }
{
    if let Some(m) = meet(r, w) {
        out.push(m)?;
    }
    Ok(())
}

/// Adds what a bridge passes of a range to ranges that lie below it.
fn add_passed<A: Allocator>(
    out: &mut Vec<Range, A>,
    r: Range,
    forwarded: Forwarded,
) -> Result<(), OutOfMemory>
    requires canonical { IsCanonical out.old.items }
    requires below { (a : ℕ) → Covers out.old.items a → a + 1 < r.first }
    requires lawful { IsPassed forwarded }
    ensures { OnOk result
        (IsPush out.old.items out.new.items (λ a. Holds r a × Passes forwarded a)) }
{
    match forwarded {
        Forwarded::Nothing => {}
        Forwarded::One(w) => add_meet(out, r, w)?,
        Forwarded::Two(v, w) => {
            add_meet(out, r, v)?;
            add_meet(out, r, w)?;
        }
    }
    Ok(())
}

/// Whether two ranges have an address in common.
fn is_met(r: Range, w: Range) -> bool
    ensures { result ≡ has_common r w }
{
    meet(r, w).is_some()
}

/// How many ranges a bridge passes of one.
fn count_passed(r: Range, forwarded: Forwarded) -> usize
    ensures { result ≡ length (filter (has_common r) (ranges_of forwarded)) }
{
    match forwarded {
        Forwarded::Nothing => 0,
        Forwarded::One(w) => usize::from(is_met(r, w)),
        Forwarded::Two(v, w) => usize::from(is_met(r, v)) + usize::from(is_met(r, w)),
    }
}

/// How many ranges a bridge passes of some, as far as that is a `usize`.
fn room_for(rs: &[Range], forwarded: Forwarded) -> usize
    ensures { result ≡ min
        (length (flat_map (λ r. filter (has_common r) (ranges_of forwarded)) rs.now))
        (2 ^ 64 - 1) }
{
    let mut room: usize = 0;
    for r in rs {
        room = room.saturating_add(count_passed(*r, forwarded));
    }
    room
}

/// What a bridge passes of the addresses that get to its own bus.
pub fn passed_on<A: Allocator>(
    alloc: A,
    rs: &[Range],
    forwarded: Forwarded,
) -> Result<Vec<Range, A>, OutOfMemory>
    // what gets to a bus rises, so what gets behind it does too
    requires canonical { IsCanonical rs.now }
    // two windows with a gap, lower one first, keep a rising list rising
    requires lawful { IsPassed forwarded }
    // it rises with gaps again, so that the next bridge down may pass it on
    ensures { IfOk result (λ out. IsReach rs.now forwarded out.items) }
{
    let Ok(mut out) = Vec::with_capacity(alloc, room_for(rs, forwarded)) else {
        return Err(OutOfMemory);
    };
    for r in rs {
        add_passed(&mut out, *r, forwarded)?;
    }
    Ok(out)
}
