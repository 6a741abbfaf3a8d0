//! What is told beside a dump and its probe.
ghost use Rattle.std.specs.Prelude.{◌≡◌, ◌<◌, ◌≤◌, ◌↔◌, IfOk, IsTrue, length, map};
ghost use Rattle.std.specs.List.{AllWithin, Contains};
ghost use Rattle.std.specs.List.Sorted.{IsNonDecreasingBy, IsPermutation};
ghost use Rattle.pci_spec.specs.Slot.{slot_number};
ghost use Rattle.pci_spec.specs.System.{System, IsSystem};
ghost use Rattle.pci_spec.specs.Decoded.{HasRecords};
ghost use Rattle.pci_base.specs.Space.{space_of};
ghost use Rattle.pci_function.specs.Values.{record_value};
ghost use Rattle.pci_tree.specs.Outline.{RiseBySlot};
ghost use Rattle.judge_spec.specs.ToldClaims.{Told as ToldValue, is_on_by, is_enabled_at, is_range_on};
ghost use Rattle.pci_dump.specs.ToldMarks.{mark_of};
ghost use Rattle.pci_claims.specs.Values.{told_value};
ghost use Rattle.pci_claims.specs.ToldOn.{AreOnIn};

use pci_base::memory::OutOfMemory;
use pci_base::slot::Slot;
use pci_base::space::Space;
use pci_dump::told_range::{Mark, ToldRange};
use pci_function::record::Record;
use pci_tree::bus::record_at;
use pci_tree::outline::Outline;
use std::alloc::Allocator;

/// Told ranges in the order of their lines, and the slots of functions that are taken as asleep (Power Management 1.2, 5.4).
#[derive(Clone, Copy, Debug)]
pub struct Told<'a> {
    pub ranges: &'a [ToldRange],
    pub asleep: &'a [Slot],
}

/// Slots by their numbers.
fn by_number<A: Allocator>(alloc: A, slots: &[Slot]) -> Result<Vec<Slot, A>, OutOfMemory>
    ensures permutation { IfOk result (λ v. IsPermutation slots.now v.items) }
    ensures sorted { IfOk result (λ v. IsNonDecreasingBy slot_number v.items) }
{
    let mut out = Vec::new(alloc);
    out.extend_from_slice(slots)?;
    match out.sort_by_key(|slot| slot.number()) {
        Ok(()) => Ok(out),
        Err(_) => Err(OutOfMemory),
    }
}

/// The index of the first slot that isn't below another.
fn first_not_below(slots: &[Slot], slot: Slot) -> usize
    requires { IsNonDecreasingBy slot_number slots.now }
    ensures bound { result ≤ length slots.now }
    ensures before { AllWithin (λ s. slot_number s < slot_number slot) slots.now 0 result }
    ensures after { AllWithin (λ s. slot_number slot ≤ slot_number s) slots.now result (length slots.now) }
{
    let number = slot.number();
    slots.partition_point(|other| other.number() < number)
}

/// Whether a slot is one of some that stand by their numbers.
fn is_among(slots: &[Slot], slot: Slot) -> bool
    // it is found by halving
    requires { IsNonDecreasingBy slot_number slots.now }
    ensures { IsTrue result ↔ Contains slots.now slot }
{
    let index = first_not_below(slots, slot);
    if index == slots.len() {
        return false;
    }
    slots[index].number() == slot.number()
}

/// Whether a range with a mark is on, by whether its function is awake and Command enables its space.
fn is_on_by(mark: Mark, is_awake: bool, is_enabled: bool) -> bool
    ensures { result ≡ is_on_by (mark_of mark) is_awake is_enabled }
{
    match mark {
        Mark::Command => is_awake && is_enabled,
        Mark::Always => is_awake,
        Mark::Held => true,
    }
}

/// Whether Command of the function at a slot enables a space.
fn is_enabled_at(records: &[Record], slot: Slot, space: Space) -> bool
    // it is found by halving
    requires { RiseBySlot records.now }
    ensures { (s : System) → IsSystem s → HasRecords s (map record_value records.now)
        → result ≡ is_enabled_at s slot (space_of space) }
{
    match record_at(records, slot) {
        None => false,
        Some(function) => space.is_on(function.command),
    }
}

/// Whether a told range is on, by the slots of functions that are taken as asleep.
fn is_on(asleep: &[Slot], records: &[Record], range: &ToldRange) -> bool
    // both are looked up by halving
    requires asleep { IsNonDecreasingBy slot_number asleep.now }
    requires rising { RiseBySlot records.now }
    ensures { (told : ToldValue) (s : System) → IsPermutation told.asleep asleep.now → IsSystem s
        → HasRecords s (map record_value records.now) → result ≡ is_range_on told s range.now }
{
    let is_awake = !is_among(asleep, range.slot);
    let is_enabled = is_enabled_at(records, range.slot, range.space);
    is_on_by(range.mark, is_awake, is_enabled)
}

/// Of each told range whether it is on.
pub fn ranges_on<A: Allocator + Copy>(
    alloc: A,
    told: &Told<'_>,
    outline: &Outline<A>,
) -> Result<Vec<bool, A>, OutOfMemory>
    ensures { IfOk result (λ v. AreOnIn (told_value told.now) outline.now v.items) }
{
    let mut on = Vec::new(alloc);
    if told.ranges.is_empty() {
        return Ok(on);
    }
    let asleep = by_number(alloc, told.asleep)?;
    let records = outline.records();
    for range in told.ranges {
        on.push(is_on(&asleep, records, range))?;
    }
    Ok(on)
}
