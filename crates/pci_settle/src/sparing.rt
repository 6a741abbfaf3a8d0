//! Settling with room behind slots: in new windows, where the same parts stay, and then by wishes.
ghost use Rattle.std.specs.Prelude.{◌≡◌, ◌^◌, ◌<◌, List, [], IsFalse, IfOk, IfErr, IfSome, length, map};
ghost use Rattle.std.specs.List.{All};
ghost use Rattle.std.specs.Option.{is_some};
ghost use Rattle.pci_spec.specs.Slot.{Slot as SlotValue};
ghost use Rattle.settle_spec.specs.Lists.{are_bad_lists};
ghost use Rattle.settle_spec.specs.Kept.{Kept as Keeping};
ghost use Rattle.pci_place.specs.Above.{system_in};
ghost use Rattle.pci_plan.specs.Writes.{write_value};
ghost use Rattle.pci_first_fit.specs.Lists.{lists_value};
ghost use Rattle.pci_first_fit.specs.Slots.{demand_value};
ghost use Rattle.pci_kept.specs.Flags.{AreFlags};
ghost use Rattle.pci_settle.specs.Requests.{request};
ghost use Rattle.pci_settle.specs.Denied.{denied_value, IsSpared};
ghost use Rattle.pci_settle.specs.Ended.{ended_value, IsEndOfSettling};
ghost use Rattle.pci_settle.specs.Endings.{kept_after, IsEndedAfter};
ghost use Rattle.pci_settle.specs.Sparing.{with_slots, asked_value, IsWishedFor, HaveSpares};
ghost use Rattle.pci_settle.specs.Wishes.{behind_slots};

use crate::alike::keep_alike;
use crate::ended::Ended;
use crate::lack::SettleFault;
use crate::settle::{Settled, settle_listed};
use crate::wished::{Wished, settled_wished};
use crate::wishes::wishes_of;
use pci_base::memory::{OutOfMemory, Refused};
use pci_first_fit::kept::Kept;
use pci_first_fit::list::Lists;
use pci_first_fit::slots::Slots;
use pci_kept::fixed::flags_of;
use pci_kept::open_windows::open_windows;
use pci_kept::rules::Rules;
use pci_tree::admitted::Admitted;
use std::alloc::Allocator;

/// What is asked of settling.
#[derive(Clone, Copy)]
struct Asked<'l, 'f, 'g> {
    /// With the room that is wanted behind slots.
    lists: Lists<'l>,
    rules: Rules<'f>,
    /// Of each slot whether its function may not be written.
    flags: &'g [bool],
}

/// The same lists with no room behind slots.
fn without_slots<'a>(lists: &Lists<'a>) -> Lists<'a>
    ensures { demand_value result ≡ with_slots [] (demand_value lists.now) }
{
    Lists {
        io: lists.io,
        mem: lists.mem,
        pref: lists.pref,
        slots: Slots {
            bridges: &[],
            io: lists.slots.io,
            mem: lists.slots.mem,
            pref: lists.slots.pref,
        },
        told: lists.told,
    }
}

/// Settles with the wishes that are granted beside what is kept. New windows were placed by the lists `placing`.
#[inline(never)]
fn settle_wished<A: Allocator + Copy, B: Allocator>(
    alloc: A,
    admitted: &Admitted<B>,
    asked: &Asked,
    placing: &Lists,
    ended: &Ended<A>,
) -> Result<Settled<A>, OutOfMemory>
    requires flags { AreFlags asked.now.rules.fixed.now asked.now.flags.now }
    // a told range has its flag by its index
    requires told { length ended.now.standing.items ≡ length placing.now.told.ranges.now }
    // what is known of a function stands where its record does
    requires places { length ended.now.places.items ≡ length (system_in admitted.now) }
    requires staying { length ended.now.staying.items ≡ length (system_in admitted.now) }
    requires titles { map (λ b. b.title) ended.now.settled.dump ≡ map (λ b. b.title) admitted.now.dump }
    ensures titles { IfOk result
        (λ x. map (λ b. b.title) x.dump ≡ map (λ b. b.title) admitted.now.dump) }
    ensures wished { IfOk result (λ x. (slots : List SlotValue) (keep : Keeping)
        → demand_value placing.now ≡ with_slots slots (demand_value asked.now.lists)
        → IsEndOfSettling (behind_slots (asked_value admitted.now.roots asked.now) slots) keep admitted.now (ended_value ended.now)
        → IsWishedFor (asked_value admitted.now.roots asked.now) slots keep admitted.now x.dump
        (map write_value x.writes.all.items) x.writes.closings (map denied_value x.denied.items)) }
{
    let tables = ended.tables();
    let wishes = wishes_of(alloc, admitted, &asked.lists, asked.flags, &tables)?;
    let over = open_windows(admitted.outline().records(), asked.rules.anew);
    let wished = Wished {
        windows: wishes.wished.as_slice(),
        plain: ended.settled.dump.blocks(),
    };
    let settled = settled_wished(alloc, admitted, placing, &over, &tables, &wished)?;
    Ok(Settled {
        dump: settled.dump,
        writes: settled.writes,
        denied: wishes.denied,
    })
}

/// What is settled where no bridge has a slot.
fn unspared<A: Allocator>(alloc: A, ended: Ended<A>) -> Settled<A>
    ensures dump { result.dump ≡ ended.settled.dump }
    ensures writes { result.writes ≡ ended.settled.writes }
    ensures denied { result.denied.items ≡ [] }
{
    Settled {
        dump: ended.settled.dump,
        writes: ended.settled.writes,
        denied: Vec::new(alloc),
    }
}

/// What settling comes to where new windows over slots have spares; None where nothing is settled so, or other parts stay than
/// without slots: `staying` tells which of these do.
fn with_spares<A: Allocator + Copy, B: Allocator>(
    alloc: A,
    admitted: &Admitted<B>,
    asked: &Asked,
    staying: &[Kept],
) -> Result<Option<Ended<A>>, OutOfMemory>
    requires flags { AreFlags asked.now.rules.fixed.now asked.now.flags.now }
    requires staying { length staying.now ≡ length (system_in admitted.now) }
    // else it is refused before
    requires fine { IsFalse (are_bad_lists admitted.now.roots (lists_value asked.now.lists)) }
    ensures titles { IfOk result (λ o. IfSome o
        (λ x. map (λ b. b.title) x.settled.dump ≡ map (λ b. b.title) admitted.now.dump)) }
    ensures places { IfOk result (λ o. IfSome o
        (λ x. length x.places.items ≡ length (system_in admitted.now))) }
    ensures staying { IfOk result (λ o. IfSome o
        (λ x. length x.staying.items ≡ length (system_in admitted.now))) }
    ensures told { IfOk result (λ o. IfSome o
        (λ x. length x.standing.items ≡ length asked.now.lists.told.ranges.now)) }
    ensures spares { IfOk result (λ o. IfSome o (λ x. IsEndOfSettling (asked_value admitted.now.roots asked.now)
        (kept_after (asked_value admitted.now.roots asked.now) (system_in admitted.now)) admitted.now (ended_value x))) }
    ensures have { IfOk result (λ o. HaveSpares admitted.now (asked_value admitted.now.roots asked.now)
        staying.now (is_some o)) }
{
    match settle_listed(alloc, admitted, &asked.lists, &asked.rules, asked.flags) {
        Ok(ended) => {
            if keep_alike(admitted, staying, ended.staying.as_slice()) {
                Ok(Some(ended))
            } else {
                Ok(None)
            }
        }
        Err(Refused::Memory) => Err(OutOfMemory),
        Err(Refused::Fault(_)) => Ok(None),
    }
}

/// Settles in lists that are fine.
#[inline(never)]
pub fn settle_sparing<A: Allocator + Copy, B: Allocator>(
    alloc: A,
    admitted: &Admitted<B>,
    lists: &Lists,
    rules: &Rules,
) -> Result<Settled<A>, Refused<SettleFault>>
    // else it is refused before
    requires fine { IsFalse (are_bad_lists admitted.now.roots (lists_value lists.now)) }
    requires high { All (λ r. r.range.last < 2 ^ 64) lists.now.pref.now }
    ensures titles { IfOk result
        (λ x. map (λ b. b.title) x.dump ≡ map (λ b. b.title) admitted.now.dump) }
    ensures spared { IfOk result (λ x. IsSpared
        (request admitted.now.roots (demand_value lists.now) rules.now.fixed.now rules.now.anew) admitted.now x.dump
        (map write_value x.writes.all.items) x.writes.closings (map denied_value x.denied.items)) }
    ensures refusal { IfErr result (λ e. IsEndedAfter admitted.now
        (request admitted.now.roots (with_slots [] (demand_value lists.now)) rules.now.fixed.now rules.now.anew) e) }
{
    // what it was admitted by: the contract speaks of the system that it makes
    let _outline = admitted.outline();
    let table = flags_of(alloc, rules.fixed)?;
    let flags = table.as_slice();
    let alone = without_slots(lists);
    let without = settle_listed(alloc, admitted, &alone, rules, flags)?;
    if lists.slots.bridges.is_empty() {
        return Ok(unspared(alloc, without));
    }
    let asked = Asked {
        lists: *lists,
        rules: *rules,
        flags,
    };
    let settled = match with_spares(alloc, admitted, &asked, without.staying.as_slice())? {
        Some(spared) => settle_wished(alloc, admitted, &asked, lists, &spared)?,
        None => settle_wished(alloc, admitted, &asked, &alone, &without)?,
    };
    Ok(settled)
}
