//! The claims of a bus that registers show: what its BARs, ROMs, windows, legacy parts and palette parts answer.
ghost use Rattle.std.specs.Prelude.{◌≡◌, ◌==◌, ◌⊎◌, ◌↔◌, ℕ, [], map, IsTrue, MatchOption, IfOk, OnOk};
ghost use Rattle.std.specs.List.{Contains, filter};
ghost use Rattle.std.specs.List.Sorted.{IsNonDecreasingBy, IsPermutation};
ghost use Rattle.pci_spec.specs.System.{System, IsAddress};
ghost use Rattle.pci_spec.specs.Bus.{IsNested};
ghost use Rattle.pci_spec.specs.Slot.{same_slot};
ghost use Rattle.pci_spec.specs.Decoded.{HasRecords};
ghost use Rattle.pci_base.specs.Space.{space_of};
ghost use Rattle.pci_tree.specs.Ranges.{Covers, IsCanonical};
ghost use Rattle.pci_tree.specs.Outline.{RiseBySlot};
ghost use Rattle.pci_tree.specs.Trees.{HasTree};
ghost use Rattle.pci_function.specs.declared.record.Record.{Record as RecordValue};
ghost use Rattle.pci_claims.specs.Values.{code_given_value};
ghost use Rattle.pci_claims.specs.BusClaims.{claim_number, HasFixedPart, IsAnsweringPart, AreOnBus, AreRegionClaims, ArePartClaims, AreMoreClaims, AreBridgesOf, AreRegisterClaimsAmong, AreClaimsOfParts, AreRegisterClaimsInEach};

use super::board::Board;
use super::claim::{Arriving, Claim, claim_of, claim_of_part};
use super::given::{Given, LegacyBridge};
use super::legacy::{FixedPart, bridges_with};
use super::passed::is_bridge_on;
use super::reach::access_reach;
use pci_base::memory::OutOfMemory;
use pci_base::range::Range;
use pci_base::slot::Slot;
use pci_base::space::Space;
use pci_function::record::Record;
use pci_tree::bus::record_at;
use pci_tree::outline::Outline;
use pci_tree::region::Region;
use std::alloc::Allocator;

/// The bridges at some slots, and the records of all functions by slot.
#[derive(Clone, Copy)]
struct Bridges<'s, 'r> {
    slots: &'s [Slot],
    records: &'r [Record],
}

/// What some regions answer of the addresses that get to their bus.
fn region_claims<A: Allocator + Copy>(
    alloc: A,
    given: &Given<'_>,
    regions: &[Region],
    arriving: &Arriving,
) -> Result<Vec<Claim<A>, A>, OutOfMemory>
    requires { IsCanonical arriving.now.reach.now }
    ensures { IfOk result (λ v. AreRegionClaims (code_given_value given.now)
        (space_of arriving.now.space) regions.now arriving.now.reach.now v.items) }
{
    let space = arriving.space;
    let reach = arriving.reach;
    let mut claims = Vec::new(alloc);
    for region in regions {
        let claim = claim_of(alloc, given, region, space, reach)?;
        claims.push(claim)?;
    }
    Ok(claims)
}

/// Whether a part is of the bridge at a slot.
fn is_at(entry: &LegacyBridge, slot: Slot) -> bool
    ensures { result ≡ same_slot entry.now.slot slot }
{
    entry.slot == slot
}

/// Whether the bridge at a slot has a part.
fn has_part(given: &Given<'_>, part: FixedPart, slot: Slot) -> bool
    ensures { IsTrue result ↔ HasFixedPart (code_given_value given.now) part slot }
{
    for entry in bridges_with(given, part) {
        if is_at(entry, slot) {
            return true;
        }
    }
    false
}

/// The bridge at a slot, where it answers accesses of a space, and has a part.
fn answering<'r>(
    given: &Given<'_>,
    part: FixedPart,
    records: &'r [Record],
    slot: Slot,
    space: Space,
) -> Option<&'r Record>
    // found by halving
    requires { RiseBySlot records.now }
    ensures { MatchOption result ((r : RecordValue)
        → IsAnsweringPart (code_given_value given.now) part records.now (space_of space) slot r → ⊥)
        (λ r. IsAnsweringPart (code_given_value given.now) part records.now (space_of space) slot r.now) }
{
    if !has_part(given, part, slot) {
        return None;
    }
    let Some(bridge) = record_at(records, slot) else {
        return None;
    };
    if is_bridge_on(bridge, space) {
        Some(bridge)
    } else {
        None
    }
}

/// Adds what a part of bridges answers of the addresses that get to their bus.
fn add_part_claims<A: Allocator + Copy>(
    claims: &mut Vec<Claim<A>, A>,
    given: &Given<'_>,
    part: FixedPart,
    bridges: &Bridges,
    arriving: &Arriving,
) -> Result<(), OutOfMemory>
    // found by halving
    requires rising { RiseBySlot bridges.now.records.now }
    requires canonical { IsCanonical arriving.now.reach.now }
    ensures { OnOk result (AreMoreClaims (ArePartClaims (code_given_value given.now) part
        (space_of arriving.now.space) bridges.now.records.now arriving.now.reach.now
        bridges.now.slots.now) claims.old.items claims.new.items) }
{
    let alloc = *claims.allocator();
    for slot in bridges.slots {
        if let Some(bridge) = answering(given, part, bridges.records, *slot, arriving.space) {
            let claim = claim_of_part(alloc, given, part, bridge, arriving)?;
            claims.push(claim)?;
        }
    }
    Ok(())
}

/// The slots of a bus.
fn slots_on<A: Allocator>(alloc: A, slots: &[Slot], bus: u8) -> Result<Vec<Slot, A>, OutOfMemory>
    ensures { IfOk result (λ v. v.items ≡ filter (λ slot. slot.bus == bus) slots.now) }
{
    let mut out = Vec::new(alloc);
    for slot in slots {
        if slot.bus() == bus {
            out.push(*slot)?;
        }
    }
    Ok(out)
}

/// The slot of a region or of a bridge, where there is one.
fn some_slot(regions: &[Region], bridges: &[Slot]) -> Option<Slot>
    ensures { MatchOption result ((regions.now ≡ []) × (bridges.now ≡ []))
        (λ slot. Contains (map (λ r. r.slot) regions.now) slot ⊎ Contains bridges.now slot) }
{
    match regions.first() {
        Some(region) => Some(region.slot),
        None => bridges.first().copied(),
    }
}

/// Sorts claims by slot and register.
pub(crate) fn sort<A: Allocator>(claims: &mut Vec<Claim<A>, A>) -> Result<(), OutOfMemory>
    ensures permutation { IsPermutation claims.old.items claims.new.items }
    ensures sorted { OnOk result (IsNonDecreasingBy claim_number claims.new.items) }
{
    match claims.sort_by_key(|claim| claim.number()) {
        Ok(()) => Ok(()),
        Err(_) => Err(OutOfMemory),
    }
}

/// What stands on a bus: the regions of a space that address registers show, and the slots of bridges.
#[derive(Clone, Copy)]
struct OnBus<'r, 'b> {
    regions: &'r [Region],
    bridges: &'b [Slot],
}

/// What BARs, ROMs, windows, legacy parts and palette parts of a bus answer of some addresses.
fn claims_arriving<A: Allocator + Copy>(
    alloc: A,
    board: &Board<'_, '_, A>,
    here: &OnBus,
    arriving: &Arriving,
) -> Result<Vec<Claim<A>, A>, OutOfMemory>
    requires canonical { IsCanonical arriving.now.reach.now }
    requires bridges { AreBridgesOf board.now.outline.now board.now.bridges.now }
    ensures claims { IfOk result (λ v. (s : System) → HasTree board.now.outline.now s → (bus : ℕ)
        → AreOnBus s bus (space_of arriving.now.space) board.now.bridges.now here.now.regions.now here.now.bridges.now
        → ((a : ℕ) → Covers arriving.now.reach.now a → IsAddress (space_of arriving.now.space) a)
        → AreRegisterClaimsAmong (code_given_value board.now.given) s bus (space_of arriving.now.space)
        arriving.now.reach.now v.items) }
    // handed on with them: no bridge leads to a root bus
    ensures nested { (s : System) → HasRecords s board.now.outline.now.records
        → IsNested board.now.outline.now.roots s }
{
    let given = &board.given;
    let bridges = Bridges {
        slots: here.bridges,
        records: board.outline.records(),
    };
    let mut claims = region_claims(alloc, given, here.regions, arriving)?;
    add_part_claims(&mut claims, given, FixedPart::Legacy, &bridges, arriving)?;
    add_part_claims(&mut claims, given, FixedPart::Palette, &bridges, arriving)?;
    Ok(claims)
}

/// What legacy parts and palette parts of a bus answer of some addresses.
pub(crate) fn part_claims<A: Allocator + Copy>(
    alloc: A,
    board: &Board<'_, '_, A>,
    bus: u8,
    arriving: &Arriving,
) -> Result<Vec<Claim<A>, A>, OutOfMemory>
    requires canonical { IsCanonical arriving.now.reach.now }
    requires bridges { AreBridgesOf board.now.outline.now board.now.bridges.now }
    ensures { IfOk result (λ v. (s : System) → HasTree board.now.outline.now s
        → ((a : ℕ) → Covers arriving.now.reach.now a → IsAddress (space_of arriving.now.space) a)
        → AreClaimsOfParts (code_given_value board.now.given) s bus (space_of arriving.now.space)
        arriving.now.reach.now v.items) }
{
    let given = &board.given;
    let mut claims = Vec::new(alloc);
    // most machines have none, and then the bridges needn't be listed
    if given.legacy.is_empty() && given.palette.is_empty() {
        return Ok(claims);
    }
    let slots = slots_on(alloc, board.bridges, bus)?;
    let bridges = Bridges {
        slots: &slots,
        records: board.outline.records(),
    };
    add_part_claims(&mut claims, given, FixedPart::Legacy, &bridges, arriving)?;
    add_part_claims(&mut claims, given, FixedPart::Palette, &bridges, arriving)?;
    Ok(claims)
}

/// The claims of a bus and a space of its BARs, ROMs, windows, legacy parts and palette parts, by slot and register.
pub(crate) fn register_claims<A: Allocator + Copy>(
    alloc: A,
    board: &Board<'_, '_, A>,
    bus: u8,
    space: Space,
) -> Result<Vec<Claim<A>, A>, OutOfMemory>
    // looked for once, for all buses
    requires { AreBridgesOf board.now.outline.now board.now.bridges.now }
    ensures { IfOk result (λ v. AreRegisterClaimsInEach (code_given_value board.now.given)
        board.now.outline.now bus (space_of space) v.items) }
{
    let outline = board.outline;
    let regions = outline.regions(bus, space)?;
    let bridges = slots_on(alloc, board.bridges, bus)?;
    let Some(slot) = some_slot(&regions, &bridges) else {
        return Ok(Vec::new(alloc));
    };
    let Some(reach) = access_reach(alloc, &board.given, outline, slot, space)? else {
        return Ok(Vec::new(alloc));
    };
    let here = OnBus {
        regions: &regions,
        bridges: &bridges,
    };
    let arriving = Arriving {
        space,
        reach: &reach,
    };
    let mut claims = claims_arriving(alloc, board, &here, &arriving)?;
    sort(&mut claims)?;
    Ok(claims)
}
