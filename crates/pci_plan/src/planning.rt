//! Planning: places for everything, and the writes that lead there.
ghost use Rattle.std.specs.Prelude.{◌≡◌, ◌↔◌, ◌⊎◌, IfOk, IsTrue, IsFalse, OnOk, MatchOption, length, count_by, Err};
ghost use Rattle.pci_spec.specs.Slot.{Slot as SlotValue};
ghost use Rattle.std.specs.List.{All};
ghost use Rattle.std.specs.List.Sorted.{IsStrictlyIncreasing};
ghost use Rattle.pci_spec.specs.Decoded.{IsDecodable};
ghost use Rattle.pci_tree.specs.Admission.{IsAdmitted};
ghost use Rattle.pci_tree.specs.Roots.{buses_of};
ghost use Rattle.pci_spec.specs.Sound.{IsSound};
ghost use Rattle.pci_spec.specs.Window.{WindowKind as KindValue};
ghost use Rattle.plan_spec.specs.Plan.{fits, are_bad, LacksWindow};
ghost use Rattle.plan_spec.specs.PlanPromise.{CanBePlanned, IsFirstTooLarge};
ghost use Rattle.pci_base.specs.WindowKinds.{kind_value};
ghost use Rattle.pci_place.specs.Pools.{pools_value};
ghost use Rattle.pci_place.specs.Above.{AreAboves, system_in};
ghost use Rattle.pci_place.specs.Needs.{AreAllNeeds};
ghost use Rattle.pci_place.specs.Places.{HasPlaces};
ghost use Rattle.pci_plan.specs.Writes.{is_image_on};
ghost use Rattle.pci_plan.specs.Numbered.{AreNewHeaders};
ghost use Rattle.pci_plan.specs.Plans.{IsPlanIn, IsFaultOfPlan};

use super::numbered::number_all;
use super::plan::Plan;
use super::plan_fault::PlanFault;
use super::planned::planned_dump;
use super::writes::{closings, writes_between};
use pci_base::memory::{OutOfMemory, Refused};
use pci_base::slot::BUSES;
use pci_base::window_kind::{ByKind, WindowKind};
use pci_check::check::check;
use pci_check::verdict::Verdict;
use pci_image::register::HEADER_LEN;
use pci_place::above::{Above, aboves};
use pci_place::lacking::first_lacking;
use pci_place::need::{Needs, needs_of};
use pci_place::place::{Places, place_class};
use pci_place::pools::Pools;
use pci_place::room::has_room;
use pci_tree::admitted::Admitted;
use pci_tree::roots::Roots;
use std::alloc::Allocator;

/// Puts into `needs` what the buses need of each class.
fn all_needs<A: Allocator>(
    admitted: &Admitted<A>,
    pools: &Pools,
    aboves: &[Above; BUSES],
    needs: &mut ByKind<Needs>,
)
    requires { AreAboves (system_in admitted.now) aboves.now }
    ensures { AreAllNeeds admitted.now.roots (system_in admitted.now)
        (pools_value pools.now) needs.new }
{
    needs_of(admitted, pools, WindowKind::Io, aboves, &mut needs.io);
    needs_of(
        admitted,
        pools,
        WindowKind::Memory,
        aboves,
        &mut needs.memory,
    );
    needs_of(
        admitted,
        pools,
        WindowKind::Prefetchable,
        aboves,
        &mut needs.prefetchable,
    );
}

/// The first class that doesn't fit its pool.
fn first_too_large<A: Allocator>(
    admitted: &Admitted<A>,
    pools: &Pools,
    needs: &ByKind<Needs>,
) -> Option<WindowKind>
    requires { AreAllNeeds admitted.now.roots (system_in admitted.now)
        (pools_value pools.now) needs.now }
    ensures { MatchOption result ((c : KindValue)
        → IsTrue (fits admitted.now.roots (system_in admitted.now) (pools_value pools.now) c))
        (λ class. IsFirstTooLarge admitted.now.roots (system_in admitted.now)
        (pools_value pools.now) (kind_value class)) }
{
    if !has_room(admitted, pools, WindowKind::Io, &needs.io) {
        return Some(WindowKind::Io);
    }
    if !has_room(admitted, pools, WindowKind::Memory, &needs.memory) {
        return Some(WindowKind::Memory);
    }
    if !has_room(
        admitted,
        pools,
        WindowKind::Prefetchable,
        &needs.prefetchable,
    ) {
        return Some(WindowKind::Prefetchable);
    }
    None
}

/// A place for each function's parts, none of which is placed yet.
fn no_places<A: Allocator, B: Allocator>(
    alloc: A,
    admitted: &Admitted<B>,
) -> Result<Vec<Places, A>, OutOfMemory>
    ensures { IfOk result (λ v. length v.items ≡ length (system_in admitted.now)) }
{
    let records = admitted.outline().records();
    let mut places = Vec::new(alloc);
    for _ in 0..records.len() {
        places.push(Places::NONE)?;
    }
    Ok(places)
}

/// The place of everything.
fn all_places<A: Allocator + Copy, B: Allocator>(
    alloc: A,
    admitted: &Admitted<B>,
    pools: &Pools,
    aboves: &[Above; BUSES],
    needs: &ByKind<Needs>,
) -> Result<Vec<Places, A>, OutOfMemory>
    requires plannable { CanBePlanned admitted.now.roots (system_in admitted.now)
        (pools_value pools.now) }
    requires aboves { AreAboves (system_in admitted.now) aboves.now }
    requires needs { AreAllNeeds admitted.now.roots (system_in admitted.now)
        (pools_value pools.now) needs.now }
    ensures count { IfOk result (λ v. length v.items ≡ length (system_in admitted.now)) }
    ensures places { IfOk result (λ v. (c : KindValue)
        → HasPlaces admitted.now.roots (system_in admitted.now) (pools_value pools.now) c v.items) }
{
    let mut places = no_places(alloc, admitted)?;
    let all = places.as_mut_slice();
    place_class(
        alloc,
        admitted,
        pools,
        WindowKind::Io,
        aboves,
        &needs.io,
        all,
    )?;
    place_class(
        alloc,
        admitted,
        pools,
        WindowKind::Memory,
        aboves,
        &needs.memory,
        all,
    )?;
    place_class(
        alloc,
        admitted,
        pools,
        WindowKind::Prefetchable,
        aboves,
        &needs.prefetchable,
        all,
    )?;
    Ok(places)
}

/// The root buses, which rise; and the system decodes.
fn roots_of<A: Allocator>(admitted: &Admitted<A>) -> Roots
    ensures value { buses_of result ≡ admitted.now.roots }
    ensures rising { IsStrictlyIncreasing admitted.now.roots }
    ensures admitted { IsAdmitted admitted.now }
    ensures decodable { All IsDecodable (system_in admitted.now) }
{
    admitted.outline().roots()
}

/// From how many writes on a stop leaves a sound system.
fn safe_from<A: Allocator + Copy>(alloc: A, admitted: &Admitted<A>) -> Result<usize, OutOfMemory>
    ensures { IfOk result (λ n. (IsSound admitted.now.roots (system_in admitted.now) × (n ≡ 0))
        ⊎ ((IsSound admitted.now.roots (system_in admitted.now) → ⊥)
        × (n ≡ count_by (λ b. is_image_on b.image) admitted.now.dump))) }
{
    match check(alloc, admitted)? {
        Verdict::Yes(_) => Ok(0),
        Verdict::No(_) => Ok(closings(admitted.dump().blocks())),
    }
}

/// The headers of all functions with everything at its place, by what the buses need.
fn numbered_by<A: Allocator + Copy>(
    alloc: A,
    admitted: &Admitted<A>,
    pools: &Pools,
    aboves: &[Above; BUSES],
    needs: &ByKind<Needs>,
) -> Result<Vec<[u8; HEADER_LEN], A>, OutOfMemory>
    requires plannable { CanBePlanned admitted.now.roots (system_in admitted.now)
        (pools_value pools.now) }
    requires aboves { AreAboves (system_in admitted.now) aboves.now }
    requires needs { AreAllNeeds admitted.now.roots (system_in admitted.now)
        (pools_value pools.now) needs.now }
    ensures { IfOk result
        (λ headers. AreNewHeaders admitted.now (pools_value pools.now) headers.items) }
{
    let places = all_places(alloc, admitted, pools, aboves, needs)?;
    number_all(alloc, admitted, pools, needs, places.as_slice())
}

/// The headers of all functions with everything at its place, or the class that doesn't fit its pool.
///
/// It has a frame of its own: what the buses need takes 12 KB of stack, and is let go before the start is judged.
#[inline(never)]
fn placed<A: Allocator + Copy>(
    alloc: A,
    admitted: &Admitted<A>,
    pools: &Pools,
    aboves: &[Above; BUSES],
) -> Result<Vec<[u8; HEADER_LEN], A>, Refused<PlanFault>>
    requires good { IsFalse (are_bad (pools_value pools.now)) }
    requires windows { (slot : SlotValue) → LacksWindow (system_in admitted.now) slot → ⊥ }
    requires aboves { AreAboves (system_in admitted.now) aboves.now }
    ensures plannable { OnOk result (CanBePlanned admitted.now.roots (system_in admitted.now)
        (pools_value pools.now)) }
    ensures headers { IfOk result
        (λ headers. AreNewHeaders admitted.now (pools_value pools.now) headers.items) }
    ensures fault { (f : PlanFault) → (result ≡ Err (Refused.Fault f))
        ↔ IsFaultOfPlan admitted.now pools.now f }
{
    // Read for what it says of the system.
    let _roots = roots_of(admitted);
    let mut needs = ByKind {
        io: Needs::NONE,
        memory: Needs::NONE,
        prefetchable: Needs::NONE,
    };
    all_needs(admitted, pools, aboves, &mut needs);
    match first_too_large(admitted, pools, &needs) {
        None => {}
        Some(class) => return Err(Refused::Fault(PlanFault::NoRoom(class))),
    }
    match numbered_by(alloc, admitted, pools, aboves, &needs) {
        Ok(headers) => Ok(headers),
        Err(OutOfMemory) => Err(Refused::Memory),
    }
}

/// The plan by which all functions have these headers.
fn made<'a, A: Allocator + Copy>(
    alloc: A,
    admitted: &'a Admitted<A>,
    pools: &Pools,
    headers: Vec<[u8; HEADER_LEN], A>,
) -> Result<Plan<'a, A>, OutOfMemory>
    requires plannable { CanBePlanned admitted.now.roots (system_in admitted.now)
        (pools_value pools.now) }
    requires headers { AreNewHeaders admitted.now (pools_value pools.now) headers.items }
    ensures { IfOk result (IsPlanIn admitted.entry.now (pools_value pools.now)) }
{
    // Read for what it says of the system and the roots.
    let _roots = roots_of(admitted);
    let _last = pools.pref.last;
    let safe_from = safe_from(alloc, admitted)?;
    let dump = planned_dump(alloc, admitted, pools, headers.as_slice())?;
    drop(headers);
    let writes = writes_between(alloc, admitted.dump().blocks(), dump.blocks())?;
    Ok(Plan::of(admitted, dump, writes, safe_from))
}

/// Gives every implemented BAR and ROM a place in the pool of its class, every window just what stands behind it, and
/// Command bits 0 and 1 where there is something to decode.
///
/// # Errors
///
/// 70 `BadPools`, else 71 `NoWindow` of the first function by slot that has an I/O BAR behind a bridge without an I/O
/// window, else 72 `NoRoom` of the first class that doesn't fit, I/O before memory before prefetchable memory; `Memory`
/// (2) where a growth was refused. 73 `NotAccepted` never comes: that a plan is sound is a law, so none is judged.
pub fn plan<'a, A: Allocator + Copy>(
    alloc: A,
    admitted: &'a Admitted<A>,
    pools: &Pools,
) -> Result<Plan<'a, A>, Refused<PlanFault>>
    // in these pools, and with everything at its place: a `Plan` alone says no such thing
    ensures planned { IfOk result (IsPlanIn admitted.entry.now (pools_value pools.now)) }
    // both ways: what can be planned is refused for want of memory alone, and never by 73
    ensures fault { (f : PlanFault) → (result ≡ Err (Refused.Fault f))
        ↔ IsFaultOfPlan admitted.entry.now pools.now f }
{
    if pools.are_bad() {
        return Err(Refused::Fault(PlanFault::BadPools));
    }
    // Read for what it says of the system.
    let _roots = roots_of(admitted);
    let aboves = aboves(admitted);
    match first_lacking(admitted, &aboves) {
        None => {}
        Some(slot) => return Err(Refused::Fault(PlanFault::NoWindow(slot))),
    }
    let headers = match placed(alloc, admitted, pools, &aboves) {
        Ok(headers) => headers,
        Err(why) => return Err(why),
    };
    match made(alloc, admitted, pools, headers) {
        Ok(plan) => Ok(plan),
        Err(OutOfMemory) => Err(Refused::Memory),
    }
}
