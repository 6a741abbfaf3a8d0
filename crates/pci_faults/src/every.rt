//! All faults of a dump and its probe, with what is given and told.
ghost use Rattle.std.specs.Prelude.{◌≡◌, ◌↔◌, [], map, IfOk, MatchOption};
ghost use Rattle.pci_spec.specs.Text.{IsDump};
ghost use Rattle.judge_spec.specs.Told.{IsTold};
ghost use Rattle.judge_spec.specs.ToldFault.{NotListed};
ghost use Rattle.judge_spec.specs.ToldFaultLines.{AreJudged, AreAllFaults};
ghost use Rattle.judge_spec.specs.UnclaimedLaws.{with_taking};
ghost use Rattle.pci_tree.specs.Admission.{IsOutlineFor};
ghost use Rattle.pci_tree.specs.Roots.{buses_of};
ghost use Rattle.pci_claims.specs.Values.{code_given_value, told_value};
ghost use Rattle.pci_faults.specs.AllLines.{any_fault_value, plain_fault, AreAllLines};
ghost use Rattle.pci_faults.specs.Every.{first_phase, AreBefore, AreEarlyWith, AreReadyForJudging, AreSoundAsTold, IsBeforeJudging, AreTakenFor, IsJudgedOf};

use super::all_lines::{add_without_told, all_of_judging};
use super::any_fault::AnyFault;
use super::before::{add_orphans, slots_not_listed, slots_of_no_bus};
use super::said::Said;
use super::taken::taken;
use crate::early::faults_from;
use pci_base::memory::{OutOfMemory, Refused};
use pci_base::slot::Slot;
use pci_claims::given::Given;
use pci_claims::taking::{Taking, all_lent};
use pci_claims::told::Told;
use pci_dump::block::Block;
use pci_dump::dump::Dump;
use pci_dump::told_range::ToldRange;
use pci_function::fault::Fault;
use pci_tree::admit::outline_of;
use pci_tree::outline::Outline;
use pci_tree::roots::Roots;
use std::alloc::Allocator;

/// The phase in which 30 is looked for.
const SLOTS: u8 = 0;

/// The phase in which 50, 57 and 58 are looked for.
const PLACES: u8 = 4;

/// All faults of a dump and its probe, with what is given and told.
#[derive(Drop)]
pub struct AllFaults<A: Allocator> {
    /// In the order in which they are looked for.
    pub faults: Vec<AnyFault, A>,
    /// What was judged; none where faults were found before judging.
    pub judged: Option<Outline<A>>,
    /// What bridges take as no region of their bus claims it, where something was judged; else nothing.
    pub taking: Vec<Taking<A>, A>,
}

/// What is found of a dump and its probe before judging.
#[derive(Drop)]
pub enum BeforeJudging<A: Allocator> {
    /// Faults, in the order in which they are looked for; at least one.
    Refused(Vec<AnyFault, A>),
    /// There is none; this is to be judged.
    Admitted(Outline<A>),
}

/// Faults that name no told range.
fn all_without_told<A: Allocator>(
    alloc: A,
    known: &[Fault],
) -> Result<Vec<AnyFault, A>, OutOfMemory>
    ensures { IfOk result (λ v. map any_fault_value v.items ≡ map plain_fault known.now) }
{
    let mut faults = Vec::new(alloc);
    add_without_told(&mut faults, known)?;
    Ok(faults)
}

/// 34 of each of these slots.
fn all_not_listed<A: Allocator>(alloc: A, slots: &[Slot]) -> Result<Vec<AnyFault, A>, OutOfMemory>
    ensures { IfOk result (λ v. map any_fault_value v.items ≡ map NotListed slots.now) }
{
    let mut faults = Vec::new(alloc);
    for slot in slots {
        faults.push(AnyFault::NotListed(*slot))?;
    }
    Ok(faults)
}

/// The phase of the first of some faults; that of places where there is none.
fn first_phase(faults: &[Fault]) -> u8
    ensures { result ≡ first_phase faults.now }
{
    match faults.first() {
        Some(fault) => fault.phase(),
        None => PLACES,
    }
}

/// The faults before judging, where `early` are those without what is told, of one phase: 30 as it is. Else 34 of each slot
/// that a `command` or an `always` range names and that isn't listed. Else the others, and 58 of held ranges with those of
/// places.
fn early_with<A: Allocator + Copy>(
    alloc: A,
    ranges: &[ToldRange],
    dump: &[Block],
    roots: &Roots,
    mut early: Vec<Fault, A>,
) -> Result<Vec<AnyFault, A>, OutOfMemory>
    requires told { IsTold ranges.now }
    requires dump { IsDump dump.now }
    ensures { IfOk result (λ v. AreEarlyWith ranges.now (buses_of roots.now) dump.now early.items
        (map any_fault_value v.items)) }
{
    let phase = first_phase(&early);
    if phase == SLOTS {
        return all_without_told(alloc, &early);
    }
    let slots = slots_not_listed(alloc, ranges, dump)?;
    if !slots.is_empty() {
        return all_not_listed(alloc, &slots);
    }
    if phase < PLACES {
        return all_without_told(alloc, &early);
    }
    let orphans = slots_of_no_bus(alloc, ranges, dump, roots)?;
    add_orphans(&mut early, &orphans)?;
    all_without_told(alloc, &early)
}

/// The faults of the earliest phase before judging that has any, of a dump and its probe as a system with these root buses,
/// with what is told: 34 behind 30, and 58 of held ranges with those of places. Else what is to be judged.
///
/// # Errors
///
/// 2 where a growth was refused.
pub fn before_judging<A: Allocator + Copy, B: Allocator, C: Allocator>(
    alloc: A,
    dump: &Dump<B>,
    probe: &Dump<C>,
    roots: Roots,
    told: &Told<'_>,
) -> Result<BeforeJudging<A>, OutOfMemory>
    // they are read of a text
    requires { IsTold told.now.ranges.now }
    ensures { IfOk result (IsBeforeJudging (told_value told.now) (buses_of roots) dump.now probe.now) }
{
    match outline_of(alloc, dump, probe, roots) {
        Ok(outline) => {
            let none = Vec::new(alloc);
            let early = early_with(alloc, told.ranges, dump.blocks(), &roots, none)?;
            if !early.is_empty() {
                return Ok(BeforeJudging::Refused(early));
            }
            Ok(BeforeJudging::Admitted(outline))
        }
        Err(Refused::Fault(first)) => {
            let early = faults_from(alloc, dump, probe, &roots, first)?;
            let faults = early_with(alloc, told.ranges, dump.blocks(), &roots, early)?;
            Ok(BeforeJudging::Refused(faults))
        }
        Err(Refused::Memory) => Err(OutOfMemory),
    }
}

/// All faults of judging, with what bridges take as no region of their bus claims it.
fn faults_with<A: Allocator + Copy>(
    alloc: A,
    said: &Said<'_>,
    taking: &[Taking<A>],
    outline: &Outline<A>,
) -> Result<Vec<AnyFault, A>, OutOfMemory>
    // they are read of a text
    requires { IsTold said.now.told.ranges.now }
    ensures { IfOk result (λ v. AreAllLines (told_value said.now.told)
        (with_taking taking.now (code_given_value said.now.given)) outline.now v.items) }
{
    let lent = all_lent(alloc, taking)?;
    let given = said.given;
    let given = Given {
        unclaimed: &lent,
        ..given
    };
    all_of_judging(alloc, &given, &said.told, outline)
}

/// What bridges take, all faults of judging with that, and what was judged.
fn judge<A: Allocator + Copy>(
    alloc: A,
    said: &Said<'_>,
    outline: Outline<A>,
) -> Result<AllFaults<A>, OutOfMemory>
    // they are read of a text
    requires { IsTold said.now.told.ranges.now }
    ensures { IfOk result (λ found. IsJudgedOf (told_value said.now.told) (code_given_value said.now.given)
        said.now.taking.now outline found.judged found.taking.items found.faults.items) }
{
    let taking = taken(alloc, said, &outline)?;
    let faults = faults_with(alloc, said, &taking, &outline)?;
    Ok(AllFaults {
        faults,
        judged: Some(outline),
        taking,
    })
}

/// All faults of the earliest phase that has any, of a dump and its probe as a system with the root buses that are said, with
/// what is given and told: those of [`before_judging`], else all of judging, as [`all_of_judging`] tells them with what
/// bridges take. They stand in the order in which they are looked for.
///
/// # Errors
///
/// 2 where a growth was refused.
pub fn all_faults<A: Allocator + Copy, B: Allocator, C: Allocator>(
    alloc: A,
    dump: &Dump<B>,
    probe: &Dump<C>,
    said: &Said<'_>,
) -> Result<AllFaults<A>, OutOfMemory>
    // they are read of a text
    requires { IsTold said.now.told.ranges.now }
    // what is taken where no fault is of an earlier phase
    ensures taken { IfOk result (λ found. AreTakenFor (told_value said.now.told)
        (code_given_value said.now.given) (buses_of said.now.roots) dump.now probe.now
        said.now.taking.now found.taking.items) }
    // where nothing is judged nothing is taken
    ensures untaken { IfOk result (λ found. (AreReadyForJudging (told_value said.now.told)
        (buses_of said.now.roots) dump.now probe.now → ⊥) → found.taking.items ≡ []) }
    ensures all { IfOk result (λ found. AreAllFaults (told_value said.now.told)
        (with_taking found.taking.items (code_given_value said.now.given)) (buses_of said.now.roots)
        dump.now probe.now (map any_fault_value found.faults.items)) }
    ensures none { IfOk result (λ found. (found.faults.items ≡ [])
        ↔ AreSoundAsTold (told_value said.now.told)
        (with_taking found.taking.items (code_given_value said.now.given)) (buses_of said.now.roots)
        dump.now probe.now) }
    // what was judged is told where no fault is of an earlier phase
    ensures judged { IfOk result (λ found. MatchOption found.judged
        (AreBefore (told_value said.now.told)
        (with_taking found.taking.items (code_given_value said.now.given)) (buses_of said.now.roots)
        dump.now probe.now (map any_fault_value found.faults.items))
        (λ outline. AreJudged (told_value said.now.told)
        (with_taking found.taking.items (code_given_value said.now.given)) (buses_of said.now.roots)
        dump.now probe.now (map any_fault_value found.faults.items) × IsOutlineFor record {
          roots = buses_of said.now.roots;
          dump = dump.now;
          probe = probe.now;
        } outline)) }
{
    let found = before_judging(alloc, dump, probe, said.roots, &said.told)?;
    match found {
        BeforeJudging::Refused(faults) => Ok(AllFaults {
            faults,
            judged: None,
            taking: Vec::new(alloc),
        }),
        BeforeJudging::Admitted(outline) => judge(alloc, said, outline),
    }
}
