//! The plan of two texts that lie in memory.
ghost use Rattle.std.specs.Prelude.{◌≡◌, ◌≤◌, ℕ, List, IfOk, IfErr};
ghost use Rattle.pci_tree.specs.Roots.{IsRootList};
ghost use Rattle.pciplan_c.specs.Texts.{AreTexts};
ghost use Rattle.pciplan_c.specs.PlanAnswers.{AreWritesOfPlan, IsNoPlanOf, pools_of};
ghost use Rattle.pciplan_c.specs.Endings.{AreWritesPutInFront, IsEnding, IsHeldBack, IsWhyNoWritesPut, lent};

use crate::admitting::{admit_texts, empty_place};
use crate::ending::{Ending, HeldBack, NotPut, Steps, tell};
use crate::inputs::Inputs;
use crate::no_writes::NoWrites;
use crate::pools::PoolsOfC;
use crate::refusal::Refusal;
use crate::register_write::{RegisterWrite, put_writes};
use crate::unread::Unread;
use pci_base::memory::Refused;
use pci_plan::planning::plan;
use pci_tree::admitted::Admitted;
use pci_tree::roots::Roots;
use std::alloc::Allocator;

/// Puts the writes of a plan of what is admitted at the front of `writes`. No list of them is made beside the plan's own.
fn put_plan<A: Allocator + Copy>(
    alloc: A,
    admitted: &Admitted<A>,
    pools: &PoolsOfC,
    writes: &mut [RegisterWrite],
) -> Result<Steps, NotPut>
    // of all texts that these dumps are of
    ensures put { IfOk result (λ s. (roots dump probe : List ℕ)
        → AreTexts roots dump probe admitted.now
        → AreWritesPutInFront (AreWritesOfPlan roots dump probe (pools_of pools.now)) writes.old writes.new s.count s.safe_from) }
    ensures quiet { IfErr result (λ _. writes.new ≡ writes.old) }
    ensures why { IfErr result (λ why. (roots dump probe : List ℕ)
        → AreTexts roots dump probe admitted.now
        → IsWhyNoWritesPut (AreWritesOfPlan roots dump probe (pools_of pools.now))
        (IsNoPlanOf roots dump probe (pools_of pools.now)) writes.old why) }
{
    // Read for what it says of what was admitted.
    let _outline = admitted.outline();
    let plan = match plan(alloc, admitted, &pools.pools()) {
        Ok(plan) => plan,
        Err(Refused::Fault(fault)) => return Err(NotPut::NoWrites(NoWrites::NotPlanned(fault))),
        Err(Refused::Memory) => return Err(NotPut::Memory),
    };
    let safe_from = plan.safe_from();
    match put_writes(plan.writes(), writes) {
        Ok(count) => Ok(Steps { count, safe_from }),
        Err(needed) => Err(NotPut::Writes(needed)),
    }
}

/// Plans two texts and puts the writes, in a frame that is let go before it is told what came of it.
#[inline(never)]
fn plan_texts<A: Allocator + Copy>(
    alloc: A,
    inputs: &Inputs<'_>,
    pools: &PoolsOfC,
    writes: &mut [RegisterWrite],
) -> Result<Steps, NotPut>
    ensures put { IfOk result (λ s. AreWritesPutInFront
        (AreWritesOfPlan inputs.now.roots.now inputs.now.dump.now inputs.now.probe.now (pools_of pools.now)) writes.old writes.new s.count s.safe_from) }
    ensures quiet { IfErr result (λ _. writes.new ≡ writes.old) }
    ensures why { IfErr result
        (IsWhyNoWritesPut (AreWritesOfPlan inputs.now.roots.now inputs.now.dump.now inputs.now.probe.now (pools_of pools.now))
        (IsNoPlanOf inputs.now.roots.now inputs.now.dump.now inputs.now.probe.now (pools_of pools.now)) writes.old) }
    ensures memory { IfErr result (λ why. why ≡ NotPut.Memory → IsRootList inputs.now.roots.now) }
{
    let Some(roots) = Roots::of(inputs.roots) else {
        return Err(NotPut::NoWrites(NoWrites::Unread(Unread::Refused(Refusal::Root))));
    };
    let Ok(mut place) = empty_place(alloc) else {
        return Err(NotPut::Memory);
    };
    match admit_texts(alloc, inputs.dump, inputs.probe, roots, &mut place) {
        Ok(()) => {}
        Err(Refused::Fault(unread)) => return Err(NotPut::NoWrites(NoWrites::Unread(unread))),
        Err(Refused::Memory) => return Err(NotPut::Memory),
    }
    let Some(admitted) = place.as_ref().as_ref() else {
        unreachable!();
    };
    match put_plan(alloc, admitted, pools, writes) {
        Ok(steps) => Ok(steps),
        Err(why) => Err(why),
    }
}

/// Plans two texts in these pools, with a list of root buses that has to rise strictly and to have a bus. The writes of
/// the plan are put at the front of `writes`; where there is no plan, why is put at the front of `line`.
///
/// # Errors
///
/// `Memory` where a growth was refused, which is asked for only where the roots are a list of root buses. `Writes` and `Line`
/// where `writes` or `line` has no room. Then both stay as they were.
#[tactic(auto, using(crate::proofs::Wants::plan_wants))]
pub fn plan_into<A: Allocator + Copy>(
    alloc: A,
    inputs: &Inputs<'_>,
    pools: &PoolsOfC,
    writes: &mut [RegisterWrite],
    line: &mut [u8],
) -> Result<Ending, HeldBack>
    ensures ending { IfOk result (IsEnding
        (AreWritesOfPlan inputs.now.roots.now inputs.now.dump.now inputs.now.probe.now (pools_of pools.now))
        (IsNoPlanOf inputs.now.roots.now inputs.now.dump.now inputs.now.probe.now (pools_of pools.now))
        (lent writes.old line.old) (lent writes.new line.new)) }
    // half a plan must not be taken for one
    ensures writes { IfErr result (λ _. writes.new ≡ writes.old) }
    ensures line { IfErr result (λ _. line.new ≡ line.old) }
    ensures room { IfErr result
        (IsHeldBack (AreWritesOfPlan inputs.now.roots.now inputs.now.dump.now inputs.now.probe.now (pools_of pools.now))
        (IsNoPlanOf inputs.now.roots.now inputs.now.dump.now inputs.now.probe.now (pools_of pools.now)) writes.old line.old) }
    // so 96 bytes always have room
    ensures short { IfErr result
        (λ held. (needed : ℕ) → held ≡ HeldBack.Line needed → needed ≤ 96) }
    // no memory helps a list that is none
    ensures memory { IfErr result (λ held. held ≡ HeldBack.Memory → IsRootList inputs.now.roots.now) }
{
    match plan_texts(alloc, inputs, pools, writes) {
        Ok(Steps { count, safe_from }) => Ok(Ending::Writes { count, safe_from }),
        Err(NotPut::NoWrites(why)) => tell(alloc, why, line),
        Err(NotPut::Memory) => Err(HeldBack::Memory),
        Err(NotPut::Writes(needed)) => Err(HeldBack::Writes(needed)),
    }
}
