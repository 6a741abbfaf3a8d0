//! The settling of two texts that lie in memory.
ghost use Rattle.std.specs.Prelude.{◌≡◌, ◌≤◌, ℕ, List, IfOk, IfErr};
ghost use Rattle.pci_tree.specs.Roots.{IsRootList, buses_of};
ghost use Rattle.pciplan_c.specs.Texts.{AreTexts};
ghost use Rattle.pciplan_c.specs.SettleWords.{said_demand, said_of_asked};
ghost use Rattle.pciplan_c.specs.SettleAnswers.{AreAllPut, AreSettledSome, IsAskedWith, IsNoSettlingOf, IsNotAskedWith, IsSettleEnding, IsSettleHeldBack, IsSettleSafeFrom, IsSettledAsAsked, IsUnput, MayWant, arrays, asked_request};
ghost use Rattle.pciplan_c.specs.Endings.{IsEnding, lent};
ghost use Rattle.pciplan_c.specs.declared.ending.HeldBack.TheVariants as held_back;
ghost use Rattle.pciplan_c.specs.declared.ending.NotPut.TheVariants as not_put;
ghost use Rattle.settle_spec.specs.Sparing.{without_slots};
ghost use Rattle.pci_settle.specs.Endings.{IsRefusal};
ghost use Rattle.pciplan_c.specs.declared.settle_words.SettleWords.{SettleWords as WordsValue};

use crate::admitting::{admit_texts, empty_place};
use crate::denied_spare::{DeniedSpare, put_denied};
use crate::ending::{Ending, HeldBack, NotPut, Steps, tell};
use crate::inputs::Inputs;
use crate::no_writes::NoWrites;
use crate::refusal::Refusal;
use crate::register_write::{RegisterWrite, put_writes};
use crate::settle_words::{Asked, SettleWords, asked_of};
use crate::told::told_of;
use crate::unread::Unread;
use pci_base::memory::{OutOfMemory, Refused};
use pci_base::slot::Slot;
use pci_check::check::check;
use pci_check::verdict::Verdict;
use pci_first_fit::list::Lists;
use pci_first_fit::told::ToldRanges;
use pci_settle::lack::SettleFault;
use pci_settle::settle::{Settled, settle};
use pci_settle::writes::Writes;
use pci_tree::admitted::Admitted;
use pci_tree::roots::Roots;
use pciplan_tasks::slots::{slots_for, slots_of};
use std::alloc::Allocator;

/// What a settling puts: its writes, and the windows whose spares have no room.
#[derive(Clone, Copy)]
pub struct Puts {
    pub steps: Steps,
    /// How many windows were put.
    pub denied: usize,
}

/// Why no writes of a settling are put.
#[derive(Clone, Copy)]
pub enum Unput {
    /// As with a plan.
    NotPut(NotPut),
    /// The array has room for fewer windows than these.
    Denied(usize),
}

/// What settling ends with.
#[derive(Clone, Copy, Debug, PartialEq, Eq)]
pub struct SettleEnding {
    pub ending: Ending,
    /// How many windows whose spares have no room were put.
    pub denied: usize,
}

/// Why nothing is put anywhere.
#[derive(Clone, Copy, Debug, PartialEq, Eq)]
pub enum SettleHeldBack {
    /// As with a plan.
    HeldBack(HeldBack),
    /// The array has room for fewer windows than these.
    Denied(usize),
}

/// From how many writes on a stop leaves a sound system, where so many of them close functions.
fn safe_from<A: Allocator + Copy>(
    alloc: A,
    admitted: &Admitted<A>,
    closings: usize,
) -> Result<usize, OutOfMemory>
    ensures { IfOk result (IsSettleSafeFrom admitted.now closings) }
{
    match check(alloc, admitted)? {
        Verdict::Yes(_) => Ok(0),
        Verdict::No(_) => Ok(closings),
    }
}

/// Settles what is admitted, where these bridges have a hot-plug slot.
fn settled_behind<'a, A: Allocator + Copy>(
    alloc: A,
    admitted: &Admitted<A>,
    asked: &'a Asked<A>,
    bridges: &'a [Slot],
) -> Result<Settled<A>, Refused<SettleFault>>
    requires { bridges.now
        ≡ (said_demand (said_of_asked asked.now) asked.now.told admitted.now.dump).slots }
    ensures settled { IfOk result (IsSettledAsAsked admitted.now asked.now) }
    ensures refusal { IfErr result
        (IsRefusal admitted.now (without_slots (asked_request admitted.now asked.now))) }
{
    let io = asked.io.as_slice();
    let mem = asked.mem.as_slice();
    let pref = asked.pref.as_slice();
    let slots = slots_of(bridges, &asked.spares);
    let lists = Lists {
        io,
        mem,
        pref,
        slots,
        told: ToldRanges::of(&asked.told),
    };
    let fixed = asked.fixed.as_slice();
    settle(alloc, admitted, &lists, fixed, asked.anew)
}

/// Settles what is admitted.
fn settled_of<A: Allocator + Copy>(
    alloc: A,
    admitted: &Admitted<A>,
    asked: &Asked<A>,
) -> Result<Settled<A>, Refused<SettleFault>>
    ensures settled { IfOk result (IsSettledAsAsked admitted.now asked.now) }
    ensures refusal { IfErr result
        (IsRefusal admitted.now (without_slots (asked_request admitted.now asked.now))) }
{
    let dump = admitted.dump().blocks();
    let bridges = slots_for(alloc, dump, &asked.spares, &asked.slots)?;
    settled_behind(alloc, admitted, asked, bridges.as_slice())
}

/// Puts the writes of settling what is admitted at the front of `writes`, and the windows whose spares have no room at the front
/// of `denied`. No list of writes is made beside its own.
fn put_settled<A: Allocator + Copy>(
    alloc: A,
    admitted: &Admitted<A>,
    asked: &Asked<A>,
    writes: &mut [RegisterWrite],
    denied: &mut [DeniedSpare],
) -> Result<Puts, Unput>
    // of all texts that these dumps are of, and all words that ask for it
    ensures put { IfOk result (λ p. (roots dump probe : List ℕ) (words : WordsValue)
        → AreTexts roots dump probe admitted.now → IsAskedWith roots dump probe words asked.now
        → AreAllPut roots dump probe words (arrays writes.old denied.old) (arrays writes.new denied.new)
        p.steps.count p.steps.safe_from p.denied) }
    ensures quiet { IfErr result (λ _. (writes.new ≡ writes.old) × (denied.new ≡ denied.old)) }
    ensures why { IfErr result (λ why. (roots dump probe : List ℕ) (words : WordsValue)
        → AreTexts roots dump probe admitted.now → IsAskedWith roots dump probe words asked.now
        → IsUnput roots dump probe words (arrays writes.old denied.old) why) }
{
    // Read for what it says of what was admitted.
    let _outline = admitted.outline();
    let settled = match settled_of(alloc, admitted, asked) {
        Ok(settled) => settled,
        Err(Refused::Fault(fault)) => {
            return Err(Unput::NotPut(NotPut::NoWrites(NoWrites::NotSettled(fault))));
        },
        Err(Refused::Memory) => return Err(Unput::NotPut(NotPut::Memory)),
    };
    let Settled {
        dump,
        writes: made,
        denied: spares,
    } = settled;
    drop(dump);
    let Ok(safe_from) = safe_from(alloc, admitted, made.closings) else {
        return Err(Unput::NotPut(NotPut::Memory));
    };
    let lacking = spares.as_slice();
    if denied.len() < lacking.len() {
        return Err(Unput::Denied(lacking.len()));
    }
    match put_writes(made.all.as_slice(), writes) {
        Ok(count) => {
            let denied = put_denied(lacking, denied);
            let steps = Steps { count, safe_from };
            Ok(Puts { steps, denied })
        }
        Err(needed) => Err(Unput::NotPut(NotPut::Writes(needed))),
    }
}

/// What the words ask for, with the ranges that are told beside the two texts.
#[tactic(auto, using(crate::proofs::ToldParts::asked_with, crate::proofs::ToldParts::untold_settling, crate::proofs::Settlings::have_meaning))]
fn asked_with<A: Allocator + Copy>(
    alloc: A,
    dump: &[u8],
    probe: &[u8],
    roots: Roots,
    words: &SettleWords<'_>,
) -> Result<Asked<A>, Refused<NoWrites>>
    // of the list of which the roots were made
    ensures asked { IfOk result (λ asked. (buses : List ℕ) → buses_of roots ≡ buses
        → IsAskedWith buses dump.now probe.now words.now asked) }
    ensures why { IfErr result (λ why. (buses : List ℕ) → buses_of roots ≡ buses
        → IsRootList buses → IsNotAskedWith buses dump.now probe.now words.now why) }
{
    let asked = match asked_of(alloc, words) {
        Ok(asked) => asked,
        Err(Refused::Fault(bad)) => return Err(Refused::Fault(NoWrites::BadWord(bad))),
        Err(Refused::Memory) => return Err(Refused::Memory),
    };
    let told = match told_of(alloc, dump, probe, roots, words.also) {
        Ok(told) => told,
        Err(Refused::Fault(why)) => return Err(Refused::Fault(why)),
        Err(Refused::Memory) => return Err(Refused::Memory),
    };
    Ok(asked.with_told(told))
}

/// Settles two texts and puts the writes and the windows whose spares have no room, in a frame that is let go before it is told
/// what came of it.
#[inline(never)]
fn settle_texts<A: Allocator + Copy>(
    alloc: A,
    inputs: &Inputs<'_>,
    words: &SettleWords<'_>,
    writes: &mut [RegisterWrite],
    denied: &mut [DeniedSpare],
) -> Result<Puts, Unput>
    ensures put { IfOk result (λ p. AreAllPut inputs.now.roots.now inputs.now.dump.now inputs.now.probe.now words.now
        (arrays writes.old denied.old) (arrays writes.new denied.new)
        p.steps.count p.steps.safe_from p.denied) }
    ensures quiet { IfErr result (λ _. (writes.new ≡ writes.old) × (denied.new ≡ denied.old)) }
    ensures why { IfErr result
        (IsUnput inputs.now.roots.now inputs.now.dump.now inputs.now.probe.now words.now (arrays writes.old denied.old)) }
    ensures memory { IfErr result
        (λ why. why ≡ Unput.NotPut not_put.Memory → MayWant inputs.now.roots.now words.now) }
{
    let Some(roots) = Roots::of(inputs.roots) else {
        return Err(Unput::NotPut(NotPut::NoWrites(NoWrites::Unread(Unread::Refused(
            Refusal::Root,
        )))));
    };
    let asked = match asked_with(alloc, inputs.dump, inputs.probe, roots, words) {
        Ok(asked) => asked,
        Err(Refused::Fault(why)) => return Err(Unput::NotPut(NotPut::NoWrites(why))),
        Err(Refused::Memory) => return Err(Unput::NotPut(NotPut::Memory)),
    };
    let Ok(mut place) = empty_place(alloc) else {
        return Err(Unput::NotPut(NotPut::Memory));
    };
    match admit_texts(alloc, inputs.dump, inputs.probe, roots, &mut place) {
        Ok(()) => {}
        Err(Refused::Fault(why)) => {
            return Err(Unput::NotPut(NotPut::NoWrites(NoWrites::Unread(why))));
        }
        Err(Refused::Memory) => return Err(Unput::NotPut(NotPut::Memory)),
    }
    let Some(admitted) = place.as_ref().as_ref() else {
        unreachable!();
    };
    match put_settled(alloc, admitted, &asked, writes, denied) {
        Ok(puts) => Ok(puts),
        Err(why) => Err(why),
    }
}

/// Settles two texts as the words ask for it, with a list of root buses that has to rise strictly and to have a bus. The
/// writes are put at the front of `writes`, and the windows whose spares have no room at the front of `denied`; where nothing is
/// settled, why is put at the front of `line`.
///
/// # Errors
///
/// `Memory` where a growth was refused. One is asked for only where the roots are a list of root buses, for the ranges and the
/// slots of words, and then where each word has a meaning. `Denied`, `Writes` and `Line` where `denied`, `writes` or `line` has
/// no room; it is `Denied` where neither of the first two has any. Then all three stay as they were.
#[tactic(auto, using(crate::proofs::Wants::settle_wants))]
pub fn settle_into<A: Allocator + Copy>(
    alloc: A,
    inputs: &Inputs<'_>,
    words: &SettleWords<'_>,
    writes: &mut [RegisterWrite],
    denied: &mut [DeniedSpare],
    line: &mut [u8],
) -> Result<SettleEnding, SettleHeldBack>
    ensures ending { IfOk result (λ e. IsEnding
        (AreSettledSome inputs.now.roots.now inputs.now.dump.now inputs.now.probe.now words.now)
        (IsNoSettlingOf inputs.now.roots.now inputs.now.dump.now inputs.now.probe.now words.now)
        (lent writes.old line.old) (lent writes.new line.new) e.ending) }
    // a caller that asked for spares is told which ones there are not
    ensures all { IfOk result (λ e. IsSettleEnding inputs.now.roots.now inputs.now.dump.now inputs.now.probe.now words.now
        (arrays writes.old denied.old) (arrays writes.new denied.new) e.ending e.denied) }
    // some of the writes must not be taken for all
    ensures quiet { IfErr result (λ _. (writes.new ≡ writes.old) × (denied.new ≡ denied.old)) }
    ensures line { IfErr result (λ _. line.new ≡ line.old) }
    ensures room { IfErr result
        (IsSettleHeldBack inputs.now.roots.now inputs.now.dump.now inputs.now.probe.now words.now (arrays writes.old denied.old) line.old) }
    // so 96 bytes always have room
    ensures short { IfErr result (λ why. (needed : ℕ)
        → why ≡ SettleHeldBack.HeldBack (held_back.Line needed) → needed ≤ 96) }
    // no memory helps a list or a word that is none
    ensures memory { IfErr result
        (λ why. why ≡ SettleHeldBack.HeldBack held_back.Memory → MayWant inputs.now.roots.now words.now) }
{
    match settle_texts(alloc, inputs, words, writes, denied) {
        Ok(
            Puts {
                steps: Steps { count, safe_from },
                denied,
            },
        ) => {
            let ending = Ending::Writes { count, safe_from };
            Ok(SettleEnding { ending, denied })
        }
        Err(Unput::NotPut(NotPut::NoWrites(why))) => match tell(alloc, why, line) {
            Ok(ending) => Ok(SettleEnding { ending, denied: 0 }),
            Err(held) => Err(SettleHeldBack::HeldBack(held)),
        },
        Err(Unput::NotPut(NotPut::Memory)) => Err(SettleHeldBack::HeldBack(HeldBack::Memory)),
        Err(Unput::NotPut(NotPut::Writes(needed))) => Err(SettleHeldBack::HeldBack(HeldBack::Writes(
            needed,
        ))),
        Err(Unput::Denied(needed)) => Err(SettleHeldBack::Denied(needed)),
    }
}
