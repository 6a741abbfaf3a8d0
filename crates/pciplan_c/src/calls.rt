//! What C calls.
ghost use Rattle.std.specs.Prelude.{◌≡◌, ◌⊎◌, ◌≤◌, ◌<◌, length, map, Some, None};
ghost use Rattle.std.specs.List.{slice_get};
ghost use Rattle.pci_dump.specs.ReadFault.{IsTextFault};
ghost use Rattle.pci_dump.specs.declared.read_fault.ReadFault.{ReadFault};
ghost use Rattle.pci_tree.specs.Roots.{IsRootList};
ghost use Rattle.pci_plan.specs.Steps.{judged, steps_of};
ghost use Rattle.pci_function.specs.declared.fault.Fault.{Fault};
ghost use Rattle.pci_number.specs.Logs.{TrueLog};
ghost use Rattle.pci_number.specs.Numberings.{IsSteppedTo};
ghost use Rattle.pci_check.specs.declared.outcome.Outcome.TheVariants.{Yes, No};
ghost use Rattle.pciplan_c.specs.Answers.{IsVerdictText, IsAnswerTold, IsTooLong};
ghost use Rattle.pciplan_c.specs.Listings.{IsListing, IsListingTooLong, IsTextPut, MayWantToList};
ghost use Rattle.pciplan_c.specs.RegisterWrites.{write_value_of};
ghost use Rattle.pciplan_c.specs.Endings.{AreWritesPutInFront, AreTooMany, IsNoneTold, IsNoneTooLong};
ghost use Rattle.pciplan_c.specs.PlanAnswers.{AreWritesOfPlan, IsNoPlanOf, pools_of};
ghost use Rattle.pciplan_c.specs.SettleAnswers.{AreAllPut, AreSettledSome, AreTooManyDenied, IsNoSettlingOf, MayWant, arrays};
ghost use Rattle.pciplan_c.specs.Numbering.{stepped_of};
ghost use Rattle.pciplan_c.specs.Stepping.{IsStartPut, IsStartTooLong, answer_number, answer_by_number, shown_by_access, c_step_value};
ghost use Rattle.pciplan_c.specs.declared.answer.Answer.TheVariants.{Verdict, Refused};
ghost use Rattle.pciplan_c.specs.declared.listing.Listing.{Listing};
ghost use Rattle.pciplan_c.specs.declared.no_list.NoList.{NoList};
ghost use Rattle.pciplan_c.specs.declared.refusal.Refusal.{Refusal};

use crate::answer::Answer;
use crate::denied_spare::DeniedSpare;
use crate::ending::{Ending, HeldBack};
use crate::faults_words::FaultsWords;
use crate::inputs::Inputs;
use crate::listing::{Listing, faults_into};
use crate::numbering::{NumberStep, put_step};
use crate::planning::plan_into;
use crate::pools::PoolsOfC;
use crate::put::Withheld;
use crate::register_write::RegisterWrite;
use crate::settle_words::SettleWords;
use crate::settling::{SettleEnding, SettleHeldBack, settle_into};
use crate::starting::{NoStart, start_into};
use crate::stepping::{RegisterStep, judge, step_at};
use crate::verdict::check_into;
use pci_check::outcome::Outcome;
use pci_number::access::Access;
use pci_number::replay::next_access;
use std::alloc::Global;

/// Judges the texts of a dump and of its probe, with the root buses that `roots` lists.
///
/// It answers 0 and the line `yes` where both list the same slots and their system is sound, and 1 and the line `no ..`
/// with a fault that is there where that isn't so. It answers 2 and a message where `roots` is empty or doesn't rise,
/// else where the dump's text has a fault, else where the probe's has. The text stands at the front of `line`, and
/// `line_used` is its length.
///
/// It answers 3 where a growth was refused; then `roots` is a list of root buses, and nothing was changed. It answers 4
/// where `line` is too short; then `line` wasn't changed, and `line_used` is the length that is needed. With 96 bytes of
/// `line` or more it isn't answered.
#[unsafe(no_mangle)]
pub extern "C" fn pciplan_check(
    alloc: Global,
    dump: &[u8],
    probe: &[u8],
    roots: &[u8],
    line: &mut [u8],
    line_used: &mut usize,
) -> u8
    ensures yes { result ≡ 0
        → IsAnswerTold (IsVerdictText roots.now dump.now probe.now)
        (Verdict Yes) line.old line.new line_used.new }
    ensures no { result ≡ 1
        → (fault : Fault)
        × IsAnswerTold (IsVerdictText roots.now dump.now probe.now)
        (Verdict (No fault)) line.old line.new line_used.new }
    ensures refused { result ≡ 2
        → (refusal : Refusal)
        × IsAnswerTold (IsVerdictText roots.now dump.now probe.now)
        (Refused refusal) line.old line.new line_used.new }
    ensures memory { result ≡ 3 → (line.new ≡ line.old) × (line_used.new ≡ line_used.old) }
    // no memory helps a list that is none
    ensures wanted { result ≡ 3 → IsRootList roots.now }
    ensures room { result ≡ 4
        → (line.new ≡ line.old) × IsTooLong roots.now dump.now probe.now line.old line_used.new }
    ensures enough { 96 ≤ length line.old → result ≤ 3 }
    // a caller's switch has no other case
    ensures known { result ≤ 4 }
{
    match check_into(alloc, dump, probe, roots, line) {
        Ok(told) => {
            *line_used = told.used;
            match told.answer {
                Answer::Verdict(Outcome::Yes) => 0,
                Answer::Verdict(Outcome::No(_)) => 1,
                Answer::Refused(_) => 2,
            }
        }
        Err(Withheld::Memory) => 3,
        Err(Withheld::NoRoom(needed)) => {
            *line_used = needed;
            4
        }
    }
}

/// Plans the texts of a dump and of its probe in these pools, with the root buses that `roots` lists.
///
/// It answers 0 and puts the writes of the plan, in their order, at the front of `writes`; `writes_used` is how many
/// they are, and a stop after `safe_from` of them or more leaves a sound system; `line_used` is 0. It answers 1 and the
/// line `no ..` where the texts or the plan have a fault, and 2 and a message as `pciplan_check` does; `line_used` is its
/// length, and `writes_used` is 0.
///
/// It answers 3 where a growth was refused; then `roots` is a list of root buses, and nothing was changed. It answers 4
/// where `writes` or `line` has no room; then both are as they were, and `writes_used` or `line_used` is what is needed,
/// and the other one 0. With 96 bytes of `line` or more it is `writes` that has none. `safe_from` is changed at 0 alone.
#[unsafe(no_mangle)]
pub extern "C" fn pciplan_plan(
    alloc: Global,
    dump: &[u8],
    probe: &[u8],
    roots: &[u8],
    pools: &PoolsOfC,
    writes: &mut [RegisterWrite],
    writes_used: &mut usize,
    safe_from: &mut usize,
    line: &mut [u8],
    line_used: &mut usize,
) -> u8
    ensures plan { result ≡ 0
        → AreWritesPutInFront (AreWritesOfPlan roots.now dump.now probe.now (pools_of pools.now)) writes.old writes.new
        writes_used.new safe_from.new
        × (line.new ≡ line.old) × (line_used.new ≡ 0) }
    // where there is no plan no write is put that could be made by mistake
    ensures told { (result ≡ 1) ⊎ (result ≡ 2)
        → IsNoneTold (IsNoPlanOf roots.now dump.now probe.now (pools_of pools.now)) result line.old
        line.new line_used.new
        × (writes.new ≡ writes.old) × (writes_used.new ≡ 0) }
    // whoever doesn't look at the status finds what stood there before
    ensures quiet { (result ≡ 3) ⊎ (result ≡ 4)
        → (writes.new ≡ writes.old) × (line.new ≡ line.old) }
    ensures memory { result ≡ 3
        → (writes_used.new ≡ writes_used.old) × (line_used.new ≡ line_used.old) }
    // no memory helps a list that is none
    ensures wanted { result ≡ 3 → IsRootList roots.now }
    ensures room { result ≡ 4
        → AreTooMany (AreWritesOfPlan roots.now dump.now probe.now (pools_of pools.now)) writes.old
        writes_used.new
        × (line_used.new ≡ 0)
        ⊎ IsNoneTooLong (IsNoPlanOf roots.now dump.now probe.now (pools_of pools.now)) line.old
        line_used.new
        × (writes_used.new ≡ 0) }
    // so with 96 bytes of line it is the writes that have no room
    ensures enough { result ≡ 4 → 96 ≤ length line.old → line_used.new ≡ 0 }
    // of no use without a plan
    ensures safe { 0 < result → safe_from.new ≡ safe_from.old }
    // a caller's switch has no other case
    ensures known { result ≤ 4 }
{
    let inputs = Inputs { dump, probe, roots };
    match plan_into(alloc, &inputs, pools, writes, line) {
        Ok(
            Ending::Writes {
                count,
                safe_from: safe,
            },
        ) => {
            *writes_used = count;
            *safe_from = safe;
            *line_used = 0;
            0
        }
        Ok(Ending::NoWrites { why, used }) => {
            *writes_used = 0;
            *line_used = used;
            why.status()
        }
        Err(HeldBack::Memory) => 3,
        Err(HeldBack::Writes(needed)) => {
            *writes_used = needed;
            *line_used = 0;
            4
        }
        Err(HeldBack::Line(needed)) => {
            *writes_used = 0;
            *line_used = needed;
            4
        }
    }
}

/// Settles the texts of a dump and of its probe as these words ask for it, with the root buses that `roots` lists: what
/// stands stays where it is, where `anew` is 0, and all else is placed in the lists of ranges. Where `spare` says so, room is
/// kept free behind hot-plug slots. Nothing is placed on the ranges that the text `also` tells of, and what leads to one of
/// these stays with any `anew`.
///
/// It answers 0 and puts the writes, in their order, at the front of `writes`; `writes_used` is how many they are, and a
/// stop after `safe_from` of them or more leaves a sound system: 0 where it is sound at the start, else as many as close
/// functions; `line_used` is 0. The windows whose spares have no room stand at the front of `denied`, the highest slot first and
/// of a slot by rising offset, and `denied_used` is how many they are.
///
/// It answers 1 and the line `no ..` where the texts, also with what is told, or the settling have a fault. It answers 2 and a
/// message where `roots` is empty or doesn't rise, else where a word has no meaning (`pool io`, `pool mem`, `pool pref`, `fixed`,
/// `spare`, `slots`), else where the dump's text has a fault, else where the probe's has, else where that of `also` has
/// (`also: 5 BadLine 2`). `line_used` is its length, and `writes_used` and `denied_used` are 0.
///
/// It answers 3 where a growth was refused; then nothing was changed. `roots` is a list of root buses then. Each word has a
/// meaning, or one has ranges or slots and those before it have a meaning. It answers 4 where `denied`, `writes` or `line` has no
/// room; then all three are as they were, and `denied_used`, `writes_used` or `line_used` is what is needed, and the other two
/// are 0. It is `denied` where neither that nor `writes` has room. With 96 bytes of `line` or more it is one of these two.
/// `safe_from` is changed at 0 alone.
#[unsafe(no_mangle)]
pub extern "C" fn pciplan_settle(
    alloc: Global,
    dump: &[u8],
    probe: &[u8],
    roots: &[u8],
    words: &SettleWords<'_>,
    writes: &mut [RegisterWrite],
    writes_used: &mut usize,
    safe_from: &mut usize,
    denied: &mut [DeniedSpare],
    denied_used: &mut usize,
    line: &mut [u8],
    line_used: &mut usize,
) -> u8
    ensures settled { result ≡ 0
        → AreAllPut roots.now dump.now probe.now words.now (arrays writes.old denied.old)
        (arrays writes.new denied.new) writes_used.new safe_from.new denied_used.new
        × (line.new ≡ line.old) × (line_used.new ≡ 0) }
    // where nothing is settled no write is put that could be made by mistake
    ensures told { (result ≡ 1) ⊎ (result ≡ 2)
        → IsNoneTold (IsNoSettlingOf roots.now dump.now probe.now words.now) result line.old line.new
        line_used.new
        × (writes.new ≡ writes.old) × (writes_used.new ≡ 0) }
    ensures none { (result ≡ 1) ⊎ (result ≡ 2) → (denied.new ≡ denied.old) × (denied_used.new ≡ 0) }
    // whoever doesn't look at the status finds what stood there before
    ensures quiet { (result ≡ 3) ⊎ (result ≡ 4)
        → (writes.new ≡ writes.old) × (line.new ≡ line.old) × (denied.new ≡ denied.old) }
    ensures memory { result ≡ 3
        → (writes_used.new ≡ writes_used.old) × (line_used.new ≡ line_used.old)
        × (denied_used.new ≡ denied_used.old) }
    // no memory helps a list or a word that is none
    ensures wanted { result ≡ 3 → MayWant roots.now words.now }
    ensures room { result ≡ 4
        → (AreTooMany (AreSettledSome roots.now dump.now probe.now words.now) writes.old writes_used.new
        × (line_used.new ≡ 0) × (denied_used.new ≡ 0))
        ⊎ (IsNoneTooLong (IsNoSettlingOf roots.now dump.now probe.now words.now) line.old line_used.new
        × (writes_used.new ≡ 0) × (denied_used.new ≡ 0))
        ⊎ (AreTooManyDenied roots.now dump.now probe.now words.now denied.old denied_used.new
        × (writes_used.new ≡ 0) × (line_used.new ≡ 0)) }
    // so with 96 bytes of line it is the writes or the windows that have no room
    ensures enough { result ≡ 4 → 96 ≤ length line.old → line_used.new ≡ 0 }
    // of no use where nothing is settled
    ensures safe { 0 < result → safe_from.new ≡ safe_from.old }
    // a caller's switch has no other case
    ensures known { result ≤ 4 }
{
    let inputs = Inputs { dump, probe, roots };
    match settle_into(alloc, &inputs, words, writes, denied, line) {
        Ok(
            SettleEnding {
                ending,
                denied: spares,
            },
        ) => match ending {
            Ending::Writes {
                count,
                safe_from: stop,
            } => {
                *writes_used = count;
                *safe_from = stop;
                *denied_used = spares;
                *line_used = 0;
                0
            }
            Ending::NoWrites { why, used } => {
                *writes_used = 0;
                *denied_used = 0;
                *line_used = used;
                why.status()
            }
        },
        Err(SettleHeldBack::HeldBack(HeldBack::Memory)) => 3,
        Err(SettleHeldBack::HeldBack(HeldBack::Writes(needed))) => {
            *writes_used = needed;
            *denied_used = 0;
            *line_used = 0;
            4
        }
        Err(SettleHeldBack::HeldBack(HeldBack::Line(needed))) => {
            *writes_used = 0;
            *denied_used = 0;
            *line_used = needed;
            4
        }
        Err(SettleHeldBack::Denied(needed)) => {
            *writes_used = 0;
            *denied_used = needed;
            *line_used = 0;
            4
        }
    }
}

/// Lists all faults of the texts of a dump and of its probe, with the root buses that `roots` lists, and with what these
/// words give beside them.
///
/// It answers 0 and the text `yes` where there are none, and 1 and the list where there are: what the program's `faults`
/// prints. It answers 2 and a message where `roots` is empty or doesn't rise, else where a word has no meaning (`model`,
/// `host io`, `host mem`), else where the dump's text has a fault, else where the probe's has. The list or the message
/// stands at the front of `text`, and `text_used` is its length.
///
/// It answers 3 where a growth was refused; then nothing was changed. `roots` is a list of root buses then. Each word has a
/// meaning, or one has ranges and those before it have a meaning. It answers 4 where `text` is too short; then it wasn't
/// changed, and `text_used` is the length that is needed. No message needs more than 96 bytes.
#[unsafe(no_mangle)]
pub extern "C" fn pciplan_faults(
    alloc: Global,
    dump: &[u8],
    probe: &[u8],
    roots: &[u8],
    words: &FaultsWords<'_>,
    text: &mut [u8],
    text_used: &mut usize,
) -> u8
    ensures sound { result ≡ 0
        → IsTextPut (IsListing roots.now dump.now probe.now words.now Listing.Sound) text.old text.new
        text_used.new }
    ensures faults { result ≡ 1
        → IsTextPut (IsListing roots.now dump.now probe.now words.now Listing.Faults) text.old text.new
        text_used.new }
    ensures refused { result ≡ 2
        → (why : NoList)
        × IsTextPut (IsListing roots.now dump.now probe.now words.now (Listing.Refused why)) text.old
        text.new text_used.new }
    ensures memory { result ≡ 3 → (text.new ≡ text.old) × (text_used.new ≡ text_used.old) }
    // no memory helps a list or a word that is none
    ensures wanted { result ≡ 3 → MayWantToList roots.now words.now }
    // half a list must not be taken for all of it
    ensures room { result ≡ 4
        → (text.new ≡ text.old)
        × IsListingTooLong roots.now dump.now probe.now words.now text.old text_used.new }
    // a caller's switch has no other case
    ensures known { result ≤ 4 }
{
    let inputs = Inputs { dump, probe, roots };
    match faults_into(alloc, &inputs, words, text) {
        Ok(listed) => {
            *text_used = listed.used;
            match listed.listing {
                Listing::Sound => 0,
                Listing::Faults => 1,
                Listing::Refused(_) => 2,
            }
        }
        Err(Withheld::Memory) => 3,
        Err(Withheld::NoRoom(needed)) => {
            *text_used = needed;
            4
        }
    }
}

/// What a plan of this dump starts from: the registers that are compared before the first write.
///
/// It answers 0 and puts them, with what they show in the dump, at the front of `registers`; `registers_used` is how
/// many they are. It answers 2 where the dump is no text; `registers_used` is 0 then. It answers 3 where a growth was
/// refused; then nothing was changed. It answers 4 where `registers` has no room; then `registers_used` is what is
/// needed. But for 0 `registers` is as it was.
#[unsafe(no_mangle)]
pub extern "C" fn pciplan_start(
    alloc: Global,
    dump: &[u8],
    registers: &mut [RegisterWrite],
    registers_used: &mut usize,
) -> u8
    ensures start { result ≡ 0
        → IsStartPut dump.now registers.old registers.new registers_used.new }
    ensures refused { result ≡ 2
        → (fault : ReadFault) × IsTextFault dump.now fault × (registers_used.new ≡ 0) }
    ensures memory { result ≡ 3 → registers_used.new ≡ registers_used.old }
    ensures room { result ≡ 4 → IsStartTooLong dump.now registers.old registers_used.new }
    // half a start must not be taken for one
    ensures quiet { 0 < result → registers.new ≡ registers.old }
    // 1 is a no, of which starting knows none
    ensures known { (result ≡ 0) ⊎ (2 ≤ result) × (result ≤ 4) }
{
    match start_into(alloc, dump, registers) {
        Ok(count) => {
            *registers_used = count;
            0
        }
        Err(NoStart::Dump(_)) => {
            *registers_used = 0;
            2
        }
        Err(NoStart::Memory) => 3,
        Err(NoStart::Registers(needed)) => {
            *registers_used = needed;
            4
        }
    }
}

/// The n-th access, from 0 on, by which a plan's writes are made: each of `registers`, which `pciplan_start` put, is
/// compared, then each write is made and read back.
///
/// It answers 1 and puts the access into `step`, or 0 where there are no more; then `step` is as it was.
#[unsafe(no_mangle)]
pub extern "C" fn pciplan_step(
    registers: &[RegisterWrite],
    writes: &[RegisterWrite],
    n: usize,
    step: &mut RegisterStep,
) -> u8
    ensures step { result ≡ 1
        → slice_get (steps_of (map write_value_of registers.now) (map write_value_of writes.now)) n
        ≡ Some (c_step_value step.new) }
    ensures none { result ≡ 0
        → (slice_get (steps_of (map write_value_of registers.now) (map write_value_of writes.now)) n ≡ None)
        × (step.new ≡ step.old) }
    // a caller's loop has no other case
    ensures known { result ≤ 1 }
{
    match step_at(registers, writes, n) {
        Some(next) => {
            *step = next;
            1
        }
        None => 0,
    }
}

/// What follows from an access that was made. `answered` is 0 where it failed; `shown` is what a read showed, and of no
/// matter for a write.
///
/// It answers 0 where the next access is to be made, else the number of the fault that ends them: 80 where a register
/// that is compared shows another value, 81 where the access failed, 82 where a write reads back otherwise. The slot and
/// the offset that 80 names, and how many writes stand at 81 and 82, are those of `step`.
#[unsafe(no_mangle)]
pub extern "C" fn pciplan_judge(step: &RegisterStep, answered: u8, shown: u32) -> u8
    ensures number { result
        ≡ answer_number (judged (c_step_value step.now) (shown_by_access answered shown)) }
    // so the fault's slot and offset, or its count of writes, are those of the access
    ensures says { answer_by_number (c_step_value step.now) result
        ≡ judged (c_step_value step.now) (shown_by_access answered shown) }
{
    if answered == 0 {
        judge(step, None)
    } else {
        judge(step, Some(shown))
    }
}

/// What follows from the accesses that were made to number the buses behind `root`, in their order, each with what it showed.
/// Bridges get the numbers up to `last`, and `spare` more are kept free behind each with a hot-plug slot.
///
/// It answers 3 where `step.access` is to be made next, which is then appended to `log`. It answers 0 where each bridge has its
/// numbers, and 1 where they ran out at the bridge of `step.access`; `step.highest` is the last bus that a bridge leads to. It
/// answers 2 where the last write, `step.access`, read back otherwise. `step.used` accesses of `log` are the numbering's.
#[unsafe(no_mangle)]
pub extern "C" fn pciplan_number_step(
    log: &[Access],
    root: u8,
    last: u8,
    spare: u8,
    step: &mut NumberStep,
) -> u8
    // whatever the board is: each access showed what is there
    ghost world: { TrueLog }
    requires { log.now ≡ world.log }
    ensures step { IsSteppedTo world root last spare (stepped_of result step.new) }
    // a caller's loop has no other case
    ensures known { result ≤ 3 }
{
    put_step(&next_access(log, root, last, spare), step)
}
