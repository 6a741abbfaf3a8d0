//! What `settle` answers of a dump and its probe as a user's words take their functions.
ghost use Rattle.std.specs.Prelude.{◌≡◌, ◌<◌, ◌++◌, [], List, length, map, Err, IfOk, IsTrue};
ghost use Rattle.pci_base.specs.declared.memory.Refused.TheVariants as RefusedValue;
ghost use Rattle.std.specs.List.{All};
ghost use Rattle.pci_spec.specs.Slot.{Slot as SlotValue};
ghost use Rattle.pci_spec.specs.Text.{slots_of};
ghost use Rattle.judge_spec.specs.Told.{IsTold};
ghost use Rattle.pci_claims.specs.Values.{code_given_value, legacy_value, told_value};
ghost use Rattle.pci_faults.specs.AllLines.{any_fault_value};
ghost use Rattle.pci_model_settle.specs.LineValues.{AreToldInOrder, line_value};
ghost use Rattle.pci_model_settle.specs.OffDevices.{left_out};
ghost use Rattle.pci_plan.specs.Writes.{is_two_or_four, write_value};
ghost use Rattle.pci_first_fit.specs.Slots.{demand_value};
ghost use Rattle.pci_settle.specs.Denied.{denied_value};
ghost use Rattle.pci_settle.specs.Requests.{request};
ghost use Rattle.pci_tree.specs.Roots.{buses_of};
ghost use Rattle.pciplan_tasks.specs.Also.{ranges_told};
ghost use Rattle.pciplan_tasks.specs.Answers.{answer_of};
ghost use Rattle.pciplan_tasks.specs.FaultsAnswers.{given_with};
ghost use Rattle.pciplan_tasks.specs.SettleAnswers.{demand_said};
ghost use Rattle.pciplan_tasks.specs.WordsSettling.{AreFaultsBeside, IsSettlingEnded, IsSettleAnswer, IsSettlingAdmitted, IsSettlingAny, IsSettlingByWords, IsSettlingKept, IsSettlingLeft, IsSettlingOf, IsTakenReadyOrNot, all_is_sent, asked_with, beside_said, kept_with, users_fault};

use crate::mapping::first_line;
use crate::reply::{Reply, refused};
use crate::said::{Bridges, asleep_for, bridges_by};
use crate::settling::{settle_pair, settled_reply};
use crate::slots::{slots_for, slots_of};
use crate::taking::taken;
use crate::task::{Printed, SettleRequest};
use pci_base::memory::{OutOfMemory, Refused};
use pci_base::slot::Slot;
use pci_claims::given::Given;
use pci_claims::told::Told;
use pci_dump::dump::Dump;
use pci_faults::any_fault::AnyFault;
use pci_faults::every::{BeforeJudging, all_faults, before_judging};
use pci_faults::said::Said;
use pci_first_fit::list::Lists;
use pci_first_fit::told::ToldRanges;
use pci_model::take::{TakenPair, taken_by};
use pci_model::words::Words;
use pci_model_settle::claim_lines::{
    KeptLines, Line, Origin, TooManyLines, lines_with_claims, lines_with_devices,
};
use pci_model_settle::listed::{as_listed, dump_after};
use pci_model_settle::off_devices::{device_lines, left_out, without_registers};
use pci_model_settle::unmoved::unmoved;
use pci_settle::lack::SettleFault;
use pci_settle::settle::{Settled, settle};
use pci_tree::admit::admit_with;
use pci_tree::admitted::Admitted;
use pci_tree::pair::first_difference;
use std::alloc::Allocator;

/// What is said beside the two texts of a settling, by the bridges that are given and the functions that are asleep. The host
/// sends all addresses to each root bus.
fn said_beside<'a, A: Allocator>(
    request: &'a SettleRequest,
    bridges: &'a Bridges<A>,
    asleep: &'a [Slot],
) -> Said<'a>
    ensures roots { result.roots ≡ request.now.roots }
    ensures given { code_given_value result.given ≡ given_with all_is_sent
        (map legacy_value bridges.now.legacy.items) bridges.now.isa.items
        (map legacy_value bridges.now.palette.items) }
    ensures ranges { (told_value result.told).ranges ≡ ranges_told request.now.also }
    ensures asleep { (told_value result.told).asleep ≡ asleep.now }
    ensures taking { result.taking.now ≡ bridges.now.taking.items }
    // they are read of a text
    ensures lawful { IsTold result.told.ranges.now }
{
    Said {
        roots: request.roots,
        given: Given {
            io: None,
            memory: None,
            legacy: &bridges.legacy,
            isa: &bridges.isa,
            palette: &bridges.palette,
            unclaimed: &[],
        },
        told: Told {
            ranges: request.also.ranges(),
            asleep,
        },
        taking: &bridges.taking,
    }
}

/// What `faults` lists of a dump and its probe with the words and the told ranges of a settling.
fn faults_beside<A: Allocator + Copy>(
    alloc: A,
    dump: &Dump<A>,
    probe: &Dump<A>,
    request: &SettleRequest,
) -> Result<Vec<AnyFault, A>, OutOfMemory>
    ensures { IfOk result (λ faults. AreFaultsBeside (beside_said request.now) dump.now probe.now
        (map any_fault_value faults.items)) }
{
    let bridges = bridges_by(alloc, dump, request.words)?;
    let ranges = request.also.ranges();
    let asleep = asleep_for(alloc, ranges, dump, probe, request.words)?;
    let said = said_beside(request, &bridges, &asleep);
    match taken(alloc, dump, probe, request.words)? {
        None => {
            let found = all_faults(alloc, dump, probe, &said)?;
            Ok(found.faults)
        }
        Some(taken) => {
            let found = all_faults(alloc, &taken.dump, &taken.probe, &said)?;
            Ok(found.faults)
        }
    }
}

/// Two texts as they are.
#[derive(Clone, Copy)]
struct Texts<'a, A: Allocator> {
    dump: &'a Dump<A>,
    probe: &'a Dump<A>,
}

/// What settling functions as words take them comes to in a dump as it is.
fn ended<A: Allocator + Copy>(
    alloc: A,
    texts: &Texts<'_, A>,
    request: &SettleRequest,
    settled: Settled<A>,
    printed: Printed,
) -> Result<Reply<A>, OutOfMemory>
    requires { All (λ w. IsTrue (is_two_or_four w)) settled.writes.all.items }
    ensures { IfOk result (λ reply. IsSettlingEnded (beside_said request.now) printed texts.now.dump.now texts.now.probe.now
        (map write_value settled.writes.all.items) (map denied_value settled.denied.items)
        (answer_of reply)) }
{
    let mut writes = settled.writes.all;
    as_listed(writes.as_mut_slice(), texts.dump.blocks());
    let after = dump_after(alloc, texts.dump, writes.as_slice())?;
    let faults = faults_beside(alloc, &after, texts.probe, request)?;
    if !faults.is_empty() {
        return first_line(alloc, faults.as_slice());
    }
    let start = texts.dump.blocks();
    let denied = settled.denied.as_slice();
    settled_reply(alloc, start, writes.as_slice(), after, denied, printed)
}

/// How two texts are to be settled as words take them.
#[derive(Clone, Copy)]
struct Asked<'a> {
    request: &'a SettleRequest,
    words: Words,
    /// The functions that aren't written.
    fixed: &'a [Slot],
    /// The devices among them that are left out of what is settled.
    left: &'a [Slot],
    printed: Printed,
}

/// A fault that names a line of these ranges, by the user's line or by the device's register.
fn users_fault<A: Allocator>(kept: &KeptLines<A>, fault: SettleFault) -> SettleFault
    ensures { result ≡ users_fault kept.now fault }
{
    match fault {
        SettleFault::Told { slot, line } => match kept.origin(line) {
            Origin::Bridge => fault,
            Origin::User(line) => SettleFault::Told { slot, line },
            Origin::Device(reg) => SettleFault::Fixed { slot, reg },
        },
        other => other,
    }
}

/// Settles what was admitted as words take it, in these lists.
fn settle_in<A: Allocator + Copy>(
    alloc: A,
    texts: &Texts<'_, A>,
    admitted: &Admitted<A>,
    kept: &KeptLines<A>,
    asked: &Asked<'_>,
    lists: &Lists,
) -> Result<Reply<A>, OutOfMemory>
    ensures { IfOk result (λ reply. IsSettlingKept asked.now.request.now kept.now record {
      request = request admitted.now.roots (demand_value lists.now) asked.now.fixed.now asked.now.request.now.anew;
      printed = asked.now.printed;
    } record {
      dump = texts.now.dump.now;
      probe = texts.now.probe.now;
      taken = admitted.now.dump;
      taken_probe = admitted.now.probe;
    } (answer_of reply)) }
{
    match settle(alloc, admitted, lists, asked.fixed, asked.request.anew) {
        Ok(settled) => ended(alloc, texts, asked.request, settled, asked.printed),
        Err(Refused::Fault(fault)) => refused(alloc, &users_fault(kept, fault)),
        Err(Refused::Memory) => Err(OutOfMemory),
    }
}

/// Settles what was admitted as words take it, off these ranges, where these bridges have a hot-plug slot.
fn settle_behind<A: Allocator + Copy>(
    alloc: A,
    texts: &Texts<'_, A>,
    admitted: &Admitted<A>,
    kept: &KeptLines<A>,
    asked: &Asked<'_>,
    bridges: &[Slot],
) -> Result<Reply<A>, OutOfMemory>
    requires roots { admitted.now.roots ≡ buses_of asked.now.request.now.roots }
    requires bridges { bridges.now ≡ (demand_said asked.now.request.now texts.now.dump.now).slots }
    ensures { IfOk result (λ reply. IsSettlingKept asked.now.request.now kept.now
        (asked_with asked.now.fixed.now kept.now.told asked.now.request.now asked.now.printed
        texts.now.dump.now) record {
          dump = texts.now.dump.now;
          probe = texts.now.probe.now;
          taken = admitted.now.dump;
          taken_probe = admitted.now.probe;
        } (answer_of reply)) }
{
    let request = asked.request;
    let io = request.lists.io.as_slice();
    let mem = request.lists.mem.as_slice();
    let pref = request.lists.pref.as_slice();
    let slots = slots_of(bridges, &request.spares);
    let lists = Lists {
        io,
        mem,
        pref,
        slots,
        told: ToldRanges::of(kept.told()),
    };
    settle_in(alloc, texts, admitted, kept, asked, &lists)
}

/// Settles what was admitted as words take it, off these ranges.
fn settle_kept<A: Allocator + Copy>(
    alloc: A,
    texts: &Texts<'_, A>,
    admitted: &Admitted<A>,
    kept: &KeptLines<A>,
    asked: &Asked<'_>,
) -> Result<Reply<A>, OutOfMemory>
    requires roots { admitted.now.roots ≡ buses_of asked.now.request.now.roots }
    ensures { IfOk result (λ reply. IsSettlingKept asked.now.request.now kept.now
        (asked_with asked.now.fixed.now kept.now.told asked.now.request.now asked.now.printed
        texts.now.dump.now) record {
          dump = texts.now.dump.now;
          probe = texts.now.probe.now;
          taken = admitted.now.dump;
          taken_probe = admitted.now.probe;
        } (answer_of reply)) }
{
    let request = asked.request;
    let dump = texts.dump.blocks();
    let bridges = slots_for(alloc, dump, &request.spares, &request.slots)?;
    settle_behind(alloc, texts, admitted, kept, asked, bridges.as_slice())
}

/// The ranges on which nothing is placed: those that the user tells, those of these devices, and those of bridges.
fn kept_beside<A: Allocator + Copy>(
    alloc: A,
    dump: &Dump<A>,
    devices: &[Line],
    asked: &Asked<'_>,
) -> Result<KeptLines<A>, Refused<TooManyLines>>
    requires devices { AreToldInOrder devices.now }
    ensures kept { IfOk result (λ kept. kept
        ≡ kept_with asked.now.words asked.now.request.now (map line_value devices.now) dump.now) }
    ensures told { IfOk result (λ kept. IsTold kept.told) }
    ensures many { result ≡ Err (RefusedValue.Fault (record {})) → 4096
        < length (kept_with asked.now.words asked.now.request.now (map line_value devices.now) dump.now).told }
{
    // its slots rise, so bridges stand by slot
    let _ = dump.blocks();
    let bridges = bridges_by(alloc, dump, Some(asked.words))?;
    let ranges = asked.request.also.ranges();
    let lines = lines_with_devices(alloc, ranges, devices)?;
    lines_with_claims(alloc, &lines, &bridges.legacy, &bridges.palette)
}

/// Settles what was admitted as words take it, where no device is left out.
fn settle_whole<A: Allocator + Copy>(
    alloc: A,
    texts: &Texts<'_, A>,
    admitted: &Admitted<A>,
    asked: &Asked<'_>,
) -> Result<Reply<A>, OutOfMemory>
    requires roots { admitted.now.roots ≡ buses_of asked.now.request.now.roots }
    ensures { IfOk result (λ reply. IsSettlingAdmitted asked.now.request.now
        (kept_with asked.now.words asked.now.request.now [] texts.now.dump.now)
        (asked_with asked.now.fixed.now
        (kept_with asked.now.words asked.now.request.now [] texts.now.dump.now).told
        asked.now.request.now asked.now.printed texts.now.dump.now) record {
          dump = texts.now.dump.now;
          probe = texts.now.probe.now;
          taken = admitted.now.dump;
          taken_probe = admitted.now.probe;
        } (answer_of reply)) }
{
    match kept_beside(alloc, texts.dump, &[], asked) {
        Ok(kept) => settle_kept(alloc, texts, admitted, &kept, asked),
        Err(Refused::Fault(fault)) => refused(alloc, &fault),
        Err(Refused::Memory) => Err(OutOfMemory),
    }
}

/// Settles two texts as words take them, off these ranges.
fn settle_off<A: Allocator + Copy>(
    alloc: A,
    texts: &Texts<'_, A>,
    taken: TakenPair<A>,
    kept: &KeptLines<A>,
    asked: &Asked<'_>,
) -> Result<Reply<A>, OutOfMemory>
    requires { IsTold kept.now.told }
    ensures { IfOk result (λ reply. IsSettlingAny asked.now.request.now kept.now
        (asked_with asked.now.fixed.now kept.now.told asked.now.request.now asked.now.printed
        texts.now.dump.now) record {
          dump = texts.now.dump.now;
          probe = texts.now.probe.now;
          taken = taken.dump;
          taken_probe = taken.probe;
        } (answer_of reply)) }
{
    match admit_with(alloc, taken.dump, taken.probe, asked.request.roots) {
        Ok(admitted) => settle_kept(alloc, texts, &admitted, kept, asked),
        Err(Refused::Fault(fault)) => refused(alloc, &fault),
        Err(Refused::Memory) => Err(OutOfMemory),
    }
}

/// Settles what was admitted as words take it, without the devices that are left out. Where their ranges would be too many,
/// none is.
fn settle_without<A: Allocator + Copy>(
    alloc: A,
    texts: &Texts<'_, A>,
    admitted: &Admitted<A>,
    asked: &Asked<'_>,
) -> Result<Reply<A>, OutOfMemory>
    requires roots { admitted.now.roots ≡ buses_of asked.now.request.now.roots }
    ensures { IfOk result (λ reply. IsSettlingOf asked.now.words asked.now.request.now asked.now.printed
        asked.now.fixed.now asked.now.left.now record {
          dump = texts.now.dump.now;
          probe = texts.now.probe.now;
          taken = admitted.now.dump;
          taken_probe = admitted.now.probe;
        } (answer_of reply)) }
{
    // its invariant says that the two are admitted
    let _ = admitted.outline();
    if asked.left.is_empty() {
        return settle_whole(alloc, texts, admitted, asked);
    }
    let devices = device_lines(alloc, admitted, asked.left)?;
    let kept = match kept_beside(alloc, texts.dump, &devices, asked) {
        Ok(kept) => kept,
        Err(Refused::Fault(_)) => return settle_whole(alloc, texts, admitted, asked),
        Err(Refused::Memory) => return Err(OutOfMemory),
    };
    let without = TakenPair {
        dump: without_registers(alloc, admitted.dump(), asked.left)?,
        probe: without_registers(alloc, admitted.probe(), asked.left)?,
    };
    settle_off(alloc, texts, without, &kept, asked)
}

/// Settles two texts as words take them.
fn settle_taken<A: Allocator + Copy>(
    alloc: A,
    texts: &Texts<'_, A>,
    taken: TakenPair<A>,
    asked: &Asked<'_>,
) -> Result<Reply<A>, OutOfMemory>
    ensures { IfOk result (λ reply. IsSettlingLeft asked.now.words asked.now.request.now asked.now.printed asked.now.fixed.now
        asked.now.left.now record {
          dump = texts.now.dump.now;
          probe = texts.now.probe.now;
          taken = taken.dump;
          taken_probe = taken.probe;
        } (answer_of reply)) }
{
    match admit_with(alloc, taken.dump, taken.probe, asked.request.roots) {
        Ok(admitted) => settle_without(alloc, texts, &admitted, asked),
        Err(Refused::Fault(fault)) => refused(alloc, &fault),
        Err(Refused::Memory) => Err(OutOfMemory),
    }
}

/// Some slots, and behind them others.
fn joined<A: Allocator>(
    alloc: A,
    some: &[Slot],
    others: &[Slot],
) -> Result<Vec<Slot, A>, OutOfMemory>
    ensures { IfOk result (λ all. all.items ≡ some.now ++ others.now) }
{
    let mut all = Vec::new(alloc);
    all.extend_from_slice(some)?;
    all.extend_from_slice(others)?;
    Ok(all)
}

/// Settles two texts as words take them. Where ranges are told, the first fault that is there before judging with them is
/// printed instead.
fn settle_told<A: Allocator + Copy>(
    alloc: A,
    texts: &Texts<'_, A>,
    taken: TakenPair<A>,
    asked: &Asked<'_>,
) -> Result<Reply<A>, OutOfMemory>
    ensures { IfOk result (λ reply. (unmoved : List SlotValue)
        → asked.now.fixed.now ≡ asked.now.request.now.fixed.items ++ unmoved
        → asked.now.left.now ≡ left_out unmoved texts.now.dump.now taken.dump taken.probe
        → IsTakenReadyOrNot asked.now.words asked.now.request.now asked.now.printed unmoved record {
          dump = texts.now.dump.now;
          probe = texts.now.probe.now;
          taken = taken.dump;
          taken_probe = taken.probe;
        } (answer_of reply)) }
{
    let ranges = asked.request.also.ranges();
    if ranges.is_empty() {
        return settle_taken(alloc, texts, taken, asked);
    }
    let told = Told {
        ranges,
        asleep: &[],
    };
    let found = before_judging(alloc, &taken.dump, &taken.probe, asked.request.roots, &told)?;
    match found {
        BeforeJudging::Refused(faults) => first_line(alloc, faults.as_slice()),
        BeforeJudging::Admitted(_outline) => settle_taken(alloc, texts, taken, asked),
    }
}

/// Settles a dump and its probe, which list the same slots, as words take them.
fn settle_by_words<A: Allocator + Copy>(
    alloc: A,
    texts: &Texts<'_, A>,
    words: Words,
    request: &SettleRequest,
    printed: Printed,
) -> Result<Reply<A>, OutOfMemory>
    requires { slots_of texts.now.dump.now ≡ slots_of texts.now.probe.now }
    ensures { IfOk result (λ reply. IsSettlingByWords words request.now printed texts.now.dump.now
        texts.now.probe.now (answer_of reply)) }
{
    let taken = taken_by(alloc, texts.dump, texts.probe, words)?;
    let stay = unmoved(alloc, texts.dump, texts.probe, &taken, words)?;
    let fixed = joined(alloc, request.fixed.as_slice(), stay.as_slice())?;
    let left = left_out(alloc, texts.dump.blocks(), &taken, stay.as_slice())?;
    let asked = Asked {
        request,
        words,
        fixed: fixed.as_slice(),
        left: left.as_slice(),
        printed,
    };
    settle_told(alloc, texts, taken, &asked)
}

/// Settles a dump and its probe as it is asked for, and answers what is to be printed of it. Where words are said the
/// functions are taken by them, and the settled dump is judged by them. Two texts that list other slots are taken as they are.
pub fn settle_by<A: Allocator + Copy>(
    alloc: A,
    dump: Dump<A>,
    probe: Dump<A>,
    request: &SettleRequest,
    printed: Printed,
) -> Result<Reply<A>, OutOfMemory>
    ensures { IfOk result
        (λ reply. IsSettleAnswer request.now printed dump probe (answer_of reply)) }
{
    let Some(words) = request.words else {
        return settle_pair(alloc, dump, probe, request, printed);
    };
    if first_difference(dump.blocks(), probe.blocks()).is_some() {
        return settle_pair(alloc, dump, probe, request, printed);
    }
    let texts = Texts {
        dump: &dump,
        probe: &probe,
    };
    settle_by_words(alloc, &texts, words, request, printed)
}
