//! Prints the map of a dump and its probe.
ghost use Rattle.std.specs.Prelude.{◌≡◌, [], map, IfOk};
ghost use Rattle.judge_spec.specs.Told.{IsTold};
ghost use Rattle.pci_tree.specs.Roots.{buses_of};
ghost use Rattle.pci_claims.specs.Values.{code_given_value, told_value};
ghost use Rattle.pci_faults.specs.AllLines.{any_fault_value};
ghost use Rattle.pciplan_tasks.specs.Answers.{answer_of};
ghost use Rattle.pciplan_tasks.specs.MapAnswers.{IsFirstLine, IsMapped, IsMapAnswerBy};

use crate::reply::{Reply, Text, done, refused};
use crate::said::{asleep_for, bridges_by, said_by};
use crate::taking::taken;
use crate::task::Beside;
use pci_base::memory::OutOfMemory;
use pci_claims::given::Given;
use pci_claims::taking::all_lent;
use pci_dump::dump::Dump;
use pci_faults::any_fault::AnyFault;
use pci_faults::every::{BeforeJudging, before_judging};
use pci_faults::said::Said;
use pci_faults::taken::taken as taken_by_bridges;
use pci_map::text::map_text;
use std::alloc::Allocator;

/// The line of the first of some faults.
pub fn first_line<A: Allocator + Copy>(
    alloc: A,
    faults: &[AnyFault],
) -> Result<Reply<A>, OutOfMemory>
    requires { map any_fault_value faults.now ≡ [] → ⊥ }
    ensures { IfOk result
        (λ reply. IsFirstLine (map any_fault_value faults.now) (answer_of reply)) }
{
    match faults.first() {
        Some(fault) => refused(alloc, fault),
        None => unreachable!(),
    }
}

/// The map of a dump and its probe with what is said beside them, if no fault is found before judging; else the first of
/// those. What clashes isn't looked for.
fn map_pair<A: Allocator + Copy>(
    alloc: A,
    dump: &Dump<A>,
    probe: &Dump<A>,
    said: &Said<'_>,
) -> Result<Reply<A>, OutOfMemory>
    // they are read of a text
    requires { IsTold said.now.told.ranges.now }
    ensures { IfOk result (λ reply. IsMapped (told_value said.now.told)
        (code_given_value said.now.given) (buses_of said.now.roots) said.now.taking.now dump.now
        probe.now (answer_of reply)) }
{
    let found = before_judging(alloc, dump, probe, said.roots, &said.told)?;
    match found {
        BeforeJudging::Refused(faults) => first_line(alloc, faults.as_slice()),
        BeforeJudging::Admitted(outline) => {
            let taking = taken_by_bridges(alloc, said, &outline)?;
            let lent = all_lent(alloc, &taking)?;
            let given = Given {
                unclaimed: &lent,
                ..said.given
            };
            let text = map_text(alloc, &outline, &given, &said.told)?;
            Ok(done(alloc, Text::Lines(text)))
        }
    }
}

/// The map of a dump and its probe with what is said beside them: as words take them, where there are words, with what the
/// host sends, what the words take of bridges, and the ranges that a third text tells.
pub fn map_by<A: Allocator + Copy>(
    alloc: A,
    dump: &Dump<A>,
    probe: &Dump<A>,
    beside: &Beside,
) -> Result<Reply<A>, OutOfMemory>
    ensures { IfOk result (λ reply. IsMapAnswerBy beside.now dump.now probe.now (answer_of reply)) }
{
    let bridges = bridges_by(alloc, dump, beside.words)?;
    let ranges = beside.also.ranges();
    let asleep = asleep_for(alloc, ranges, dump, probe, beside.words)?;
    let said = said_by(beside, &bridges, &asleep);
    match taken(alloc, dump, probe, beside.words)? {
        None => map_pair(alloc, dump, probe, &said),
        Some(taken) => map_pair(alloc, &taken.dump, &taken.probe, &said),
    }
}
