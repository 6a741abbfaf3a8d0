//! Lists all faults of a dump and its probe, with what is given and told beside them.
ghost use Rattle.std.specs.Prelude.{map, IfOk};
ghost use Rattle.std.specs.String.{string_bytes};
ghost use Rattle.pci_spec.specs.Text.{IsDump};
ghost use Rattle.pci_spec.specs.Mark.{all_named};
ghost use Rattle.judge_spec.specs.Told.{IsTold};
ghost use Rattle.pci_tree.specs.Roots.{buses_of};
ghost use Rattle.pci_claims.specs.Values.{code_given_value, told_value};
ghost use Rattle.pci_faults.specs.AllLines.{any_fault_value};
ghost use Rattle.pciplan_tasks.specs.Answers.{AreReplyLines, answer_of};
ghost use Rattle.pciplan_tasks.specs.FaultsAnswers.{AreToldTaking, IsFaultsAnswer, IsListText};

use crate::reply::{Reply, Text};
use crate::said::{asleep_for, bridges_by, said_by};
use crate::taking::taken;
use crate::task::Beside;
use pci_base::memory::OutOfMemory;
use pci_claims::given::Given;
use pci_claims::taking::all_lent;
use pci_dump::block::Block;
use pci_dump::dump::Dump;
use pci_faults::any_fault::AnyFault;
use pci_faults::every::all_faults;
use pci_faults::said::Said;
use pci_faults::text::list_text;
use pci_tree::outline::Outline;
use pci_why::judged::Judged;
use pci_why::list::reasoned_text;
use std::alloc::Allocator;

/// Which list is asked for: of a system with what is said beside it, with reasons or without.
#[derive(Clone, Copy)]
struct Asked<'a> {
    said: Said<'a>,
    why: bool,
}

/// The text of the list. Reasons are told of what was judged; behind faults of earlier phases there are none.
fn text_of<A: Allocator + Copy>(
    alloc: A,
    asked: &Asked<'_>,
    judged: &Option<Outline<A>>,
    probe: &[Block],
    faults: &[AnyFault],
) -> Result<String<A>, OutOfMemory>
    // its slots rise, so a block is found by halving
    requires rising { IsDump probe.now }
    // they are read of a text
    requires told { IsTold asked.now.said.told.ranges.now }
    ensures { IfOk result (λ text. IsListText (all_named probe.now) (told_value asked.now.said.told)
        (code_given_value asked.now.said.given) judged.now asked.now.why (map any_fault_value faults.now)
        (string_bytes text)) }
{
    match (judged, asked.why) {
        (Some(outline), true) => {
            let judged = Judged {
                given: &asked.said.given,
                told: &asked.said.told,
                outline,
                probe,
            };
            reasoned_text(alloc, &judged, faults)
        }
        _ => list_text(alloc, faults),
    }
}

/// The list of all faults of a dump and its probe that is asked for.
fn faults_pair<A: Allocator + Copy>(
    alloc: A,
    dump: &Dump<A>,
    probe: &Dump<A>,
    asked: &Asked<'_>,
) -> Result<Reply<A>, OutOfMemory>
    // they are read of a text
    requires { IsTold asked.now.said.told.ranges.now }
    ensures told { IfOk result (λ reply. AreToldTaking (told_value asked.now.said.told)
        (code_given_value asked.now.said.given) (buses_of asked.now.said.roots)
        asked.now.said.taking.now asked.now.why dump.now probe.now (answer_of reply)) }
    ensures lines { IfOk result (λ reply. AreReplyLines reply.text) }
{
    // slots rise in both, so a list of 30 is none of judging
    let _ = dump.blocks();
    let found = all_faults(alloc, dump, probe, &asked.said)?;
    let taking = all_lent(alloc, &found.taking)?;
    let given = Given {
        unclaimed: &taking,
        ..asked.said.given
    };
    let judging = Asked {
        said: Said {
            given,
            ..asked.said
        },
        why: asked.why,
    };
    let faults = found.faults.as_slice();
    let text = text_of(alloc, &judging, &found.judged, probe.blocks(), faults)?;
    Ok(Reply {
        refused: !faults.is_empty(),
        text: Text::Lines(text),
        remarks: String::new(alloc),
    })
}

/// All faults of a dump and its probe with what is said beside them, with reasons or without: as words take them, where
/// there are words, with what the host sends, what the words take of bridges, and the ranges that a third text tells.
pub fn faults_by<A: Allocator + Copy>(
    alloc: A,
    dump: &Dump<A>,
    probe: &Dump<A>,
    beside: &Beside,
    why: bool,
) -> Result<Reply<A>, OutOfMemory>
    ensures told { IfOk result (λ reply. IsFaultsAnswer beside.now why dump.now probe.now
        (answer_of reply)) }
    // so a caller has the text of the list as it is
    ensures lines { IfOk result (λ reply. AreReplyLines reply.text) }
{
    let bridges = bridges_by(alloc, dump, beside.words)?;
    let ranges = beside.also.ranges();
    let asleep = asleep_for(alloc, ranges, dump, probe, beside.words)?;
    let said = said_by(beside, &bridges, &asleep);
    let asked = Asked { said, why };
    match taken(alloc, dump, probe, beside.words)? {
        None => faults_pair(alloc, dump, probe, &asked),
        Some(taken) => faults_pair(alloc, &taken.dump, &taken.probe, &asked),
    }
}
