//! The verdict on two texts that lie in memory.
ghost use Rattle.std.specs.Prelude.{◌≡◌, ◌≤◌, ℕ, List, length, IfOk, IfErr};
ghost use Rattle.pci_tree.specs.Roots.{IsRootList, buses_of};
ghost use Rattle.pciplan_c.specs.Answers.{IsVerdictText, IsAnswerTold, IsTooLong, answer_text};

use crate::answer::{Answer, ROOT_MESSAGE};
use crate::held::{Bytes, Written};
use crate::put::{Withheld, put};
use crate::refusal::Refusal;
use pci_base::memory::OutOfMemory;
use pci_check::audit::audit_with;
use pci_check::outcome::AuditFault;
use pci_tree::roots::Roots;
use std::alloc::Allocator;

/// An answer with its text.
#[derive(Drop)]
struct Told<A: Allocator> {
    answer: Answer,
    text: Vec<u8, A>,
}

/// A refusal with its message.
#[tactic(auto, using(crate::proofs::Lengths::refusal_short))]
fn refused<A: Allocator>(alloc: A, refusal: Refusal) -> Result<Told<A>, OutOfMemory>
    ensures answer { IfOk result (λ told. told.answer ≡ Answer.Refused refusal) }
    ensures text { IfOk result (λ told. told.text.items ≡ answer_text told.answer) }
    ensures short { IfOk result (λ told. length told.text.items ≤ 96) }
{
    // Read for its range: a line number has at most 20 digits.
    let _line = refusal.line();
    match format!(in alloc; "{refusal}") {
        Ok(text) => Ok(Told {
            answer: Answer::Refused(refusal),
            text: text.into_bytes(),
        }),
        Err(_) => Err(OutOfMemory),
    }
}

/// The answer to two texts with these root buses, with its text.
#[tactic(auto, using(crate::proofs::Lengths::line_short))]
fn answer_to<A: Allocator + Copy>(
    alloc: A,
    dump: &[u8],
    probe: &[u8],
    roots: Roots,
) -> Result<Told<A>, OutOfMemory>
    // of the list of which the roots were made
    ensures answer { IfOk result (λ told. (buses : List ℕ) → buses_of roots ≡ buses → IsRootList buses
        → IsVerdictText buses dump.now probe.now told.answer) }
    ensures text { IfOk result (λ told. told.text.items ≡ answer_text told.answer) }
    ensures short { IfOk result (λ told. length told.text.items ≤ 96) }
{
    let mut dump = Bytes::of(dump);
    let mut probe = Bytes::of(probe);
    let mut line = Written::none(alloc);
    match audit_with(alloc, &mut dump, &mut probe, &mut line, roots) {
        Ok(outcome) => Ok(Told {
            answer: Answer::Verdict(outcome),
            text: line.into_bytes(),
        }),
        Err(AuditFault::Dump(fault)) => refused(alloc, Refusal::Dump(fault)),
        Err(AuditFault::Probe(fault)) => refused(alloc, Refusal::Probe(fault)),
        Err(AuditFault::Memory) => Err(OutOfMemory),
        Err(AuditFault::Write) => Err(OutOfMemory),
    }
}

/// An answer, and how many of the caller's bytes its text takes.
#[derive(Clone, Copy, Debug, PartialEq, Eq)]
pub struct Line {
    pub answer: Answer,
    pub used: usize,
}

/// Judges two texts, with a list of root buses that has to rise strictly and to have a bus, and puts the verdict's line,
/// or the message where there is no verdict, at the front of `line`.
///
/// # Errors
///
/// `Memory` where a growth was refused, which is asked for only where `roots` is a list of root buses; `NoRoom` where
/// `line` is shorter than what is to be put there. Then it stays as it was.
pub fn check_into<A: Allocator + Copy>(
    alloc: A,
    dump: &[u8],
    probe: &[u8],
    roots: &[u8],
    line: &mut [u8],
) -> Result<Line, Withheld>
    ensures told { IfOk result
        (λ l. IsAnswerTold (IsVerdictText roots.now dump.now probe.now) l.answer line.old line.new l.used) }
    // part of a line must not be taken for one
    ensures quiet { IfErr result (λ _. line.new ≡ line.old) }
    ensures room { IfErr result (λ why. (needed : ℕ) → why ≡ Withheld.NoRoom needed
        → IsTooLong roots.now dump.now probe.now line.old needed) }
    // so 96 bytes always have room
    ensures short { IfErr result
        (λ why. (needed : ℕ) → why ≡ Withheld.NoRoom needed → needed ≤ 96) }
    // no memory helps a list that is none
    ensures memory { IfErr result (λ why. why ≡ Withheld.Memory → IsRootList roots.now) }
{
    let Some(roots) = Roots::of(roots) else {
        return match put(ROOT_MESSAGE.as_bytes(), line) {
            Ok(used) => Ok(Line {
                answer: Answer::Refused(Refusal::Root),
                used,
            }),
            Err(why) => Err(why),
        };
    };
    let told = match answer_to(alloc, dump, probe, roots) {
        Ok(told) => told,
        Err(OutOfMemory) => return Err(Withheld::Memory),
    };
    let used = put(told.text.as_slice(), line)?;
    Ok(Line {
        answer: told.answer,
        used,
    })
}
