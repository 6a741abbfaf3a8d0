//! The verdict on two texts, from the bytes that come in to the line that goes out.
ghost use Rattle.std.specs.Prelude.{◌≡◌, ◌≢◌, ◌+◌, ℕ, List, [], ◌∷◌, Option, IfOk, IfErr, string_bytes};
ghost use Rattle.std.specs.Io.KnownBytes.{Appends};
ghost use Rattle.pci_tree.specs.Roots.{buses_of};
ghost use Rattle.pci_check.specs.Audits.{IsAudited, IsTextRefusal, HasBegun, outcome_line, reading};
ghost use Rattle.pci_check.specs.SideBySide.{IsSurveyOfTexts};

use super::judge::judge;
use super::line::line_of;
use super::outcome::{AuditFault, Outcome};
use super::side_by_side::survey_texts;
use pci_base::memory::{OutOfMemory, Refused};
use pci_dump::streams::{Sink, Source};
use pci_dump::write::write_all;
use pci_tree::roots::Roots;
use pci_tree::survey::Survey;
use std::alloc::Allocator;

/// The verdict on two texts whose functions were surveyed.
fn outcome_of<A: Allocator + Copy>(alloc: A, survey: Survey<A>) -> Result<Outcome, OutOfMemory>
    ensures { IfOk result (λ outcome. (buses : List ℕ) (dump_left probe_left : Option (List ℕ))
        → IsSurveyOfTexts buses dump_left probe_left survey
        → IsAudited buses dump_left probe_left outcome) }
{
    let outline = match survey.finish() {
        Ok(outline) => outline,
        Err(Refused::Fault(fault)) => return Ok(Outcome::No(fault)),
        Err(Refused::Memory) => return Err(OutOfMemory),
    };
    match judge(alloc, &outline)? {
        Some(fault) => Ok(Outcome::No(fault)),
        None => Ok(Outcome::Yes),
    }
}

/// The verdict on two texts, which are read to their ends. Nothing is written.
///
/// # Errors
///
/// As those of [`audit_with`], but for `Write`.
pub fn judge_texts<A: Allocator + Copy, D: Source, P: Source>(
    alloc: A,
    dump: &mut D,
    probe: &mut P,
    roots: Roots,
) -> Result<Outcome, AuditFault>
    ensures outcome { IfOk result
        (IsAudited (buses_of roots) (D.left dump.old) (P.left probe.old)) }
    ensures fault { IfErr result (IsTextRefusal
        (reading (D.left dump.old) (D.failures dump.old) (D.failures dump.new))
        (reading (P.left probe.old) (P.failures probe.old) (P.failures probe.new))) }
    // nothing is written here, so a caller has no 10 to answer
    ensures read { IfErr result (λ fault. fault ≢ AuditFault.Write) }
{
    let survey = survey_texts(alloc, dump, probe, roots)?;
    Ok(outcome_of(alloc, survey)?)
}

/// The line of an outcome.
fn outcome_text<A: Allocator>(alloc: A, outcome: &Outcome) -> Result<String<A>, OutOfMemory>
    ensures { IfOk result (λ line. string_bytes line ≡ outcome_line outcome.now) }
{
    match outcome {
        Outcome::Yes => line_of(alloc, None),
        Outcome::No(fault) => line_of(alloc, Some(*fault)),
    }
}

/// Reads a dump and a probe to their ends, and writes the line of their verdict: `yes` exactly where both list the
/// same slots and their system is sound; else `no`, with the first fault that is there.
///
/// # Errors
///
/// `Dump` and `Probe` where that text is refused, the dump's first; `Memory` (2) where a growth was refused. Nothing was
/// written then. `Write` (10) where a write failed: a beginning of the line was written.
pub fn audit_with<A: Allocator + Copy, D: Source, P: Source, O: Sink>(
    alloc: A,
    dump: &mut D,
    probe: &mut P,
    out: &mut O,
    roots: Roots,
) -> Result<Outcome, AuditFault>
    ensures outcome { IfOk result
        (IsAudited (buses_of roots) (D.left dump.old) (P.left probe.old)) }
    // what is answered and what is written can't differ
    ensures line { IfOk result
        (λ outcome. Appends (O.taken out.old) (O.taken out.new) (outcome_line outcome)) }
    ensures fault { IfErr result (IsTextRefusal
        (reading (D.left dump.old) (D.failures dump.old) (D.failures dump.new))
        (reading (P.left probe.old) (P.failures probe.old) (P.failures probe.new))) }
    // where a text is refused no part of a line goes out
    ensures quiet { IfErr result (λ fault. fault ≢ AuditFault.Write → out.new ≡ out.old) }
    // both texts were judged then: only the line of their verdict didn't get out
    ensures begun { IfErr result (λ fault. fault ≡ AuditFault.Write
        → HasBegun (buses_of roots) (D.left dump.old) (P.left probe.old) (O.taken out.old)
        (O.taken out.new)) }
    ensures failed { IfErr result
        (λ fault. fault ≡ AuditFault.Write → O.failures out.new ≡ O.failures out.old + 1) }
{
    let outcome = judge_texts(alloc, dump, probe, roots)?;
    let line = outcome_text(alloc, &outcome)?;
    match write_all(out, line.as_bytes()) {
        Ok(()) => Ok(outcome),
        Err(_) => Err(AuditFault::Write),
    }
}

/// `audit_with` where the host's accesses start on bus 00 alone.
pub fn audit<A: Allocator + Copy, D: Source, P: Source, O: Sink>(
    alloc: A,
    dump: &mut D,
    probe: &mut P,
    out: &mut O,
) -> Result<Outcome, AuditFault>
    ensures outcome { IfOk result (IsAudited (0 ∷ []) (D.left dump.old) (P.left probe.old)) }
    ensures line { IfOk result
        (λ outcome. Appends (O.taken out.old) (O.taken out.new) (outcome_line outcome)) }
    ensures fault { IfErr result (IsTextRefusal
        (reading (D.left dump.old) (D.failures dump.old) (D.failures dump.new))
        (reading (P.left probe.old) (P.failures probe.old) (P.failures probe.new))) }
    // where a text is refused no part of a line goes out
    ensures quiet { IfErr result (λ fault. fault ≢ AuditFault.Write → out.new ≡ out.old) }
    // what went out can't be taken back, so all that is promised is that it is a beginning
    ensures begun { IfErr result (λ fault. fault ≡ AuditFault.Write
        → HasBegun (0 ∷ []) (D.left dump.old) (P.left probe.old) (O.taken out.old)
        (O.taken out.new)) }
    ensures failed { IfErr result
        (λ fault. fault ≡ AuditFault.Write → O.failures out.new ≡ O.failures out.old + 1) }
{
    audit_with(alloc, dump, probe, out, Roots::host())
}
