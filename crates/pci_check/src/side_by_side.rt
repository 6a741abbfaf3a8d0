//! A dump and a probe that are read side by side: one block of each in turn goes into a survey, and none is kept.
ghost use Rattle.std.specs.Prelude.{◌≡◌, ◌≢◌, ◌+◌, ◌<◌, ℕ, List, ◌++◌, Option, true, false, IfOk, IfErr, OnOk};
ghost use Rattle.pci_spec.specs.Text.{Block as BlockValue};
ghost use Rattle.pci_spec.specs.Stops.{IsAboveLast};
ghost use Rattle.pci_dump.specs.State.{IsOver, state_of};
ghost use Rattle.pci_tree.specs.Roots.{buses_of};
ghost use Rattle.pci_check.specs.Audits.{IsDumpOf, IsReadFaultOf, IsTextRefusal, reading};
ghost use Rattle.pci_check.specs.SideBySide.{Texts, IsReadSoFar, IsRest, IsOpen, IsSideBySide, AreSideBySide, IsBesideOrDecided, IsTakenBySurvey, IsDecided, IsSurveyOfTexts};

use super::outcome::AuditFault;
use pci_base::memory::OutOfMemory;
use pci_dump::ahead::ReadAhead;
use pci_dump::block::Block;
use pci_dump::read_fault::ReadFault;
use pci_dump::streams::Source;
use pci_tree::roots::Roots;
use pci_tree::survey::Survey;
use std::alloc::Allocator;

/// Reads what is left of a text, and keeps nothing of it.
fn read_out<S: Source>(ahead: &mut ReadAhead, source: &mut S) -> Result<(), ReadFault>
    requires { IsOver ahead.old (S.left source.old) }
    ensures rest { OnOk result ((left : Option (List ℕ)) (failures : ℕ) (blocks : List BlockValue)
        → IsReadSoFar left failures
        (state_of ahead.old (S.left source.old) (S.failures source.old)) blocks
        → (more : List BlockValue)
        × IsRest (state_of ahead.old (S.left source.old) (S.failures source.old)) blocks more
        × IsDumpOf left (blocks ++ more) × (S.failures source.new ≡ failures)) }
    ensures fault { IfErr result
        (λ fault. (left : Option (List ℕ)) (failures : ℕ) (blocks : List BlockValue)
        → IsReadSoFar left failures
        (state_of ahead.old (S.left source.old) (S.failures source.old)) blocks
        → IsReadFaultOf left failures (S.failures source.new) fault) }
{
    let mut block = Block::blank();
    loop {
        match ahead.next_into(source, &mut block) {
            Err(fault) => return Err(fault),
            Ok(false) => return Ok(()),
            Ok(true) => {}
        }
    }
}

/// How far a dump and a probe were read, and the survey of the functions that both list.
#[derive(Drop)]
struct SideBySide<A: Allocator> {
    listed: ReadAhead,
    read_back: ReadAhead,
    survey: Survey<A>,
}

impl<A: Allocator> SideBySide<A> {
    /// Nothing of a dump and a probe was read.
    fn new(alloc: A, roots: Roots) -> SideBySide<A>
        ensures beside { (texts : Texts)
            → IsSideBySide texts (buses_of roots)
            (state_of result.listed texts.dump_left texts.dump_failures)
            (state_of result.read_back texts.probe_left texts.probe_failures) result.survey }
        ensures dump { result.listed.drained ≡ false }
        ensures probe { result.read_back.drained ≡ false }
    {
        SideBySide {
            listed: ReadAhead::new(),
            read_back: ReadAhead::new(),
            survey: Survey::with(alloc, roots),
        }
    }

    /// Adds a function, where both blocks have its slot; else notes the lesser of the two slots, and answers false.
    fn add(&mut self, block: &Block, other: &Block) -> Result<bool, OutOfMemory>
        requires open { IsOpen self.old.survey }
        requires above { IsAboveLast self.old.survey.last block.now.slot }
        ensures ok { IfOk result
            (λ same. IsTakenBySurvey self.old.survey self.new.survey block.now other.now same) }
        ensures listed { self.new.listed ≡ self.old.listed }
        ensures read_back { self.new.read_back ≡ self.old.read_back }
    {
        let ours = block.slot.number();
        let theirs = other.slot.number();
        if ours == theirs {
            self.survey.add(block, other)?;
            return Ok(true);
        }
        if ours < theirs {
            self.survey.only(block.slot);
        } else {
            self.survey.only(other.slot);
        }
        Ok(false)
    }

    /// Takes the next block of each text, by way of `block` and `other`. False where there are no two: a text has
    /// ended, or it has a fault, which its `ReadAhead` goes on answering; or their slots differ.
    fn take_pair<D: Source, P: Source>(
        &mut self,
        dump: &mut D,
        probe: &mut P,
        block: &mut Block,
        other: &mut Block,
    ) -> Result<bool, OutOfMemory>
        requires dump { IsOver self.old.listed (D.left dump.old) }
        requires probe { IsOver self.old.read_back (P.left probe.old) }
        requires beside { AreSideBySide
            (state_of self.old.listed (D.left dump.old) (D.failures dump.old))
            (state_of self.old.read_back (P.left probe.old) (P.failures probe.old))
            self.old.survey }
        ensures dump { IsOver self.new.listed (D.left dump.new) }
        ensures probe { IsOver self.new.read_back (P.left probe.new) }
        ensures pair { IfOk result (λ taken. (texts : Texts) (buses : List ℕ)
            → IsSideBySide texts buses
            (state_of self.old.listed (D.left dump.old) (D.failures dump.old))
            (state_of self.old.read_back (P.left probe.old) (P.failures probe.old)) self.old.survey
            → IsBesideOrDecided taken texts buses
            (state_of self.new.listed (D.left dump.new) (D.failures dump.new))
            (state_of self.new.read_back (P.left probe.new) (P.failures probe.new))
            self.new.survey) }
        ensures fewer { IfOk result (λ taken. taken ≡ true
            → (self.old.listed.count < 4096)
            × (self.new.listed.count ≡ self.old.listed.count + 1)) }
    {
        let listed = match self.listed.next_into(dump, block) {
            Err(_) => return Ok(false),
            Ok(listed) => listed,
        };
        let read_back = match self.read_back.next_into(probe, other) {
            Err(_) => return Ok(false),
            Ok(read_back) => read_back,
        };
        if !listed {
            if !read_back {
                return Ok(false);
            }
            self.survey.only(other.slot);
            return Ok(false);
        }
        if !read_back {
            self.survey.only(block.slot);
            return Ok(false);
        }
        self.add(block, other)
    }

    /// Takes one block of each text in turn, as long as both have one of the same slot.
    fn take_pairs<D: Source, P: Source>(
        &mut self,
        dump: &mut D,
        probe: &mut P,
    ) -> Result<(), OutOfMemory>
        requires dump { IsOver self.old.listed (D.left dump.old) }
        requires probe { IsOver self.old.read_back (P.left probe.old) }
        requires beside { AreSideBySide
            (state_of self.old.listed (D.left dump.old) (D.failures dump.old))
            (state_of self.old.read_back (P.left probe.old) (P.failures probe.old))
            self.old.survey }
        ensures dump { IsOver self.new.listed (D.left dump.new) }
        ensures probe { IsOver self.new.read_back (P.left probe.new) }
        ensures pairs { OnOk result ((texts : Texts) (buses : List ℕ)
            → IsSideBySide texts buses
            (state_of self.old.listed (D.left dump.old) (D.failures dump.old))
            (state_of self.old.read_back (P.left probe.old) (P.failures probe.old)) self.old.survey
            → IsDecided texts buses
            (state_of self.new.listed (D.left dump.new) (D.failures dump.new))
            (state_of self.new.read_back (P.left probe.new) (P.failures probe.new))
            self.new.survey) }
    {
        let mut block = Block::blank();
        let mut other = Block::blank();
        while self.take_pair(dump, probe, &mut block, &mut other)? {}
        Ok(())
    }
}

/// Reads a dump and a probe to their ends, side by side, and surveys the functions that both list.
///
/// # Errors
///
/// `Dump` and `Probe` where that text is refused, the dump's first; `Memory` (2) where a growth was refused.
pub(crate) fn survey_texts<A: Allocator, D: Source, P: Source>(
    alloc: A,
    dump: &mut D,
    probe: &mut P,
    roots: Roots,
) -> Result<Survey<A>, AuditFault>
    ensures survey { IfOk result
        (λ v. IsSurveyOfTexts (buses_of roots) (D.left dump.old) (P.left probe.old) v) }
    ensures fault { IfErr result (IsTextRefusal
        (reading (D.left dump.old) (D.failures dump.old) (D.failures dump.new))
        (reading (P.left probe.old) (P.failures probe.old) (P.failures probe.new))) }
    ensures read { IfErr result (λ fault. fault ≢ AuditFault.Write) }
{
    let mut both = SideBySide::new(alloc, roots);
    match both.take_pairs(dump, probe) {
        Ok(()) => {}
        Err(OutOfMemory) => return Err(AuditFault::Memory),
    }
    match read_out(&mut both.listed, dump) {
        Ok(()) => {}
        Err(fault) => return Err(AuditFault::Dump(fault)),
    }
    match read_out(&mut both.read_back, probe) {
        Ok(()) => {}
        Err(fault) => return Err(AuditFault::Probe(fault)),
    }
    let SideBySide {
        listed: _,
        read_back: _,
        survey,
    } = both;
    Ok(survey)
}
