//! What `here` answers of a domain.
ghost use Rattle.std.specs.Prelude.{◌≡◌, IfOk};
ghost use Rattle.judge_spec.specs.ModelWords.{all_words};
ghost use Rattle.pci_model.specs.WordsValue.{words_value};
ghost use Rattle.pciplan_tasks.specs.Answers.{answer_of};
ghost use Rattle.pciplan_front.specs.DomainAnswers.{IsBesideOf, IsJudgedBy, IsAnswerToldIn, what_judged};

use crate::here_asked::What;
use pci_base::memory::{OutOfMemory, Refused};
use pci_dump::dump::Dump;
use pci_here::domain::Domain;
use pci_here::words::words_text;
use pci_machine::assuming::Assuming;
use pci_machine::probe::probe_of;
use pci_model::words::{VgaWord, Words};
use pciplan_tasks::faulting::faults_by;
use pciplan_tasks::mapping::map_by;
use pciplan_tasks::probing::{derive, remarks_named};
use pciplan_tasks::reply::{Reply, Text, done, refused};
use pciplan_tasks::task::{Also, Beside, HostLists};
use std::alloc::{AllocError, Global};
use std::fmt::Write;

/// Every word of `--model` but `vga16`.
fn all_words() -> Words
    ensures { words_value result ≡ all_words }
{
    Words {
        cardbus: true,
        ide: true,
        isa: true,
        power: true,
        reset: true,
        snoop: true,
        subtractive: true,
        unclaimed: true,
        unnumbered: true,
        vga: Some(VgaWord::Vga),
        windows: true,
    }
}

/// Whether a domain is judged by its faults or shown by its map.
#[derive(Clone, Copy, Debug, PartialEq, Eq)]
enum Judging {
    Faults,
    Map,
}

/// What is said beside a domain's dump and its probe.
fn beside_of(alloc: Global, domain: Domain) -> (Dump, Beside)
    ensures dump { result.0 ≡ domain.dump }
    ensures beside { IsBesideOf domain result.1 }
{
    let Domain {
        dump,
        sizes: _,
        roots,
        io,
        mem,
        left_out: _,
    } = domain;
    let beside = Beside {
        roots,
        words: Some(all_words()),
        host: HostLists { io, mem },
        also: Also::nothing(alloc),
    };
    (dump, beside)
}

/// The faults, with reasons, or the map of a domain's dump and its probe.
fn judged_by(
    alloc: Global,
    judging: Judging,
    dump: &Dump,
    probe: &Dump,
    beside: &Beside,
) -> Result<Reply<Global>, OutOfMemory>
    ensures { IfOk result (λ reply. IsJudgedBy judging beside.now dump.now probe.now
        (answer_of reply)) }
{
    match judging {
        Judging::Faults => faults_by(alloc, dump, probe, beside, true),
        Judging::Map => map_by(alloc, dump, probe, beside),
    }
}

/// The faults or the map of a domain, with the probe that is derived for it; the line of a fault where none is derived.
fn judged(alloc: Global, domain: Domain, judging: Judging) -> Result<Reply<Global>, OutOfMemory>
    ensures { IfOk result (λ reply. IsAnswerToldIn (what_judged judging) domain (answer_of reply)) }
{
    let derivation = match probe_of(alloc, &domain.dump, &domain.sizes, Assuming::Any) {
        Ok(derivation) => derivation,
        Err(Refused::Fault(fault)) => return refused(alloc, &fault),
        Err(Refused::Memory) => return Err(OutOfMemory),
    };
    let probe = derivation.probe;
    let remarks = remarks_named(alloc, probe.blocks())?;
    let (dump, beside) = beside_of(alloc, domain);
    let reply = judged_by(alloc, judging, &dump, &probe, &beside)?;
    Ok(Reply { remarks, ..reply })
}

/// What is told of a domain besides what is printed: functions that were left out, and a space of which nothing is said.
#[derive(Clone, Copy)]
struct Notes {
    left_out: usize,
    io: bool,
    mem: bool,
}

/// What is to be told of a domain. What the host sends isn't asked for where the dump or the probe is printed.
fn notes_on(what: What, domain: &Domain) -> Notes {
    let host = what != What::Dump && what != What::Probe;
    Notes {
        left_out: domain.left_out,
        io: host && domain.io.is_none(),
        mem: host && domain.mem.is_none(),
    }
}

/// Appends the line of each.
fn push_notes(text: &mut String, notes: Notes) -> Result<(), AllocError> {
    if notes.left_out != 0 {
        let count = notes.left_out;
        writeln!(text, "pciplan: left out {count} virtual functions")?;
    }
    if notes.io {
        text.push_str("pciplan: no host ranges io\n")?;
    }
    if notes.mem {
        text.push_str("pciplan: no host ranges mem\n")?;
    }
    Ok(())
}

/// What is printed of a domain.
fn printed(alloc: Global, what: What, domain: Domain) -> Result<Reply<Global>, OutOfMemory>
    ensures { IfOk result (λ reply. IsAnswerToldIn what domain (answer_of reply)) }
{
    match what {
        What::Faults => judged(alloc, domain, Judging::Faults),
        What::Map => judged(alloc, domain, Judging::Map),
        What::Dump => Ok(done(alloc, Text::Dump(domain.dump))),
        What::Probe => derive(alloc, &domain.dump, &domain.sizes, Assuming::Any),
        What::Words => Ok(done(alloc, Text::Lines(words_text(alloc, &domain)?))),
    }
}

/// What `here` answers of a domain.
pub fn domain_reply(alloc: Global, what: What, domain: Domain) -> Result<Reply<Global>, OutOfMemory>
    ensures { IfOk result (λ reply. IsAnswerToldIn what domain (answer_of reply)) }
{
    let notes = notes_on(what, &domain);
    let mut reply = printed(alloc, what, domain)?;
    match push_notes(&mut reply.remarks, notes) {
        Ok(()) => Ok(reply),
        Err(_) => Err(OutOfMemory),
    }
}
