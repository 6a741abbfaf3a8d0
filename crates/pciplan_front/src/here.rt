//! `here`: reads the machine of a folder and judges it, domain by domain.
ghost use Rattle.std.specs.Prelude.{◌≡◌, ◌⊎◌, ◌≤◌, ◌+◌, ◌++◌, ℕ, true, IfErr, IfOk, MatchResult, OnErr, OnOk, map, string_bytes};
ghost use Rattle.std.specs.Io.KnownBytes.{Appends};
ghost use Rattle.pci_dump.specs.Begun.{AppendsBeginning};
ghost use Rattle.pci_here.specs.Log.{log_of};
ghost use Rattle.pci_here.specs.Trouble.{trouble_status};
ghost use Rattle.pciplan_tasks.specs.Answers.{answer_of};
ghost use Rattle.pciplan_front.specs.HereTold.{AreAsked, AreNotHad, AreDomainsTold, HasNoLog, IsAskedLog, IsCutOff, IsHereCommand, IsPieceOut, IsPrint, IsTrouble, files, greater, heading};
ghost use Rattle.pciplan_front.specs.Went.{went};

use crate::domain_reply::domain_reply;
use crate::folder::Foldered;
use crate::here_asked::{HereAsked, What, here_asked};
use crate::messages::Messages;
use pci_base::memory::OutOfMemory;
use pci_dump::streams::{Failed, Sink};
use pci_dump::write::write_all;
use pci_here::domain::{domain_of, domains_of};
use pci_here::log::Log;
use pci_here::machine::Machine;
use pci_here::trouble::{Trouble, TroubleAt};
use pciplan_cli::outside::Outside;
use pciplan_tasks::failure::{Failure, report};
use pciplan_tasks::reply::{Reply, send};
use std::alloc::Global;
use std::fmt::Write;

/// What is asked for of each domain of a machine.
#[derive(Drop)]
struct Each<'a, M> {
    machine: &'a M,
    what: What,
    /// Whether a heading stands before what is printed of a domain.
    headed: bool,
}

/// Writes the message, and answers the status. A sink that fails changes no status.
#[tactic(auto, using(crate::proofs::HerePieces::trouble_known))]
fn tell_trouble<E: Sink>(err: &mut E, found: TroubleAt) -> u8
    ensures named { result ≡ trouble_status found.trouble }
    ensures known { result ≤ 4 }
{
    let mut messages = Messages { sink: err };
    let _ = writeln!(messages, "pciplan: here: {found}");
    found.trouble.status()
}

/// Appends the heading of a domain.
fn push_heading(text: &mut String, domain: u32) -> Result<(), OutOfMemory>
    ensures { OnOk result (string_bytes text.new ≡ string_bytes text.old ++ heading true domain) }
{
    writeln!(text, "domain {domain:04x}")?;
    Ok(())
}

/// The line before what is printed of a domain, where there is one.
fn heading_of(alloc: Global, headed: bool, domain: u32) -> Result<String, OutOfMemory>
    ensures { IfOk result (λ text. string_bytes text ≡ heading headed domain) }
{
    let mut text = String::new(alloc);
    if headed {
        push_heading(&mut text, domain)?;
    }
    Ok(text)
}

/// What is printed of a domain, behind its heading.
#[derive(Drop)]
struct Print {
    heading: String,
    reply: Reply<Global>,
}

/// Reads a domain and makes what is printed of it. Where it can't be read, it writes the message to `err` and answers the
/// status.
#[tactic(auto, using(crate::proofs::HerePieces::found_trouble, crate::proofs::HerePieces::memory_trouble, crate::proofs::HerePieces::trouble_known))]
fn print_of<M: Machine, E: Sink>(
    alloc: Global,
    each: &Each<'_, M>,
    domain: u32,
    err: &mut E,
) -> Result<Print, u8>
    ensures print { IfOk result (λ print. IsPrint (M.shown each.now.machine.now) each.now.what
        each.now.headed domain (string_bytes print.heading) (answer_of print.reply)) }
    ensures status { IfErr result (λ status. IsTrouble (M.shown each.now.machine.now) domain status) }
    ensures known { IfErr result (λ status. status ≤ 4) }
{
    let found = match domain_of(alloc, each.machine, domain) {
        Ok(found) => found,
        Err(trouble) => return Err(tell_trouble(err, trouble)),
    };
    let Ok(heading) = heading_of(alloc, each.headed, domain) else {
        return Err(report(err, Failure::Memory));
    };
    match domain_reply(alloc, each.what, found) {
        Ok(reply) => Ok(Print { heading, reply }),
        Err(_) => Err(report(err, Failure::Memory)),
    }
}

/// Reads a domain and writes what is asked for of it to `out`, or a message to `err`, and answers the status: 0 or 1 where
/// it was written, 2 to 4 where nothing of the domain was written.
///
/// # Errors
///
/// `Failed` where a write to `out` failed.
#[tactic(auto, using(crate::proofs::HerePieces::unread_out, crate::proofs::HerePieces::printed_out, crate::proofs::HerePieces::heading_begun, crate::proofs::HerePieces::printed_begun))]
fn tell_domain<M: Machine, O: Sink, E: Sink>(
    alloc: Global,
    each: &Each<'_, M>,
    domain: u32,
    out: &mut O,
    err: &mut E,
) -> Result<u8, Failed>
    ensures written { IfOk result (λ status. IsPieceOut (M.shown each.now.machine.now)
        each.now.what each.now.headed domain status (Appends (O.taken out.old) (O.taken out.new))) }
    ensures begun { OnErr result ((status : ℕ) × IsPieceOut (M.shown each.now.machine.now)
        each.now.what each.now.headed domain status
        (AppendsBeginning (O.taken out.old) (O.taken out.new))) }
    ensures failed { OnErr result ((before : ℕ) × (O.failures out.new ≡ before + 1)) }
    ensures known { IfOk result (λ status. status ≤ 4) }
{
    let print = match print_of(alloc, each, domain, err) {
        Ok(print) => print,
        Err(status) => return Ok(status),
    };
    write_all(out, print.heading.as_bytes())?;
    send(out, err, &print.reply)?;
    Ok(print.reply.status())
}

/// The greater of two statuses.
fn greater(status: u8, other: u8) -> u8
    ensures { result ≡ greater status other }
{
    if status < other { other } else { status }
}

/// The greatest status of what is written of these domains.
fn tell_domains<M: Machine, O: Sink, E: Sink>(
    alloc: Global,
    each: &Each<'_, M>,
    domains: &[u32],
    out: &mut O,
    err: &mut E,
) -> u8
    ensures told { AreDomainsTold (M.shown each.now.machine.now) each.now.what each.now.headed domains.now
        result (Appends (O.taken out.old) (O.taken out.new))
        ⊎ IsCutOff (M.shown each.now.machine.now) each.now.what each.now.headed domains.now
        result (went (O.taken out.old) (O.taken out.new) (out.new ≡ out.old)
        ((before : ℕ) × (O.failures out.new ≡ before + 1))) }
    ensures known { result ≤ 4 }
{
    let mut status = 0;
    for domain in domains {
        match tell_domain(alloc, each, *domain, out, err) {
            Ok(of_domain) => status = greater(status, of_domain),
            Err(Failed) => return report(err, Failure::Io),
        }
    }
    status
}

/// The domains that are judged: the one that is asked for, or all that the machine has.
fn asked_domains<M: Machine>(
    alloc: Global,
    machine: &M,
    domain: Option<u32>,
) -> Result<Vec<u32>, Trouble>
    ensures { MatchResult result (λ domains. AreAsked (M.shown machine.now) domain domains.items)
        (AreNotHad (M.shown machine.now) domain) }
{
    let Some(domain) = domain else {
        return domains_of(alloc, machine);
    };
    let mut domains = Vec::new(alloc);
    match domains.push(domain) {
        Ok(()) => Ok(domains),
        Err(_) => Err(Trouble::Memory),
    }
}

/// What the kernel's log tells in the file that is asked for, or nothing where none is.
fn asked_log<M: Foldered>(alloc: Global, machine: &M, asked: &HereAsked) -> Result<Log, Trouble>
    ensures { MatchResult result (λ log. IsAskedLog (M.text_at machine.now) asked.now.log (log_of log))
        (HasNoLog (M.text_at machine.now) asked.now.log) }
{
    let Some(path) = &asked.log else {
        return Ok(Log::none(alloc));
    };
    let text = machine.text(alloc, path.as_str())?;
    Ok(Log::of(alloc, text.as_str())?)
}

/// Reads the machine that the words ask for, and writes what they ask for of each domain to `out`, messages and remarks to
/// `err`. It answers the greatest status of a domain: 0 or 1 where it was written; 2 where the words, or a file of the
/// domain, are refused; 3 at want of memory; 4 where there is no such function, or a read or a write failed.
pub fn here<D, P, M: Foldered, O: Sink, E: Sink>(
    alloc: Global,
    words: &[&str],
    outside: &mut Outside<D, P, M, O, E>,
) -> u8
    ensures done { IsHereCommand (map (λ w. w.now) words.now)
        (files (M.shown_in outside.old.machine) (M.text_at outside.old.machine)) result
        (went (O.taken outside.old.out) (O.taken outside.new.out) (outside.new.out ≡ outside.old.out)
        ((before : ℕ) × (O.failures outside.new.out ≡ before + 1))) }
    ensures known { result ≤ 4 }
{
    let asked = match here_asked(alloc, words) {
        Ok(asked) => asked,
        Err(failure) => return report(&mut outside.err, failure),
    };
    let what = asked.what;
    let domain = asked.domain;
    let log = match asked_log(alloc, &outside.machine, &asked) {
        Ok(log) => log,
        Err(trouble) => return tell_trouble(&mut outside.err, TroubleAt::of_all(trouble)),
    };
    outside.machine.look_in(asked.folder, log);
    let domains = match asked_domains(alloc, &outside.machine, domain) {
        Ok(domains) => domains,
        Err(trouble) => return tell_trouble(&mut outside.err, TroubleAt::of_all(trouble)),
    };
    let each = Each {
        machine: &outside.machine,
        what,
        headed: domains.len() > 1,
    };
    tell_domains(
        alloc,
        &each,
        domains.as_slice(),
        &mut outside.out,
        &mut outside.err,
    )
}
