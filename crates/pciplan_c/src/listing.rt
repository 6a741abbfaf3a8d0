//! The list of all faults of two texts that lie in memory.
ghost use Rattle.std.specs.Prelude.{◌≡◌, ◌<◌, ◌≤◌, ℕ, length, IfOk, IfErr};
ghost use Rattle.pciplan_c.specs.Puts.{IsPutInto};
ghost use Rattle.pciplan_tasks.specs.Answers.{AreReplyLines, answer_of};
ghost use Rattle.pciplan_c.specs.Listings.{AreFaultsListed, IsListing, IsListingTooLong, IsWhyNoFaultsListed, IsTextPut, MayWantToList, listing_of};
ghost use Rattle.pciplan_c.specs.NoLists.{IsListMade, no_list_text};

use crate::admitting::read;
use crate::faults_words::{FaultsWords, beside_of};
use crate::inputs::Inputs;
use crate::no_list::NoList;
use crate::put::{Withheld, put};
use crate::refusal::Refusal;
use pci_base::memory::{OutOfMemory, Refused};
use pci_dump::dump::Dump;
use pci_dump::read_fault::ReadFault;
use pci_tree::roots::Roots;
use pciplan_tasks::faulting::faults_by;
use pciplan_tasks::reply::{Reply, Text};
use std::alloc::Global;

/// What is answered where all faults are to be listed.
#[derive(Clone, Copy, Debug, PartialEq, Eq)]
pub enum Listing {
    /// There are none, and the list says `yes`.
    Sound,
    /// The list names them.
    Faults,
    /// There is no list.
    Refused(NoList),
}

/// What is answered, and how many of the caller's bytes its text takes.
#[derive(Clone, Copy, Debug, PartialEq, Eq)]
pub struct Listed {
    pub listing: Listing,
    pub used: usize,
}

/// Lists the faults of two texts, in a frame that is let go before the list is put.
#[inline(never)]
#[tactic(auto, using(crate::proofs::Listings::bad_word, crate::proofs::Listings::word_want, crate::proofs::Listings::text_want, crate::proofs::Listings::bad_dump, crate::proofs::Listings::bad_probe, crate::proofs::Listings::are_listed))]
fn list_texts(
    alloc: Global,
    dump: &[u8],
    probe: &[u8],
    roots: &[u8],
    words: &FaultsWords<'_>,
) -> Result<Reply<Global>, Refused<NoList>>
    ensures list { IfOk result
        (λ reply. AreFaultsListed roots.now dump.now probe.now words.now (answer_of reply)) }
    ensures lines { IfOk result (λ reply. AreReplyLines reply.text) }
    ensures why { IfErr result (IsWhyNoFaultsListed roots.now dump.now probe.now words.now) }
{
    let Some(roots) = Roots::of(roots) else {
        return Err(Refused::Fault(NoList::Unread(Refusal::Root)));
    };
    let beside = match beside_of(alloc, roots, words) {
        Ok(beside) => beside,
        Err(Refused::Fault(bad)) => return Err(Refused::Fault(NoList::BadWord(bad))),
        Err(Refused::Memory) => return Err(Refused::Memory),
    };
    let dump = match read(alloc, dump) {
        Ok(dump) => dump,
        Err(Refused::Fault(fault)) => {
            return Err(Refused::Fault(NoList::Unread(Refusal::Dump(fault))));
        }
        Err(Refused::Memory) => return Err(Refused::Memory),
    };
    let probe = match read(alloc, probe) {
        Ok(probe) => probe,
        Err(Refused::Fault(fault)) => {
            return Err(Refused::Fault(NoList::Unread(Refusal::Probe(fault))));
        }
        Err(Refused::Memory) => return Err(Refused::Memory),
    };
    match faults_by(alloc, &dump, &probe, &beside, words.why != 0) {
        Ok(reply) => Ok(reply),
        Err(OutOfMemory) => Err(Refused::Memory),
    }
}

/// Puts a list at the front of `text`.
fn put_list(reply: &Reply<Global>, text: &mut [u8]) -> Result<Listed, Withheld>
    requires { AreReplyLines reply.now.text }
    ensures put { IfOk result (λ listed. IsPutInto text.old text.new (answer_of reply.now).text) }
    ensures told { IfOk result (λ listed. (listed.listing ≡ listing_of reply.now.refused)
        × (listed.used ≡ length (answer_of reply.now).text)) }
    ensures quiet { IfErr result (λ _. text.new ≡ text.old) }
    ensures needed { IfErr result (λ why. (why ≡ Withheld.NoRoom (length (answer_of reply.now).text))
        × (length text.old < length (answer_of reply.now).text)) }
{
    let Text::Lines(lines) = &reply.text else {
        unreachable!();
    };
    let used = put(lines.as_bytes(), text)?;
    let listing = if reply.refused {
        Listing::Faults
    } else {
        Listing::Sound
    };
    Ok(Listed { listing, used })
}

/// Puts the message of why there is no list.
fn put_message(why: NoList, message: &[u8], text: &mut [u8]) -> Result<Listed, Withheld>
    requires message { message.now ≡ no_list_text why }
    ensures told { IfOk result (λ listed. (listed.listing ≡ Listing.Refused why)
        × (listed.used ≡ length (no_list_text why))) }
    ensures put { IfOk result (λ _. IsPutInto text.old text.new (no_list_text why)) }
    ensures quiet { IfErr result (λ _. text.new ≡ text.old) }
    ensures needed { IfErr result (λ held. (held ≡ Withheld.NoRoom (length (no_list_text why)))
        × (length text.old < length (no_list_text why))) }
{
    let used = put(message, text)?;
    Ok(Listed {
        listing: Listing::Refused(why),
        used,
    })
}

/// Puts the message of why there is no list, which is put together first where it isn't a constant text.
#[tactic(auto, using(crate::proofs::Lengths::no_list_short))]
fn tell(alloc: Global, why: NoList, text: &mut [u8]) -> Result<Listed, Withheld>
    ensures told { IfOk result (λ listed. (listed.listing ≡ Listing.Refused why)
        × (listed.used ≡ length (no_list_text why))) }
    ensures put { IfOk result (λ _. IsPutInto text.old text.new (no_list_text why)) }
    ensures quiet { IfErr result (λ _. text.new ≡ text.old) }
    ensures needed { IfErr result (λ held. (needed : ℕ) → held ≡ Withheld.NoRoom needed
        → (needed ≡ length (no_list_text why)) × (length text.old < needed)) }
    ensures short { length (no_list_text why) ≤ 96 }
    // a constant text takes no memory
    ensures memory { IfErr result (λ held. held ≡ Withheld.Memory → IsListMade why) }
{
    // Read for its range: a line number has at most 20 digits.
    let _line = why.line();
    if let Some(message) = why.constant_text() {
        return put_message(why, message.as_bytes(), text);
    }
    let message = match format!(in alloc; "{why}") {
        Ok(message) => message,
        Err(_) => return Err(Withheld::Memory),
    };
    put_message(why, message.as_bytes(), text)
}

/// Lists all faults of two texts, with a list of root buses that has to rise strictly and to have a bus, and with what the
/// words give beside them. The list, or the message where there is none, is put at the front of `text`.
///
/// # Errors
///
/// `Memory` where a growth was refused. One is asked for only where the roots are a list of root buses, for the ranges of
/// words, and then where each word has a meaning. `NoRoom` where `text` is shorter than what is to be put there. Then it
/// stays as it was.
#[tactic(auto, using(crate::proofs::Listings::list_put, crate::proofs::Listings::list_too_long, crate::proofs::Listings::message_put, crate::proofs::Listings::message_too_long, crate::proofs::Listings::list_wants))]
pub fn faults_into(
    alloc: Global,
    inputs: &Inputs<'_>,
    words: &FaultsWords<'_>,
    text: &mut [u8],
) -> Result<Listed, Withheld>
    ensures told { IfOk result (λ listed. IsTextPut
        (IsListing inputs.now.roots.now inputs.now.dump.now inputs.now.probe.now words.now listed.listing) text.old text.new listed.used) }
    // part of a list must not be taken for all of it
    ensures quiet { IfErr result (λ _. text.new ≡ text.old) }
    ensures room { IfErr result (λ held. (needed : ℕ) → held ≡ Withheld.NoRoom needed
        → IsListingTooLong inputs.now.roots.now inputs.now.dump.now inputs.now.probe.now words.now text.old needed) }
    // no memory helps a list or a word that is none
    ensures memory { IfErr result
        (λ held. held ≡ Withheld.Memory → MayWantToList inputs.now.roots.now words.now) }
{
    match list_texts(alloc, inputs.dump, inputs.probe, inputs.roots, words) {
        Ok(reply) => put_list(&reply, text),
        Err(Refused::Fault(why)) => tell(alloc, why, text),
        Err(Refused::Memory) => Err(Withheld::Memory),
    }
}
