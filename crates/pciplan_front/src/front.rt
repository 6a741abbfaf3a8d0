//! The program, from its words to its status.
ghost use Rattle.std.specs.Prelude.{◌≡◌, ◌≢◌, ◌⊎◌, ◌<◌, ◌≤◌, ◌+◌, ℕ, IfErr, IfOk, MatchResult, codes, map, string_bytes};
ghost use Rattle.std.specs.IoError.{error_kind};
ghost use Rattle.std.specs.Io.KnownBytes.{Appends};
ghost use Rattle.pciplan_cli.specs.CarriedOut.{IsCarriedOut, IsCarriedOutBegun, texts};
ghost use Rattle.pciplan_cli.specs.Invocations.{HasBadWords, IsInvocationOf};
ghost use Rattle.pciplan_cli.specs.declared.invocation.Invocation.{Invocation};
ghost use Rattle.pciplan_tasks.specs.Answers.{AreRemarked};
ghost use Rattle.pciplan_tasks.specs.Tasks.{HasFailed, IsTaskRefused};
ghost use Rattle.pciplan_front.specs.FirstWords.{AreOfTexts, HasFirstWord, behind_first_word};
ghost use Rattle.pciplan_front.specs.HereTold.{IsHereCommand, files};
ghost use Rattle.pciplan_front.specs.JsonAsked.{IsJson};
ghost use Rattle.pciplan_front.specs.PictureAsked.{IsPicture};
ghost use Rattle.pciplan_front.specs.TextAsked.{IsTextCommand};
ghost use Rattle.pciplan_front.specs.Went.{went};

use crate::documents::json;
use crate::drawn::picture;
use crate::first::{First, first_of};
use crate::folder::Foldered;
use crate::here::here;
use crate::told::tell;
use pci_dump::streams::Sink;
use pciplan_cli::opened::Opening;
use pciplan_cli::outside::Outside;
use pciplan_cli::program::program;
use pciplan_tasks::failure::{Failure, report};
use std::alloc::{AllocError, Global};
use std::io;
use std::io::ErrorKind;

/// The words as they are read.
fn lent<'a>(alloc: Global, words: &'a [String]) -> Result<Vec<&'a str>, AllocError>
    ensures { IfOk result (λ lent. map (λ word. word.now) lent.items ≡ map string_bytes words.now) }
{
    let mut lent = Vec::new(alloc);
    for word in words {
        lent.push(word.as_str())?;
    }
    Ok(lent)
}

/// The words behind the first one.
fn behind_first<'a>(words: &'a [&'a str]) -> &'a [&'a str]
    ensures { map (λ word. word.now) result.now ≡ behind_first_word (map (λ word. word.now) words.now) }
{
    if words.is_empty() {
        return words;
    }
    &words[1..]
}

/// Does what the words of a command beside those of two texts ask for.
fn beside<D: Opening, P: Opening, M: Foldered, O: Sink, E: Sink>(
    alloc: Global,
    first: First,
    words: &[String],
    outside: &mut Outside<D, P, M, O, E>,
) -> u8
    ensures text { (first ≡ First.Explain) ⊎ (first ≡ First.Version)
        → IsTextCommand (map string_bytes words.now) result
        (went (O.taken outside.old.out) (O.taken outside.new.out) (outside.new.out ≡ outside.old.out)
        (O.failures outside.new.out ≡ O.failures outside.old.out + 1)) }
    ensures json { first ≡ First.Json → IsJson (behind_first_word (map string_bytes words.now))
        (texts (D.stands outside.old.dump) (D.bytes_at outside.old.dump))
        (texts (P.stands outside.old.second) (P.bytes_at outside.old.second))
        (texts (P.stands outside.old.third) (P.bytes_at outside.old.third))
        result
        (went (O.taken outside.old.out) (O.taken outside.new.out) (outside.new.out ≡ outside.old.out)
        (O.failures outside.new.out ≡ O.failures outside.old.out + 1))
        (went (E.taken outside.old.err) (E.taken outside.new.err) (outside.new.err ≡ outside.old.err)
        (E.failures outside.new.err ≡ E.failures outside.old.err + 1))
        (HasFailed (D.failures outside.old.dump) (D.failures outside.new.dump)
        (P.failures outside.old.second) (P.failures outside.new.second)
        (O.failures outside.old.out) (O.failures outside.new.out)
        ⊎ (P.failures outside.new.third ≡ P.failures outside.old.third + 1)) }
    ensures picture { first ≡ First.Picture → IsPicture (behind_first_word (map string_bytes words.now))
        (texts (D.stands outside.old.dump) (D.bytes_at outside.old.dump))
        (texts (P.stands outside.old.second) (P.bytes_at outside.old.second))
        (texts (P.stands outside.old.third) (P.bytes_at outside.old.third))
        result
        (went (O.taken outside.old.out) (O.taken outside.new.out) (outside.new.out ≡ outside.old.out)
        (O.failures outside.new.out ≡ O.failures outside.old.out + 1))
        (went (E.taken outside.old.err) (E.taken outside.new.err) (outside.new.err ≡ outside.old.err)
        (E.failures outside.new.err ≡ E.failures outside.old.err + 1))
        (HasFailed (D.failures outside.old.dump) (D.failures outside.new.dump)
        (P.failures outside.old.second) (P.failures outside.new.second)
        (O.failures outside.old.out) (O.failures outside.new.out)
        ⊎ (P.failures outside.new.third ≡ P.failures outside.old.third + 1)) }
    ensures here { first ≡ First.Here → IsHereCommand (map string_bytes words.now)
        (files (M.shown_in outside.old.machine) (M.text_at outside.old.machine)) result
        (went (O.taken outside.old.out) (O.taken outside.new.out) (outside.new.out ≡ outside.old.out)
        ((before : ℕ) × (O.failures outside.new.out ≡ before + 1))) }
    ensures known { result ≤ 4 }
{
    let Ok(lent) = lent(alloc, words) else {
        return report(&mut outside.err, Failure::Memory);
    };
    let words = lent.as_slice();
    match first {
        First::Here => here(alloc, words, outside),
        First::Json => json(alloc, behind_first(words), outside),
        First::Picture => picture(alloc, behind_first(words), outside),
        First::Explain | First::Version | First::Texts => {
            tell(alloc, words, &mut outside.out, &mut outside.err)
        }
    }
}

/// Does what the words ask for: writes the answer to `out` or a message to `err`, and answers the status. 0 or 1 where the
/// answer was written; 2 where the words, a text or a file of the machine are refused; 3 at want of memory; 4 where a text
/// couldn't be opened, a function isn't there, or a read or a write failed.
pub fn front<D: Opening, P: Opening, M: Foldered, O: Sink, E: Sink>(
    alloc: Global,
    words: io::Result<Vec<String>>,
    outside: &mut Outside<D, P, M, O, E>,
) -> u8
    // of words that couldn't be had: 3 may go away by itself, 2 needs other words
    ensures memory { IfErr words (λ error. error_kind error ≡ ErrorKind.OutOfMemory → result ≡ 3) }
    ensures unread { IfErr words (λ error. error_kind error ≢ ErrorKind.OutOfMemory → result ≡ 2) }
    // a command of two texts
    ensures done { result < 2
        → MatchResult words
        (λ words. AreOfTexts (map string_bytes words.items)
        → (line : Invocation) × IsInvocationOf (map string_bytes words.items)
        (texts (P.stands outside.old.third) (P.bytes_at outside.old.third)) line
        × IsCarriedOut line (texts (D.stands outside.old.dump) (D.bytes_at outside.old.dump))
        (texts (P.stands outside.old.second) (P.bytes_at outside.old.second))
        result (Appends (O.taken outside.old.out) (O.taken outside.new.out))
        (AreRemarked (E.taken outside.old.err) (E.taken outside.new.err)
        (E.failures outside.new.err ≡ E.failures outside.old.err + 1)
        (outside.new.err ≡ outside.old.err)))
        (λ _. ⊥) }
    ensures quiet { (result ≡ 2) ⊎ (result ≡ 3)
        → MatchResult words (λ words. AreOfTexts (map string_bytes words.items)
        → outside.new.out ≡ outside.old.out) (λ _. outside.new.out ≡ outside.old.out) }
    ensures begun { result ≡ 4
        → MatchResult words
        (λ words. AreOfTexts (map string_bytes words.items)
        → (outside.new.out ≡ outside.old.out)
        ⊎ ((line : Invocation) × IsInvocationOf (map string_bytes words.items)
        (texts (P.stands outside.old.third) (P.bytes_at outside.old.third)) line
        × IsCarriedOutBegun line (D.bytes_at outside.old.dump) (P.bytes_at outside.old.second)
        (O.taken outside.old.out) (O.taken outside.new.out)))
        (λ _. ⊥) }
    ensures refused { result ≡ 2 → IfOk words (λ words. AreOfTexts (map string_bytes words.items)
        → HasBadWords (map string_bytes words.items)
        ⊎ ((line : Invocation) × IsInvocationOf (map string_bytes words.items)
        (texts (P.stands outside.old.third) (P.bytes_at outside.old.third)) line
        × IsTaskRefused line.task (D.bytes_at outside.old.dump (string_bytes line.dump))
        (P.bytes_at outside.old.second (string_bytes line.probe)))) }
    ensures failed { result ≡ 4 → IfOk words (λ words. AreOfTexts (map string_bytes words.items)
        → HasFailed (D.failures outside.old.dump) (D.failures outside.new.dump)
        (P.failures outside.old.second) (P.failures outside.new.second)
        (O.failures outside.old.out) (O.failures outside.new.out)
        ⊎ (P.failures outside.new.third ≡ P.failures outside.old.third + 1)) }
    // `explain` and `version`
    ensures text { IfOk words (λ words. HasFirstWord (map string_bytes words.items) (codes "explain")
        ⊎ HasFirstWord (map string_bytes words.items) (codes "version")
        → IsTextCommand (map string_bytes words.items) result
        (went (O.taken outside.old.out) (O.taken outside.new.out) (outside.new.out ≡ outside.old.out)
        (O.failures outside.new.out ≡ O.failures outside.old.out + 1))) }
    // `json` and a command
    ensures json { IfOk words (λ words. HasFirstWord (map string_bytes words.items) (codes "json")
        → IsJson (behind_first_word (map string_bytes words.items))
        (texts (D.stands outside.old.dump) (D.bytes_at outside.old.dump))
        (texts (P.stands outside.old.second) (P.bytes_at outside.old.second))
        (texts (P.stands outside.old.third) (P.bytes_at outside.old.third))
        result
        (went (O.taken outside.old.out) (O.taken outside.new.out) (outside.new.out ≡ outside.old.out)
        (O.failures outside.new.out ≡ O.failures outside.old.out + 1))
        (went (E.taken outside.old.err) (E.taken outside.new.err) (outside.new.err ≡ outside.old.err)
        (E.failures outside.new.err ≡ E.failures outside.old.err + 1))
        (HasFailed (D.failures outside.old.dump) (D.failures outside.new.dump)
        (P.failures outside.old.second) (P.failures outside.new.second)
        (O.failures outside.old.out) (O.failures outside.new.out)
        ⊎ (P.failures outside.new.third ≡ P.failures outside.old.third + 1))) }
    // `picture` and the words of a map
    ensures picture { IfOk words (λ words. HasFirstWord (map string_bytes words.items) (codes "picture")
        → IsPicture (behind_first_word (map string_bytes words.items))
        (texts (D.stands outside.old.dump) (D.bytes_at outside.old.dump))
        (texts (P.stands outside.old.second) (P.bytes_at outside.old.second))
        (texts (P.stands outside.old.third) (P.bytes_at outside.old.third))
        result
        (went (O.taken outside.old.out) (O.taken outside.new.out) (outside.new.out ≡ outside.old.out)
        (O.failures outside.new.out ≡ O.failures outside.old.out + 1))
        (went (E.taken outside.old.err) (E.taken outside.new.err) (outside.new.err ≡ outside.old.err)
        (E.failures outside.new.err ≡ E.failures outside.old.err + 1))
        (HasFailed (D.failures outside.old.dump) (D.failures outside.new.dump)
        (P.failures outside.old.second) (P.failures outside.new.second)
        (O.failures outside.old.out) (O.failures outside.new.out)
        ⊎ (P.failures outside.new.third ≡ P.failures outside.old.third + 1))) }
    ensures here { IfOk words (λ words. HasFirstWord (map string_bytes words.items) (codes "here")
        → IsHereCommand (map string_bytes words.items)
        (files (M.shown_in outside.old.machine) (M.text_at outside.old.machine)) result
        (went (O.taken outside.old.out) (O.taken outside.new.out) (outside.new.out ≡ outside.old.out)
        ((before : ℕ) × (O.failures outside.new.out ≡ before + 1)))) }
    ensures known { result ≤ 4 }
{
    match words {
        Ok(words) => match first_of(words.as_slice()) {
            First::Texts => program(alloc, Ok(words), outside),
            first => beside(alloc, first, words.as_slice(), outside),
        },
        Err(error) => program(alloc, Err(error), outside),
    }
}
