//! A line of the kernel's log that tells of a function's BARs.
ghost use Rattle.std.specs.Prelude.{◌≡◌, ◌⊎◌, ◌↔◌, ℕ, List, Some, IsTrue, IfSome, MatchOption};
ghost use Rattle.pci_here.specs.Place.{FunctionPlace as PlaceValue};
ghost use Rattle.pci_here.specs.LogLine.{IsBarSize, IsBarText, IsBehindNumber, IsDevice, IsIoText, IsKind, IsKindSize, IsLogLine, IsFunctionNameWord, IsNoLogLine, IsPlainSize, IsSaidOf, IsSizeText, IsLogMessage};
ghost use Rattle.pci_here.specs.declared.log_line.BarSize.{BarSize};
ghost use Rattle.pci_here.specs.declared.log_line.SizeTold.{SizeTold};
ghost use Rattle.pci_here.specs.declared.log_line.Told.{Told};

use crate::part::first_part;
use crate::place::{Place, place_of};
use pciplan_lists::pool_word::address_of;

/// How many BARs a function has at most.
const BARS: usize = 6;

/// The flags of the file `resource` that the log tells, of a BAR of I/O space.
const IO: u64 = 0x101;

/// Of one of memory space, of 32 bits and not prefetchable.
const MEMORY: u64 = 0x200;

/// Of 64 bits.
const MEMORY_64: u64 = 0x204;

/// Prefetchable, of 32 bits.
const PREFETCHABLE: u64 = 0x208;

/// Prefetchable, of 64 bits.
const PREFETCHABLE_64: u64 = 0x20c;

/// A size, and flags as those of the file `resource`.
#[derive(Clone, Copy, Debug, PartialEq, Eq)]
pub struct SizeTold {
    pub size: u64,
    pub flags: u64,
}

/// The size of a BAR that has no place.
#[derive(Clone, Copy, Debug, PartialEq, Eq)]
pub struct BarSize {
    pub bar: usize,
    pub told: SizeTold,
}

/// What a line tells of a function.
#[derive(Clone, Copy, Debug, PartialEq, Eq)]
pub enum Told {
    /// A device was found in its slot: earlier lines are of another one.
    Device,
    /// The size of one of its BARs.
    Size(BarSize),
}

/// A function, and what a line tells of it.
#[derive(Clone, Copy, Debug, PartialEq, Eq)]
pub struct LogLine {
    pub place: Place,
    pub told: Told,
}

/// The function that a word `DDDD:bb:dd.f:` names. There is none of any other word.
#[tactic(auto, using(crate::proofs::LogWords::name_found, crate::proofs::LogWords::no_name))]
fn place_named(word: &str) -> Option<Place>
    ensures name { IfSome result (λ place. IsFunctionNameWord word.now place) }
    ensures only { (place : PlaceValue) → IsFunctionNameWord word.now place → result ≡ Some place }
{
    let name = word.strip_suffix(':')?;
    place_of(name)
}

/// A function, and what a line says of it.
#[derive(Clone, Copy)]
struct Said<'a> {
    place: Place,
    text: &'a str,
}

/// What a line says behind the first word that names a function; None where no word does.
fn said_of(line: &str) -> Option<Said<'_>>
    ensures said { MatchOption result
        ((place : PlaceValue) (text : List ℕ) → IsSaidOf line.now place text → ⊥)
        (λ said. IsSaidOf line.now said.place said.text.now) }
    ensures only { IfSome result (λ said. (place : PlaceValue) (text : List ℕ)
        → IsSaidOf line.now place text → (place ≡ said.place) × (text ≡ said.text.now)) }
{
    let mut left = Some(line);
    'words: while let Some(words) = left {
        let (word, more) = first_part(words, ' ');
        if let Some(place) = place_named(word) {
            let text = more?;
            return Some(Said { place, text });
        }
        left = more;
    }
    None
}

/// What stands behind a device that was found, as in `[8086:10d3] type 00 class 0x020000`.
#[tactic(auto, using(crate::proofs::LogForms::no_bracket))]
fn behind_device(text: &str) -> Option<&str>
    ensures { MatchOption result (IsDevice text.now → ⊥) (λ _. IsDevice text.now) }
{
    let rest = text.strip_prefix("[")?;
    match rest.split_once(']') {
        Some((_, more)) => more.strip_prefix(" type "),
        None => None,
    }
}

/// The size of a text of hex digits.
fn plain_size(text: &str, flags: u64) -> Option<SizeTold>
    ensures { MatchOption result ((told : SizeTold) → IsPlainSize flags text.now told → ⊥)
        (IsPlainSize flags text.now) }
{
    let size = address_of(text)?;
    Some(SizeTold { size, flags })
}

/// The flags of a BAR of memory space, of which these words are said behind its size.
fn flags_of(words: &str) -> Option<u64>
    ensures words { IfSome result (IsKind words.now) }
    ensures only { (flags : ℕ) → IsKind words.now flags → result ≡ Some flags }
{
    match words {
        "64bit" => Some(MEMORY_64),
        "pref" => Some(PREFETCHABLE),
        "64bit pref" => Some(PREFETCHABLE_64),
        _ => None,
    }
}

/// The size of a BAR of memory space, of the text behind `mem size 0x`.
#[tactic(auto, using(crate::proofs::LogForms::memory_whole))]
fn memory_size(text: &str) -> Option<SizeTold>
    ensures { MatchOption result
        ((told : SizeTold) → IsPlainSize 512 text.now told ⊎ IsKindSize text.now told → ⊥)
        (λ told. IsPlainSize 512 text.now told ⊎ IsKindSize text.now told) }
{
    match text.split_once(' ') {
        Some((digits, words)) => {
            let flags = flags_of(words)?;
            plain_size(digits, flags)
        }
        None => plain_size(text, MEMORY),
    }
}

/// The size of a BAR of I/O space.
#[tactic(auto, using(crate::proofs::LogForms::io_one, crate::proofs::LogForms::io_two, crate::proofs::LogForms::no_io))]
fn io_size(text: &str) -> Option<SizeTold>
    ensures { MatchOption result ((told : SizeTold) → IsIoText text.now told → ⊥) (IsIoText text.now) }
{
    match text.strip_prefix("io  size 0x") {
        Some(digits) => plain_size(digits, IO),
        None => {
            let digits = text.strip_prefix("io size 0x")?;
            plain_size(digits, IO)
        }
    }
}

/// The size of a BAR, of the text between the brackets.
#[tactic(auto, using(crate::proofs::LogForms::text_of_io))]
fn size_told(text: &str) -> Option<SizeTold>
    ensures { MatchOption result ((told : SizeTold) → IsSizeText text.now told → ⊥)
        (IsSizeText text.now) }
{
    match text.strip_prefix("mem size 0x") {
        Some(rest) => memory_size(rest),
        None => io_size(text),
    }
}

/// Whether a text is one blank, or begins with a colon.
fn is_behind_number(text: &[u8]) -> bool
    ensures { IsTrue result ↔ IsBehindNumber text.now }
{
    match text.first() {
        Some(b' ') => text.len() == 1,
        Some(b':') => true,
        _ => false,
    }
}

/// The number of the BAR that a text before a bracket names, as `BAR 2 ` or `BAR 2: failed to assign `.
#[tactic(auto, using(crate::proofs::LogForms::no_bar_name))]
fn bar_of(text: &str) -> Option<usize>
    ensures { MatchOption result ((bar : ℕ) → IsBarText text.now bar → ⊥) (IsBarText text.now) }
{
    let bytes = text.strip_prefix("BAR ")?.as_bytes();
    let digit = bytes.first()?;
    let bar = usize::from(digit.checked_sub(b'0')?);
    if bar < BARS && is_behind_number(&bytes[1..]) {
        Some(bar)
    } else {
        None
    }
}

/// The size of a BAR, of the text behind a function's name.
fn size_of(text: &str) -> Option<BarSize>
    ensures { MatchOption result ((size : BarSize) → IsBarSize text.now size → ⊥) (IsBarSize text.now) }
{
    let (front, rest) = text.split_once('[')?;
    let (inside, _) = rest.split_once(']')?;
    let bar = bar_of(front)?;
    let told = size_told(inside)?;
    Some(BarSize { bar, told })
}

/// What a text behind a function's name tells of it.
#[tactic(auto, using(crate::proofs::LogForms::nothing_told))]
fn told_of(text: &str) -> Option<Told>
    ensures { MatchOption result ((told : Told) → IsLogMessage text.now told → ⊥) (IsLogMessage text.now) }
{
    match behind_device(text) {
        Some(_) => Some(Told::Device),
        None => match size_of(text) {
            Some(size) => Some(Told::Size(size)),
            None => None,
        },
    }
}

/// What a line of the kernel's log tells of a function's BARs. There is nothing of any other line.
pub fn log_line_of(line: &str) -> Option<LogLine>
    ensures { MatchOption result (IsNoLogLine line.now) (IsLogLine line.now) }
{
    match said_of(line) {
        Some(said) => {
            let told = told_of(said.text)?;
            Some(LogLine {
                place: said.place,
                told,
            })
        }
        None => None,
    }
}
