//! The text that explains a word.
ghost use Rattle.std.specs.Prelude.{◌≡◌, ◌||◌, codes, find};
ghost use Rattle.std.specs.Option.{option_map};
ghost use Rattle.std.specs.Str.{bytes_eq, str_eq_ignore_ascii_case};
ghost use Rattle.pciplan_front.specs.Explained.{named_command, named_fault, names_fault, text_of_word};

use super::command::{COMMANDS, Command};
use super::fault::{FAULTS, Fault};
use super::names::NAMES;

/// Whether a word is this number, or this name in any case.
fn is_number_or_name(number: &str, name: &str, word: &str) -> bool
    ensures { result ≡ (bytes_eq number.now word.now || str_eq_ignore_ascii_case name.now word.now) }
{
    number == word || name.eq_ignore_ascii_case(word)
}

/// Whether a word is the fault's number, or its name in any case.
fn is_named(fault: Fault, word: &str) -> bool
    ensures { result ≡ names_fault word.now fault }
{
    is_number_or_name(fault.number(), fault.name(), word)
}

/// The first of these faults that a word names.
fn first_named(faults: [Fault; 49], word: &str) -> Option<Fault>
    ensures { result ≡ find (names_fault word.now) faults }
{
    for fault in faults.into_iter() {
        if is_named(fault, word) {
            return Some(fault);
        }
    }
    None
}

/// The first fault that has this number, or this name in any case.
#[tactic(auto, unfolding(crate::specs::Explained::named_fault))]
fn fault_of(word: &str) -> Option<Fault>
    ensures { result ≡ named_fault word.now }
{
    first_named(FAULTS, word)
}

/// The command that has this name.
fn command_of(word: &str) -> Option<Command>
    ensures { result ≡ named_command word.now }
{
    for command in COMMANDS.into_iter() {
        if command.name() == word {
            return Some(command);
        }
    }
    None
}

/// The text that explains a fault, by its number in decimal digits or by its name in any case, or a command by its name.
/// `Io` is fault 1. There is none for any other word.
pub fn explanation(word: &str) -> Option<&'static str>
    ensures { option_map (λ text. text.now) result ≡ text_of_word word.now }
{
    if let Some(fault) = fault_of(word) {
        return Some(fault.text());
    }
    let command = command_of(word)?;
    Some(command.text())
}

/// The names of all faults and commands, a line for each.
pub fn all() -> &'static str
    ensures { result.now ≡ NAMES.now }
{
    NAMES
}

/// The program's name and version.
pub fn version() -> &'static str
    ensures { result.now ≡ codes "pciplan 0.5\n" }
{
    "pciplan 0.5\n"
}
