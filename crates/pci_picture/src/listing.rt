//! The functions that the text of `show` lists.
ghost use Rattle.std.specs.Prelude.{◌≡◌, is_some, IfOk, IfSome, IsTrue, OnOk};
ghost use Rattle.std.specs.List.Sorted.{IsNonDecreasingBy};
ghost use Rattle.pci_picture.specs.Listings.{AreFunctionsListed, AreIdentifiers, functions_listed, is_bus_line, is_function_line, list_line, function_of_line, told_buses};
ghost use Rattle.pci_picture.specs.Lines.{is_nonempty_word, nth_word, words_in_line};
ghost use Rattle.pci_picture.specs.Named.{title_from_line, with_titles};
ghost use Rattle.pci_picture.specs.Roots.{listed_function, listed_functions};

use super::function::{Buses, Function, Span};
use super::memory::OutOfMemory;
use super::reading::{cut_line, hex_byte, hex_number, slot_number, stripped, word};
use std::alloc::Allocator;

/// What a line `S type T vendor V device D class C command X status X` says of a function.
#[derive(Clone, Copy)]
struct Values<'a> {
    vendor: &'a [u8],
    device: &'a [u8],
    class: &'a [u8],
    command: &'a [u8],
}

/// The values of a line that ends before Command.
const NO_VALUES: Values<'static> = Values {
    vendor: &[],
    device: &[],
    class: &[],
    command: &[],
};

/// The values of a line, from one pass over its words.
#[tactic(auto, unfolding(crate::specs::Lines::words_in_line))]
fn values_of(line: &[u8]) -> Values<'_>
    ensures command { result.command.now ≡ nth_word (words_in_line line.now) 10 }
    ensures others { IsTrue (is_nonempty_word result.command.now) → AreIdentifiers (words_in_line line.now)
        result.vendor.now result.device.now result.class.now }
{
    let mut words = line
        .split(|byte| *byte == b' ')
        .filter(|word| !word.is_empty());
    let Some(vendor) = words.nth(4) else {
        return NO_VALUES;
    };
    let Some(device) = words.nth(1) else {
        return NO_VALUES;
    };
    let Some(class) = words.nth(1) else {
        return NO_VALUES;
    };
    let Some(command) = words.nth(1) else {
        return NO_VALUES;
    };
    Values {
        vendor,
        device,
        class,
        command,
    }
}

/// The function of a line `S type T vendor V device D class C command X status X`.
#[tactic(auto, unfolding(crate::specs::Listings::is_function_line, crate::specs::Listings::function_of_line))]
fn function_of(line: &[u8]) -> Option<Function<'_>>
    ensures some { is_some result ≡ is_function_line line.now }
    ensures told { IfSome result (λ function. listed_function function ≡ function_of_line line.now) }
{
    let slot = line.get(..7)?;
    let number = slot_number(slot)?;
    let values = values_of(line);
    let command = hex_number(values.command)?;
    Some(Function {
        slot,
        number,
        vendor: values.vendor,
        device: values.device,
        class: values.class,
        is_on: command & 3 != 0,
        buses: None,
        title: &[],
        name: Span { begin: 0, end: 0 },
    })
}

/// The buses of a line `bus P S B`.
#[tactic(auto, unfolding(crate::specs::Listings::is_bus_line))]
fn buses_of(line: &[u8]) -> Option<Buses>
    ensures some { is_some result ≡ is_bus_line line.now }
    ensures told { IfSome result (λ buses. buses ≡ told_buses line.now) }
{
    if !stripped(line).starts_with(b"bus ") {
        return None;
    }
    Some(Buses {
        secondary: hex_byte(word(line, 2))?,
        subordinate: hex_byte(word(line, 3))?,
    })
}

/// Reads a line of a listing: a function, or the buses of the one before.
fn take_line<'a, A: Allocator + Copy>(
    functions: &mut Vec<Function<'a>, A>,
    line: &'a [u8],
) -> Result<(), OutOfMemory>
    ensures { OnOk result (listed_functions functions.new.items ≡ list_line (listed_functions functions.old.items) line.entry.now) }
{
    if let Some(function) = function_of(line) {
        functions.push(function)?;
    } else if let Some(buses) = buses_of(line) {
        let count = functions.len();
        if count != 0 {
            functions[count - 1].buses = Some(buses);
        }
    }
    Ok(())
}

/// The functions of a listing, in their order.
fn functions_of<'a, A: Allocator + Copy>(
    alloc: A,
    show: &'a [u8],
) -> Result<Vec<Function<'a>, A>, OutOfMemory>
    ensures { IfOk result (λ functions. listed_functions functions.items ≡ functions_listed show.entry.now) }
{
    let mut functions = Vec::new(alloc);
    let mut rest = show;
    while !rest.is_empty() {
        let (line, behind) = cut_line(rest);
        take_line(&mut functions, line)?;
        rest = behind;
    }
    Ok(functions)
}

/// The functions of a listing by rising slot.
pub fn read_functions<'a, A: Allocator + Copy>(
    alloc: A,
    show: &'a str,
) -> Result<Vec<Function<'a>, A>, OutOfMemory>
    ensures { IfOk result (λ functions. AreFunctionsListed show.entry.now (listed_functions functions.items)) }
{
    let mut functions = functions_of(alloc, show.as_bytes())?;
    functions.sort_by_key(|function| function.number)?;
    Ok(functions)
}

/// Gives the function of a line `bb:dd.f TITLE` its title. Other lines give none.
#[tactic(auto, unfolding(crate::specs::Named::is_title_line))]
fn give_title<'a>(functions: &mut [Function<'a>], line: &'a [u8])
    requires { IsNonDecreasingBy (λ function. function.slot) (listed_functions functions.old) }
    ensures { listed_functions functions.new ≡ title_from_line (listed_functions functions.old) line.entry.now }
{
    if line.len() < 9 || line[7] != b' ' {
        return;
    }
    if let Some(number) = slot_number(&line[..7]) {
        let index = functions.partition_point(|function| function.number < number);
        if index < functions.len() && functions[index].number == number {
            functions[index].title = &line[8..];
        }
    }
}

/// Gives functions their titles: what stands behind the slot of each slot line.
pub fn give_titles<'a>(functions: &mut [Function<'a>], titles: &'a [u8])
    requires { IsNonDecreasingBy (λ function. function.slot) (listed_functions functions.old) }
    ensures { listed_functions functions.new ≡ with_titles titles.entry.now (listed_functions functions.old) }
{
    let mut rest = titles;
    while !rest.is_empty() {
        let (line, behind) = cut_line(rest);
        give_title(functions, line);
        rest = behind;
    }
}
