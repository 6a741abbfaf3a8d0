//! The words by which a domain is judged elsewhere.
ghost use Rattle.std.specs.Prelude.{◌≡◌, ◌++◌, map, codes, OnOk, IfOk, string_bytes};
ghost use Rattle.pci_spec.specs.Text.{hex_byte};
ghost use Rattle.pciplan_lists.specs.ListWords.{bus_text};
ghost use Rattle.pci_tree.specs.Roots.{buses_of};
ghost use Rattle.pci_here.specs.Words.{option_text, range_word, host_text, domain_line, WrittenListIsRead};

use crate::domain::Domain;
use pci_base::memory::OutOfMemory;
use pci_base::range::RootRange;
use pci_base::slot::BUSES;
use pci_tree::roots::Roots;
use std::alloc::Global;
use std::fmt::Write;

/// Adds a bus behind what stands before it.
fn add_bus(text: &mut String, before: &str, bus: u8) -> Result<(), OutOfMemory>
    ensures { OnOk result
        (string_bytes text.new ≡ string_bytes text.old ++ (before.now ++ hex_byte bus)) }
{
    text.push_str(before)?;
    write!(text, "{bus:02x}")?;
    Ok(())
}

/// Adds the option `--root` and the root buses.
fn add_roots(text: &mut String, roots: &Roots) -> Result<(), OutOfMemory>
    ensures { OnOk result (string_bytes text.new ≡ string_bytes text.old
        ++ option_text (codes "--root ") (map hex_byte (buses_of roots.now))) }
{
    let mut before = "--root ";
    for bus in 0..BUSES {
        if roots.has(bus as u8) {
            add_bus(text, before, bus as u8)?;
            before = ",";
        }
    }
    Ok(())
}

/// Adds a bus and a colon, where a range is of one root bus.
fn add_owner(text: &mut String, root: Option<u8>) -> Result<(), OutOfMemory>
    ensures { OnOk result (string_bytes text.new ≡ string_bytes text.old ++ bus_text root) }
{
    match root {
        None => Ok(()),
        Some(bus) => {
            add_bus(text, "", bus)?;
            text.push(':')?;
            Ok(())
        }
    }
}

/// Adds a range as `A-B`, or as `bb:A-B` where it is of one root bus, behind what stands before it.
fn add_range(text: &mut String, before: &str, range: &RootRange) -> Result<(), OutOfMemory>
    ensures { OnOk result
        (string_bytes text.new ≡ string_bytes text.old ++ (before.now ++ range_word range.now)) }
{
    text.push_str(before)?;
    add_owner(text, range.root)?;
    let first = range.range.first;
    let last = range.range.last;
    write!(text, "{first:x}-{last:x}")?;
    Ok(())
}

/// Adds an option and its ranges.
fn add_list(text: &mut String, option: &str, list: &[RootRange]) -> Result<(), OutOfMemory>
    ensures { OnOk result (string_bytes text.new
        ≡ string_bytes text.old ++ option_text option.now (map range_word list.now)) }
{
    let mut before = option;
    for range in list {
        add_range(text, before, range)?;
        before = ",";
    }
    Ok(())
}

/// Adds an option and its ranges, where some are told.
fn add_host(
    text: &mut String,
    option: &str,
    list: &Option<Vec<RootRange>>,
) -> Result<(), OutOfMemory>
    ensures { OnOk result
        (string_bytes text.new ≡ string_bytes text.old ++ host_text option.now list.now) }
{
    match list {
        None => Ok(()),
        Some(list) => add_list(text, option, list.as_slice()),
    }
}

/// The line `--root R --model all --host-io I --host-mem M` of a domain, with its end. An option of the host stands there
/// where ranges are told of its space.
///
/// Errors: 2 `OutOfMemory` where a growth was refused.
pub fn words_text(alloc: Global, domain: &Domain) -> Result<String, OutOfMemory>
    ensures { IfOk result (λ text. string_bytes text ≡ domain_line domain.now) }
{
    let mut text = String::new(alloc);
    add_roots(&mut text, &domain.roots)?;
    text.push_str(" --model all")?;
    add_host(&mut text, " --host-io ", &domain.io)?;
    add_host(&mut text, " --host-mem ", &domain.mem)?;
    text.push('\n')?;
    Ok(text)
}

/// The word that is written of a list of ranges is one that the options of the host read as this list. This function does
/// nothing: its contract is a law.
pub fn written_lists_are_read()
    ensures { WrittenListIsRead }
{}
