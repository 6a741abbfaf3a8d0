//! The script of a list of register writes.
ghost use Rattle.std.specs.Prelude.{◌≡◌, IfOk, map};
ghost use Rattle.std.specs.String.{string_bytes};
ghost use Rattle.pci_plan.specs.Writes.{write_value};
ghost use Rattle.pci_script.specs.Scripts as scripts;

use crate::compared::compared_of;
use crate::form::Form;
use crate::lines::{push_compares, push_puts};
use pci_base::memory::OutOfMemory;
use pci_dump::block::Block;
use pci_plan::write::Write;
use std::alloc::Allocator;

/// The script of this form that makes the writes, where the machine is as the dump has it: Command and the address registers
/// of each function that is written are compared before the first. A register has two bytes or four.
///
/// Errors: 2 `OutOfMemory` where a growth was refused.
pub fn script<A: Allocator + Copy>(
    alloc: A,
    form: Form,
    dump: &[Block],
    writes: &[Write],
) -> Result<String<A>, OutOfMemory>
    ensures { IfOk result
        (λ text. string_bytes text ≡ scripts.script form dump.now (map write_value writes.now)) }
{
    let registers = compared_of(alloc, dump, writes)?;
    let mut text = String::new(alloc);
    text.push_str(form.head())?;
    push_compares(&mut text, form, registers.as_slice())?;
    push_puts(&mut text, form, writes)?;
    text.push_str(form.end())?;
    Ok(text)
}
