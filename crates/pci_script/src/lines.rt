//! The lines of a script.
ghost use Rattle.std.specs.Prelude.{◌≡◌, ◌++◌, OnOk, map};
ghost use Rattle.std.specs.List.{flat_map};
ghost use Rattle.std.specs.String.{string_bytes};
ghost use Rattle.pci_plan.specs.Writes.{write_value};
ghost use Rattle.pci_script.specs.Scripts.{compare_line, put_line, put_lines, register_and_value, value_text};

use crate::form::Form;
use pci_listing::hex_text::{end_line, push_byte, push_hex, push_slot};
use pci_plan::write::Write;
use std::alloc::{AllocError, Allocator};
use std::fmt::Write as TextWrite;

/// Appends a value as it is read.
fn push_value<A: Allocator>(
    text: &mut String<A>,
    form: Form,
    register: &Write,
) -> Result<(), AllocError>
    ensures { OnOk result (string_bytes text.new
        ≡ string_bytes text.old ++ value_text form (write_value register.now)) }
{
    let value = register.value;
    match form {
        Form::Setpci if register.width == 2 => push_hex(text, u64::from(value), 4),
        Form::Setpci => push_hex(text, u64::from(value), 8),
        Form::Grub => {
            write!(text, "{value:x}")?;
            Ok(())
        }
    }
}

/// Appends a word, a function, a register of it and a value.
fn push_register<A: Allocator>(
    text: &mut String<A>,
    form: Form,
    word: &str,
    register: &Write,
) -> Result<(), AllocError>
    ensures { OnOk result (string_bytes text.new
        ≡ string_bytes text.old ++ register_and_value form word.now (write_value register.now)) }
{
    text.push_str(word)?;
    text.push(' ')?;
    push_slot(text, register.slot)?;
    text.push(' ')?;
    push_byte(text, register.off)?;
    text.push_str(if register.width == 2 { ".w" } else { ".l" })?;
    text.push(' ')?;
    push_value(text, form, register)
}

/// Appends a line for each register that is compared.
pub fn push_compares<A: Allocator>(
    text: &mut String<A>,
    form: Form,
    registers: &[Write],
) -> Result<(), AllocError>
    ensures { OnOk result (string_bytes text.new ≡ string_bytes text.old
        ++ flat_map (compare_line form) (map write_value registers.now)) }
{
    for register in registers {
        push_register(text, form, "compare", register)?;
        end_line(text)?;
    }
    Ok(())
}

/// Appends the line of a write, with its number.
fn push_put<A: Allocator>(
    text: &mut String<A>,
    form: Form,
    number: usize,
    write: &Write,
) -> Result<(), AllocError>
    ensures { OnOk result (string_bytes text.new
        ≡ string_bytes text.old ++ put_line form number (write_value write.now)) }
{
    push_register(text, form, "put", write)?;
    write!(text, " {number}")?;
    end_line(text)
}

/// Appends a line for each write.
pub fn push_puts<A: Allocator>(
    text: &mut String<A>,
    form: Form,
    writes: &[Write],
) -> Result<(), AllocError>
    ensures { OnOk result (string_bytes text.new
        ≡ string_bytes text.old ++ put_lines form 1 (map write_value writes.now)) }
{
    for i in 0..writes.len() {
        push_put(text, form, i + 1, &writes[i])?;
    }
    Ok(())
}
