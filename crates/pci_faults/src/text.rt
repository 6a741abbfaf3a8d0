//! The text of a list of all faults, with what is given and told.
ghost use Rattle.std.specs.Prelude.{◌≡◌, ◌++◌, map, IfOk, OnOk};
ghost use Rattle.std.specs.List.{flat_map};
ghost use Rattle.std.specs.String.{string_bytes};
ghost use Rattle.judge_spec.specs.ToldLine.{fault_line, list_text};
ghost use Rattle.pci_faults.specs.AllLines.{any_fault_value};

use super::any_fault::AnyFault;
use pci_base::memory::OutOfMemory;
use std::alloc::{AllocError, Allocator};
use std::fmt::Write;

/// Appends the line of a fault.
pub fn push_fault<A: Allocator>(text: &mut String<A>, fault: &AnyFault) -> Result<(), AllocError>
    ensures { OnOk result
        (string_bytes text.new ≡ string_bytes text.old ++ fault_line (any_fault_value fault.now)) }
{
    writeln!(text, "{fault}")
}

/// Appends the line of each fault.
fn push_faults<A: Allocator>(text: &mut String<A>, faults: &[AnyFault]) -> Result<(), AllocError>
    ensures { OnOk result (string_bytes text.new
        ≡ string_bytes text.old ++ flat_map fault_line (map any_fault_value faults.now)) }
{
    for fault in faults {
        push_fault(text, fault)?;
    }
    Ok(())
}

/// The text of a list of all faults: a line for each, or `yes`.
pub fn list_text<A: Allocator>(alloc: A, faults: &[AnyFault]) -> Result<String<A>, OutOfMemory>
    ensures { IfOk result (λ text. string_bytes text ≡ list_text (map any_fault_value faults.now)) }
{
    let mut text = String::new(alloc);
    if faults.is_empty() {
        text.push_str("yes\n")?;
    }
    push_faults(&mut text, faults)?;
    Ok(text)
}
