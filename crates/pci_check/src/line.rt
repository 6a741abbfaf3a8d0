//! The line that a verdict is printed as.
ghost use Rattle.std.specs.Prelude.{◌≡◌, ◌++◌, ◌∷◌, [], IfOk, IfSome, codes, string_bytes};
ghost use Rattle.std.specs.Option.{option_map};
ghost use Rattle.pci_spec.specs.Line.{field, verdict_line};
ghost use Rattle.pci_function.specs.Fault.{fault_of};

use pci_base::memory::OutOfMemory;
use pci_function::fault::Fault;
use std::alloc::Allocator;
use std::fmt::Display;

/// `no`, the text of a fault of any kind, and a line end.
pub fn no_line<A: Allocator, F: Display>(alloc: A, fault: &F) -> Result<String<A>, OutOfMemory>
    // of a fault that doesn't tell its text the line is left open
    ensures { IfOk result (λ line. IfSome (F.output fault.now)
        (λ text. string_bytes line ≡ codes "no" ++ field text ++ 10 ∷ [])) }
{
    match format!(in alloc; "no {fault}\n") {
        Ok(line) => Ok(line),
        Err(_) => Err(OutOfMemory),
    }
}

/// `yes`, or `no` with the fault's number, name and fields; and a line end.
pub fn line_of<A: Allocator>(alloc: A, fault: Option<Fault>) -> Result<String<A>, OutOfMemory>
    ensures { IfOk result (λ line. string_bytes line ≡ verdict_line (option_map fault_of fault)) }
{
    if let Some(fault) = fault {
        return no_line(alloc, &fault);
    }
    match format!(in alloc; "yes\n") {
        Ok(line) => Ok(line),
        Err(_) => Err(OutOfMemory),
    }
}
