//! Faults that are found one by one, put into a list.
ghost use Rattle.std.specs.Prelude.{◌≡◌, ◌++◌, map, OnOk};
ghost use Rattle.pci_function.specs.Fault.{fault_of};
ghost use Rattle.pci_faults.specs.Lists.{present_faults};

use pci_base::memory::OutOfMemory;
use pci_function::fault::Fault;
use std::alloc::Allocator;

/// Puts those of some faults that are there behind a list's.
pub fn add_told<A: Allocator>(
    found: &mut Vec<Fault, A>,
    faults: &[Option<Fault>],
) -> Result<(), OutOfMemory>
    ensures { OnOk result
        (map fault_of found.new.items ≡ map fault_of found.old.items ++ present_faults faults.now) }
{
    for fault in faults {
        if let Some(fault) = *fault {
            found.push(fault)?;
        }
    }
    Ok(())
}
