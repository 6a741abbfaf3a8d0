//! Derives a probe from a dump and the sizes that Linux tells.
ghost use Rattle.std.specs.Prelude.{◌≡◌, ◌++◌, IfOk, OnOk};
ghost use Rattle.std.specs.List.{flat_map};
ghost use Rattle.std.specs.String.{string_bytes};
ghost use Rattle.pci_machine.specs.Assuming.{assuming_of};
ghost use Rattle.pciplan_tasks.specs.Answers.{answer_of};
ghost use Rattle.pciplan_tasks.specs.ProbeAnswers.{probe_answer, remark, remarks_named};

use crate::reply::{Reply, Text, refused};
use pci_base::memory::{OutOfMemory, Refused};
use pci_dump::block::Block;
use pci_dump::dump::Dump;
use pci_dump::mark::{AssumedRegister, all_named};
use pci_machine::assuming::Assuming;
use pci_machine::probe::probe_of;
use pci_machine::sizes::Sizes;
use std::alloc::{AllocError, Allocator};
use std::fmt::Write;

/// Appends the remark on a register.
fn push_remark<A: Allocator>(
    text: &mut String<A>,
    register: AssumedRegister,
) -> Result<(), AllocError>
    ensures { OnOk result (string_bytes text.new ≡ string_bytes text.old ++ remark register) }
{
    writeln!(text, "pciplan: {register}")
}

/// A remark on each register whose read back is assumed.
fn remarks_on<A: Allocator>(alloc: A, assumed: &[AssumedRegister]) -> Result<String<A>, OutOfMemory>
    ensures { IfOk result (λ text. string_bytes text ≡ flat_map remark assumed.now) }
{
    let mut text = String::new(alloc);
    for register in assumed {
        match push_remark(&mut text, *register) {
            Ok(()) => {}
            Err(_) => return Err(OutOfMemory),
        }
    }
    Ok(text)
}

/// A remark on each register that the titles of a probe's blocks name.
pub fn remarks_named<A: Allocator + Copy>(
    alloc: A,
    probe: &[Block],
) -> Result<String<A>, OutOfMemory>
    ensures { IfOk result (λ text. string_bytes text ≡ remarks_named probe.now) }
{
    let named = all_named(alloc, probe)?;
    remarks_on(alloc, named.as_slice())
}

/// The probe of a dump and its sizes, with the remarks on it.
pub fn derive<A: Allocator + Copy>(
    alloc: A,
    dump: &Dump<A>,
    sizes: &Sizes<A>,
    assuming: Assuming,
) -> Result<Reply<A>, OutOfMemory>
    ensures { IfOk result (λ reply. answer_of reply
        ≡ probe_answer (assuming_of assuming) dump.now sizes.now) }
{
    match probe_of(alloc, dump, sizes, assuming) {
        Ok(found) => {
            let remarks = remarks_on(alloc, found.assumed.as_slice())?;
            Ok(Reply {
                refused: false,
                text: Text::Dump(found.probe),
                remarks,
            })
        }
        Err(Refused::Fault(fault)) => refused(alloc, &fault),
        Err(Refused::Memory) => Err(OutOfMemory),
    }
}
