//! The dump that sizing every function of a machine makes.
ghost use Rattle.std.specs.Prelude.{◌≡◌, ℕ, List, IfOk, IfErr, OnOk};
ghost use Rattle.std.specs.List.{All};
ghost use Rattle.pci_spec.specs.Machine.{sized};
ghost use Rattle.pci_spec.specs.Sizing.{function_at, IsSizable};
ghost use Rattle.pci_spec.specs.System.{system_of};
ghost use Rattle.pci_spec.specs.Decoded.{IsDecodable};
ghost use Rattle.pci_tree.specs.Pair.{IsPair};
ghost use Rattle.pci_machine.specs.Made.{IsMachineFaultFirst, IsOfMachine, IsMachineFaultThere};

use pci_base::image::Image;
use pci_base::memory::Refused;
use pci_base::slot::Slot;
use pci_dump::block::Block;
use pci_dump::dump::Dump;
use pci_function::fault::Fault;
use pci_machine::machine::Machine;
use pci_machine::size::size;
use std::alloc::Allocator;

/// What sizing the function at a slot finds.
fn sized_at<A: Allocator>(machine: &mut Machine<A>, slot: Slot) -> Image
    requires { IsSizable machine.old slot }
    ensures read_backs { result.0 ≡ sized (function_at machine.old slot) }
    ensures unchanged { machine.new ≡ machine.old }
{
    match size(machine, slot) {
        Ok(image) => image,
        Err(_) => unreachable!(),
    }
}

/// What sizing the function of a block finds, with the block's slot and title.
fn sized_block<A: Allocator>(machine: &mut Machine<A>, probe: &Block) -> Block
    requires sizable { IsSizable machine.old probe.now.slot }
    requires found { sized (function_at machine.old probe.now.slot) ≡ probe.now.image }
    ensures value { result ≡ probe.now }
    ensures unchanged { machine.new ≡ machine.old }
{
    let image = sized_at(machine, probe.slot);
    Block {
        image,
        ..probe.copy()
    }
}

/// What sizing finds of each function of a dump and its probe, with the probe's titles. It is the
/// probe again.
///
/// Errors: the first fault in the order 30; then by function 20, 21 and 31; then by function 22 to
/// 26. `Memory` where a growth was refused.
pub fn size_all<A: Allocator + Copy, D: Allocator, P: Allocator>(
    alloc: A,
    dump: &Dump<D>,
    probe: &Dump<P>,
) -> Result<Dump<A>, Refused<Fault>>
    ensures sized { IfOk result (λ found. found ≡ probe.now) }
    ensures pair { OnOk result ((roots : List ℕ) → IsPair roots dump.now probe.now) }
    ensures decodable { OnOk result (All IsDecodable (system_of dump.now probe.now)) }
    // never 27 to 29: sizing doesn't read a capabilities list
    ensures kind { IfErr result IsOfMachine }
    ensures fault { IfErr result (IsMachineFaultThere dump.now probe.now) }
    ensures first { IfErr result (IsMachineFaultFirst dump.now probe.now) }
{
    let mut machine = match Machine::of(alloc, dump, probe) {
        Ok(machine) => machine,
        Err(refused) => return Err(refused),
    };
    let blocks = dump.blocks();
    let probes = probe.blocks();
    let mut found = Dump::empty(alloc);
    for i in 0..blocks.len() {
        let block = sized_block(&mut machine, &probes[i]);
        found.push_next(block)?;
    }
    Ok(found)
}
