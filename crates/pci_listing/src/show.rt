//! The listing of a dump and its probe, or the first fault that decoding them meets.
ghost use Rattle.std.specs.Prelude.{◌≡◌, ◌++◌, OnOk, IfOk, IfErr};
ghost use Rattle.std.specs.String.{string_bytes};
ghost use Rattle.pci_spec.specs.System.{function_of, system_of};
ghost use Rattle.pci_spec.specs.Listing.{listing, function_listing};
ghost use Rattle.pci_listing.specs.Shows.{AreListable, IsListable, IsRefusedFor, IsRefusedIn};

use crate::listing::function::push_function;
use pci_base::memory::Refused;
use pci_dump::block::Block;
use pci_dump::dump::Dump;
use pci_function::fault::Fault;
use pci_tree::pair::pair;
use std::alloc::Allocator;

/// Appends the lines of a function, with its block and that of its probe.
fn push_block<A: Allocator>(
    text: &mut String<A>,
    block: &Block,
    probe: &Block,
) -> Result<(), Refused<Fault>>
    ensures ok { OnOk result (string_bytes text.new
        ≡ string_bytes text.old ++ function_listing (function_of block.now probe.now)) }
    ensures listable { OnOk result (IsListable (function_of block.now probe.now)) }
    ensures refused { IfErr result (IsRefusedFor (function_of block.now probe.now)) }
{
    push_function(text, block.slot, &block.image, &probe.image)
}

/// The listing of a dump and its probe, in a text of its own.
///
/// Errors: the first fault in the order 30; then by function 20, 21 and 31; then by function 22 to 24
/// along the BARs, 25, 26 and 27 to 29 along the capabilities list. `Memory` where a growth was
/// refused.
pub fn show<A: Allocator, D: Allocator, P: Allocator>(
    alloc: A,
    dump: &Dump<D>,
    probe: &Dump<P>,
) -> Result<String<A>, Refused<Fault>>
    ensures listing { IfOk result
        (λ text. string_bytes text ≡ listing (system_of dump.now probe.now)) }
    // only where none of its faults is there, so one of two answers is right
    ensures listable { OnOk result (AreListable dump.now probe.now) }
    ensures refused { IfErr result (IsRefusedIn dump.now probe.now) }
{
    if let Err(fault) = pair(dump, probe) {
        return Err(Refused::Fault(fault));
    }
    let blocks = dump.blocks();
    let probes = probe.blocks();
    let mut text = String::new(alloc);
    for i in 0..blocks.len() {
        push_block(&mut text, &blocks[i], &probes[i])?;
    }
    Ok(text)
}
