//! The probe of a whole dump, derived from what its functions show and what Linux tells of them.
ghost use Rattle.std.specs.Prelude.{◌≡◌, ℕ, List, ◌<◌, ◌++◌, ◌∷◌, [], length, None, Some, IfNone, IfSome, IfOk, IfErr, OnOk};
ghost use Rattle.pci_spec.specs.Stops.{IsAboveLast, last_slot};
ghost use Rattle.pci_spec.specs.NoProbe.{no_probe};
ghost use Rattle.pci_spec.specs.ProbeOf.{assumed_in, assumed_of, first_of, identity_fault, probe_block, probe_fault};
ghost use Rattle.pci_spec.specs.ProbeOf as spec;
ghost use Rattle.pci_image.specs.Header.{HasHeader};
ghost use Rattle.pci_tree.specs.Pair.{IsPair};
ghost use Rattle.pci_machine.specs.Assuming.{assuming_of};
ghost use Rattle.pci_machine.specs.ProbeFault.{IsFirstProbeFault, fault_value};
ghost use Rattle.pci_machine.specs.Derivation.{IsFaultOfFunction, told_function};

use super::assuming::Assuming;
use super::derive::{derive, layout_of};
use super::derive_fault::DeriveFault;
use super::lone_slot::lone_slot;
use super::probe_fault::ProbeFault;
use super::sizes::{Sizes, SizesBlock};
use pci_base::image::{IMAGE_LEN, Image};
use pci_base::memory::Refused;
use pci_dump::block::Block;
use pci_dump::dump::Dump;
use pci_dump::mark::{AssumedRegister, add_registers, mark};
use std::alloc::{Allocator, Global};

/// A probe, and the registers in it whose read backs are assumed, by rising slot and offset.
#[derive(Drop)]
pub struct Derivation<A: Allocator = Global> {
    pub probe: Dump<A>,
    pub assumed: Vec<AssumedRegister, A>,
}

/// The fault of the first function whose header isn't decoded.
fn header_fault(dump: &[Block]) -> Option<ProbeFault>
    ensures none { IfNone result (first_of identity_fault dump.now ≡ None) }
    ensures some { IfSome result
        (λ fault. first_of identity_fault dump.now ≡ Some (fault_value fault)) }
{
    for block in dump {
        match layout_of(&block.image) {
            Ok(_) => {}
            Err(fault) => return Some(ProbeFault::at(block.slot, DeriveFault::Header(fault))),
        }
    }
    None
}

/// Derives the probe of one function more, which stands above all that there are.
fn add<A: Allocator>(
    derivation: &mut Derivation<A>,
    block: &Block,
    sizes: &SizesBlock,
    assuming: Assuming,
) -> Result<(), Refused<ProbeFault>>
    requires header { HasHeader block.now.image }
    requires above { IsAboveLast (last_slot derivation.old.probe) block.now.slot }
    requires room { length derivation.old.probe < 4096 }
    ensures told { OnOk result (no_probe (assuming_of assuming) block.now.image sizes.now.lines ≡ None) }
    ensures probe { OnOk result (derivation.new.probe
        ≡ derivation.old.probe ++ probe_block (told_function block.now sizes.now) ∷ []) }
    ensures assumed { OnOk result (derivation.new.assumed.items
        ≡ derivation.old.assumed.items ++ assumed_in (told_function block.now sizes.now)) }
    ensures fault { IfErr result (IsFaultOfFunction assuming (told_function block.now sizes.now)) }
{
    let mut image = Image([0; IMAGE_LEN]);
    let registers = match derive(&block.image, &sizes.lines, assuming, &mut image) {
        Ok(registers) => registers,
        Err(fault) => return Err(Refused::Fault(ProbeFault::at(block.slot, fault))),
    };
    derivation.probe.push_next(Block {
        slot: block.slot,
        title: mark(registers.as_slice()),
        image,
    })?;
    add_registers(&mut derivation.assumed, block.slot, registers.as_slice())?;
    Ok(())
}

/// The probe of a dump, by what Linux tells of its functions' registers. It has the dump's slots, its titles name the
/// registers that are assumed, and it goes with the dump as [`pci_tree::pair::pair`] asks.
///
/// # Errors
///
/// 2 `Memory` where a growth was refused. Of the faults the first, in the order in which
/// `pciplan check` looks for those of two texts: 30 `SlotsDiffer` with the least slot that only one
/// of dump and sizes lists; 20 `NoVendor` and 21 `HeaderKind` with the lowest function whose header
/// isn't decoded; 32 `NoSize` and 33 `OtherSize` with the lowest register without a read back of the
/// lowest such function, as [`derive`] finds it.
pub fn probe_of<A: Allocator + Copy, B: Allocator, C: Allocator>(
    alloc: A,
    dump: &Dump<B>,
    sizes: &Sizes<C>,
    assuming: Assuming,
) -> Result<Derivation<A>, Refused<ProbeFault>>
    ensures told { OnOk result (probe_fault (assuming_of assuming) dump.now sizes.now ≡ None) }
    ensures probe { IfOk result
        (λ derivation. derivation.probe ≡ spec.probe_of dump.now sizes.now) }
    ensures assumed { IfOk result
        (λ derivation. derivation.assumed.items ≡ assumed_of dump.now sizes.now) }
    // none of 20, 21, 30 and 31 is left for `check` to find in it
    ensures pair { IfOk result
        (λ derivation. (roots : List ℕ) → IsPair roots dump.now derivation.probe) }
    ensures fault { IfErr result (IsFirstProbeFault assuming dump.now sizes.now) }
{
    let blocks = dump.blocks();
    let told = sizes.blocks();
    match lone_slot(blocks, told) {
        None => {}
        Some(slot) => return Err(Refused::Fault(ProbeFault::SlotsDiffer(slot))),
    }
    match header_fault(blocks) {
        None => {}
        Some(fault) => return Err(Refused::Fault(fault)),
    }
    let mut derivation = Derivation {
        probe: Dump::empty(alloc),
        assumed: Vec::new(alloc),
    };
    for i in 0..blocks.len() {
        add(&mut derivation, &blocks[i], &told[i], assuming)?;
    }
    Ok(derivation)
}
