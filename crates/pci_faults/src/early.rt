//! All faults of the earliest phase that has any.
ghost use Rattle.std.specs.Prelude.{◌<◌, map, IfOk};
ghost use Rattle.pci_spec.specs.Fault.{fault_number};
ghost use Rattle.pci_spec.specs.Order.{IsFirstThere};
ghost use Rattle.pci_spec.specs.FaultLines.{AreAllFaults};
ghost use Rattle.pci_function.specs.Fault.{fault_of};
ghost use Rattle.pci_tree.specs.Roots.{buses_of};
ghost use Rattle.pci_faults.specs.Lists.{BeginsWith};

use super::functions::{OwnPhase, function_faults};
use super::place::place_faults;
use super::slots::slot_faults;
use pci_base::memory::OutOfMemory;
use pci_dump::dump::Dump;
use pci_function::fault::Fault;
use pci_tree::roots::Roots;
use std::alloc::Allocator;

/// All faults of a dump and its probe that are of the phase of `first`, the first fault that is there. In the order in
/// which they are looked for these are 30 of each slot that one of the two alone lists; else of each function the first
/// of 20, 21 and 31; else of each register the first of 22 to 26, and of each capabilities list the first of 27 to 29;
/// else each of 51 to 56; else each of 50, 58 and 57.
///
/// # Errors
///
/// 2 where a growth was refused.
pub fn faults_from<A: Allocator + Copy, B: Allocator, C: Allocator>(
    alloc: A,
    dump: &Dump<B>,
    probe: &Dump<C>,
    roots: &Roots,
    first: Fault,
) -> Result<Vec<Fault, A>, OutOfMemory>
    // faults of judging, 60 and above, are found among the regions of an outline
    requires early { fault_number (fault_of first) < 60 }
    // whoever was refused an outline has it; it tells which phases have no fault
    requires first { IsFirstThere (buses_of roots.now) dump.now probe.now (fault_of first) }
    ensures all { IfOk result (λ found. AreAllFaults (buses_of roots.now) dump.now probe.now
        (map fault_of found.items)) }
    // so that a list of all begins with what is named where one fault alone is
    ensures head { IfOk result
        (λ found. BeginsWith (fault_of first) (map fault_of found.items)) }
{
    let blocks = dump.blocks();
    let probes = probe.blocks();
    match first.phase() {
        0 => slot_faults(alloc, blocks, probes),
        1 => function_faults(alloc, OwnPhase::Identity, blocks, probes),
        2 => function_faults(alloc, OwnPhase::Decoding, blocks, probes),
        3 => function_faults(alloc, OwnPhase::Profile, blocks, probes),
        _ => place_faults(alloc, blocks, probes, roots),
    }
}
