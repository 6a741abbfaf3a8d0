//! Each fault of the places of functions in the tree of buses.
ghost use Rattle.std.specs.Prelude.{◌≡◌, map, OnOk, IfOk};
ghost use Rattle.std.specs.List.{All, Contains};
ghost use Rattle.pci_spec.specs.Slot.{IsSlot};
ghost use Rattle.pci_spec.specs.Text.{IsDump, slots_of};
ghost use Rattle.pci_spec.specs.System.{Function, function_of, system_of};
ghost use Rattle.pci_spec.specs.Decoded.{HasRecords};
ghost use Rattle.pci_function.specs.Fault.{fault_of};
ghost use Rattle.pci_function.specs.Values.{record_value};
ghost use Rattle.pci_tree.specs.Roots.{buses_of};
ghost use Rattle.pci_tree.specs.Outline.{RiseBySlot};
ghost use Rattle.pci_tree.specs.BusNumbers.{AreLeastEnds};
ghost use Rattle.pci_faults.specs.Lists.{AreJust};
ghost use Rattle.pci_faults.specs.OwnLines.{HasNoneBefore, IsBeforeAt, IsOwnOf};
ghost use Rattle.pci_faults.specs.Places.{IsRecordAdded, ArePlaceFaults, IsPlaceOf};

use super::found::add_told;
use pci_base::memory::OutOfMemory;
use pci_base::slot::BUSES;
use pci_dump::block::Block;
use pci_function::decode::decode;
use pci_function::fault::Fault;
use pci_function::record::Record;
use pci_tree::buses::{least_subordinates, look_at_place};
use pci_tree::roots::Roots;
use std::alloc::Allocator;

/// Puts the record of a function that has no fault by itself behind others.
fn add_record<A: Allocator>(
    records: &mut Vec<Record, A>,
    block: &Block,
    probe: &Block,
) -> Result<(), OutOfMemory>
    requires { HasNoneBefore 4 (function_of block.now probe.now) }
    ensures { OnOk result (IsRecordAdded (function_of block.now probe.now) records.old.items
        records.new.items) }
{
    match decode(block.slot, &block.image, &probe.image) {
        Ok(record) => {
            records.push(record)?;
            Ok(())
        }
        // That is a fault of an earlier phase.
        Err(_) => Ok(()),
    }
}

/// The records of functions that have no fault by themselves.
fn records_of<A: Allocator>(
    alloc: A,
    dump: &[Block],
    probe: &[Block],
) -> Result<Vec<Record, A>, OutOfMemory>
    requires same { slots_of dump.now ≡ slots_of probe.now }
    requires none { (f : Function) → Contains (system_of dump.now probe.now) f
        → HasNoneBefore 4 f }
    ensures { IfOk result
        (λ records. HasRecords (system_of dump.now probe.now) (map record_value records.items)) }
{
    let mut records = Vec::new(alloc);
    for i in 0..dump.len() {
        add_record(&mut records, &dump[i], &probe[i])?;
    }
    Ok(records)
}

/// Of 50, 58 and 57 each that a function has, in this order, `ends` being the table of `least_subordinates`.
fn place_faults_of(
    records: &[Record],
    roots: &Roots,
    ends: &[Option<u8>; BUSES],
    function: &Record,
) -> [Option<Fault>; 3]
    requires rising { RiseBySlot records.now }
    requires slots { All (λ r. IsSlot r.slot) records.now }
    requires ends { AreLeastEnds records.now ends.now }
    ensures { ArePlaceFaults (buses_of roots.now) records.now function.now result }
{
    let slot = function.slot;
    let misplaced = look_at_place(records, roots, ends, function);
    [
        misplaced.lone.then_some(Fault::LoneFunction(slot)),
        misplaced.orphan.then_some(Fault::Orphan(slot)),
        misplaced.bus_range.then_some(Fault::BusRange(slot)),
    ]
}

/// Of 50, 58 and 57 each of each function, where none has a fault by itself.
pub fn place_faults<A: Allocator + Copy>(
    alloc: A,
    dump: &[Block],
    probe: &[Block],
    roots: &Roots,
) -> Result<Vec<Fault, A>, OutOfMemory>
    // the functions of both stand at the same places
    requires dump { IsDump dump.now }
    requires probe { IsDump probe.now }
    requires same { slots_of dump.now ≡ slots_of probe.now }
    // a function's place is read off what it decodes to
    requires none { (f : Function) → Contains (system_of dump.now probe.now) f
        → HasNoneBefore 4 f }
    ensures { IfOk result (λ found. AreJust (IsBeforeAt (system_of dump.now probe.now))
        (IsOwnOf (IsPlaceOf (buses_of roots.now) (system_of dump.now probe.now))
        (system_of dump.now probe.now)) (map fault_of found.items)) }
{
    let records = records_of(alloc, dump, probe)?;
    let functions = records.as_slice();
    let ends = least_subordinates(functions);
    let mut found = Vec::new(alloc);
    for function in functions {
        let faults = place_faults_of(functions, roots, &ends, function);
        add_told(&mut found, faults.as_slice())?;
    }
    Ok(found)
}
