//! The bridges that lead to a bus, found from a table of the 256 buses.
ghost use Rattle.std.specs.Prelude.{◌↔◌, IsTrue, List, MatchOption};
ghost use Rattle.pci_tree.specs.Roots.{buses_of};
ghost use Rattle.pci_tree.specs.BusNumbers.{IsLedTo};
ghost use Rattle.pci_function.specs.declared.record.Record.{Record as RecordValue};
ghost use Rattle.pci_tree.specs.Ways.{IsForest, IsBridgeToBus, AreClear, AreSlotsOfWay, IsUnled};

use super::roots::Roots;
use arrayvec::ArrayVec;
use pci_base::slot::{BUSES, Slot};
use pci_function::record::Record;

/// At each bus the index of the bridge that leads there.
pub fn bridge_to_bus(records: &[Record]) -> [Option<usize>; BUSES]
    // of any records: where two bridges lead to one bus it names one of them
    ensures { IsBridgeToBus records.now result }
{
    let mut bridge_to_bus = [None; BUSES];
    for (index, function) in records.iter().enumerate() {
        if let Some(bridge) = function.bridge {
            bridge_to_bus[bridge.secondary as usize] = Some(index);
        }
    }
    bridge_to_bus
}

/// Whether a bus is a root or a bridge leads to it.
pub fn is_led_to(bridge_to_bus: &[Option<usize>; BUSES], roots: &Roots, bus: u8) -> bool
    // of the records whose table it is
    ensures { (records : List RecordValue) → IsBridgeToBus records bridge_to_bus.now
        → (IsTrue result ↔ IsLedTo (buses_of roots.now) records bus) }
{
    roots.has(bus) || bridge_to_bus[bus as usize].is_some()
}

/// The bridges from a root to a bus, or None where none leads there from a root.
pub fn path(
    records: &[Record],
    bridge_to_bus: &[Option<usize>; BUSES],
    roots: &Roots,
    bus: u8,
) -> Option<ArrayVec<Slot, 255>>
    // each step up comes to a lower bus, so it ends, after 255 bridges at most
    requires forest { IsForest records.now }
    // a step up is one look into this table
    requires bridge_to_bus { IsBridgeToBus records.now bridge_to_bus.now }
    // a bridge that led to a root would make a second, longer way
    requires clear { AreClear (buses_of roots.now) records.now }
    ensures { MatchOption result (IsUnled records.now (buses_of roots.now) bus)
        (λ v. AreSlotsOfWay records.now (buses_of roots.now) v.items bus) }
{
    let mut up = ArrayVec::new();
    let mut at = bus;
    while !roots.has(at) {
        let index = match bridge_to_bus[at as usize] {
            None => return None,
            Some(index) => index,
        };
        let slot = records[index].slot;
        up.push(slot);
        at = slot.bus();
    }
    up.as_mut_slice().reverse();
    Some(up)
}
