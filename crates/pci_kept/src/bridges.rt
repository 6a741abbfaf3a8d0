//! Which bridges between the host and a bus enable a space.
ghost use Rattle.std.specs.Prelude.{◌≡◌, Some};
ghost use Rattle.pci_spec.specs.System.{System, Function};
ghost use Rattle.settle_spec.specs.Lists.{Request};
ghost use Rattle.settle_spec.specs.Parts.{bridge_over};
ghost use Rattle.settle_spec.specs.Stands.{are_bridges_on};
ghost use Rattle.pci_base.specs.Space.{space_of};
ghost use Rattle.pci_tree.specs.Ways.{IsBridgeToBus};
ghost use Rattle.pci_kept.specs.Boards.{IsTree};

use pci_base::slot::BUSES;
use pci_base::space::Space;
use pci_function::record::Record;

/// Whether each bridge between the host and a bus enables a space, where a bridge leads to the bus.
pub fn are_on(records: &[Record], over: &[Option<usize>; BUSES], bus: u8, space: Space) -> bool
    // the bridge to a bus is found by one look into this table
    requires { IsBridgeToBus records.now over.now }
    ensures { (q : Request) → (s : System) → (f : Function) → IsTree q s records.now
        → bridge_over s bus ≡ Some f → result ≡ are_bridges_on s (space_of space) bus }
{
    let mut at = bus;
    // a bridge stands on a lower bus than what is behind it
    for up in 0..BUSES {
        let Some(index) = over[at as usize] else {
            return true;
        };
        let function = &records[index];
        if !space.is_on(function.command) {
            return false;
        }
        at = function.slot.bus();
    }
    false
}
