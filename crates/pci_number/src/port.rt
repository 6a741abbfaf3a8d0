//! A way to the configuration space of a board whose bridges may have any bus numbers.
ghost use Rattle.std.specs.Prelude.{◌≡◌, ◌+◌, ℕ, List, ◌∷◌, Option, Some, IfOk, OnOk, OnErr};
ghost use Rattle.pci_spec.specs.Machine.{Write};
ghost use Rattle.pci_number.specs.Board.{Board};
ghost use Rattle.pci_number.specs.Access.{IsByteRead, IsByteWritten};
ghost use Rattle.pci_number.specs.Stops.{failures_of_access, number_write};

use pci_base::slot::Slot;

/// An access failed.
#[derive(Clone, Copy, Debug, PartialEq, Eq)]
pub struct AccessFailed;

/// A way to the configuration space of a board. Nothing is said of an access that several nodes
/// answer.
pub trait BoardPort {
    // The board: the nodes behind each root, with their images.
    ghost board: { Self → Board };

    // The boards that stood after each write so far, the last one first.
    ghost history: { Self → List Board };

    // How many accesses have failed. No number is the last.
    ghost failures: { Self → ℕ };

    // The last write that was made, with the number that was written.
    ghost last_write: { Self → Option Write };

    // How many writes were made. No number is the last.
    ghost writes: { Self → ℕ };

    // How many accesses were made, reads and writes together. No number is the last.
    ghost accesses: { Self → ℕ };

    /// The byte at an offset of the node that answers, or FFh where none does.
    fn read(&mut self, access: Slot, offset: u8) -> Result<u8, AccessFailed>
        ensures value { IfOk result (IsByteRead (board self.old) access offset) }
        // looking changes nothing
        ensures same { board self.new ≡ board self.old }
        ensures same_history { history self.new ≡ history self.old }
        ensures no_write { last_write self.new ≡ last_write self.old }
        ensures counted { failures self.new ≡ failures self.old + failures_of_access result }
        ensures no_more { writes self.new ≡ writes self.old }
        ensures accessed { OnOk result (accesses self.new ≡ accesses self.old + 1) }
        // an access that failed doesn't count as made
        ensures none_accessed { OnErr result (accesses self.new ≡ accesses self.old) };

    /// Writes one of the three bus numbers of a bridge, bytes 18h to 1Ah. The byte may keep bits.
    fn write(&mut self, access: Slot, offset: u8, value: u8) -> Result<(), AccessFailed>
        ensures written { OnOk result (IsByteWritten (board self.old) access offset (board self.new)) }
        ensures stood { OnOk result (history self.new ≡ board self.new ∷ history self.old) }
        ensures made { OnOk result
            (last_write self.new ≡ Some (number_write access offset value)) }
        // a write that failed wasn't made
        ensures kept { OnErr result (board self.new ≡ board self.old) }
        ensures none_stood { OnErr result (history self.new ≡ history self.old) }
        ensures not_made { OnErr result (last_write self.new ≡ last_write self.old) }
        ensures counted { failures self.new ≡ failures self.old + failures_of_access result }
        ensures one_more { OnOk result (writes self.new ≡ writes self.old + 1) }
        ensures none_more { OnErr result (writes self.new ≡ writes self.old) }
        ensures accessed { OnOk result (accesses self.new ≡ accesses self.old + 1) }
        ensures none_accessed { OnErr result (accesses self.new ≡ accesses self.old) };
}
