//! One bus number of a bridge.
ghost use Rattle.std.specs.Prelude.{◌≡◌, ◌+◌, ◌≤◌, IfErr, OnOk, OnErr};
ghost use Rattle.pci_number.specs.Stops.{failures_at, IsNumberingStop};
ghost use Rattle.pci_number.specs.Steps.{IsNumberPut, IsTouched};
ghost use Rattle.pci_number.specs.Stood.{IsOneMore, board_moment};
ghost use Rattle.pci_number.specs.Accesses.{most_of_put};

use crate::port::BoardPort;
use crate::stop::{NotTaken, Stop};
use pci_base::slot::Slot;

/// Writes a bus number where it isn't there already, and reads it back.
///
/// # Errors
///
/// `Stuck` where it reads back otherwise.
pub fn put<P: BoardPort>(port: &mut P, slot: Slot, offset: u8, number: u8) -> Result<(), Stop>
    ensures put { OnOk result (IsNumberPut (P.board port.old) slot offset number (P.board port.new)) }
    // what an error leaves is all that numbering can say of a board that stopped
    ensures left { OnErr result (IsTouched (P.board port.old) slot offset (P.board port.new)) }
    // a board may lose its port at any write, so each state on the way counts
    ensures stood { IsOneMore (board_moment (P.board port.old) (P.history port.old))
        (board_moment (P.board port.new) (P.history port.new)) }
    ensures stop { IfErr result (IsNumberingStop (P.board port.new) (P.last_write port.new)) }
    ensures counted { P.failures port.new ≡ P.failures port.old + failures_at result }
    // a bound for the whole board is the sum of these
    ensures few { P.writes port.new ≤ P.writes port.old + 1 }
    ensures bounded { P.accesses port.new ≤ P.accesses port.old + most_of_put }
{
    if port.read(slot, offset)? == number {
        return Ok(());
    }
    port.write(slot, offset, number)?;
    if port.read(slot, offset)? == number {
        Ok(())
    } else {
        Err(Stop::Stuck(NotTaken {
            slot,
            offset,
            number,
        }))
    }
}
