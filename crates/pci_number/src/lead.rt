//! A bridge behind which all have their numbers.
ghost use Rattle.std.specs.Prelude.{◌≡◌, ◌+◌, ◌≤◌, IfOk, IfErr, OnErr};
ghost use Rattle.pci_number.specs.Stops.{failures_at, IsNumberingStop};
ghost use Rattle.pci_number.specs.Steps.{IsNumberPut, IsTouched};
ghost use Rattle.pci_number.specs.Stood.{IsOneMore, board_moment};
ghost use Rattle.pci_number.specs.Spare.{IsLed};
ghost use Rattle.pci_number.specs.Accesses.{most_of_lead};

use crate::port::BoardPort;
use crate::put::put;
use crate::spare::room_of;
use crate::stop::Stop;
use pci_base::offset::SUBORDINATE_BUS;
use pci_base::slot::Slot;

/// Makes a bridge lead to the last bus in use behind it, and to `spare` more, as far as there are
/// any, where it has a hot-plug slot. The last bus that it leads to.
pub fn lead_to<P: BoardPort>(
    port: &mut P,
    slot: Slot,
    taken: u8,
    last: u8,
    spare: u8,
) -> Result<u8, Stop>
    ensures put { IfOk result (λ end. IsNumberPut (P.board port.old) slot 26 end (P.board port.new)) }
    ensures led { IfOk result (λ end. IsLed (P.board port.old) slot taken last spare end) }
    ensures above { IfOk result (λ end. taken ≤ end) }
    // what an error leaves is all that numbering can say of a board that stopped
    ensures left { OnErr result (IsTouched (P.board port.old) slot 26 (P.board port.new)) }
    // a board may lose its port at any write, so each state on the way counts
    ensures stood { IsOneMore (board_moment (P.board port.old) (P.history port.old))
        (board_moment (P.board port.new) (P.history port.new)) }
    ensures stop { IfErr result (IsNumberingStop (P.board port.new) (P.last_write port.new)) }
    ensures counted { P.failures port.new ≡ P.failures port.old + failures_at result }
    // a bound for the whole board is the sum of these
    ensures few { P.writes port.new ≤ P.writes port.old + 1 }
    ensures bounded { P.accesses port.new ≤ P.accesses port.old + most_of_lead }
{
    let left = last.saturating_sub(taken);
    let room = room_of(port, slot, spare)?;
    let end = taken + room.min(left);
    put(port, slot, SUBORDINATE_BUS, end)?;
    Ok(end)
}
