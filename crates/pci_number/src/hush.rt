//! Bridges that forward nothing.
ghost use Rattle.std.specs.Prelude.{◌≡◌, ◌+◌, ◌≤◌, IfOk, IfErr, OnOk, OnErr};
ghost use Rattle.pci_number.specs.Stops.{failures_at, IsNumberingStop};
ghost use Rattle.pci_number.specs.Steps.{IsShownAt, IsLeftAt, IsHushed, IsHushLeft};
ghost use Rattle.pci_number.specs.Few.{IsHushFew};
ghost use Rattle.pci_number.specs.Less.{IsCloseStood, IsHushStood};
ghost use Rattle.pci_number.specs.Stood.{board_moment};
ghost use Rattle.pci_number.specs.Accesses.{most_of_three, most_of_hush};

use crate::look::{PLACES, look, slot_at};
use crate::port::BoardPort;
use crate::put::put;
use crate::stop::Stop;
use pci_base::offset::{PRIMARY_BUS, SECONDARY_BUS, SUBORDINATE_BUS};
use pci_base::slot::Slot;

/// Makes a bridge forward nothing. The subordinate number goes first: with it, a secondary number
/// of 0 would forward each bus up to it.
fn close<P: BoardPort>(port: &mut P, slot: Slot) -> Result<(), Stop>
    ensures closed { OnOk result (IsShownAt (P.board port.old) slot 0 0 0 (P.board port.new)) }
    ensures left { OnErr result (IsLeftAt (P.board port.old) slot (P.board port.new)) }
    ensures stood { IsCloseStood (board_moment (P.board port.old) (P.history port.old)) slot result
        (board_moment (P.board port.new) (P.history port.new)) }
    ensures stop { IfErr result (IsNumberingStop (P.board port.new) (P.last_write port.new)) }
    ensures counted { P.failures port.new ≡ P.failures port.old + failures_at result }
    ensures few { P.writes port.new ≤ P.writes port.old + 3 }
    ensures bounded { P.accesses port.new ≤ P.accesses port.old + most_of_three }
{
    put(port, slot, SUBORDINATE_BUS, 0)?;
    put(port, slot, SECONDARY_BUS, 0)?;
    put(port, slot, PRIMARY_BUS, 0)?;
    Ok(())
}

/// Makes the bridges on a bus forward nothing. Whether there are any.
pub fn hush<P: BoardPort>(port: &mut P, bus: u8) -> Result<bool, Stop>
    ensures hushed { IfOk result
        (λ bridges. IsHushed (P.board port.old) bus bridges (P.board port.new)) }
    // what an error leaves is all that numbering can say of a board that stopped
    ensures left { OnErr result (IsHushLeft (P.board port.old) bus (P.board port.new)) }
    // a board may lose its port at any write, so each state on the way counts
    ensures stood { IsHushStood (board_moment (P.board port.old) (P.history port.old)) bus result
        (board_moment (P.board port.new) (P.history port.new)) }
    ensures stop { IfErr result (IsNumberingStop (P.board port.new) (P.last_write port.new)) }
    ensures counted { P.failures port.new ≡ P.failures port.old + failures_at result }
    // a bound for the whole board is the sum of these
    ensures few { IsHushFew (P.board port.old) bus (P.writes port.old) (P.writes port.new) }
    ensures bounded { P.accesses port.new ≤ P.accesses port.old + most_of_hush }
{
    let mut more = false;
    let mut bridges = false;
    for place in 0..PLACES {
        let slot = slot_at(bus, place);
        let found = look(port, slot, more)?;
        more = found.more;
        if found.bridge {
            bridges = true;
            close(port, slot)?;
        }
    }
    Ok(bridges)
}
