//! A bridge that gets a number.
ghost use Rattle.std.specs.Prelude.{◌≡◌, ◌+◌, ◌≤◌, IfOk, IfErr, OnOk, OnErr};
ghost use Rattle.pci_number.specs.Stops.{failures_at, IsNumberingStop};
ghost use Rattle.pci_number.specs.Steps.{IsShownAt, IsLeftAt, IsBusOpened, IsOpenLeft};
ghost use Rattle.pci_number.specs.Few.{IsOpenFew};
ghost use Rattle.pci_number.specs.Single.{IsShowStood, IsOpenStood};
ghost use Rattle.pci_number.specs.Stood.{board_moment};
ghost use Rattle.pci_number.specs.Accesses.{most_of_three, most_of_open};

use crate::hush::hush;
use crate::port::BoardPort;
use crate::put::put;
use crate::stop::Stop;
use pci_base::offset::{PRIMARY_BUS, SECONDARY_BUS, SUBORDINATE_BUS};
use pci_base::slot::Slot;

/// Gives a bridge the bus that it is on and a bus behind it, for that one alone.
fn show<P: BoardPort>(port: &mut P, slot: Slot, behind: u8) -> Result<(), Stop>
    ensures shown { OnOk result
        (IsShownAt (P.board port.old) slot slot.bus behind behind (P.board port.new)) }
    ensures left { OnErr result (IsLeftAt (P.board port.old) slot (P.board port.new)) }
    ensures stood { IsShowStood (board_moment (P.board port.old) (P.history port.old)) slot behind result
        (P.history port.new) }
    ensures stop { IfErr result (IsNumberingStop (P.board port.new) (P.last_write port.new)) }
    ensures counted { P.failures port.new ≡ P.failures port.old + failures_at result }
    ensures few { P.writes port.new ≤ P.writes port.old + 3 }
    ensures bounded { P.accesses port.new ≤ P.accesses port.old + most_of_three }
{
    put(port, slot, PRIMARY_BUS, slot.bus())?;
    put(port, slot, SECONDARY_BUS, behind)?;
    put(port, slot, SUBORDINATE_BUS, behind)?;
    Ok(())
}

/// Gives a bridge a bus, for that one alone until the bridges there forward nothing: two of them
/// could show the same old numbers. Then what comes next is behind it. Whether there are bridges
/// there.
pub fn open<P: BoardPort>(port: &mut P, slot: Slot, behind: u8, last: u8) -> Result<bool, Stop>
    ensures opened { IfOk result
        (λ bridges. IsBusOpened (P.board port.old) slot behind last bridges (P.board port.new)) }
    // what an error leaves is all that numbering can say of a board that stopped
    ensures left { OnErr result (IsOpenLeft (P.board port.old) slot behind last
        (P.board port.new)) }
    // a board may lose its port at any write, so each state on the way counts
    ensures stood { IsOpenStood (board_moment (P.board port.old) (P.history port.old)) slot behind last
        result (P.history port.new) }
    ensures stop { IfErr result (IsNumberingStop (P.board port.new) (P.last_write port.new)) }
    ensures counted { P.failures port.new ≡ P.failures port.old + failures_at result }
    // a bound for the whole board is the sum of these
    ensures few { IsOpenFew (P.board port.old) slot behind last (P.writes port.old)
        (P.writes port.new) }
    ensures bounded { P.accesses port.new ≤ P.accesses port.old + most_of_open }
{
    show(port, slot, behind)?;
    if !hush(port, behind)? {
        return Ok(false);
    }
    put(port, slot, SUBORDINATE_BUS, last)?;
    Ok(true)
}
