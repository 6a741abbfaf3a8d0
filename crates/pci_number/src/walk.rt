//! The walk that gives numbers.
ghost use Rattle.std.specs.Prelude.{◌≡◌, ◌+◌, ◌≤◌, IfOk, IfErr, OnErr};
ghost use Rattle.pci_number.specs.Stops.{failures_at, IsNumberingStop};
ghost use Rattle.pci_number.specs.Walked.{IsBusNumbered, IsBusLeft, named, outset};
ghost use Rattle.pci_number.specs.Few.{IsBusFew};
ghost use Rattle.pci_number.specs.Single.{IsBusStood};
ghost use Rattle.pci_number.specs.Stood.{board_moment};
ghost use Rattle.pci_number.specs.Accesses.{most_of_numbers, most_of_walk};

use crate::lead::lead_to;
use crate::look::{PLACES, look, slot_at};
use crate::open::open;
use crate::port::BoardPort;
use crate::stop::Stop;
use pci_base::slot::Slot;

/// How far a walk is: the greatest number in use, and the first bridge for which none was left.
#[derive(Clone, Copy, Debug, PartialEq, Eq)]
pub struct Walk {
    pub taken: u8,
    pub without: Option<Slot>,
}

impl Walk {
    /// No number is left for a bridge.
    fn and_without(self, slot: Slot) -> Walk
        ensures taken { result.taken ≡ self.taken }
        ensures named { result.without ≡ named self.without slot }
    {
        match self.without {
            Some(_) => self,
            None => Walk {
                taken: self.taken,
                without: Some(slot),
            },
        }
    }
}

/// Numbers the bridges on a bus, which forward nothing, and those behind them, and keeps `spare`
/// numbers free behind each with a hot-plug slot.
pub fn number_bus<P: BoardPort>(
    port: &mut P,
    bus: u8,
    last: u8,
    spare: u8,
    start: Walk,
) -> Result<Walk, Stop>
    // numbers behind the bridges of a bus are above its own
    requires above { bus ≤ start.taken }
    ensures numbered { IfOk result
        (λ walk. IsBusNumbered (P.board port.old) (outset bus last spare start) walk
        (P.board port.new)) }
    ensures above { IfOk result (λ walk. start.taken ≤ walk.taken) }
    // what an error leaves is all that numbering can say of a board that stopped
    ensures left { OnErr result (IsBusLeft (P.board port.old) (outset bus last spare start)
        (P.board port.new)) }
    // a board may lose its port at any write, so each state on the way counts
    ensures stood { IsBusStood (board_moment (P.board port.old) (P.history port.old))
        (outset bus last spare start) result (P.history port.new) }
    ensures stop { IfErr result (IsNumberingStop (P.board port.new) (P.last_write port.new)) }
    ensures counted { P.failures port.new ≡ P.failures port.old + failures_at result }
    // a bound for the whole board is the sum of these
    ensures few { IsBusFew (P.board port.old) (outset bus last spare start) (P.writes port.old)
        (P.writes port.new) }
    ensures bounded { P.accesses port.new ≤ P.accesses port.old + most_of_walk last start.taken }
    // the numbers that are left have their accesses still before them
    ensures spent { IfOk result (λ walk. P.accesses port.new + most_of_numbers last walk.taken
        ≤ P.accesses port.old + most_of_walk last start.taken) }
{
    let mut walk = start;
    let mut more = false;
    for place in 0..PLACES {
        let slot = slot_at(bus, place);
        let found = look(port, slot, more)?;
        more = found.more;
        if found.bridge {
            if walk.taken < last {
                walk.taken += 1;
                if open(port, slot, walk.taken, last)? {
                    walk = number_bus(port, walk.taken, last, spare, walk)?;
                }
                walk.taken = lead_to(port, slot, walk.taken, last, spare)?;
            } else {
                walk = walk.and_without(slot);
            }
        }
    }
    Ok(walk)
}
