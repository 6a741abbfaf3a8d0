//! Bus numbers for what is behind a root bus.
ghost use Rattle.std.specs.Prelude.{◌≡◌, ◌+◌, ◌≤◌, IfOk, IfErr};
ghost use Rattle.pci_number.specs.Stops.{failures_at, IsNumberingStop};
ghost use Rattle.pci_number.specs.Ready.{IsReady};
ghost use Rattle.pci_number.specs.Answer.{AnswersWhereReady, Keeps, named_by, highest_bus_of};
ghost use Rattle.pci_number.specs.Few.{IsFew};
ghost use Rattle.pci_number.specs.Single.{IsSingleThroughout, EndsSingle};
ghost use Rattle.pci_number.specs.Stood.{board_moment};
ghost use Rattle.pci_number.specs.Accesses.{most_accesses};

use crate::hush::hush;
use crate::port::BoardPort;
use crate::stop::Stop;
use crate::walk::{Walk, number_bus};
use pci_base::slot::Slot;

/// What numbering answers.
#[derive(Clone, Copy, Debug, PartialEq, Eq)]
pub enum Numbering {
    /// Each bridge has its numbers. The last bus that one leads to is `highest`, or the root where
    /// there is no bridge.
    Numbered { highest: u8 },
    /// The numbers ran out: `slot` is the first bridge that has none. It and all after it forward
    /// nothing.
    NoBus { slot: Slot, highest: u8 },
}

/// Numbers the buses behind a root bus, from `root` + 1 to `last`, depth first in the order of
/// devices and functions (Bridge 1.2, 3.2.5.2 to 3.2.5.4). Behind each bridge with a hot-plug slot
/// `spare` numbers more are kept free, as far as there are any, for what is plugged in later. First the bridges on the root bus are
/// made to forward nothing. Of each bridge bytes 18h to 1Ah alone are written, one at a time, where
/// that changes them; each is read back. Once those on the root bus forward nothing, at most one
/// node answers each access after every write, as long as that holds behind the other roots; and
/// from the start on if it was so at the start. Whatever the board is, at most 3840 accesses are
/// made, and 4049 more for each number from `root` + 1 to `last`.
///
/// # Errors
///
/// `Stuck` where a write read back otherwise, `Port` where an access failed. Nothing is written after
/// that. Of the board that is left then, bus numbers behind this root alone are others than before;
/// each board before the last write is as said above, and of the one after it nothing is said: the
/// bridge may have kept another number, with which two nodes answer an access.
pub fn number<P: BoardPort>(port: &mut P, root: u8, last: u8, spare: u8) -> Result<Numbering, Stop>
    ensures answer { IfOk result
        (λ answer. AnswersWhereReady spare (P.board port.old) root last answer (P.board port.new)) }
    // whatever happens, bytes 18h to 1Ah of bridges behind this root alone are changed
    ensures kept { Keeps (P.board port.old) root last (P.board port.new) }
    // each board that stood is single, from when the bridges on the root bus are closed, or from
    // the start
    ensures single { IsReady (P.board port.old) root last
        → IsSingleThroughout (board_moment (P.board port.old) (P.history port.old)) root result
        (P.history port.new) }
    ensures end { IfOk result
        (λ _. EndsSingle (P.board port.old) root last (P.board port.new)) }
    ensures stop { IfErr result (IsNumberingStop (P.board port.new) (P.last_write port.new)) }
    ensures counted { P.failures port.new ≡ P.failures port.old + failures_at result }
    // whatever happens, at most 8 writes are made for each bridge behind this root
    ensures few { IsFew (P.board port.old) root last (P.writes port.old) (P.writes port.new) }
    // a caller who makes them one by one comes to an end, whatever the board shows
    ensures bounded { P.accesses port.new ≤ P.accesses port.old + most_accesses root last }
{
    hush(port, root)?;
    let start = Walk {
        taken: root,
        without: None,
    };
    let walk = number_bus(port, root, last, spare, start)?;
    Ok(answer(walk))
}

/// What a walk over the whole root bus comes to.
fn answer(walk: Walk) -> Numbering
    ensures without { named_by result ≡ walk.without }
    ensures highest { highest_bus_of result ≡ walk.taken }
{
    let highest = walk.taken;
    match walk.without {
        None => Numbering::Numbered { highest },
        Some(slot) => Numbering::NoBus { slot, highest },
    }
}
