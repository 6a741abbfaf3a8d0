//! Numbering where the accesses are made by whoever calls, one after another: from the accesses that were made and what they
//! showed it follows which one is the next.
ghost use Rattle.std.specs.Prelude.{◌≡◌, ◌≤◌, true, nat_lt, is_some, length};
ghost use Rattle.std.specs.List.{slice_get};
ghost use Rattle.pci_number.specs.Logs.{TrueLog, no_log, is_read_or_write, is_new};
ghost use Rattle.pci_number.specs.Numberings.{IsSteppedTo};

use crate::access::{Access, READ, Step, Stepped, WRITE};
use crate::number::number;
use crate::port::{AccessFailed, BoardPort};
use crate::stop::Stop;
use pci_base::failures::Failures;
use pci_base::slot::Slot;
use std::marker::{Brand, PhantomData};

/// The board to which the accesses of a log were made. No code has it.
trait World {
    ghost use Rattle.pci_number.specs.Logs.{TrueLog};

    ghost world: { TrueLog };
}

impl World for Brand {
    ghost use Rattle.pci_number.specs.Logs.{no_log};

    ghost world = { no_log };
}

/// A port that answers by a log, as far as it goes. The first access that isn't in it is kept. Where it is a write, it is
/// taken for made, so that numbering says of it what it says of each write. Each access after it fails.
#[derive(Drop)]
struct Replay<'a, W: World> {
    log: &'a [Access],
    at: usize,
    next: Option<Access>,
    failed: Failures,
    of: PhantomData<W>,
    ghost is_log: { log.now ≡ W.world.log },
    ghost within: { at ≤ length log.now },
    // an access fails only once one is wanted
    ghost wants: { nat_lt 0 failed.count ≡ true → is_some next ≡ true },
    ghost kinds: { is_read_or_write next ≡ true },
    ghost new: { is_new (slice_get log.now at) next ≡ true },
}

impl<W: World> Replay<'_, W> {
    /// The next access of the log.
    fn here(&self) -> Option<Access>
        ensures { result ≡ slice_get self.now.log.now self.now.at }
    {
        self.log.get(self.at).copied()
    }
}

impl<W: World> BoardPort for Replay<'_, W> {
    ghost use Rattle.pci_number.specs.Logs.{accesses_then, board_then, last_then, stood_then, writes_then};

    ghost board = { λ r. board_then W.world r.at r.next };

    ghost history = { λ r. stood_then W.world r.at r.next };

    ghost failures = { λ r. r.failed.count };

    ghost last_write = { λ r. last_then W.world.log r.at r.next };

    ghost writes = { λ r. writes_then W.world.log r.at r.next };

    ghost accesses = { λ r. accesses_then r.at r.next };

    fn read(&mut self, access: Slot, offset: u8) -> Result<u8, AccessFailed> {
        if self.next.is_none() {
            let wanted = Access::to(access, offset, READ, 0);
            match self.here() {
                Some(made) if made.is(&wanted) => {
                    self.at += 1;
                    return Ok(made.value);
                }
                _ => self.next = Some(wanted),
            }
        }
        self.failed = self.failed.and_one();
        Err(AccessFailed)
    }

    fn write(&mut self, access: Slot, offset: u8, value: u8) -> Result<(), AccessFailed> {
        if self.next.is_some() {
            self.failed = self.failed.and_one();
            return Err(AccessFailed);
        }
        let wanted = Access::to(access, offset, WRITE, value);
        match self.here() {
            Some(made) if made.is(&wanted) => self.at += 1,
            _ => self.next = Some(wanted),
        }
        Ok(())
    }
}

/// What follows from the accesses of a log that is true of a board.
fn stepped<W: World>(log: &[Access], root: u8, last: u8, spare: u8) -> Stepped
    requires { log.now ≡ W.world.log }
    ensures { IsSteppedTo W.world root last spare result }
{
    let mut replay: Replay<'_, W> = Replay {
        log,
        at: 0,
        next: None,
        failed: Failures::new(),
        of: PhantomData,
    };
    let outcome = number(&mut replay, root, last, spare);
    let step = match replay.next {
        Some(access) => Step::Next(access),
        None => match outcome {
            Ok(numbering) => Step::Done(numbering),
            Err(Stop::Stuck(told)) => Step::Stuck(told),
            // an access fails only once one is wanted
            Err(Stop::Port) => unreachable!(),
        },
    };
    Stepped {
        used: replay.at,
        step,
    }
}

/// What follows from accesses that were made to a board, in the order in which they were made: the next access by which
/// `number` gives numbers to the bridges behind a root bus, or what it answers. `log` has each access with what it showed.
///
/// Whoever has no port makes the access that is answered, appends it to the log with what it showed, and calls again. Each
/// call goes over the log from its beginning. Where an access fails, nothing more is to be made; the board is then as after the
/// accesses of the log.
///
/// `used` says how many accesses of the log are the numbering's. An access is asked for only where the log ends there, or goes
/// on with another access. It changes bus numbers of bridges behind the root alone, whatever the board makes of it. Whatever
/// the board is, at most 3840 accesses are the numbering's, and 4049 more for each number from `root` + 1 to `last`. So a caller
/// that goes on only where all of the log is used comes to an end.
pub fn next_access(log: &[Access], root: u8, last: u8, spare: u8) -> Stepped
    // whatever the board is: the log is true of it
    ghost world: { TrueLog }
    requires { log.now ≡ world.log }
    ensures { IsSteppedTo world root last spare result }
{
    stepped::<Brand>(log, root, last, spare)
}
