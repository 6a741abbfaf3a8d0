//! A text read ahead of its blocks, apart from its source.
ghost use Rattle.std.specs.Prelude.{◌≡◌, ◌≢◌, ◌<◌, ◌≤◌, ◌+◌, ◌-◌, [], true, false, length, drop, slice_range, Some, None, Ok, Err, IfOk, IfErr, OnOk, OnErr, MatchOption, MatchResult, IsTrue};
ghost use Rattle.pci_dump.specs.FaultAt.{fault_at};

use super::block::Block;
use super::block_text::BLOCK_MAX;
use super::dump::BLOCKS_MAX;
use super::parse::{BlockFault, block_into};
use super::read_fault::ReadFault;
use super::streams::{Failed, Source};
use pci_base::slot::Slot;
use std::marker::Model;

/// How far a text was read.
#[derive(Clone, Copy, Debug, PartialEq, Eq)]
pub enum Progress {
    /// Up to a block's end, and there was no fault.
    Open,
    /// To its end.
    Done,
    /// To a fault.
    Failed(ReadFault),
}

/// How many bytes are held at most.
const BUFFER_LEN: usize = 8192;

/// The most blocks of a text.
const COUNT_MAX: u64 = BLOCKS_MAX as u64;

/// The line after so many blocks of eighteen lines.
const LINE_AFTER_ALL: u64 = 18 * COUNT_MAX + 1;

/// The bytes that were read from a source and not yet taken as blocks, and how far the text was
/// read. Whoever has one keeps it with one source.
#[derive(Drop)]
pub struct ReadAhead {
    buf: [u8; BUFFER_LEN],
    at: usize,
    end: usize,
    drained: bool,
    count: u64,
    last: Option<Slot>,
    progress: Progress,
}

impl Model for ReadAhead {
    ghost use Rattle.std.specs.Prelude.{◌≡◌, ◌≢◌, ◌≤◌, true, slice_range};
    ghost use Rattle.pci_dump.specs.declared.ahead.Progress.TheVariants.{Done, Failed};
    ghost use Rattle.pci_dump.specs.declared.read_fault.ReadFault.TheVariants.{Memory};
    ghost use Rattle.pci_dump.specs.State.{Ahead};

    ghost Value = { Ahead };

    ghost view = { λ r. record {
      held = slice_range r.buf r.at r.end;
      drained = r.drained;
      count = r.count;
      last = r.last;
      progress = r.progress;
    } };

    ghost invariant = { λ r. (r.at ≤ r.end) × (r.end ≤ 8192) × (r.count ≤ 4096)
        × (r.progress ≡ Done → (r.at ≡ r.end) × (r.drained ≡ true))
        × (r.progress ≢ Failed Memory) };
}

impl ReadAhead {
    ghost use Rattle.pci_dump.specs.declared.read_fault.ReadFault.{ReadFault};
    ghost use Rattle.pci_dump.specs.State.{Ahead, IsOver, state_of, TakesNone, TakesBlock, TakesBlockOrNone, TakesFault};
    ghost use Rattle.pci_dump.specs.Front.{HoldsBlockOrNone, HoldsFault};
    ghost use Rattle.pci_dump.specs.Fill.{HoldsMore, Moves, HoldsEnough};

    /// Nothing is held, and no block was read.
    pub fn new() -> ReadAhead
        ensures { result ≡ record {
          held = [];
          drained = false;
          count = 0;
          last = None;
          progress = Progress.Open;
        } }
    {
        ReadAhead {
            buf: [0; BUFFER_LEN],
            at: 0,
            end: 0,
            drained: false,
            count: 0,
            last: None,
            progress: Progress::Open,
        }
    }

    /// The bytes that are held.
    fn held(&self) -> &[u8]
        ensures { result.now ≡ self.now.held }
    {
        &self.buf[self.at..self.end]
    }

    /// The next block, or None at the text's end. `source` is the one of each call before.
    ///
    /// Errors: 3 to 9 where the text has that fault, 1 `Io` where a read failed. After a fault it
    /// answers that fault, after None it answers None, and reads no more.
    pub fn next_block<S: Source>(&mut self, source: &mut S) -> Result<Option<Block>, ReadFault>
        // once the end was told no more is read, so a source with bytes left would lose them
        requires { IsOver self.old (S.left source.old) }
        // what the next call asks for
        ensures over { IsOver self.new (S.left source.new) }
        ensures ok { IfOk result (λ found. MatchOption found
            (TakesNone (state_of self.old (S.left source.old) (S.failures source.old))
            (state_of self.new (S.left source.new) (S.failures source.new)))
            (TakesBlock (state_of self.old (S.left source.old) (S.failures source.old))
            (state_of self.new (S.left source.new) (S.failures source.new)))) }
        ensures err { IfErr result
            (TakesFault (state_of self.old (S.left source.old) (S.failures source.old))
            (state_of self.new (S.left source.new) (S.failures source.new))) }
        ensures done { self.old.progress ≡ Progress.Done
            → (result ≡ Ok None) × (self.new ≡ self.old) }
        // a caller that goes on after a fault meets it again, and no bytes behind it
        ensures again { (fault : ReadFault) → self.old.progress ≡ Progress.Failed fault
            → (result ≡ Err fault) × (self.new ≡ self.old) }
        ensures untouched { self.old.progress ≢ Progress.Open → source.new ≡ source.old }
    {
        let mut block = Block::blank();
        match self.next_into(source, &mut block) {
            Err(fault) => Err(fault),
            Ok(false) => Ok(None),
            Ok(true) => Ok(Some(block)),
        }
    }

    /// Reads the next block into `block`, in the place of what it held. False at the text's end. `source` is the one of
    /// each call before. A `next_block` that moves no block: at an error `block` may hold parts of what was read.
    ///
    /// Errors: 3 to 9 where the text has that fault, 1 `Io` where a read failed. After a fault it
    /// answers that fault, after false it answers false, and reads no more.
    pub fn next_into<S: Source>(
        &mut self,
        source: &mut S,
        block: &mut Block,
    ) -> Result<bool, ReadFault>
        // what was read ahead of one source would be wrong before another
        requires { IsOver self.old (S.left source.old) }
        ensures over { IsOver self.new (S.left source.new) }
        ensures ok { IfOk result (λ taken. TakesBlockOrNone taken
            (state_of self.old (S.left source.old) (S.failures source.old))
            (state_of self.new (S.left source.new) (S.failures source.new)) block.new) }
        ensures err { IfErr result
            (TakesFault (state_of self.old (S.left source.old) (S.failures source.old))
            (state_of self.new (S.left source.new) (S.failures source.new))) }
        // a caller may read on to the end without a note that it was there already
        ensures done { self.old.progress ≡ Progress.Done
            → (result ≡ Ok false) × (self.new ≡ self.old) }
        // of two texts one may stop first: its fault is let go, and met again at the end
        ensures again { (fault : ReadFault) → self.old.progress ≡ Progress.Failed fault
            → (result ≡ Err fault) × (self.new ≡ self.old) }
        // an answer that is given again adds no failure, so its count is still that of the fault
        ensures untouched { self.old.progress ≢ Progress.Open → source.new ≡ source.old }
    {
        match self.progress {
            Progress::Done => return Ok(false),
            Progress::Failed(fault) => return Err(fault),
            Progress::Open => {}
        }
        match self.fill(source) {
            Err(Failed) => self.fail(ReadFault::Io),
            Ok(()) => self.take_block(block),
        }
    }

    /// Reads once behind what is held.
    fn read_more<S: Source>(&mut self, source: &mut S) -> Result<(), Failed>
        requires room { length self.old.held < 1042 }
        requires going { self.old.progress ≡ Progress.Open }
        ensures read { OnOk result
            (HoldsMore self.old self.new (S.left source.old) (S.left source.new)) }
        ensures failed { OnErr result
            (Moves self.old self.new (S.left source.old) (S.left source.new)) }
        ensures counted { MatchResult result (λ _. S.failures source.new ≡ S.failures source.old)
            (λ _. S.failures source.new ≡ S.failures source.old + 1) }
    {
        let at = self.at;
        let end = self.end;
        let held = end - at;
        shift(&mut self.buf, at, end);
        self.at = 0;
        self.end = held;
        self.drained = false;
        let read = source.read(&mut self.buf[held..])?;
        self.end = held + read;
        self.drained = read == 0;
        Ok(())
    }

    /// Reads until a block's text at least is held, or all that the source has left.
    fn fill<S: Source>(&mut self, source: &mut S) -> Result<(), Failed>
        requires over { IsOver self.old (S.left source.old) }
        requires going { self.old.progress ≡ Progress.Open }
        ensures moved { Moves self.old self.new (S.left source.old) (S.left source.new) }
        ensures enough { OnOk result (HoldsEnough self.new) }
        ensures counted { MatchResult result (λ _. S.failures source.new ≡ S.failures source.old)
            (λ _. S.failures source.new ≡ S.failures source.old + 1) }
    {
        while !self.has_enough() {
            self.read_more(source)?;
        }
        Ok(())
    }

    /// Takes so many bytes of what is held as a block with this slot.
    fn take(&mut self, used: usize, slot: Slot)
        requires held { used ≤ length self.old.held }
        requires few { self.old.count < 4096 }
        requires going { self.old.progress ≡ Progress.Open }
        ensures { self.new ≡ record self.old {
          held = drop used self.old.held;
          count = self.old.count + 1;
          last = Some slot;
        } }
    {
        self.at += used;
        self.count += 1;
        self.last = Some(slot);
    }

    /// Stays at this fault.
    fn fail<T: Drop>(&mut self, fault: ReadFault) -> Result<T, ReadFault>
        requires { fault ≢ ReadFault.Memory }
        ensures result { result ≡ Err fault }
        ensures state { self.new ≡ record self.old { progress = Progress.Failed fault } }
    {
        self.progress = Progress::Failed(fault);
        Err(fault)
    }

    /// Takes the block at the front of what is held, which is a block's text at least or all that is left. False where
    /// nothing is held.
    fn take_block(&mut self, block: &mut Block) -> Result<bool, ReadFault>
        requires enough { HoldsEnough self.old }
        requires going { self.old.progress ≡ Progress.Open }
        ensures ok { IfOk result (λ taken. HoldsBlockOrNone taken self.old self.new block.new) }
        ensures err { IfErr result (λ fault. HoldsFault self.old self.new fault) }
    {
        if self.held().is_empty() {
            self.progress = Progress::Done;
            return Ok(false);
        }
        if self.count == COUNT_MAX {
            return self.fail(ReadFault::TooMany(LINE_AFTER_ALL));
        }
        let used = match block_into(self.held(), self.last, block) {
            Err(stop) => return self.fail(fault_of(stop, self.count)),
            Ok(used) => used,
        };
        self.take(used, block.slot);
        Ok(true)
    }

    /// Whether no read is needed.
    fn has_enough(&self) -> bool
        ensures yes { IsTrue result → HoldsEnough self.now }
        ensures no { result ≡ false → (length self.now.held < 1042) × (self.now.drained ≡ false) }
    {
        self.drained || BLOCK_MAX <= self.held().len()
    }
}

/// Moves the bytes from `at` up to `end` to the front.
fn shift(buf: &mut [u8; BUFFER_LEN], at: usize, end: usize)
    requires order { at ≤ end }
    requires within { end ≤ 8192 }
    ensures { slice_range buf.new 0 (end - at) ≡ slice_range buf.old at end }
{
    if 0 < at {
        buf.copy_within(at..end, 0);
    }
}

/// The fault of the text where a block stops after `count` blocks of eighteen lines each.
fn fault_of(stop: BlockFault, count: u64) -> ReadFault
    requires { count < 4096 }
    ensures { result ≡ fault_at count stop }
{
    let first = 18 * count + 1;
    match stop {
        BlockFault::BadSlot => ReadFault::BadSlot(first),
        BlockFault::BadTitle => ReadFault::BadTitle(first),
        BlockFault::BadLine(row) => ReadFault::BadLine(first + 1 + u64::from(row)),
        BlockFault::NoBlank => ReadFault::NoBlank(first + 17),
        BlockFault::Order => ReadFault::Order(first),
        BlockFault::Ended(row) => ReadFault::Ended(first + 1 + u64::from(row)),
        BlockFault::EndedFirst => ReadFault::Ended(first),
    }
}
