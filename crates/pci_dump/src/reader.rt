//! Reads a text block by block, or whole.
ghost use Rattle.std.specs.Prelude.{◌≡◌, ◌+◌, ◌≢◌, ℕ, List, Option, Some, None, Ok, Err, false, IfOk, IfErr, OnOk, MatchOption};
ghost use Rattle.pci_spec.specs.Text.{Block as BlockValue, IsTextOf};
ghost use Rattle.pci_dump.specs.ReadFault.{IsTextFault};

use super::ahead::{Progress, ReadAhead};
use super::block::Block;
use super::dump::Dump;
use super::read_fault::ReadFault;
use super::streams::Source;
use pci_base::memory::OutOfMemory;
use std::alloc::Allocator;
use std::marker::Model;

/// Reads the blocks of a source's text one after the other, and takes no memory. How far it reads
/// the source ahead is left open.
#[derive(Drop)]
pub struct Reader<S: Source> {
    source: S,
    ahead: ReadAhead,
}

impl<S: Source> Model for Reader<S> {
    ghost use Rattle.pci_dump.specs.State.{State, state_of, IsOver};

    ghost Value = { State };

    ghost view = { λ r. state_of r.ahead (S.left r.source) (S.failures r.source) };

    ghost invariant = { λ r. IsOver r.ahead (S.left r.source) };
}

impl<S: Source> Reader<S> {
    ghost use Rattle.pci_dump.specs.declared.read_fault.ReadFault.{ReadFault};
    ghost use Rattle.pci_dump.specs.State.{State, TakesNone, TakesBlock, TakesBlockOrNone, TakesFault};

    /// A reader before the first block, with all that the source has left.
    pub fn new(source: S) -> Reader<S>
        ensures left { result.left ≡ S.left source }
        ensures failures { result.failures ≡ S.failures source }
        ensures count { result.count ≡ 0 }
        ensures last { result.last ≡ None }
        ensures progress { result.progress ≡ Progress.Open }
    {
        Reader {
            source,
            ahead: ReadAhead::new(),
        }
    }

    /// The next block, or None at the text's end.
    ///
    /// Errors: 3 to 9 where the text has that fault, 1 `Io` where a read failed in this call or an
    /// earlier one. After a fault it answers that fault, after None it answers None.
    pub fn next_block(&mut self) -> Result<Option<Block>, ReadFault>
        // what is read next is what stood behind this block, so that a reader may go on after it
        ensures ok { IfOk result (λ found. MatchOption found (TakesNone self.old self.new)
            (TakesBlock self.old self.new)) }
        // a fault is one of the whole text, and its line is counted from the text's first
        ensures err { IfErr result (TakesFault self.old self.new) }
        ensures done { self.old.progress ≡ Progress.Done
            → (result ≡ Ok None) × (self.new ≡ self.old) }
        // a caller that goes on after a fault meets it again, and no bytes behind it
        ensures again { (fault : ReadFault) → self.old.progress ≡ Progress.Failed fault
            → (result ≡ Err fault) × (self.new ≡ self.old) }
    {
        self.ahead.next_block(&mut self.source)
    }

    /// Reads the next block into `block`, in the place of what it held. False at the text's end. A `next_block` that
    /// moves no block: at an error `block` may hold parts of what was read.
    ///
    /// Errors: 3 to 9 where the text has that fault, 1 `Io` where a read failed in this call or an
    /// earlier one. After a fault it answers that fault, after false it answers false.
    pub fn next_into(&mut self, block: &mut Block) -> Result<bool, ReadFault>
        ensures ok { IfOk result (λ taken. TakesBlockOrNone taken self.old self.new block.new) }
        ensures err { IfErr result (TakesFault self.old self.new) }
        ensures done { self.old.progress ≡ Progress.Done
            → (result ≡ Ok false) × (self.new ≡ self.old) }
        // a caller that goes on after a fault meets it again, and no bytes behind it
        ensures again { (fault : ReadFault) → self.old.progress ≡ Progress.Failed fault
            → (result ≡ Err fault) × (self.new ≡ self.old) }
    {
        self.ahead.next_into(&mut self.source, block)
    }
}

/// The dump whose text `source` has left.
///
/// Errors: 3 to 9 where that is no text, 1 `Io` where a read failed, 2 `Memory` where a growth was
/// refused.
pub fn read_dump<S: Source, A: Allocator>(alloc: A, source: &mut S) -> Result<Dump<A>, ReadFault>
    // only where the source tells its bytes: of others there is no text to speak of
    ensures ok { IfOk result
        (λ dump. (bytes : List ℕ) → S.left source.old ≡ Some bytes → IsTextOf bytes dump) }
    // text and dump are one to one, so no other dump can have been meant
    ensures only { IfOk result (λ dump. (bytes : List ℕ) → S.left source.old ≡ Some bytes
        → (others : List BlockValue) → IsTextOf bytes others → others ≡ dump) }
    // with `io` and `no_io`: fault 1 comes exactly where a read failed
    ensures fine { OnOk result (S.failures source.new ≡ S.failures source.old) }
    // 1 and 2 may come at any text, so they say nothing of this one
    ensures fault { IfErr result (λ fault. (bytes : List ℕ) → S.left source.old ≡ Some bytes
        → fault ≢ ReadFault.Io → fault ≢ ReadFault.Memory → IsTextFault bytes fault) }
    ensures io { IfErr result
        (λ fault. fault ≡ ReadFault.Io → S.failures source.new ≡ S.failures source.old + 1) }
    // 1 alone tells of a failed read
    ensures no_io { IfErr result
        (λ fault. fault ≢ ReadFault.Io → S.failures source.new ≡ S.failures source.old) }
{
    let mut ahead = ReadAhead::new();
    let mut dump = Dump::empty(alloc);
    loop {
        let mut block = Block::blank();
        let taken = ahead.next_into(source, &mut block)?;
        if !taken {
            return Ok(dump);
        }
        match dump.append(block) {
            Ok(()) => {}
            Err(OutOfMemory) => return Err(ReadFault::Memory),
        }
    }
}
