//! Reads a sizes text.
ghost use Rattle.std.specs.Prelude.{◌≡◌, ◌≢◌, ◌≤◌, ◌<◌, ◌+◌, ◌++◌, ℕ, List, Some, length, take, IfOk, IfErr, OnOk, MatchResult};
ghost use Rattle.std.specs.Io.KnownBytes.{Consumes, IsAtEnd};
ghost use Rattle.pci_spec.specs.SizesText.{SizesBlock as BlockValue, IsSizes, sizes_text_of, IsSizesTextOf};
ghost use Rattle.pci_machine.specs.SizesFault.{IsSizesTextFault, IsSizesFaultAfter};

use super::sizes::{Sizes, SizesBlock};
use super::sizes_block::{BLOCK_LEN, block_after};
use super::sizes_fault::fault_after;
use pci_base::memory::OutOfMemory;
use pci_dump::dump::BLOCKS_MAX;
use pci_dump::read_fault::ReadFault;
use pci_dump::streams::{Failed, Source};
use std::alloc::Allocator;

/// How many bytes are read before their blocks are taken: twenty whole blocks.
const CHUNK_LEN: usize = 20 * BLOCK_LEN;

/// The line after 4,096 blocks of nine lines.
const LINE_AFTER_ALL: u64 = 9 * BLOCKS_MAX as u64 + 1;

/// Reads until `chunk` is full or the source has told its end, and answers how many bytes were read.
fn fill<S: Source>(source: &mut S, chunk: &mut [u8; CHUNK_LEN]) -> Result<usize, Failed>
    ensures few { IfOk result (λ n. n ≤ 8160) }
    ensures bytes { IfOk result
        (λ n. Consumes (S.left source.old) (S.left source.new) (take n chunk.new)) }
    ensures end { IfOk result (λ n. n < 8160 → IsAtEnd (S.left source.new)) }
    ensures counted { MatchResult result (λ _. S.failures source.new ≡ S.failures source.old)
        (λ _. S.failures source.new ≡ S.failures source.old + 1) }
{
    let mut len = 0;
    // A full chunk ends it as well: there is room for nothing then, and nothing is read.
    // It has no return within: with one, a build of the kit's read the end of a file for ever.
    let mut drained = false;
    while !drained {
        let read = source.read(&mut chunk[len..])?;
        drained = read == 0;
        len += read;
    }
    Ok(len)
}

/// Takes the block that some bytes are: 408, or fewer where the text ends.
fn take_block<A: Allocator>(bytes: &[u8], sizes: &mut Sizes<A>) -> Result<(), ReadFault>
    requires some { 1 ≤ length bytes.now }
    requires few { length bytes.now ≤ 408 }
    ensures text { OnOk result (sizes_text_of sizes.new ≡ sizes_text_of sizes.old ++ bytes.now) }
    ensures sizes { OnOk result (IsSizes sizes.new) }
    ensures fault { IfErr result
        (λ fault. fault ≢ ReadFault.Memory → IsSizesFaultAfter sizes.old bytes.now fault) }
    ensures no_io { IfErr result (λ fault. fault ≢ ReadFault.Io) }
{
    let blocks = sizes.blocks();
    if blocks.len() == BLOCKS_MAX {
        return Err(ReadFault::TooMany(LINE_AFTER_ALL));
    }
    let mut block = SizesBlock::default();
    if !block_after(blocks, bytes, &mut block) {
        return Err(fault_after(blocks, bytes));
    }
    match sizes.append(block) {
        Ok(()) => Ok(()),
        Err(OutOfMemory) => Err(ReadFault::Memory),
    }
}

/// Takes the blocks that some bytes are, whole blocks or all that the text has left.
fn take_blocks<A: Allocator>(bytes: &[u8], sizes: &mut Sizes<A>) -> Result<(), ReadFault>
    requires { IsSizes sizes.old }
    ensures text { OnOk result (sizes_text_of sizes.new ≡ sizes_text_of sizes.old ++ bytes.now) }
    ensures sizes { OnOk result (IsSizes sizes.new) }
    ensures fault { IfErr result
        (λ fault. fault ≢ ReadFault.Memory → IsSizesFaultAfter sizes.old bytes.now fault) }
    ensures no_io { IfErr result (λ fault. fault ≢ ReadFault.Io) }
{
    let mut rest = bytes;
    while !rest.is_empty() {
        let (block, more) = rest.split_at(BLOCK_LEN.min(rest.len()));
        take_block(block, sizes)?;
        rest = more;
    }
    Ok(())
}

/// The sizes whose text `source` has left.
///
/// Errors: 3 and 5 to 9 where that is no such text, 1 `Io` where a read failed, 2 `Memory` where a
/// growth was refused.
pub fn read_sizes<S: Source, A: Allocator>(alloc: A, source: &mut S) -> Result<Sizes<A>, ReadFault>
    ensures ok { IfOk result
        (λ sizes. (bytes : List ℕ) → S.left source.old ≡ Some bytes → IsSizesTextOf bytes sizes) }
    ensures only { IfOk result (λ sizes. (bytes : List ℕ) → S.left source.old ≡ Some bytes
        → (others : List BlockValue) → IsSizesTextOf bytes others → others ≡ sizes) }
    ensures fine { OnOk result (S.failures source.new ≡ S.failures source.old) }
    ensures fault { IfErr result (λ fault. (bytes : List ℕ) → S.left source.old ≡ Some bytes
        → fault ≢ ReadFault.Io → fault ≢ ReadFault.Memory → IsSizesTextFault bytes fault) }
    ensures io { IfErr result
        (λ fault. fault ≡ ReadFault.Io → S.failures source.new ≡ S.failures source.old + 1) }
    // 1 alone tells of a failed read
    ensures no_io { IfErr result
        (λ fault. fault ≢ ReadFault.Io → S.failures source.new ≡ S.failures source.old) }
{
    let mut chunk = [0; CHUNK_LEN];
    let mut sizes = Sizes::empty(alloc);
    loop {
        let len = match fill(source, &mut chunk) {
            Err(Failed) => return Err(ReadFault::Io),
            Ok(len) => len,
        };
        take_blocks(&chunk[..len], &mut sizes)?;
        if len < CHUNK_LEN {
            return Ok(sizes);
        }
    }
}
