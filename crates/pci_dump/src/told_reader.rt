//! Reads a text of told ranges.
ghost use Rattle.std.specs.Prelude.{◌≡◌, ◌+◌, ◌≢◌, ℕ, List, Some, IfOk, IfErr, OnOk};
ghost use Rattle.judge_spec.specs.Told.{ToldRange as RangeValue};
ghost use Rattle.judge_spec.specs.ToldText.{IsToldTextOf};
ghost use Rattle.pci_dump.specs.ToldFaults.{IsToldTextFault};

use super::told_lines::Lines;
use super::told_list::ToldList;
use crate::read_fault::ReadFault;
use crate::streams::{Failed, Source};
use std::alloc::Allocator;

/// How many bytes are read at a time.
const CHUNK_LEN: usize = 4096;

/// The ranges whose text `source` has left.
///
/// Errors, of 3 to 9 with the line: 3 `BadSlot` where one of the first eight bytes of a line is wrong, 5 `BadLine` where a
/// later one is, 7 `Order` where a slot is below the one before it or a range is backward, 8 `TooMany` where bytes follow
/// 4,096 lines, 9 `Ended` where the text ends within a line. 1 `Io` where a read failed, 2 `Memory` where a growth was
/// refused.
pub fn read_told<S: Source, A: Allocator>(
    alloc: A,
    source: &mut S,
) -> Result<ToldList<A>, ReadFault>
    ensures ok { IfOk result (λ list. (bytes : List ℕ) → S.left source.old ≡ Some bytes
        → IsToldTextOf bytes list) }
    // text and ranges are one to one, so no others can have been meant
    ensures only { IfOk result (λ list. (bytes : List ℕ) → S.left source.old ≡ Some bytes
        → (others : List RangeValue) → IsToldTextOf bytes others → others ≡ list) }
    ensures fine { OnOk result (S.failures source.new ≡ S.failures source.old) }
    // 1 and 2 may come at any text, so they say nothing of this one
    ensures fault { IfErr result (λ fault. (bytes : List ℕ) → S.left source.old ≡ Some bytes
        → fault ≢ ReadFault.Io → fault ≢ ReadFault.Memory → IsToldTextFault bytes fault) }
    ensures io { IfErr result
        (λ fault. fault ≡ ReadFault.Io → S.failures source.new ≡ S.failures source.old + 1) }
    // 1 alone tells of a failed read
    ensures no_io { IfErr result
        (λ fault. fault ≢ ReadFault.Io → S.failures source.new ≡ S.failures source.old) }
{
    let mut chunk = [0; CHUNK_LEN];
    let mut lines = Lines::new(alloc);
    loop {
        let len = match source.read(&mut chunk) {
            Err(Failed) => return Err(ReadFault::Io),
            Ok(len) => len,
        };
        if len == 0 {
            return lines.finish();
        }
        lines.take_all(&chunk[..len])?;
    }
}
