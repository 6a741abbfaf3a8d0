//! Ranges that may share addresses, in an order in which places are looked for: without those that lie in others.
ghost use Rattle.std.specs.Prelude.{◌≡◌, IfOk};
ghost use Rattle.std.specs.List.{Contains};
ghost use Rattle.pci_first_fit.specs.Lines.{AreForwardRanges};
ghost use Rattle.pci_grow.specs.Arounds.{AreRisingAtBothEnds};
ghost use Rattle.pci_grow.specs.Widest.{is_beyond, KeptBy, LiesInOne};

use pci_base::memory::OutOfMemory;
use pci_base::range::Range;
use pci_first_fit::spot::sort_by_first;
use std::alloc::Allocator;

/// Whether a range ends behind an address, if there is one.
fn is_beyond(end: Option<u64>, range: Range) -> bool
    ensures { result ≡ is_beyond end range }
{
    match end {
        None => true,
        Some(end) => end < range.last,
    }
}

/// Keeps a range that ends behind all that are kept. The answer is where these end.
fn keep<A: Allocator>(
    kept: &mut Vec<Range, A>,
    end: Option<u64>,
    range: Range,
) -> Result<Option<u64>, OutOfMemory>
    ensures { IfOk result (λ next. KeptBy (is_beyond end range) end range kept.old.items next kept.new.items) }
{
    if is_beyond(end, range) {
        kept.push(range)?;
        return Ok(Some(range.last));
    }
    Ok(end)
}

/// Ranges by rising first and last addresses, without those that lie in others.
pub fn in_order<A: Allocator + Copy>(
    alloc: A,
    mut ranges: Vec<Range, A>,
) -> Result<Vec<Range, A>, OutOfMemory>
    // places are looked for between ranges with addresses
    requires { AreForwardRanges ranges.items }
    ensures order { IfOk result (λ kept. AreRisingAtBothEnds kept.items) }
    ensures only { IfOk result (λ kept. (r : Range) → Contains kept.items r → Contains ranges.items r) }
    // so the same addresses are in them
    ensures all { IfOk result (λ kept. (r : Range) → Contains ranges.items r → LiesInOne kept.items r) }
{
    sort_by_first(&mut ranges);
    let mut kept = Vec::new(alloc);
    let mut end = None;
    for range in ranges.as_slice() {
        end = keep(&mut kept, end, *range)?;
    }
    Ok(kept)
}
