//! What may be claimed on some buses, of regions that registers show and of told ranges, whatever of it gets there.
ghost use Rattle.std.specs.Prelude.{◌≡◌, ◌<◌, map, IfOk, IsTrue, OnOk};
ghost use Rattle.std.specs.List.{AllPairs, Contains};
ghost use Rattle.std.specs.List.Sorted.{IsPermutation};
ghost use Rattle.pci_base.specs.Space.{space_of};
ghost use Rattle.pci_tree.specs.Roots.{buses_of};
ghost use Rattle.judge_spec.specs.Told.{IsTold};
ghost use Rattle.pci_faults.specs.Spans.{region_span, AreSpansAdded, AreSpansApart};

use pci_base::memory::OutOfMemory;
use pci_base::slot::{BUSES, Slot};
use pci_base::space::Space;
use pci_claims::all_claims::ranges_of;
use pci_dump::told_range::ToldRange;
use pci_tree::region::Region;
use pci_tree::roots::Roots;
use std::alloc::Allocator;

/// What one region may claim: the addresses from `first` to `last`.
#[derive(Clone, Copy, Debug)]
pub struct Span {
    pub slot: Slot,
    /// The byte offset of its register, or 255 + n for the told range of line n.
    pub register: u16,
    pub first: u64,
    pub last: u64,
}

/// Those of regions that registers show.
pub fn spans_of<A: Allocator>(alloc: A, regions: &[Region]) -> Result<Vec<Span, A>, OutOfMemory>
    ensures { IfOk result (λ v. v.items ≡ map region_span regions.now) }
{
    let mut out = Vec::new(alloc);
    for region in regions {
        out.push(Span {
            slot: region.slot,
            register: u16::from(region.reg),
            first: region.first,
            last: region.last,
        })?;
    }
    Ok(out)
}

/// Adds those of the told ranges of a bus and a space.
pub fn add_told_spans<A: Allocator>(
    out: &mut Vec<Span, A>,
    ranges: &[ToldRange],
    bus: u8,
    space: Space,
) -> Result<(), OutOfMemory>
    // told ranges stand by slot, so those of a bus are found by halving
    requires { IsTold ranges.now }
    ensures { OnOk result (AreSpansAdded (λ b. b ≡ bus) ranges.now (space_of space) out.old.items
        out.new.items) }
{
    let stretch = ranges_of(ranges, bus);
    for i in stretch.first..stretch.end {
        let range = &ranges[i];
        if range.is_in(space) {
            out.push(Span {
                slot: range.slot,
                register: 256 + i as u16,
                first: range.first,
                last: range.last,
            })?;
        }
    }
    Ok(())
}

/// Adds those of the told ranges of all root buses and a space.
pub fn add_root_spans<A: Allocator>(
    out: &mut Vec<Span, A>,
    ranges: &[ToldRange],
    roots: &Roots,
    space: Space,
) -> Result<(), OutOfMemory>
    requires { IsTold ranges.now }
    ensures { OnOk result (AreSpansAdded (Contains (buses_of roots.now)) ranges.now (space_of space)
        out.old.items out.new.items) }
{
    for bus in 0..BUSES {
        if roots.has(bus as u8) {
            add_told_spans(out, ranges, bus as u8, space)?;
        }
    }
    Ok(())
}

/// Whether each of some spans lies above all before it.
fn do_rise(spans: &[Span]) -> bool
    ensures { IsTrue result → AllPairs (λ p q. p.last < q.first) spans.now }
{
    let mut end: u128 = 0;
    for span in spans {
        if u128::from(span.first) < end {
            return false;
        }
        end = end.max(u128::from(span.last) + 1);
    }
    true
}

/// Sorts spans by their first addresses.
fn sort<A: Allocator>(spans: &mut Vec<Span, A>) -> Result<(), OutOfMemory>
    ensures { IsPermutation spans.old.items spans.new.items }
{
    match spans.sort_by_key(|span| span.first) {
        Ok(()) => Ok(()),
        Err(_) => Err(OutOfMemory),
    }
}

/// Whether no two of some spans have an address in common.
pub fn are_spans_apart<A: Allocator>(spans: Vec<Span, A>) -> Result<bool, OutOfMemory>
    ensures { IfOk result (λ apart. IsTrue apart → AreSpansApart spans.items) }
{
    let mut spans = spans;
    sort(&mut spans)?;
    Ok(do_rise(&spans))
}
