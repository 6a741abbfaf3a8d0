//! What the host sends to the root buses of a domain.
ghost use Rattle.std.specs.Prelude.{◌≡◌, ◌↔◌, ◌∷◌, [], ℕ, List, IsTrue, IfOk, OnOk, MatchOption};
ghost use Rattle.std.specs.List.{list_any};
ghost use Rattle.pci_base.specs.declared.range.RootRange.{RootRange};
ghost use Rattle.pci_tree.specs.Roots.{buses_of};
ghost use Rattle.pci_here.specs.HostRanges.{IsOfHost, IsHostLine, IsNoHostLine, AreRangesOf, HasFound, file_lines, lies_within_same_bus, outer_ranges, IsToldBy};

use crate::bus_line::{BusRange, bus_range_of};
use crate::part::first_part;
use pci_base::memory::OutOfMemory;
use pci_base::range::RootRange;
use pci_tree::roots::Roots;
use pciplan_lists::host_list::is_good_host_list;
use std::alloc::Global;

/// Whether a range is of a root bus of the domain, and goes upward.
fn is_of_host(told: &BusRange, domain: u32, roots: &Roots) -> bool
    ensures { IsTrue result ↔ IsOfHost domain (buses_of roots.now) told.now }
{
    told.bus.domain == domain && roots.has(told.bus.number) && told.range.first <= told.range.last
}

/// The range of a line that tells of a root bus of the domain. A range that goes downward has no addresses and is none.
fn host_range_of(line: &str, domain: u32, roots: &Roots) -> Option<RootRange>
    ensures { MatchOption result (IsNoHostLine domain (buses_of roots.now) line.now)
        (λ range. IsHostLine domain (buses_of roots.now) line.now range) }
{
    match bus_range_of(line) {
        Some(told) if is_of_host(&told, domain, roots) => Some(RootRange {
            root: Some(told.bus.number),
            range: told.range,
        }),
        _ => None,
    }
}

/// Adds the range of a line, where it has one.
fn add_range(
    ranges: &mut Vec<RootRange>,
    line: &str,
    domain: u32,
    roots: &Roots,
) -> Result<(), OutOfMemory>
    ensures { OnOk result ((lines rest : List (List ℕ))
        → HasFound domain (buses_of roots.now) lines (line.now ∷ rest) ranges.old.items
        → HasFound domain (buses_of roots.now) lines rest ranges.new.items) }
{
    match host_range_of(line, domain, roots) {
        Some(range) => {
            ranges.push(range)?;
            Ok(())
        }
        None => Ok(()),
    }
}

/// The ranges of the lines of a text, in their order.
fn ranges_of(
    alloc: Global,
    text: &str,
    domain: u32,
    roots: &Roots,
) -> Result<Vec<RootRange>, OutOfMemory>
    ensures { IfOk result
        (λ ranges. AreRangesOf domain (buses_of roots.now) (file_lines text.now) ranges.items) }
{
    let mut ranges = Vec::new(alloc);
    let mut left = Some(text);
    'lines: while let Some(lines) = left {
        let (line, more) = first_part(lines, '\n');
        add_range(&mut ranges, line, domain, roots)?;
        left = more;
    }
    Ok(ranges)
}

/// Whether a range lies within another one of the same bus.
fn is_within(range: &RootRange, other: &RootRange) -> bool
    ensures { result ≡ lies_within_same_bus range.now other.now }
{
    range.root == other.root
        && other.range.first <= range.range.first
        && range.range.last <= other.range.last
}

/// Whether a range lies within one of some ranges.
fn lies_in_one(range: &RootRange, ranges: &[RootRange]) -> bool
    ensures { result ≡ list_any (lies_within_same_bus range.now) ranges.now }
{
    for other in ranges {
        if is_within(range, other) {
            return true;
        }
    }
    false
}

/// Adds a range that lies within none of a list.
fn add_outermost(list: &mut Vec<RootRange>, range: &RootRange) -> Result<(), OutOfMemory>
    ensures { OnOk result ((more : List RootRange)
        → outer_ranges list.old.items (range.now ∷ more) ≡ outer_ranges list.new.items more) }
{
    if lies_in_one(range, list.as_slice()) {
        return Ok(());
    }
    list.push(*range)?;
    Ok(())
}

/// The ranges without those that lie within an earlier one.
fn outermost(alloc: Global, ranges: &[RootRange]) -> Result<Vec<RootRange>, OutOfMemory>
    ensures { IfOk result (λ list. list.items ≡ outer_ranges [] ranges.now) }
{
    let mut list: Vec<RootRange> = Vec::new(alloc);
    for range in ranges {
        add_outermost(&mut list, range)?;
    }
    Ok(list)
}

/// What a text such as `/proc/iomem` tells of the root buses of a domain: the ranges F-L of its lines
/// `F-L : PCI Bus DDDD:bb`, at any depth, in their order. A range that lies within an earlier one of its bus, as Linux
/// lists one that it split, tells no address more and is left out; a range that goes downward has no addresses. None where
/// there is no range, and where two ranges of a bus overlap in part: no tree of resources has such, and no option takes it.
///
/// Errors: 2 `OutOfMemory` where a growth was refused.
pub fn host_ranges(
    alloc: Global,
    text: &str,
    domain: u32,
    roots: &Roots,
) -> Result<Option<Vec<RootRange>>, OutOfMemory>
    ensures { IfOk result (λ list. IsToldBy domain (buses_of roots.now) text.now list) }
{
    let ranges = ranges_of(alloc, text, domain, roots)?;
    let list = outermost(alloc, ranges.as_slice())?;
    if list.is_empty() || !is_good_host_list(roots, list.as_slice()) {
        return Ok(None);
    }
    Ok(Some(list))
}
