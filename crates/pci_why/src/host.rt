//! The lines behind a region outside the host's ranges.
ghost use Rattle.std.specs.Prelude.{◌≡◌, ◌++◌, ◌∷◌, [], map, IfOk, MatchOption, OnOk};
ghost use Rattle.std.specs.String.{string_bytes};
ghost use Rattle.pci_spec.specs.Listing.{range_text};
ghost use Rattle.pci_spec.specs.Fault.{named_region};
ghost use Rattle.pci_base.specs.Ranges.{decoded_range_of};
ghost use Rattle.pci_base.specs.Space.{space_of};
ghost use Rattle.judge_spec.specs.Told.{IsTold};
ghost use Rattle.judge_spec.specs.Why.{ranges_for, ranges_words, host_line};
ghost use Rattle.pci_claims.specs.Values.{host_value, code_given_value, told_value};
ghost use Rattle.pci_why.specs.Lines.{spaced};
ghost use Rattle.pci_why.specs.Hosts.{IsRootAbove, IsNowhere, IsOutsideTold};

use super::judged::{Judged, RegionName};
use super::named::{push_shown, region_named};
use pci_base::memory::OutOfMemory;
use pci_base::range::{Range, RootRange};
use pci_base::slot::Slot;
use pci_base::space::Space;
use pci_claims::outside::root_above;
use pci_claims::sent::{is_for, ranges_said};
use pci_listing::hex_text::end_line;
use pci_listing::listing::span::Span;
use pci_tree::outline::Outline;
use std::alloc::{AllocError, Allocator};
use std::fmt::Write;

/// The ranges of a list that are for a root bus, in their order.
fn ranges_for<A: Allocator>(
    alloc: A,
    ranges: &[RootRange],
    root: u8,
) -> Result<Vec<Range, A>, OutOfMemory>
    ensures { IfOk result
        (λ v. map decoded_range_of v.items ≡ ranges_for root (map host_value ranges.now)) }
{
    let mut out = Vec::new(alloc);
    for range in ranges {
        if is_for(range.root, root) {
            out.push(range.range)?;
        }
    }
    Ok(out)
}

/// Appends a range behind a space.
fn push_span<A: Allocator>(
    text: &mut String<A>,
    space: Space,
    range: Range,
) -> Result<(), AllocError>
    ensures { OnOk result (string_bytes text.new ≡ string_bytes text.old
        ++ spaced (range_text (space_of space) (decoded_range_of range) ∷ [])) }
{
    text.push_str(" ")?;
    let span = Span { space, range };
    span.push_to(text)
}

/// Appends ranges, each behind a space, or ` none`.
fn push_spans<A: Allocator>(
    text: &mut String<A>,
    space: Space,
    ranges: &[Range],
) -> Result<(), AllocError>
    ensures { OnOk result (string_bytes text.new ≡ string_bytes text.old
        ++ spaced (ranges_words (space_of space) (map decoded_range_of ranges.now))) }
{
    if ranges.is_empty() {
        return text.push_str(" none");
    }
    for range in ranges {
        push_span(text, space, *range)?;
    }
    Ok(())
}

/// Appends the line of what the host sends of a space to a root bus, as
/// `host mem 00000000e0000000-00000000efffffff`, or `host io none`.
fn push_host<A: Allocator>(
    text: &mut String<A>,
    space: Space,
    ranges: &[Range],
) -> Result<(), AllocError>
    ensures { OnOk result (string_bytes text.new
        ≡ string_bytes text.old ++ host_line (space_of space) (map decoded_range_of ranges.now)) }
{
    write!(text, "  host {space}")?;
    push_spans(text, space, ranges)?;
    end_line(text)
}

/// The root bus above the function at a slot.
fn root_of<A: Allocator + Copy>(outline: &Outline<A>, slot: Slot) -> Option<u8>
    ensures { MatchOption result (IsNowhere outline.now slot) (IsRootAbove outline.now slot) }
{
    let bridges = outline.path(slot)?;
    Some(root_above(bridges.as_slice(), slot.bus()))
}

/// Appends what a region outside the host's ranges needs, and what the host sends to the root above it.
pub fn push_outside<A: Allocator + Copy, B: Allocator>(
    alloc: A,
    text: &mut String<B>,
    judged: &Judged<'_, A>,
    name: RegionName,
) -> Result<(), OutOfMemory>
    // so that the addresses of each told range can be counted
    requires { IsTold judged.now.told.now.ranges.now }
    ensures { OnOk result (IsOutsideTold (told_value judged.now.told.now)
        (code_given_value judged.now.given.now) judged.now.outline.now
        (named_region name.slot name.register) (space_of name.space)
        (string_bytes text.old) (string_bytes text.new)) }
{
    let (slot, space) = (name.slot, name.space);
    let Some(region) = region_named(alloc, judged, name)? else {
        return Ok(());
    };
    let Some(root) = root_of(judged.outline, slot) else {
        return Ok(());
    };
    let Some(said) = ranges_said(judged.given, space) else {
        return Ok(());
    };
    let ranges = ranges_for(alloc, said, root)?;
    push_shown(text, judged.given, "needs", space, &region.shown)?;
    push_host(text, space, &ranges)?;
    Ok(())
}
