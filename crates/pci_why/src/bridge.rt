//! The lines behind an unreached region.
ghost use Rattle.std.specs.Prelude.{◌≡◌, ◌++◌, IfOk, OnOk};
ghost use Rattle.std.specs.String.{string_bytes};
ghost use Rattle.pci_spec.specs.Fault.{named_region};
ghost use Rattle.judge_spec.specs.Told.{IsTold};
ghost use Rattle.pci_base.specs.Space.{space_of};
ghost use Rattle.pci_base.specs.WindowKinds.{kind_value};
ghost use Rattle.pci_function.specs.Values.{record_value};
ghost use Rattle.pci_tree.specs.Ranges.{IsCanonical};
ghost use Rattle.pci_tree.specs.Reaches.{HasSpans};
ghost use Rattle.pci_claims.specs.Values.{code_given_value, told_value};
ghost use Rattle.pci_why.specs.Bridges.{line_of_bridge, IsMissed, IsUnreachedTold};

use super::bridge_line::{push_bridge, push_ranges};
use super::isa::push_isa_word;
use super::judged::{Judged, RegionName};
use super::legacy::push_legacy_word;
use super::missed::without;
use super::named::{push_shown, region_named};
use super::unclaimed::push_unclaimed_word;
use pci_base::memory::OutOfMemory;
use pci_base::range::Range;
use pci_base::slot::Slot;
use pci_base::space::Space;
use pci_base::window_kind::WindowKind;
use pci_claims::given::Given;
use pci_claims::passed::passed_with;
use pci_function::record::Record;
use pci_listing::hex_text::end_line;
use pci_tree::bus::record_at;
use std::alloc::{AllocError, Allocator};

/// Appends the line of a bridge, as `bridge 00:01.0 on mem 00000000e0000000-00000000e00fffff unclaimed vga`. Of another
/// function nothing.
fn push_bridge_line<A: Allocator>(
    text: &mut String<A>,
    given: &Given<'_>,
    function: &Record,
    space: Space,
    prefetch: bool,
) -> Result<(), AllocError>
    ensures { OnOk result (string_bytes text.new ≡ string_bytes text.old
        ++ line_of_bridge (code_given_value given.now) (record_value function.now) (space_of space)
        prefetch) }
{
    let Some(bridge) = function.bridge else {
        return Ok(());
    };
    push_bridge(text, function, &bridge.windows, space, prefetch)?;
    push_isa_word(text, given, space, function.slot)?;
    push_unclaimed_word(text, given, function.slot)?;
    push_legacy_word(text, given, function.slot)?;
    end_line(text)
}

/// The runs of the addresses of a region that a bridge doesn't pass.
fn missed_by<A: Allocator + Copy>(
    alloc: A,
    given: &Given<'_>,
    function: &Record,
    kind: WindowKind,
    addresses: &[Range],
) -> Result<Vec<Range, A>, OutOfMemory>
    // of an empty window no address could be told
    requires spans { HasSpans function.now }
    requires canonical { IsCanonical addresses.now }
    ensures { IfOk result (λ v. IsMissed (code_given_value given.now) function.now (kind_value kind)
        addresses.now v.items) }
{
    let passed = passed_with(alloc, given, function, kind)?;
    without(alloc, addresses, passed.as_slice())
}

/// Appends what a region that isn't reached needs, and what of it a bridge on the way misses.
pub fn push_unreached<A: Allocator + Copy, B: Allocator>(
    alloc: A,
    text: &mut String<B>,
    judged: &Judged<'_, A>,
    name: RegionName,
    bridge: Slot,
) -> Result<(), OutOfMemory>
    // so that the addresses of each told range can be counted
    requires { IsTold judged.now.told.now.ranges.now }
    ensures { OnOk result (IsUnreachedTold (told_value judged.now.told.now)
        (code_given_value judged.now.given.now) judged.now.outline.now (record {
          region = named_region name.slot name.register;
          space = space_of name.space;
          bridge = bridge;
        })
        (string_bytes text.old) (string_bytes text.new)) }
{
    let given = judged.given;
    let space = name.space;
    let Some(region) = region_named(alloc, judged, name)? else {
        return Ok(());
    };
    let Some(function) = record_at(judged.outline.records(), bridge) else {
        return Ok(());
    };
    let prefetch = region.shown.is_prefetchable();
    let kind = space.kind(prefetch);
    let missed = missed_by(alloc, given, function, kind, &region.addresses)?;
    push_shown(text, given, "needs", space, &region.shown)?;
    push_bridge_line(text, given, function, space, prefetch)?;
    push_ranges(text, "missed", space, &missed)?;
    Ok(())
}
