//! The lines behind two regions that claim an address.
ghost use Rattle.std.specs.Prelude.{OnOk};
ghost use Rattle.std.specs.String.{string_bytes};
ghost use Rattle.pci_spec.specs.Fault.{named_regions};
ghost use Rattle.judge_spec.specs.Told.{IsTold};
ghost use Rattle.pci_base.specs.Space.{space_of};
ghost use Rattle.pci_claims.specs.Values.{code_given_value, told_value};
ghost use Rattle.pci_why.specs.Two.{AreTwoTold};

use super::bridge_line::push_ranges;
use super::judged::{Judged, TwoNames};
use super::named::{push_shown, region_named};
use pci_base::memory::OutOfMemory;
use pci_claims::gather::common;
use std::alloc::Allocator;

/// Appends two regions, each named by its slot and register, and each run of the addresses that are of both.
pub fn push_two<A: Allocator + Copy, B: Allocator>(
    alloc: A,
    text: &mut String<B>,
    judged: &Judged<'_, A>,
    two: &TwoNames,
) -> Result<(), OutOfMemory>
    // so that the addresses of each told range can be counted
    requires { IsTold judged.now.told.now.ranges.now }
    ensures { OnOk result (AreTwoTold (told_value judged.now.told.now)
        (code_given_value judged.now.given.now) judged.now.outline.now (space_of two.now.space)
        (named_regions two.now.first.slot two.now.first.register two.now.second.slot
        two.now.second.register)
        (string_bytes text.old) (string_bytes text.new)) }
{
    let Some(p) = region_named(alloc, judged, two.first_name())? else {
        return Ok(());
    };
    let Some(q) = region_named(alloc, judged, two.second_name())? else {
        return Ok(());
    };
    let shared = common(alloc, &p.addresses, &q.addresses)?;
    push_shown(text, judged.given, "first", two.space, &p.shown)?;
    push_shown(text, judged.given, "second", two.space, &q.shown)?;
    push_ranges(text, "shared", two.space, &shared)?;
    Ok(())
}
