//! The text of a list of all faults, with reasons.
ghost use Rattle.std.specs.Prelude.{◌≡◌, map, IfOk, OnOk};
ghost use Rattle.std.specs.String.{string_bytes};
ghost use Rattle.pci_spec.specs.Text.{IsDump};
ghost use Rattle.pci_spec.specs.Mark.{all_named};
ghost use Rattle.judge_spec.specs.Told.{IsTold};
ghost use Rattle.judge_spec.specs.FaultsText.{yes_line};
ghost use Rattle.pci_claims.specs.Values.{code_given_value, told_value};
ghost use Rattle.pci_claims.specs.ToldOn.{AreOnIn};
ghost use Rattle.pci_faults.specs.AllLines.{any_fault_value};
ghost use Rattle.pci_why.specs.Lists.{AreReasonedTold, IsReasonedTextOf};

use super::judged::Judged;
use super::off::push_off;
use super::room::no_rooms;
use super::why::push_why;
use pci_base::memory::OutOfMemory;
use pci_claims::told::ranges_on;
use pci_faults::any_fault::AnyFault;
use pci_faults::text::push_fault;
use std::alloc::{AllocError, Allocator};

/// Appends the line of each of an outline's faults of judging, and behind it what [`push_why`] tells of it.
fn push_reasoned<A: Allocator + Copy, B: Allocator>(
    alloc: A,
    text: &mut String<B>,
    judged: &Judged<'_, A>,
    on: &[bool],
    faults: &[AnyFault],
) -> Result<(), OutOfMemory>
    // its slots rise, so a block is found by halving
    requires rising { IsDump judged.now.probe.now }
    requires told { IsTold judged.now.told.now.ranges.now }
    requires on { AreOnIn (told_value judged.now.told.now) judged.now.outline.now on.now }
    ensures { OnOk result (AreReasonedTold (all_named judged.now.probe.now)
        (told_value judged.now.told.now) (code_given_value judged.now.given.now) judged.now.outline.now
        (map any_fault_value faults.now) (string_bytes text.old) (string_bytes text.new)) }
{
    let mut rooms = no_rooms(on);
    for fault in faults {
        push_fault(text, fault)?;
        push_why(alloc, text, &mut rooms, judged, fault)?;
    }
    Ok(())
}

/// The text of a list before any of its faults: `yes` where there is none.
fn begun<A: Allocator>(alloc: A, faults: &[AnyFault]) -> Result<String<A>, AllocError>
    ensures { IfOk result (λ text. string_bytes text ≡ yes_line (map any_fault_value faults.now)) }
{
    let mut text = String::new(alloc);
    if faults.is_empty() {
        text.push_str("yes\n")?;
    }
    Ok(text)
}

/// The text of a list of all faults of judging of an outline with reasons: a line for each, and behind it what
/// [`push_why`] tells of it, or `yes`; then a line for each BAR and each told range that is off.
pub fn reasoned_text<A: Allocator + Copy>(
    alloc: A,
    judged: &Judged<'_, A>,
    faults: &[AnyFault],
) -> Result<String<A>, OutOfMemory>
    // its slots rise, so a block is found by halving
    requires rising { IsDump judged.now.probe.now }
    // they are read of a text
    requires told { IsTold judged.now.told.now.ranges.now }
    ensures { IfOk result (λ text. IsReasonedTextOf (all_named judged.now.probe.now)
        (told_value judged.now.told.now) (code_given_value judged.now.given.now) judged.now.outline.now
        (map any_fault_value faults.now) (string_bytes text)) }
{
    let on = ranges_on(alloc, judged.told, judged.outline)?;
    let mut text = begun(alloc, faults)?;
    push_reasoned(alloc, &mut text, judged, &on, faults)?;
    push_off(alloc, &mut text, judged.outline, judged.told, &on)?;
    Ok(text)
}
