//! What is off: implemented BARs of a space that their function's Command doesn't enable, and told ranges that aren't on.
ghost use Rattle.std.specs.Prelude.{◌≡◌, ◌<◌, ◌≤◌, ◌++◌, [], ◌∷◌, length, map, IfOk, OnOk};
ghost use Rattle.std.specs.List.{All, filter};
ghost use Rattle.pci_spec.specs.System.{System};
ghost use Rattle.judge_spec.specs.Told.{IsTold, IsToldRange};
ghost use Rattle.judge_spec.specs.ToldClaims.{is_range_on};
ghost use Rattle.judge_spec.specs.ToldRegion.{off_ranges};
ghost use Rattle.pci_image.specs.Bars.{decoded_bar_of};
ghost use Rattle.pci_tree.specs.Trees.{HasTree};
ghost use Rattle.pci_claims.specs.Values.{told_value};
ghost use Rattle.pci_claims.specs.ToldOn.{AreOnIn};
ghost use Rattle.pci_claims.specs.Off.{OffBar, OffTold, all_off_parts, off_value, HasOffLine, is_bar_off, off_range_parts};

use super::told::Told;
use pci_base::memory::OutOfMemory;
use pci_base::slot::Slot;
use pci_dump::told_list::first_of_slot;
use pci_dump::told_range::ToldRange;
use pci_image::bar::Bar;
use pci_tree::outline::Outline;
use std::alloc::Allocator;
use std::slice;

/// A BAR or a told range that is off.
#[derive(Clone, Copy, Debug)]
pub enum Off<'a> {
    /// A BAR of the function at a slot.
    Bar { slot: Slot, bar: Bar },
    /// A told range; its register is 256 and its index among all told ranges.
    Told { register: u16, told: &'a ToldRange },
}

/// Adds one.
fn add<'a, A: Allocator>(off: &mut Vec<Off<'a>, A>, part: &Off<'a>) -> Result<(), OutOfMemory>
    ensures { OnOk result (off.new.items ≡ off.old.items ++ part.now ∷ []) }
{
    // the borrow checker has no rule for a push by value of what holds a slot beside a reference
    off.extend_from_slice(slice::from_ref(part))?;
    Ok(())
}

/// Adds the BARs of a function that are off.
fn add_bars<A: Allocator>(
    off: &mut Vec<Off<'_>, A>,
    slot: Slot,
    command: u16,
    bars: &[Bar],
) -> Result<(), OutOfMemory>
    requires some { All (λ b. b.first ≤ b.last) bars.now }
    requires lines { All HasOffLine off.old.items }
    ensures parts { OnOk result (map off_value off.new.items ≡ map off_value off.old.items
        ++ map (OffBar slot) (filter (is_bar_off command) (map decoded_bar_of bars.now))) }
    ensures lines { OnOk result (All HasOffLine off.new.items) }
{
    for bar in bars {
        if !bar.kind.space().is_on(command) {
            add(off, &Off::Bar { slot, bar: *bar })?;
        }
    }
    Ok(())
}

/// Adds a told range, where it isn't on.
fn add_range<'a, A: Allocator>(
    off: &mut Vec<Off<'a>, A>,
    register: u16,
    told: &'a ToldRange,
    on: bool,
) -> Result<(), OutOfMemory>
    requires low { 256 ≤ register }
    requires high { register < 8192 }
    requires told { IsToldRange told.now }
    requires lines { All HasOffLine off.old.items }
    ensures parts { OnOk result (map off_value off.new.items ≡ map off_value off.old.items
        ++ off_range_parts record { register = register; told = told.now } on) }
    ensures lines { OnOk result (All HasOffLine off.new.items) }
{
    if on {
        return Ok(());
    }
    add(off, &Off::Told { register, told })
}

/// Adds the told ranges of the function at a slot that aren't on.
fn add_ranges<'a, A: Allocator>(
    off: &mut Vec<Off<'a>, A>,
    told: &Told<'a>,
    on: &[bool],
    slot: Slot,
) -> Result<(), OutOfMemory>
    // they stand by slot, so those of one stand in a row
    requires told { IsTold told.now.ranges.now }
    requires on { length on.now ≡ length told.now.ranges.now }
    requires lines { All HasOffLine off.old.items }
    ensures parts { OnOk result ((s : System)
        → on.now ≡ map (is_range_on (told_value told.now) s) told.now.ranges.now
        → map off_value off.new.items ≡ map off_value off.old.items
        ++ map OffTold (off_ranges (told_value told.now) s slot)) }
    ensures lines { OnOk result (All HasOffLine off.new.items) }
{
    let ranges = told.ranges;
    for i in first_of_slot(ranges, slot)..ranges.len() {
        let range = &ranges[i];
        if range.slot != slot {
            return Ok(());
        }
        add_range(off, 256 + i as u16, range, on[i])?;
    }
    Ok(())
}

/// The BARs of an outline of a space that their function's Command doesn't enable, by slot and register, and behind those
/// of a function the told ranges of its slot that aren't on.
pub fn all_off<'a, A: Allocator, B: Allocator>(
    alloc: A,
    outline: &Outline<B>,
    told: &Told<'a>,
    on: &[bool],
) -> Result<Vec<Off<'a>, A>, OutOfMemory>
    // they are read of a text
    requires told { IsTold told.now.ranges.now }
    requires on { AreOnIn (told_value told.now) outline.now on.now }
    ensures parts { IfOk result (λ v. (s : System) → HasTree outline.now s
        → map off_value v.items ≡ all_off_parts (told_value told.now) s) }
    // so that a line can tell how many addresses each has
    ensures lines { IfOk result (λ v. All HasOffLine v.items) }
{
    let mut off = Vec::new(alloc);
    for function in outline.records() {
        let slot = function.slot;
        add_bars(&mut off, slot, function.command, function.bars.as_slice())?;
        add_ranges(&mut off, told, on, slot)?;
    }
    Ok(off)
}
