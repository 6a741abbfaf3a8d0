//! What told ranges hold behind new windows that are placed around a window.
ghost use Rattle.std.specs.Prelude.{◌≡◌, ◌++◌, [], IfOk, OnOk, IsTrue, IsFalse, List, map};
ghost use Rattle.std.specs.List.{Contains};
ghost use Rattle.pci_spec.specs.Decoded.{Range as DecodedRange};
ghost use Rattle.pci_base.specs.Ranges.{decoded_range_of};
ghost use Rattle.pci_first_fit.specs.Lines.{AreForwardRanges, AreLineRows, AreAdded};
ghost use Rattle.pci_grow.specs.Arounds.{AreRisingAtBothEnds};
ghost use Rattle.pci_grow.specs.Grounds.{ground_value, is_new_window, IsBehindItem, AreAlike};
ghost use Rattle.pci_grow.specs.Widest.{LiesInOne};

use crate::around::Around;
use crate::in_order::in_order;
use pci_base::memory::OutOfMemory;
use pci_base::range::Range;
use pci_base::space::Space;
use pci_base::window_kind::WindowKind;
use pci_first_fit::item::{Item, Part};
use pci_first_fit::lines::{Line, add_lines_behind};
use pci_function::record::Record;
use std::alloc::Allocator;

/// Where items are placed: around a window, and off what told ranges hold behind new windows.
#[derive(Clone, Copy)]
pub struct Ground<'b> {
    pub around: Around,
    pub records: &'b [Record],
    /// The ranges that a text tells of, by rising levels.
    pub lines: &'b [Line],
    pub class: WindowKind,
}

/// Whether an item is a new window.
fn is_window(part: Part) -> bool
    ensures { result ≡ is_new_window part }
{
    match part {
        Part::Window => true,
        Part::Bar(_) | Part::Rom => false,
    }
}

/// Whether something that is told can lie behind an item: that is so of new windows alone.
pub fn can_hold(ground: &Ground, item: &Item) -> bool
    ensures { IsFalse result → (held : List DecodedRange)
        → IsBehindItem (ground_value ground.now) item.now held → held ≡ [] }
{
    if ground.lines.is_empty() {
        return false;
    }
    is_window(item.part)
}

/// Adds what told ranges hold behind a new window of a function.
fn add_behind_bridge<A: Allocator>(
    out: &mut Vec<Range, A>,
    ground: &Ground,
    function: usize,
) -> Result<(), OutOfMemory>
    // those of a level are found by halving
    requires { AreLineRows ground.now.lines.now }
    ensures added { OnOk result ((i : Item) → (held : List DecodedRange) → i.function ≡ function
        → IsTrue (is_new_window i.part) → IsBehindItem (ground_value ground.now) i held
        → AreAdded out.old.items out.new.items held) }
    ensures forward { OnOk result (AreForwardRanges out.old.items → AreForwardRanges out.new.items) }
{
    if function >= ground.records.len() {
        return Ok(());
    }
    let Some(bridge) = &ground.records[function].bridge else {
        return Ok(());
    };
    add_lines_behind(out, ground.lines, bridge, Space::of(ground.class))?;
    Ok(())
}

/// Adds what told ranges hold behind an item.
fn add_behind<A: Allocator>(
    out: &mut Vec<Range, A>,
    ground: &Ground,
    item: &Item,
) -> Result<(), OutOfMemory>
    // those of a level are found by halving
    requires { AreLineRows ground.now.lines.now }
    ensures added { OnOk result ((held : List DecodedRange)
        → IsBehindItem (ground_value ground.now) item.now held
        → AreAdded out.old.items out.new.items held) }
    ensures forward { OnOk result (AreForwardRanges out.old.items → AreForwardRanges out.new.items) }
{
    if !is_window(item.part) {
        return Ok(());
    }
    add_behind_bridge(out, ground, item.function)?;
    Ok(())
}

/// What is taken for an item, in order: what told ranges hold behind it, too.
pub fn taken_for<A: Allocator + Copy>(
    alloc: A,
    ground: &Ground,
    taken: &[Range],
    item: &Item,
) -> Result<Vec<Range, A>, OutOfMemory>
    // those of a level are found by halving
    requires rows { AreLineRows ground.now.lines.now }
    requires listed { AreRisingAtBothEnds taken.now }
    ensures order { IfOk result (λ all. AreRisingAtBothEnds all.items) }
    // it is off what is taken
    ensures taken { IfOk result (λ all. (r : Range) → Contains taken.now r → LiesInOne all.items r) }
    ensures same { IfOk result (λ all. (held : List DecodedRange)
        → IsBehindItem (ground_value ground.now) item.now held
        → AreAlike (map decoded_range_of all.items) (held ++ map decoded_range_of taken.now)) }
{
    let mut all = Vec::new(alloc);
    add_behind(&mut all, ground, item)?;
    all.extend_from_slice(taken)?;
    let ordered = in_order(alloc, all)?;
    Ok(ordered)
}
