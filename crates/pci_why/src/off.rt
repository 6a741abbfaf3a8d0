//! The lines of what is off: implemented BARs of a space that their function's Command doesn't enable, and told ranges that
//! their mark, Command or power leaves off.
ghost use Rattle.std.specs.Prelude.{◌≡◌, ◌≤◌, ◌++◌, map, OnOk};
ghost use Rattle.std.specs.List.{All, flat_map};
ghost use Rattle.std.specs.String.{string_bytes};
ghost use Rattle.pci_spec.specs.System.{System};
ghost use Rattle.pci_spec.specs.Why.{off_line};
ghost use Rattle.judge_spec.specs.Told.{IsTold, IsToldRange};
ghost use Rattle.judge_spec.specs.Why.{range_off_line, all_off_lines};
ghost use Rattle.pci_image.specs.Bars.{decoded_bar_of};
ghost use Rattle.pci_tree.specs.Trees.{HasTree};
ghost use Rattle.pci_claims.specs.Values.{told_value};
ghost use Rattle.pci_claims.specs.ToldOn.{AreOnIn};
ghost use Rattle.pci_claims.specs.Off.{off_value, off_part_line, HasOffLine};

use super::region_line::{RegionPlace, bar_name, push_place};
use super::told_line::push_told;
use pci_base::memory::OutOfMemory;
use pci_base::range::Range;
use pci_base::slot::Slot;
use pci_claims::off::{Off, all_off};
use pci_claims::told::Told;
use pci_dump::told_range::ToldRange;
use pci_image::bar::Bar;
use pci_tree::outline::Outline;
use std::alloc::{AllocError, Allocator};

/// Appends the line of a BAR, as `off 01:02.0 10 bar mem 0000000000000000-00000000000000ff 256`.
fn push_bar<A: Allocator>(text: &mut String<A>, slot: Slot, bar: Bar) -> Result<(), AllocError>
    requires { bar.first ≤ bar.last }
    ensures { OnOk result
        (string_bytes text.new ≡ string_bytes text.old ++ off_line slot (decoded_bar_of bar)) }
{
    let space = bar.kind.space();
    let range = Range {
        first: bar.first,
        last: bar.last,
    };
    let place = RegionPlace {
        slot,
        reg: bar.reg,
        space,
    };
    text.push_str("off")?;
    push_place(text, place, bar_name(space, bar.prefetch), range, "\n")
}

/// Appends the line of a told range, as
/// `off 01:02.0 +2 told mem 00000000e0080000-00000000e0080fff 4K ea0`.
fn push_range<A: Allocator>(
    text: &mut String<A>,
    register: u16,
    range: &ToldRange,
) -> Result<(), AllocError>
    requires { IsToldRange range.now }
    ensures { OnOk result (string_bytes text.new ≡ string_bytes text.old
        ++ range_off_line record { register = register; told = range.now }) }
{
    text.push_str("off")?;
    push_told(text, register, range)
}

/// Appends the line of either.
fn push_line<A: Allocator>(text: &mut String<A>, off: &Off<'_>) -> Result<(), AllocError>
    requires { HasOffLine off.now }
    ensures { OnOk result (string_bytes text.new
        ≡ string_bytes text.old ++ off_part_line off_line range_off_line (off_value off.now)) }
{
    match off {
        Off::Bar { slot, bar } => push_bar(text, *slot, *bar),
        Off::Told { register, told } => push_range(text, *register, told),
    }
}

/// Appends the lines of some.
fn push_lines<A: Allocator>(text: &mut String<A>, off: &[Off<'_>]) -> Result<(), AllocError>
    requires { All HasOffLine off.now }
    ensures { OnOk result (string_bytes text.new ≡ string_bytes text.old
        ++ flat_map (off_part_line off_line range_off_line) (map off_value off.now)) }
{
    for one in off {
        push_line(text, one)?;
    }
    Ok(())
}

/// Appends a line for each implemented BAR of an outline whose space its function's Command doesn't enable, by slot and
/// register, and behind those of a function one for each told range of its slot that is off.
pub fn push_off<A: Allocator, B: Allocator, C: Allocator>(
    alloc: A,
    text: &mut String<B>,
    outline: &Outline<C>,
    told: &Told<'_>,
    on: &[bool],
) -> Result<(), OutOfMemory>
    // they are read of a text
    requires told { IsTold told.now.ranges.now }
    requires on { AreOnIn (told_value told.now) outline.now on.now }
    ensures { OnOk result ((s : System) → HasTree outline.now s
        → string_bytes text.new ≡ string_bytes text.old ++ all_off_lines (told_value told.now) s) }
{
    let off = all_off(alloc, outline, told, on)?;
    push_lines(text, &off)?;
    Ok(())
}
