//! What is off: BARs that are implemented, of a space that their function's Command doesn't enable, and told ranges that
//! aren't on.
ghost use Rattle.std.specs.Prelude.{◌≡◌, ◌++◌, map, OnOk};
ghost use Rattle.std.specs.List.{All, flat_map};
ghost use Rattle.std.specs.String.{string_bytes};
ghost use Rattle.pci_spec.specs.System.{System};
ghost use Rattle.pci_tree.specs.Trees.{HasTree};
ghost use Rattle.judge_spec.specs.MapText.{map_off_line, map_told_line, map_off_text};
ghost use Rattle.pci_image.specs.Bars.{decoded_bar_of};
ghost use Rattle.pci_claims.specs.Values.{told_value};
ghost use Rattle.pci_claims.specs.Off.{off_value, off_part_line, HasOffLine};
ghost use Rattle.pci_map.specs.Off.{section};
ghost use Rattle.pci_map.specs.Mapped.{AreToldOn};

use super::line::{push_region_line, push_told_line};
use super::mapped::Mapped;
use super::seat::ToldRegion;
use pci_base::memory::OutOfMemory;
use pci_base::slot::Slot;
use pci_claims::off::{Off, all_off};
use pci_image::bar::Bar;
use pci_tree::region::{Part, Region};
use std::alloc::{AllocError, Allocator};

/// Appends the line of a BAR.
fn push_bar<A: Allocator>(text: &mut String<A>, slot: Slot, bar: Bar) -> Result<(), AllocError>
    ensures { OnOk result
        (string_bytes text.new ≡ string_bytes text.old ++ map_off_line slot (decoded_bar_of bar)) }
{
    let region = Region {
        slot,
        reg: bar.reg,
        part: Part::Bar,
        prefetch: bar.prefetch,
        first: bar.first,
        last: bar.last,
    };
    push_region_line(text, 1, bar.kind.space(), &region, false)
}

/// Appends the line of a BAR or of a told range.
fn push_line<A: Allocator>(text: &mut String<A>, off: &Off<'_>) -> Result<(), AllocError>
    requires { HasOffLine off.now }
    ensures { OnOk result (string_bytes text.new ≡ string_bytes text.old
        ++ off_part_line map_off_line (map_told_line 1) (off_value off.now)) }
{
    match off {
        Off::Bar { slot, bar } => push_bar(text, *slot, *bar),
        Off::Told { register, told } => {
            let register = *register;
            push_told_line(text, 1, &ToldRegion { register, told })
        }
    }
}

/// Appends the lines of some.
fn push_lines<A: Allocator>(text: &mut String<A>, off: &[Off<'_>]) -> Result<(), AllocError>
    requires { All HasOffLine off.now }
    ensures { OnOk result (string_bytes text.new ≡ string_bytes text.old
        ++ flat_map (off_part_line map_off_line (map_told_line 1)) (map off_value off.now)) }
{
    for one in off {
        push_line(text, one)?;
    }
    Ok(())
}

/// Appends a text below a heading, if there is any.
pub fn push_section<A: Allocator>(
    text: &mut String<A>,
    heading: &'static str,
    below: &str,
) -> Result<(), AllocError>
    ensures { OnOk result
        (string_bytes text.new ≡ string_bytes text.old ++ section heading.now below.now) }
{
    if below.is_empty() {
        return Ok(());
    }
    text.push_str(heading)?;
    text.push_str("\n")?;
    text.push_str(below)
}

/// Appends a line for each implemented BAR of an outline whose space its function's Command doesn't enable, and for each
/// told range of a function that isn't on, by slot and register, below the heading `off`.
pub fn push_off<A: Allocator + Copy, B: Allocator>(
    alloc: A,
    text: &mut String<B>,
    mapped: &Mapped<'_, '_, A>,
) -> Result<(), OutOfMemory>
    requires { AreToldOn (told_value mapped.now.told) mapped.now.outline.now mapped.now.on.now }
    ensures { OnOk result ((s : System) → HasTree mapped.now.outline.now s
        → string_bytes text.new ≡ string_bytes text.old ++ map_off_text (told_value mapped.now.told) s) }
{
    let off = all_off(alloc, mapped.outline, &mapped.told, mapped.on)?;
    let mut below = String::new(alloc);
    push_lines(&mut below, &off)?;
    push_section(text, "off", below.as_str())?;
    Ok(())
}
