//! The line of a bridge, and those of ranges.
ghost use Rattle.std.specs.Prelude.{◌≡◌, ◌≤◌, ◌++◌, map, OnOk};
ghost use Rattle.std.specs.List.{All, flat_map};
ghost use Rattle.std.specs.String.{string_bytes};
ghost use Rattle.pci_spec.specs.Listing.{on_text};
ghost use Rattle.pci_spec.specs.Why.{windows_text, range_line};
ghost use Rattle.pci_base.specs.Ranges.{decoded_range_of};
ghost use Rattle.pci_base.specs.Space.{space_of, is_on};
ghost use Rattle.pci_image.specs.Windows.{decoded_windows_of};
ghost use Rattle.pci_why.specs.Bridges.{bridge_start};

use super::region_line::push_range_line;
use pci_base::range::Range;
use pci_base::space::Space;
use pci_function::record::Record;
use pci_image::window::Windows;
use pci_listing::hex_text::push_slot;
use pci_listing::listing::bridge::push_held;
use std::alloc::{AllocError, Allocator};

/// Appends the windows that serve a region.
fn push_windows<A: Allocator>(
    text: &mut String<A>,
    windows: &Windows,
    space: Space,
    prefetch: bool,
) -> Result<(), AllocError>
    ensures { OnOk result (string_bytes text.new ≡ string_bytes text.old
        ++ windows_text (space_of space) prefetch (decoded_windows_of windows.now)) }
{
    match (space, prefetch) {
        (Space::Io, _) => {
            text.push_str("io ")?;
            push_held(text, Space::Io, windows.io)
        }
        (Space::Mem, false) => {
            text.push_str("mem ")?;
            push_held(text, Space::Mem, Some(windows.mem))
        }
        (Space::Mem, true) => {
            text.push_str("mem ")?;
            push_held(text, Space::Mem, Some(windows.mem))?;
            text.push_str(" pref ")?;
            push_held(text, Space::Mem, windows.pref)
        }
    }
}

/// `on` or `off`.
fn on_name(on: bool) -> &'static str
    ensures { result.now ≡ on_text on }
{
    if on { "on" } else { "off" }
}

/// Appends what the line of a bridge tells before its end, as
/// `bridge 00:01.0 off mem 00000000e0000000-00000000e00fffff`: whether its Command enables the space, and its windows
/// for a region.
pub fn push_bridge<A: Allocator>(
    text: &mut String<A>,
    function: &Record,
    windows: &Windows,
    space: Space,
    prefetch: bool,
) -> Result<(), AllocError>
    ensures { OnOk result (string_bytes text.new
        ≡ string_bytes text.old ++ bridge_start function.now.slot
        (is_on function.now.command (space_of space)) (space_of space) prefetch
        (decoded_windows_of windows.now)) }
{
    let on = on_name(space.is_on(function.command));
    text.push_str("  bridge")?;
    text.push_str(" ")?;
    push_slot(text, function.slot)?;
    text.push_str(" ")?;
    text.push_str(on)?;
    text.push_str(" ")?;
    push_windows(text, windows, space, prefetch)
}

/// Appends a line for each of some ranges, behind a word.
pub fn push_ranges<A: Allocator>(
    text: &mut String<A>,
    word: &'static str,
    space: Space,
    ranges: &[Range],
) -> Result<(), AllocError>
    // the line of a range tells how many addresses it has
    requires { All (λ r. r.first ≤ r.last) ranges.now }
    ensures { OnOk result (string_bytes text.new ≡ string_bytes text.old ++ flat_map
        (range_line word.now (space_of space)) (map decoded_range_of ranges.now)) }
{
    for range in ranges {
        push_range_line(text, word, space, *range)?;
    }
    Ok(())
}
