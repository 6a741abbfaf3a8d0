//! The lines of a bridge: its bus numbers and its windows.
ghost use Rattle.std.specs.Prelude.{◌≡◌, ◌++◌, OnOk};
ghost use Rattle.std.specs.String.{string_bytes};
ghost use Rattle.pci_spec.specs.Listing.{window_text, window_line};
ghost use Rattle.pci_base.specs.WindowKinds.{kind_value};
ghost use Rattle.pci_base.specs.Space.{space_of};

use super::span::Span;
use crate::hex_text::{end_line, push_byte};
use pci_base::space::Space;
use pci_base::window_kind::WindowKind;
use pci_image::window::Window;
use std::alloc::{AllocError, Allocator};

/// The line of a bridge's primary, secondary and subordinate bus, as `bus 00 01 01`.
#[derive(Clone, Copy)]
pub struct BusLine {
    pub primary: u8,
    pub secondary: u8,
    pub subordinate: u8,
}

impl BusLine {
    ghost use Rattle.pci_listing.specs.BridgeLines.{bus_line_text};

    /// Appends the line.
    pub fn push_to<A: Allocator>(self, text: &mut String<A>) -> Result<(), AllocError>
        ensures { OnOk result
            (string_bytes text.new ≡ string_bytes text.old ++ bus_line_text self) }
    {
        text.push_str("  bus ")?;
        push_byte(text, self.primary)?;
        text.push_str(" ")?;
        push_byte(text, self.secondary)?;
        text.push_str(" ")?;
        push_byte(text, self.subordinate)?;
        end_line(text)
    }
}

/// Appends what a window holds: `none` where it isn't implemented, `closed`, or its range.
pub fn push_held<A: Allocator>(
    text: &mut String<A>,
    space: Space,
    window: Option<Window>,
) -> Result<(), AllocError>
    ensures { OnOk result
        (string_bytes text.new ≡ string_bytes text.old ++ window_text (space_of space) window) }
{
    match window {
        None => text.push_str("none"),
        Some(window) => match window.range() {
            None => text.push_str("closed"),
            Some(range) => {
                let span = Span { space, range };
                span.push_to(text)
            }
        },
    }
}

/// Appends the line of a window, as `window 20 mem closed`.
pub fn push_window<A: Allocator>(
    text: &mut String<A>,
    kind: WindowKind,
    window: Option<Window>,
) -> Result<(), AllocError>
    ensures { OnOk result
        (string_bytes text.new ≡ string_bytes text.old ++ window_line (kind_value kind) window) }
{
    text.push_str("  window ")?;
    push_byte(text, kind.register())?;
    text.push_str(" ")?;
    text.push_str(kind.name())?;
    text.push_str(" ")?;
    push_held(text, Space::of(kind), window)?;
    end_line(text)
}
