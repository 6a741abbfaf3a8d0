//! The lines of a function's BARs and of its expansion ROM.
ghost use Rattle.std.specs.Prelude.{◌≡◌, ◌++◌, OnOk};
ghost use Rattle.std.specs.String.{string_bytes};
ghost use Rattle.pci_spec.specs.Listing.{bar_line, rom_line, kind_text};
ghost use Rattle.pci_image.specs.Bars.{decoded_bar_of, decoded_kind_of};
ghost use Rattle.pci_image.specs.Roms.{decoded_rom_of};

use super::span::Span;
use crate::hex_text::push_byte;
use pci_base::range::Range;
use pci_base::space::Space;
use pci_image::bar::{Bar, BarKind};
use pci_image::rom::Rom;
use std::alloc::{AllocError, Allocator};

/// What a BAR maps: `io`, `mem32` or `mem64`, and `pref` where it is prefetchable.
#[derive(Clone, Copy)]
struct Mapping {
    kind: BarKind,
    prefetch: bool,
}

impl Mapping {
    /// The mapping in words.
    fn text(self) -> &'static str
        ensures { result.now ≡ kind_text (decoded_kind_of self.kind) self.prefetch }
    {
        match (self.kind, self.prefetch) {
            (BarKind::Io, false) => "io",
            (BarKind::Io, true) => "io pref",
            (BarKind::Mem32, false) => "mem32",
            (BarKind::Mem32, true) => "mem32 pref",
            (BarKind::Mem64, false) => "mem64",
            (BarKind::Mem64, true) => "mem64 pref",
        }
    }
}

/// The line of a BAR, as `bar 10 mem32 pref 00000000fe000000-00000000fe0fffff`.
#[derive(Clone, Copy)]
pub struct BarLine {
    reg: u8,
    mapping: Mapping,
    span: Span,
}

impl BarLine {
    ghost use Rattle.pci_listing.specs.RegionLines.{bar_line_text};

    /// The line of this BAR.
    pub fn of(bar: Bar) -> BarLine
        ensures { bar_line_text result ≡ bar_line (decoded_bar_of bar) }
    {
        let space = match bar.kind {
            BarKind::Io => Space::Io,
            BarKind::Mem32 | BarKind::Mem64 => Space::Mem,
        };
        let range = Range {
            first: bar.first,
            last: bar.last,
        };
        BarLine {
            reg: bar.reg,
            mapping: Mapping {
                kind: bar.kind,
                prefetch: bar.prefetch,
            },
            span: Span { space, range },
        }
    }

    /// Appends the line.
    pub fn push_to<A: Allocator>(self, text: &mut String<A>) -> Result<(), AllocError>
        ensures { OnOk result
            (string_bytes text.new ≡ string_bytes text.old ++ bar_line_text self) }
    {
        text.push_str("  bar ")?;
        push_byte(text, self.reg)?;
        text.push(' ')?;
        text.push_str(self.mapping.text())?;
        text.push(' ')?;
        self.span.push_to(text)?;
        text.push('\n')
    }
}

/// The line of a ROM, as `rom 30 off 00000000fe000000-00000000fe00ffff`.
#[derive(Clone, Copy)]
pub struct RomLine {
    reg: u8,
    on: bool,
    span: Span,
}

impl RomLine {
    ghost use Rattle.pci_listing.specs.RegionLines.{rom_line_text};

    /// The line of this ROM.
    pub fn of(rom: Rom) -> RomLine
        ensures { rom_line_text result ≡ rom_line (decoded_rom_of rom) }
    {
        let range = Range {
            first: rom.first,
            last: rom.last,
        };
        RomLine {
            reg: rom.reg,
            on: rom.on,
            span: Span {
                space: Space::Mem,
                range,
            },
        }
    }

    /// Appends the line.
    pub fn push_to<A: Allocator>(self, text: &mut String<A>) -> Result<(), AllocError>
        ensures { OnOk result
            (string_bytes text.new ≡ string_bytes text.old ++ rom_line_text self) }
    {
        text.push_str("  rom ")?;
        push_byte(text, self.reg)?;
        text.push_str(if self.on { " on " } else { " off " })?;
        self.span.push_to(text)?;
        text.push('\n')
    }
}
