//! Whether a region is a BAR of 64 bits.
ghost use Rattle.std.specs.Prelude.{◌↔◌, IsTrue};
ghost use Rattle.std.specs.List.{Any};
ghost use Rattle.pci_why.specs.Wide.{IsWideAt, IsWideIn};

use pci_function::record::Record;
use pci_image::bar::{Bar, BarKind};
use pci_tree::region::{Part, Region};

/// Whether a BAR is that of a register, and has 64 bits.
fn is_wide_at(bar: Bar, reg: u8) -> bool
    ensures { IsTrue result ↔ IsWideAt reg bar }
{
    bar.reg == reg && bar.kind == BarKind::Mem64
}

/// Whether a BAR of 64 bits is among some at a register.
fn has_wide_bar(bars: &[Bar], reg: u8) -> bool
    ensures { IsTrue result ↔ Any (IsWideAt reg) bars.now }
{
    for bar in bars {
        if is_wide_at(*bar, reg) {
            return true;
        }
    }
    false
}

/// Whether a region of a function is a BAR of 64 bits.
pub fn is_wide(function: &Record, region: &Region) -> bool
    ensures { IsTrue result ↔ IsWideIn function.now region.now }
{
    match region.part {
        Part::Rom | Part::Window => false,
        Part::Bar => has_wide_bar(function.bars.as_slice(), region.reg),
    }
}
