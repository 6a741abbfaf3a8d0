//! The parts with fixed addresses of a bridge: its legacy part and its palette part.
ghost use Rattle.std.specs.Prelude.{◌≡◌, ◌&&◌, ℕ, List, is_some};
ghost use Rattle.pci_spec.specs.Slot.{Slot as SlotValue};
ghost use Rattle.judge_spec.specs.Words as given;
ghost use Rattle.judge_spec.specs.Taken as taken;
ghost use Rattle.pci_model.specs.WordsValue.{words_value};
ghost use Rattle.pci_model.specs.FixedPartsValue.{fixed_value};

use super::words::Words;
use pci_base::image::Image;
use pci_base::space::Space;
use pci_function::profile::{VGA_ENABLE, controls_bridge, snoops_palette};
use pci_image::layout::Layout;

/// Which of them a function has that are given beside the system.
#[derive(Clone, Copy, Debug, PartialEq, Eq)]
pub struct FixedParts {
    /// It answers the addresses of VGA (Bridge 1.2, 3.2.5.18).
    pub legacy: bool,
    /// It listens to writes of the palette (PCI 3.0, 6.2.2).
    pub palette: bool,
}

/// Whether a function is a bridge that listens to writes of the palette.
fn has_palette(image: &Image) -> bool
    ensures { (slot : SlotValue) (probe : List ℕ) → result ≡ given.has_palette record
        { slot = slot; image = image.now.0; probe = probe } }
{
    Layout::of(image) == Some(Layout::Bridge) && snoops_palette(image)
}

/// Whether a function has a legacy part, and a word gives it beside the system.
fn is_legacy_given(image: &Image, words: Words) -> bool
    ensures { (slot : SlotValue) (probe : List ℕ) → result ≡ is_some (words_value words).vga && given.has_legacy record
        { slot = slot; image = image.now.0; probe = probe } }
{
    words.vga.is_some() && controls_bridge(image, VGA_ENABLE)
}

/// Whether a function has a palette part, and a word gives it beside the system.
fn is_palette_given(image: &Image, words: Words) -> bool
    ensures { (slot : SlotValue) (probe : List ℕ) → result ≡ words.snoop && given.has_palette record
        { slot = slot; image = image.now.0; probe = probe } }
{
    words.snoop && has_palette(image)
}

/// Which parts with fixed addresses of a function are given beside the system.
pub fn fixed_parts(image: &Image, words: Words) -> FixedParts
    ensures { (slot : SlotValue) (probe : List ℕ)
        → fixed_value result ≡ taken.fixed_parts_by (words_value words) record
        { slot = slot; image = image.now.0; probe = probe } }
{
    FixedParts {
        legacy: is_legacy_given(image, words),
        palette: is_palette_given(image, words),
    }
}

/// Whether one of these parts claims addresses, by Command. A palette part has ports alone.
pub fn has_open_part(fixed: FixedParts, command: u16) -> bool
    ensures { result ≡ taken.has_open_part (fixed_value fixed) command }
{
    (fixed.legacy && (Space::Io.is_on(command) || Space::Mem.is_on(command)))
        || (fixed.palette && Space::Io.is_on(command))
}
