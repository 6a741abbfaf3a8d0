//! The bridges with legacy parts, with palette parts and with ISA Enable, by their registers and a user's words (Bridge
//! 1.2, 3.2.5.18; PCI 3.0, 6.2.2).
ghost use Rattle.std.specs.Prelude.{◌≡◌, List, map, Some, IfOk};
ghost use Rattle.std.specs.Option.{option_map};
ghost use Rattle.pci_spec.specs.Number.{has_bit};
ghost use Rattle.pci_spec.specs.Header.{bridge_control};
ghost use Rattle.pci_spec.specs.Text.{Block as BlockValue, slots_of};
ghost use Rattle.pci_spec.specs.System.{system_of};
ghost use Rattle.judge_spec.specs.Words.{is_wide_by, has_isa_enable, has_legacy, has_palette, isa_bridges, legacy_bridge, legacy_bridges, palette_bridges, palette_word};
ghost use Rattle.pci_model.specs.WordsValue.{vga_value};
ghost use Rattle.pci_claims.specs.Values.{legacy_value};
ghost use Rattle.pci_claims.specs.Vga.{function_without_probe};

use super::given::LegacyBridge;
use pci_base::image::Image;
use pci_base::memory::OutOfMemory;
use pci_base::offset::BRIDGE_CONTROL;
use pci_base::slot::Slot;
use pci_dump::block::Block;
use pci_dump::dump::Dump;
use pci_function::profile::{ISA_ENABLE, VGA_ENABLE, controls_bridge, snoops_palette};
use pci_image::layout::Layout;
use pci_model::words::VgaWord;
use std::alloc::Allocator;

/// VGA 16-bit Decode, of Bridge Control.
const VGA_16_BIT_DECODE: u8 = 4;

/// Whether the legacy part of a bridge decodes 16 bits.
fn is_wide(bridge: &Image, word: VgaWord) -> bool
    ensures { result ≡ is_wide_by (vga_value word)
        (has_bit (bridge_control bridge.now.0) VGA_16_BIT_DECODE) }
{
    match word {
        VgaWord::Vga => bridge.u16(BRIDGE_CONTROL) >> VGA_16_BIT_DECODE & 1 == 1,
        VgaWord::Vga16 => true,
    }
}

/// The slot of a bridge, and how its legacy part or its palette part decodes.
fn decoding(block: &Block, word: VgaWord) -> LegacyBridge
    ensures { legacy_value result ≡ legacy_bridge (vga_value word) (function_without_probe block.now) }
{
    LegacyBridge {
        slot: block.slot,
        is_wide: is_wide(&block.image, word),
    }
}

/// Whether a function is a bridge with VGA Enable.
fn has_legacy(block: &Block) -> bool
    ensures { result ≡ has_legacy (function_without_probe block.now) }
{
    controls_bridge(&block.image, VGA_ENABLE)
}

/// The bridges of a dump with legacy parts, by slot: those with VGA Enable.
pub fn legacy_bridges<A: Allocator, B: Allocator>(
    alloc: A,
    dump: &Dump<B>,
    word: VgaWord,
) -> Result<Vec<LegacyBridge, A>, OutOfMemory>
    // of any read backs
    ensures { IfOk result (λ v. (probe : List BlockValue) → slots_of dump.now ≡ slots_of probe
        → map legacy_value v.items ≡ legacy_bridges (vga_value word) (system_of dump.now probe)) }
{
    let mut out = Vec::new(alloc);
    for block in dump.blocks() {
        if has_legacy(block) {
            out.push(decoding(block, word))?;
        }
    }
    Ok(out)
}

/// Whether a function is a bridge that listens to writes of the palette: VGA Palette Snoop of its Command is set.
fn has_palette(block: &Block) -> bool
    ensures { result ≡ has_palette (function_without_probe block.now) }
{
    Layout::of(&block.image) == Some(Layout::Bridge) && snoops_palette(&block.image)
}

/// By which word a palette part decodes: as Bridge Control says, where there is none.
fn palette_word(word: Option<VgaWord>) -> VgaWord
    ensures { vga_value result ≡ palette_word (option_map vga_value word) }
{
    word.unwrap_or(VgaWord::Vga)
}

/// The bridges of a dump with palette parts, by slot: those with VGA Palette Snoop.
pub fn palette_bridges<A: Allocator, B: Allocator>(
    alloc: A,
    dump: &Dump<B>,
    word: Option<VgaWord>,
) -> Result<Vec<LegacyBridge, A>, OutOfMemory>
    // of any read backs
    ensures { IfOk result (λ v. (probe : List BlockValue) → slots_of dump.now ≡ slots_of probe
        → map legacy_value v.items
        ≡ palette_bridges (option_map vga_value word) (system_of dump.now probe)) }
{
    let word = palette_word(word);
    let mut out = Vec::new(alloc);
    for block in dump.blocks() {
        if has_palette(block) {
            out.push(decoding(block, word))?;
        }
    }
    Ok(out)
}

/// Whether a function is a bridge with ISA Enable.
fn has_isa_enable(block: &Block) -> bool
    ensures { result ≡ has_isa_enable (function_without_probe block.now) }
{
    controls_bridge(&block.image, ISA_ENABLE)
}

/// The bridges of a dump with ISA Enable, by slot.
pub fn isa_bridges<A: Allocator, B: Allocator>(
    alloc: A,
    dump: &Dump<B>,
) -> Result<Vec<Slot, A>, OutOfMemory>
    // of any read backs
    ensures { IfOk result (λ v. (probe : List BlockValue) → slots_of dump.now ≡ slots_of probe
        → v.items ≡ isa_bridges (system_of dump.now probe)) }
{
    let mut out = Vec::new(alloc);
    for block in dump.blocks() {
        if has_isa_enable(block) {
            out.push(block.slot)?;
        }
    }
    Ok(out)
}
