//! A block of a sizes text: nine lines, 408 bytes.
ghost use Rattle.std.specs.Prelude.{◌≡◌, ◌↔◌, ◌++◌, ◌∷◌, [], false, length, IsTrue};
ghost use Rattle.pci_spec.specs.Slot.{IsRising};
ghost use Rattle.pci_spec.specs.Form.{Fits};
ghost use Rattle.pci_spec.specs.SizesText.{IsSizesBlock, sized_slots, sizes_block_text};
ghost use Rattle.pci_spec.specs.SizesForm.{sizes_cells};
ghost use Rattle.pci_machine.specs.SizesFault.{IsNoBlockAfter};

use super::sizes::SizesBlock;
use super::sizes_line::lines_into;
use pci_base::slot::Slot;
use pci_dump::slot_text::slot_of;

/// How many bytes a block has.
pub(crate) const BLOCK_LEN: usize = 408;

/// Reads the block that a text is into `block`. False where it is none: `block` may hold parts of it then.
pub(crate) fn block_into(text: &[u8], block: &mut SizesBlock) -> bool
    requires { length text.now ≡ 408 }
    ensures yes { IsTrue result → IsSizesBlock block.new × (text.now ≡ sizes_block_text block.new) }
    ensures no { result ≡ false → Fits sizes_cells text.now → ⊥ }
{
    if text[7] != b'\n' || text[407] != b'\n' {
        return false;
    }
    block.slot = match slot_of(&text[0..7]) {
        None => return false,
        Some(slot) => slot,
    };
    lines_into(&text[8..407], &mut block.lines)
}

/// Whether a slot may stand after those of some blocks.
pub(crate) fn may_follow(blocks: &[SizesBlock], slot: Slot) -> bool
    requires { IsRising (sized_slots blocks.now) }
    ensures { IsTrue result ↔ IsRising (sized_slots blocks.now ++ slot ∷ []) }
{
    match blocks.last() {
        None => true,
        Some(last) => last.slot.number() < slot.number(),
    }
}

/// Reads the block that bytes are into `block`, where it may stand after some blocks. False where it may not, or where
/// they are none.
pub(crate) fn block_after(blocks: &[SizesBlock], bytes: &[u8], block: &mut SizesBlock) -> bool
    requires { IsRising (sized_slots blocks.now) }
    ensures yes { IsTrue result
        → IsSizesBlock block.new × (bytes.now ≡ sizes_block_text block.new)
        × IsRising (sized_slots (blocks.now ++ block.new ∷ [])) }
    ensures no { result ≡ false → IsNoBlockAfter blocks.now bytes.now }
{
    if bytes.len() != BLOCK_LEN {
        return false;
    }
    if !block_into(bytes, block) {
        return false;
    }
    may_follow(blocks, block.slot)
}
