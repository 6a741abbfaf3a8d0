//! Whether a bridge of the class of subtractive decoding is alone on its bus (PCI 3.0, 6.2.1 and appendix D).
ghost use Rattle.std.specs.Prelude.{◌≡◌, ℕ, List};
ghost use Rattle.std.specs.List.{list_any};
ghost use Rattle.pci_spec.specs.System.{system_of};
ghost use Rattle.pci_spec.specs.Text.{Block as BlockValue, IsDump, slots_of};
ghost use Rattle.judge_spec.specs.Words as given;
ghost use Rattle.pci_model.specs.Subtractive.{is_rival_block, unclaimed_aside_of};
ghost use Rattle.pci_model.specs.WordsValue.{words_value};

use super::bytes::make_positive;
use super::listed_behind::first_from;
use super::words::Words;
use pci_base::image::Image;
use pci_base::slot::Slot;
use pci_dump::block::Block;
use pci_function::profile::is_subtractive_bridge;

/// Whether a block is of another function of the class of subtractive decoding on the bus of a slot.
fn is_rival(slot: Slot, other: &Block) -> bool
    ensures { result ≡ is_rival_block slot other.now }
{
    is_subtractive_bridge(&other.image) && other.slot.bus() == slot.bus() && other.slot != slot
}

/// Whether a dump lists such a function.
fn has_rival(blocks: &[Block], slot: Slot) -> bool
    // the functions of a bus stand together, and are found by halving
    requires { IsDump blocks.now }
    ensures { result ≡ list_any (is_rival_block slot) blocks.now }
{
    let bus = slot.bus();
    for i in first_from(blocks, bus)..blocks.len() {
        let other = &blocks[i];
        if bus < other.slot.bus() {
            return false;
        }
        if is_rival(slot, other) {
            return true;
        }
    }
    false
}

/// Whether a function is a bridge of this class, and the only one on its bus.
pub fn is_alone(blocks: &[Block], slot: Slot, image: &Image) -> bool
    requires { IsDump blocks.now }
    // of any read backs
    ensures { (read_backs : List BlockValue) (probe : List ℕ)
        → slots_of blocks.now ≡ slots_of read_backs
        → result ≡ given.is_alone (system_of blocks.now read_backs) record
        { slot = slot; image = image.now.0; probe = probe } }
{
    is_subtractive_bridge(image) && !has_rival(blocks, slot)
}

/// Makes a bridge that is alone so decode its windows alone, where what it takes is given beside the system.
pub fn unclaimed_aside(slot: Slot, image: &mut Image, blocks: &[Block], words: Words)
    requires { IsDump blocks.now }
    ensures { (read_backs : List BlockValue) (probe : List ℕ)
        → slots_of blocks.now ≡ slots_of read_backs
        → record { slot = slot; image = image.new.0; probe = probe }
        ≡ unclaimed_aside_of (words_value words) (system_of blocks.now read_backs) record
        { slot = slot; image = image.old.0; probe = probe } }
{
    if words.unclaimed && is_alone(blocks, slot, image) {
        make_positive(image);
    }
}
