//! CardBus bridges: functions of header layout 2.
ghost use Rattle.std.specs.Prelude.{◌≡◌, ◌==◌};
ghost use Rattle.pci_spec.specs.Slot.{Slot as SlotValue};
ghost use Rattle.pci_spec.specs.Header.{layout};
ghost use Rattle.judge_spec.specs.Taken as taken;
ghost use Rattle.pci_model.specs.WordsValue.{words_value};

use super::bytes::{clear_registers, make_bare_device};
use super::words::Words;
use pci_base::image::Image;
use pci_base::offset::HEADER_TYPE;

/// The header layout of a CardBus bridge (PC Card Standard 8.0, volume 7, 4.4).
const CARDBUS: u8 = 2;

/// Whether a function is a CardBus bridge.
fn is_cardbus(image: &Image) -> bool
    ensures { result ≡ (layout image.now.0 == 2) }
{
    image.u8(HEADER_TYPE) % 128 == CARDBUS
}

/// Makes a CardBus bridge a device without address registers, where that counts.
pub fn cardbus_aside(image: &mut Image, probe: &mut Image, words: Words)
    ensures { (slot : SlotValue)
        → record { slot = slot; image = image.new.0; probe = probe.new.0 }
        ≡ taken.cardbus_aside (words_value words) record
        { slot = slot; image = image.old.0; probe = probe.old.0 } }
{
    if words.cardbus && is_cardbus(image) {
        make_bare_device(image);
        clear_registers(probe);
    }
}
