//! The text of a slot.
ghost use Rattle.std.specs.Prelude.{◌≡◌, ◌<◌, ◌/◌, IfSome, IfNone, length};
ghost use Rattle.pci_spec.specs.Slot.{IsSlot};
ghost use Rattle.pci_spec.specs.Text.{slot_text};
ghost use Rattle.pci_spec.specs.Form.{Fits, slot_cells};

use pci_base::digit::digit_value;
use pci_base::slot::Slot;

/// The slot that seven bytes spell.
pub fn slot_of(text: &[u8]) -> Option<Slot>
    // `bb:dd.f`
    requires { length text.now ≡ 7 }
    ensures some { IfSome result (λ s. IsSlot s × (text.now ≡ slot_text s)) }
    ensures none { IfNone result (Fits slot_cells text.now → ⊥) }
{
    let bus_high = digit_value(text[0])?;
    let bus_low = digit_value(text[1])?;
    let dev_high = digit_value(text[3])?;
    if dev_high >= 2 {
        return None;
    }
    let dev_low = digit_value(text[4])?;
    let fun = digit_value(text[6])?;
    if fun >= 8 || text[2] != b':' || text[5] != b'.' {
        return None;
    }
    Slot::new(bus_high * 16 + bus_low, dev_high * 16 + dev_low, fun)
}
