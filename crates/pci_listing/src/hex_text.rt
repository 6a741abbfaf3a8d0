//! Hex digits at the end of a text.
ghost use Rattle.std.specs.Prelude.{◌≡◌, ◌≤◌, ◌<◌, ◌++◌, [], ◌∷◌, OnOk};
ghost use Rattle.std.specs.String.{string_bytes};
ghost use Rattle.pci_spec.specs.Text.{hex_byte, hex_digit, slot_text};
ghost use Rattle.pci_spec.specs.Line.{hex_number};
ghost use Rattle.pci_spec.specs.Listing.{decimal_text};

use pci_base::digit::digit_of;
use pci_base::slot::Slot;
use std::alloc::{AllocError, Allocator};

/// Appends the hex digit of a number below 16.
fn push_digit<A: Allocator>(text: &mut String<A>, number: u8) -> Result<(), AllocError>
    requires { number < 16 }
    ensures { OnOk result (string_bytes text.new ≡ string_bytes text.old ++ hex_digit number ∷ []) }
{
    text.push(char::from(digit_of(number)))
}

/// Appends a number in so many hex digits.
pub fn push_hex<A: Allocator>(
    text: &mut String<A>,
    number: u64,
    digits: u32,
) -> Result<(), AllocError>
    // no number of 64 bits has more
    requires { digits ≤ 16 }
    ensures { OnOk result
        (string_bytes text.new ≡ string_bytes text.old ++ hex_number digits number) }
{
    for done in 0..digits {
        let digit = (number >> (4 * (digits - 1 - done))) % 16;
        push_digit(text, digit as u8)?;
    }
    Ok(())
}

/// Appends a byte in two hex digits.
pub fn push_byte<A: Allocator>(text: &mut String<A>, byte: u8) -> Result<(), AllocError>
    ensures { OnOk result (string_bytes text.new ≡ string_bytes text.old ++ hex_byte byte) }
{
    push_hex(text, u64::from(byte), 2)
}

/// Appends a word in four hex digits.
pub fn push_word<A: Allocator>(text: &mut String<A>, word: u16) -> Result<(), AllocError>
    ensures { OnOk result (string_bytes text.new ≡ string_bytes text.old ++ hex_number 4 word) }
{
    push_hex(text, u64::from(word), 4)
}

/// Appends a number below 10.
pub fn push_decimal<A: Allocator>(text: &mut String<A>, number: u8) -> Result<(), AllocError>
    // it is one character
    requires { number < 10 }
    ensures { OnOk result (string_bytes text.new ≡ string_bytes text.old ++ decimal_text number) }
{
    push_digit(text, number)
}

/// Ends a line.
pub fn end_line<A: Allocator>(text: &mut String<A>) -> Result<(), AllocError>
    ensures { OnOk result (string_bytes text.new ≡ string_bytes text.old ++ 10 ∷ []) }
{
    text.push('\n')
}

/// Appends `bb:dd.f`.
pub fn push_slot<A: Allocator>(text: &mut String<A>, slot: Slot) -> Result<(), AllocError>
    ensures { OnOk result (string_bytes text.new ≡ string_bytes text.old ++ slot_text slot) }
{
    push_byte(text, slot.bus())?;
    text.push(':')?;
    push_byte(text, slot.dev())?;
    text.push('.')?;
    push_digit(text, slot.fun())
}
