//! The seven lines of a block of a sizes text.
ghost use Rattle.std.specs.Prelude.{◌≡◌, false, IsTrue, IfSome, IfNone, length, replicate};
ghost use Rattle.std.specs.List.{All, flat_map};
ghost use Rattle.pci_spec.specs.Line.{hex_number};
ghost use Rattle.pci_spec.specs.Form.{Fits, Digit};
ghost use Rattle.pci_spec.specs.SizesText.{IsResourceLine, number_text, resource_text};
ghost use Rattle.pci_spec.specs.SizesForm.{number_cells, resource_cells, lines_cells};

use super::resource_line::ResourceLine;
use pci_base::digit::digit_value;

/// How many bytes a line has with its end.
const LINE_LEN: usize = 57;

/// The number that hex digits in lower case spell.
#[inline(always)]
fn digits_of(digits: &[u8]) -> Option<u64>
    requires { length digits.now ≡ 16 }
    ensures some { IfSome result (λ number. digits.now ≡ hex_number 16 number) }
    ensures none { IfNone result (Fits (replicate 16 (Digit 15)) digits.now → ⊥) }
{
    let mut number = 0u64;
    for place in 0..16 {
        let digit = match digit_value(digits[place]) {
            None => return None,
            Some(digit) => digit,
        };
        number = 16 * number + u64::from(digit);
    }
    Some(number)
}

/// The number that `0x` and sixteen hex digits spell.
#[inline(always)]
fn number_of(text: &[u8]) -> Option<u64>
    requires { length text.now ≡ 18 }
    ensures some { IfSome result (λ number. text.now ≡ number_text number) }
    ensures none { IfNone result (Fits number_cells text.now → ⊥) }
{
    if text[0] != b'0' || text[1] != b'x' {
        return None;
    }
    digits_of(&text[2..18])
}

/// The line of a register of which nothing is told.
static NO_LINE: [u8; LINE_LEN] = *b"0x0000000000000000 0x0000000000000000 0x0000000000000000\n";

/// What a line tells: three numbers with a space between, and the line's end.
pub(crate) fn line_of(text: &[u8]) -> Option<ResourceLine>
    requires { length text.now ≡ 57 }
    ensures some { IfSome result (λ line. IsResourceLine line × (text.now ≡ resource_text line)) }
    ensures none { IfNone result (Fits resource_cells text.now → ⊥) }
{
    if text == NO_LINE.as_slice() {
        return Some(ResourceLine {
            first: 0,
            last: 0,
            flags: 0,
        });
    }
    if text[18] != b' ' || text[37] != b' ' || text[56] != b'\n' {
        return None;
    }
    Some(ResourceLine {
        first: number_of(&text[0..18])?,
        last: number_of(&text[19..37])?,
        flags: number_of(&text[38..56])?,
    })
}

/// The seven lines that a text is go into their places. False where it is none such: some of them may be there then.
pub fn lines_into(text: &[u8], lines: &mut [ResourceLine; 7]) -> bool
    requires { length text.now ≡ 399 }
    ensures seven { length lines.new ≡ 7 }
    ensures yes { IsTrue result
        → All IsResourceLine lines.new × (text.now ≡ flat_map resource_text lines.new) }
    ensures no { result ≡ false → Fits (lines_cells 7) text.now → ⊥ }
{
    for n in 0..7 {
        let at = LINE_LEN * n;
        lines[n] = match line_of(&text[at..at + LINE_LEN]) {
            None => return false,
            Some(line) => line,
        };
    }
    true
}
