//! Hex digits in lower case.
ghost use Rattle.std.specs.Prelude.{◌≡◌, ◌⊎◌, ◌≤◌, ◌<◌, ◌/◌, ℕ, IfSome, Some};
ghost use Rattle.pci_spec.specs.Text.{hex_digit};

/// No digit, and too large to be a part of a byte.
const X: u32 = 0x100;

/// What each byte stands for as a lower-case hex digit.
static DIGITS: [u32; 256] = [
    X, X, X, X, X, X, X, X, X, X, X, X, X, X, X, X, X, X, X, X, X, X, X, X, X, X, X, X, X, X, X, X,
    X, X, X, X, X, X, X, X, X, X, X, X, X, X, X, X, 0, 1, 2, 3, 4, 5, 6, 7, 8, 9, X, X, X, X, X, X,
    X, X, X, X, X, X, X, X, X, X, X, X, X, X, X, X, X, X, X, X, X, X, X, X, X, X, X, X, X, X, X, X,
    X, 10, 11, 12, 13, 14, 15, X, X, X, X, X, X, X, X, X, X, X, X, X, X, X, X, X, X, X, X, X, X, X,
    X, X, X, X, X, X, X, X, X, X, X, X, X, X, X, X, X, X, X, X, X, X, X, X, X, X, X, X, X, X, X, X,
    X, X, X, X, X, X, X, X, X, X, X, X, X, X, X, X, X, X, X, X, X, X, X, X, X, X, X, X, X, X, X, X,
    X, X, X, X, X, X, X, X, X, X, X, X, X, X, X, X, X, X, X, X, X, X, X, X, X, X, X, X, X, X, X, X,
    X, X, X, X, X, X, X, X, X, X, X, X, X, X, X, X, X, X, X, X, X, X, X, X, X, X, X, X, X, X, X, X,
    X, X,
];

/// What a byte stands for as a hex digit in lower case.
fn nibble(byte: u8) -> u32
    ensures known { (result ≡ 256) ⊎ ((result < 16) × (byte ≡ hex_digit result)) }
    ensures found { (d : ℕ) → d < 16 → byte ≡ hex_digit d → result ≡ d }
{
    DIGITS[usize::from(byte)]
}

/// What a hex digit in lower case stands for.
pub fn digit_value(byte: u8) -> Option<u8>
    ensures some { IfSome result (λ d. (d ≤ 15) × (byte ≡ hex_digit d)) }
    // so that a None rules out every digit, and the text may be refused for it
    ensures found { (d : ℕ) → d < 16 → byte ≡ hex_digit d → result ≡ Some d }
{
    let value = nibble(byte);
    if value < 16 { Some(value as u8) } else { None }
}

/// The hex digits in lower case.
static HEX: [u8; 16] = *b"0123456789abcdef";

/// The hex digit of a number below 16.
pub fn digit_of(number: u8) -> u8
    // a digit has four bits
    requires { number < 16 }
    ensures { result ≡ hex_digit number }
{
    HEX[usize::from(number)]
}
