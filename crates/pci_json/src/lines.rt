//! The lines of a text and the words of a line.
ghost use Rattle.std.specs.Prelude.{◌≡◌, ◌<◌, ◌≤◌, ◌+◌, ◌==◌, ◌^◌, ◌∷◌, false, length, take, drop, IsTrue};
ghost use Rattle.std.specs.Str.{IsCharBoundary};
ghost use Rattle.std.specs.List.{before_first, after_first, position_or_len};
ghost use Rattle.pci_json.specs.Lines.{parts_of_text, indent_of, content_of, depth_of, is_inner, is_blank, behind_words, word, is_word, digit_value, value_in_base};

use memchr::memchr;

/// Where a byte first stands in a text, or the length of the text.
fn place_of(text: &str, byte: u8) -> usize
    requires ascii { byte < 128 }
    ensures value { result ≡ position_or_len (λ b. b == byte) text.now }
    ensures cut { IsCharBoundary text.now result }
    ensures behind { result < length text.now → IsCharBoundary text.now (result + 1) }
{
    let mut place = 0;
    for other in text.as_bytes() {
        if *other == byte {
            return place;
        }
        place += 1;
    }
    place
}

/// The same, by a search that is fast where the byte stands far behind.
fn far_place_of(text: &str, byte: u8) -> usize
    requires ascii { byte < 128 }
    ensures value { result ≡ position_or_len (λ b. b == byte) text.now }
    ensures cut { IsCharBoundary text.now result }
    ensures behind { result < length text.now → IsCharBoundary text.now (result + 1) }
{
    match memchr(byte, text.as_bytes()) {
        Some(place) => place,
        None => text.len(),
    }
}

/// What stands before a place of a text, and what stands behind the byte at that place.
fn around(text: &str, place: usize) -> (&str, &str)
    requires cut { IsCharBoundary text.now place }
    requires behind { place < length text.now → IsCharBoundary text.now (place + 1) }
    ensures before { result.0.now ≡ take place text.now }
    ensures after { result.1.now ≡ drop (place + 1) text.now }
{
    if place < text.len() {
        (&text[..place], &text[place + 1..])
    } else {
        (text, "")
    }
}

/// What stands before the first such byte of a text, and what stands behind it.
pub fn split_at_first(text: &str, byte: u8) -> (&str, &str)
    requires ascii { byte < 128 }
    ensures before { result.0.now ≡ before_first (λ b. b == byte) text.now }
    ensures after { result.1.now ≡ after_first (λ b. b == byte) text.now }
{
    around(text, place_of(text, byte))
}

/// The first part of a text that ends with this byte, and what stands behind that byte.
pub fn cut(text: &str, end: u8) -> (&str, &str)
    requires ascii { end < 128 }
    requires some { 0 < length text.now }
    ensures before { result.0.now ≡ before_first (λ b. b == end) text.now }
    ensures after { result.1.now ≡ after_first (λ b. b == end) text.now }
    ensures parts { parts_of_text end text.now ≡ result.0.now ∷ parts_of_text end result.1.now }
    ensures shorter { length result.1.now < length text.now }
{
    around(text, far_place_of(text, end))
}

/// How many blanks a line begins with.
fn indent(line: &str) -> usize
    ensures value { result ≡ indent_of line.now }
    ensures cut { IsCharBoundary line.now result }
{
    let mut blanks = 0;
    for byte in line.as_bytes() {
        if *byte != b' ' {
            return blanks;
        }
        blanks += 1;
    }
    blanks
}

/// The line without its indentation.
pub fn content(line: &str) -> &str
    ensures { result.now ≡ content_of line.now }
{
    &line[indent(line)..]
}

/// How many steps of two blanks a line is indented by.
pub fn depth_of(line: &str) -> usize
    ensures value { result ≡ depth_of line.now }
    ensures small { result < 2 ^ 63 }
{
    indent(line) / 2
}

/// Whether a line is indented.
pub fn is_inner(line: &str) -> bool
    ensures { result ≡ is_inner line.now }
{
    depth_of(line) > 0
}

/// The first word, and what stands behind it.
pub fn split_word(content: &str) -> (&str, &str)
    ensures first { result.0.now ≡ word 0 content.now }
    ensures rest { result.1.now ≡ behind_words 1 content.now }
{
    split_at_first(content, b' ')
}

/// What stands behind the first word.
fn behind_first(content: &str) -> &str
    ensures { result.now ≡ after_first is_blank content.now }
{
    split_at_first(content, b' ').1
}

/// The second word, and what stands behind it.
pub fn split_second(content: &str) -> (&str, &str)
    ensures first { result.0.now ≡ word 1 content.now }
    ensures rest { result.1.now ≡ behind_words 2 content.now }
{
    split_word(behind_first(content))
}

/// What stands behind so many words.
pub fn behind(content: &str, words: usize) -> &str
    ensures { result.now ≡ behind_words words content.now }
{
    let mut rest = content;
    for _ in 0..words {
        rest = behind_first(rest);
    }
    rest
}

/// The word behind so many words.
pub fn word(content: &str, n: usize) -> &str
    ensures { result.now ≡ word n content.now }
{
    split_at_first(behind(content, n), b' ').0
}

/// Whether a text and a name begin with two different bytes. Then the name isn't the first word of the text.
fn begin_apart(text: &str, name: &str) -> bool
    ensures { IsTrue result → is_word 0 name.now text.now ≡ false }
{
    if text.is_empty() || name.is_empty() {
        return false;
    }
    text.as_bytes()[0] != name.as_bytes()[0]
}

/// Whether this is the first word.
fn is_first_word(content: &str, name: &str) -> bool
    ensures { result ≡ is_word 0 name.now content.now }
{
    !begin_apart(content, name) && split_word(content).0 == name
}

/// Whether this is the word behind so many words.
pub fn is_word(content: &str, n: usize, name: &str) -> bool
    ensures { result ≡ is_word n name.now content.now }
{
    is_first_word(behind(content, n), name)
}

/// What a digit counts.
fn digit_value(byte: u8) -> u8
    ensures { result ≡ digit_value byte }
{
    match byte {
        b'0'..=b'9' => byte - b'0',
        b'a'..=b'f' => byte - b'a' + 10,
        _ => 0,
    }
}

/// The number of a word of digits, of its 64 lowest bits.
pub fn value(digits: &str, base: u64) -> u64
    requires { base ≤ 16 }
    ensures { result ≡ value_in_base base digits.now }
{
    let mut value: u64 = 0;
    for byte in digits.as_bytes() {
        value = value
            .wrapping_mul(base)
            .wrapping_add(u64::from(digit_value(*byte)));
    }
    value
}
