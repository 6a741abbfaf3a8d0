//! Words, numbers and slots of a line.
ghost use Rattle.std.specs.Prelude.{◌≡◌, ◌≤◌, ◌<◌, ◌+◌, ◌*◌, ◌^◌, drop, length, is_some, IfSome};
ghost use Rattle.std.specs.List.{after_first, before_first, position_or_len};
ghost use Rattle.pci_picture.specs.Bits.{lowest_of_16};
ghost use Rattle.pci_picture.specs.Marks.{is_register_or_told, key_named_at, number_in_slot, number_of_place};
ghost use Rattle.pci_picture.specs.Slots.{bus_of_slot, bus_of_word, digits_of_word, slot_of_key};
ghost use Rattle.pci_picture.specs.Spots.{IsExtentWord};
ghost use Rattle.pci_picture.specs.Lines.{leading_blanks, unindented_line, words_in_line, is_feed, nth_word, digit_of, hex_number_of, decimal_digit_of, decimal_number, decimal_value, is_register, is_slot, is_range, is_told_number, hex_value, slot_number_of};

use std::simd::prelude::*;

/// The word of a line at an index, or nothing where it has fewer.
#[tactic(auto, unfolding(crate::specs::Lines::words_in_line))]
pub fn word(line: &[u8], index: usize) -> &[u8]
    ensures { result.now ≡ nth_word (words_in_line line.now) index }
{
    line.split(|byte| *byte == b' ')
        .filter(|word| !word.is_empty())
        .nth(index)
        .unwrap_or(&[])
}

/// How many words a line has.
pub fn word_count(line: &[u8]) -> usize
    ensures { result ≡ length (words_in_line line.now) }
{
    line.split(|byte| *byte == b' ')
        .filter(|word| !word.is_empty())
        .count()
}

/// How many blanks a line begins with.
pub fn indent(line: &[u8]) -> usize
    ensures value { result ≡ leading_blanks line.now }
    ensures within { result ≤ length line.now }
{
    line.iter()
        .position(|byte| *byte != b' ')
        .unwrap_or(line.len())
}

/// A line without the blanks that it begins with.
pub fn stripped(line: &[u8]) -> &[u8]
    ensures { result.now ≡ unindented_line line.now }
{
    &line[indent(line)..]
}

/// The place of the lowest of sixteen bits that is set, 16 where none is.
#[inline(always)]
fn lowest_of_16(bits: u64) -> usize
    ensures { result ≡ lowest_of_16 bits }
{
    if bits == 0 {
        16
    } else {
        bits.trailing_zeros() as usize
    }
}

/// How many of sixteen bytes stand before the first line feed.
#[inline(always)]
fn feed_of_16(sixteen: &[u8; 16]) -> usize
    ensures { result ≡ position_or_len is_feed sixteen.now }
{
    let feeds = u8x16::from_array(*sixteen).simd_eq(u8x16::splat(b'\n'));
    lowest_of_16(feeds.to_bitmask())
}

/// How many bytes stand before the first line feed.
fn feed_in(bytes: &[u8]) -> usize
    ensures value { result ≡ position_or_len is_feed bytes.now }
    ensures within { result ≤ length bytes.now }
{
    bytes
        .iter()
        .position(|byte| *byte == b'\n')
        .unwrap_or(bytes.len())
}

/// How many bytes of a text stand before its first line feed. Most lines are long, so it looks at sixteen bytes at once.
fn line_length(text: &[u8]) -> usize
    ensures { result ≡ position_or_len is_feed text.now }
{
    let mut length = 0usize;
    let mut rest = text;
    for _ in 0..text.len() {
        let Some((sixteen, behind)) = rest.split_first_chunk::<16>() else {
            break;
        };
        let place = feed_of_16(sixteen);
        length = length.saturating_add(place);
        if place < 16 {
            return length;
        }
        rest = behind;
    }
    length.saturating_add(feed_in(rest))
}

/// The first line of a text, and what stands behind its line feed.
pub fn cut_line(text: &[u8]) -> (&[u8], &[u8])
    ensures line { result.0.now ≡ before_first is_feed text.now }
    ensures behind { result.1.now ≡ after_first is_feed text.now }
{
    let length = line_length(text);
    (
        text.get(..length).unwrap_or(text),
        text.get(length.saturating_add(1)..).unwrap_or(&[]),
    )
}

/// The value of a hex digit in lower case.
fn nibble(digit: u8) -> Option<u8>
    ensures exact { result ≡ digit_of digit }
    ensures small { IfSome result (λ value. value < 16) }
{
    match digit {
        b'0'..=b'9' => Some(digit - b'0'),
        b'a'..=b'f' => Some(digit - b'a' + 10),
        _ => None,
    }
}

/// The number of at most 16 hex digits.
pub fn hex_number(digits: &[u8]) -> Option<u64>
    ensures { result ≡ hex_number_of digits.now }
{
    if digits.is_empty() || 16 < digits.len() {
        return None;
    }
    let mut number = 0u64;
    for digit in digits {
        let value = nibble(*digit)?;
        number = number * 16 + u64::from(value);
    }
    Some(number)
}

/// The number of two hex digits.
#[tactic(auto, unfolding(crate::specs::Lines::is_register))]
pub fn hex_byte(digits: &[u8]) -> Option<u8>
    ensures some { is_some result ≡ is_register digits.now }
    ensures value { IfSome result (λ byte. byte ≡ hex_value digits.now) }
{
    if digits.len() != 2 {
        return None;
    }
    let high = nibble(digits[0])?;
    let low = nibble(digits[1])?;
    Some((high << 4) | low)
}

/// The number of a slot `bb:dd.f`, in hex `bbddf`.
#[tactic(auto, unfolding(crate::specs::Lines::is_slot, crate::specs::Slots::bus_of_slot, crate::specs::Lines::slot_number_of))]
pub fn slot_number(text: &[u8]) -> Option<u32>
    ensures value { IfSome result (λ number. number ≡ slot_number_of text.now) }
    ensures some { is_some result ≡ is_slot text.now }
    ensures bus { IfSome result (λ number. bus_of_slot number ≡ bus_of_word text.now) }
    ensures low { IfSome result (λ number. number < 2 ^ 20) }
{
    if text.len() != 7 || text[2] != b':' || text[5] != b'.' {
        return None;
    }
    let bus = hex_byte(&text[..2])?;
    let device = hex_byte(&text[3..5])?;
    let function = nibble(text[6])?;
    Some(u32::from(bus) * 4096 + u32::from(device) * 16 + u32::from(function))
}

/// The bus of a slot's number.
#[tactic(auto, unfolding(crate::specs::Slots::bus_of_slot))]
pub fn bus_of(slot: u32) -> u8
    ensures { result ≡ bus_of_slot slot }
{
    ((slot >> 12) % 256) as u8
}

/// The value of a decimal digit.
fn decimal_digit(digit: u8) -> Option<u8>
    ensures exact { result ≡ decimal_digit_of digit }
    ensures small { IfSome result (λ value. value < 10) }
{
    match digit {
        b'0'..=b'9' => Some(digit - b'0'),
        _ => None,
    }
}

/// The number of decimal digits, at most four.
fn decimal(digits: &[u8]) -> Option<u16>
    requires { length digits.now ≤ 4 }
    ensures { result ≡ decimal_number digits.now }
{
    let mut number = 0u16;
    for digit in digits {
        let value = decimal_digit(*digit)?;
        number = number * 10 + u16::from(value);
    }
    Some(number)
}

/// The number of a told range `+n`, from 1 to 4096.
#[tactic(auto, unfolding(crate::specs::Lines::is_told_number))]
pub fn told_number(text: &[u8]) -> Option<u16>
    ensures some { is_some result ≡ is_told_number text.now }
    ensures value { IfSome result (λ number. number ≡ decimal_value (drop 1 text.now)) }
    ensures most { IfSome result (λ number. number ≤ 4096) }
{
    if text.len() < 2 || 5 < text.len() || text[0] != b'+' || text[1] == b'0' {
        return None;
    }
    let number = decimal(&text[1..])?;
    if 4096 < number {
        return None;
    }
    Some(number)
}

/// What names a region of a slot: a register, or the number of a told range.
#[derive(Clone, Copy)]
pub enum Place {
    Register(u8),
    Told(u16),
}

/// The key of a region: the number of its slot, and a number that says which one of the slot. Told ranges come behind
/// all registers.
#[tactic(auto, unfolding(crate::specs::Slots::slot_of_key))]
pub fn region_key(slot: u32, place: Place) -> u64
    ensures slot { slot_of_key result ≡ slot }
    ensures key { result ≡ slot * 65536 + number_of_place place }
{
    let number = match place {
        Place::Register(register) => u16::from(register),
        Place::Told(number) => number.saturating_add(256),
    };
    u64::from(slot) * 65536 + u64::from(number)
}

/// The number of a key's slot.
#[tactic(auto, unfolding(crate::specs::Slots::slot_of_key))]
pub fn slot_of(key: u64) -> u32
    ensures { result ≡ slot_of_key key }
{
    ((key >> 16) % (1 << 32)) as u32
}

/// What names a region of a slot, of a word `r` or `+n`.
#[tactic(auto, unfolding(crate::specs::Marks::number_in_slot))]
fn place_of(text: &[u8]) -> Option<Place>
    ensures some { is_some result ≡ is_register_or_told text.now }
    ensures number { IfSome result (λ place. number_of_place place ≡ number_in_slot text.now) }
{
    match hex_byte(text) {
        Some(register) => Some(Place::Register(register)),
        None => Some(Place::Told(told_number(text)?)),
    }
}

/// The key of the region that two words of a line name: a slot, and a register or a told range.
#[tactic(auto, unfolding(crate::specs::Marks::key_of_words))]
pub fn key_at(line: &[u8], index: usize) -> Option<u64>
    ensures { result ≡ key_named_at (words_in_line line.now) index }
{
    let slot = slot_number(word(line, index))?;
    let place = place_of(word(line, index.saturating_add(1)))?;
    Some(region_key(slot, place))
}

/// First and last address, both inclusive, and how many digits each has.
#[derive(Clone, Copy)]
pub struct Extent {
    pub first: u64,
    pub last: u64,
    pub digits: usize,
}

/// The range of a word `F-L`.
#[tactic(auto, unfolding(crate::specs::Lines::is_range))]
pub fn extent_of(text: &[u8]) -> Option<Extent>
    ensures some { is_some result ≡ is_range text.now }
    ensures ends { IfSome result (λ extent. IsExtentWord text.now extent.first extent.last) }
    ensures digits { IfSome result (λ extent. extent.digits ≡ digits_of_word text.now) }
{
    let dash = text.iter().position(|byte| *byte == b'-')?;
    let first = hex_number(&text[..dash])?;
    let last = hex_number(&text[dash + 1..])?;
    if last < first {
        return None;
    }
    Some(Extent {
        first,
        last,
        digits: dash,
    })
}
