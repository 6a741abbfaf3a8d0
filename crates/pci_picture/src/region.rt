//! Lines of a map.
ghost use Rattle.std.specs.Prelude.{◌≡◌, ◌&&◌, ◌+◌, [], ◌∷◌, IsTrue, MatchOption, Some, IfSome, is_some, codes, if◌then◌else◌};
ghost use Rattle.pci_picture.specs.Lines.{is_one_line, names_part, is_region_line, is_register, is_slot, is_told_number, names_told, nth_word, line_if_region, says, words_in_line};
ghost use Rattle.pci_picture.specs.Marks.{key_named_at, key_of_region, key_of_words, look_of_part, word_of_part};
ghost use Rattle.pci_picture.specs.RegionNames.{AreTextsOf, name_word, register_word};
ghost use Rattle.pci_picture.specs.Slots.{IsOfLine, bus_of_slot, bus_of_word, slot_of_key, slot_word};
ghost use Rattle.pci_picture.specs.Spots.{IsExtentWord};

use super::reading::{Place, extent_of, hex_byte, region_key, slot_number, told_number, word};

/// What a line of a map is about.
#[derive(Clone, Copy, PartialEq, Eq)]
pub enum Part {
    Bar,
    Prefetchable,
    Rom,
    Window,
    /// A range that is told of a function, prefetchable or not.
    Told,
    /// A range that somebody is told to answer, prefetchable or not.
    Held,
    Free,
}

/// A line of a map.
#[derive(Clone, Copy)]
pub struct Region<'a> {
    /// The line, without the blanks that it begins with.
    pub line: &'a [u8],
    pub first: u64,
    pub last: u64,
    /// How many digits its addresses have: 8 in I/O space, 16 in memory space.
    pub digits: usize,
    pub size: &'a [u8],
    pub part: Part,
    /// Its slot, and its register `r` or its number `+n`; nothing where it is free.
    pub slot: &'a [u8],
    pub register: &'a [u8],
    /// What is told to be its name, or nothing.
    pub name: &'a [u8],
    /// Its key, 0 where it is free.
    pub key: u64,
    /// How deep it stands, from 1 on.
    pub depth: usize,
    ghost is_one_line: { IsTrue (is_one_line line.now) },
    ghost is_told: { IsTrue (is_region_line line.now) },
    ghost ends: { IsExtentWord (nth_word (words_in_line line.now) 0) first last },
    ghost is_of_line: { IsOfLine line.now key digits },
    ghost looks: { word_of_part part ≡ look_of_part (words_in_line line.now) },
    ghost texts: { AreTextsOf (words_in_line line.now) size.now slot.now register.now name.now },
}

impl Region<'_> {
    ghost use Rattle.pci_picture.specs.Cuts.{is_window_part};
    ghost use Rattle.pci_picture.specs.Lines.{is_told_line};

    /// Whether it is a window of a bridge.
    pub fn is_window(&self) -> bool
        ensures { result ≡ is_window_part self.entry.now.part }
    {
        matches!(self.part, Part::Window)
    }

    /// Whether it is told beside the registers.
    pub fn is_told_range(&self) -> bool
        ensures { result ≡ is_told_line self.entry.now.line.now }
    {
        self.part == Part::Told || self.part == Part::Held
    }
}

/// What a line is about: its part, and the words and the number that name it.
#[derive(Clone, Copy)]
struct Named<'a> {
    part: Part,
    slot: &'a [u8],
    register: &'a [u8],
    name: &'a [u8],
    key: u64,
}

/// The part that a slot and a register name.
fn named_by<'a>(part: Part, slot: &'a [u8], register: &'a [u8]) -> Option<Named<'a>>
    ensures some { is_some result ≡ (is_slot slot.now && is_register register.now) }
    ensures bus { IfSome result (λ named. bus_of_slot (slot_of_key named.key) ≡ bus_of_word slot.now) }
    ensures key { IfSome result (λ named. key_of_words slot.now register.now ≡ Some named.key) }
    ensures part { IfSome result (λ named. named.part ≡ part) }
    ensures slot { IfSome result (λ named. named.slot.now ≡ slot.now) }
    ensures register { IfSome result (λ named. named.register.now ≡ register.now) }
    ensures name { IfSome result (λ named. named.name.now ≡ []) }
{
    let number = slot_number(slot)?;
    let offset = hex_byte(register)?;
    Some(Named {
        part,
        slot,
        register,
        name: &[],
        key: region_key(number, Place::Register(offset)),
    })
}

/// The told range that a slot and a number name, and the word that follows.
fn told_by<'a>(part: Part, slot: &'a [u8], register: &'a [u8], name: &'a [u8]) -> Option<Named<'a>>
    ensures some { is_some result ≡ (is_slot slot.now && is_told_number register.now) }
    ensures bus { IfSome result (λ named. bus_of_slot (slot_of_key named.key) ≡ bus_of_word slot.now) }
    ensures key { IfSome result (λ named. key_of_words slot.now register.now ≡ Some named.key) }
    ensures part { IfSome result (λ named. named.part ≡ part) }
    ensures slot { IfSome result (λ named. named.slot.now ≡ slot.now) }
    ensures register { IfSome result (λ named. named.register.now ≡ register.now) }
    ensures name { IfSome result (λ named. named.name.now ≡ name.now) }
{
    let number = slot_number(slot)?;
    let told = told_number(register)?;
    Some(Named {
        part,
        slot,
        register,
        name,
        key: region_key(number, Place::Told(told)),
    })
}

/// The told range that a line names behind its part, prefetchable or not.
fn told_behind(part: Part, line: &[u8]) -> Option<Named<'_>>
    ensures some { is_some result ≡ names_told (words_in_line line.now)
        (if says (nth_word (words_in_line line.now) 3) (codes "pref") then 4 else 3) }
    ensures bus { IfSome result (λ named. bus_of_slot (slot_of_key named.key)
        ≡ bus_of_word (nth_word (words_in_line line.now) (if says (nth_word (words_in_line line.now) 3) (codes "pref") then 4 else 3))) }
    ensures key { IfSome result (λ named. key_named_at (words_in_line line.now)
        (if says (nth_word (words_in_line line.now) 3) (codes "pref") then 4 else 3) ≡ Some named.key) }
    ensures part { IfSome result (λ named. named.part ≡ part) }
    ensures slot { IfSome result (λ named. named.slot.now
        ≡ nth_word (words_in_line line.now) (if says (nth_word (words_in_line line.now) 3) (codes "pref") then 4 else 3)) }
    ensures register { IfSome result (λ named. named.register.now
        ≡ nth_word (words_in_line line.now) ((if says (nth_word (words_in_line line.now) 3) (codes "pref") then 4 else 3) + 1)) }
    ensures name { IfSome result (λ named. named.name.now
        ≡ nth_word (words_in_line line.now) ((if says (nth_word (words_in_line line.now) 3) (codes "pref") then 4 else 3) + 2)) }
{
    let next = word(line, 3);
    if next == b"pref".as_slice() {
        told_by(part, word(line, 4), word(line, 5), word(line, 6))
    } else {
        told_by(part, next, word(line, 4), word(line, 5))
    }
}

/// The part that stands at the third word of a line, and what names it.
#[tactic(auto, unfolding(crate::specs::Lines::names_part, crate::specs::Slots::slot_word, crate::specs::Slots::bus_of_slot, crate::specs::Slots::slot_of_key, crate::specs::Marks::key_of_region, crate::specs::Marks::look_of_part, crate::specs::RegionNames::register_word, crate::specs::RegionNames::name_word))]
fn named_of(line: &[u8]) -> Option<Named<'_>>
    ensures some { is_some result ≡ names_part (words_in_line line.now) }
    ensures bus { IfSome result (λ named. bus_of_slot (slot_of_key named.key) ≡ bus_of_word (slot_word (words_in_line line.now))) }
    ensures key { IfSome result (λ named. named.key ≡ key_of_region (words_in_line line.now)) }
    ensures looks { IfSome result (λ named. word_of_part named.part ≡ look_of_part (words_in_line line.now)) }
    ensures slot { IfSome result (λ named. named.slot.now ≡ slot_word (words_in_line line.now)) }
    ensures register { IfSome result (λ named. named.register.now ≡ register_word (words_in_line line.now)) }
    ensures name { IfSome result (λ named. named.name.now ≡ name_word (words_in_line line.now)) }
{
    let part = word(line, 2);
    if part == b"bar".as_slice() {
        let next = word(line, 3);
        if next == b"pref".as_slice() {
            named_by(Part::Prefetchable, word(line, 4), word(line, 5))
        } else {
            named_by(Part::Bar, next, word(line, 4))
        }
    } else if part == b"rom".as_slice() {
        named_by(Part::Rom, word(line, 3), word(line, 4))
    } else if part == b"window".as_slice() {
        named_by(Part::Window, word(line, 3), word(line, 4))
    } else if part == b"told".as_slice() {
        told_behind(Part::Told, line)
    } else if part == b"held".as_slice() {
        told_behind(Part::Held, line)
    } else if part == b"free".as_slice() {
        Some(Named {
            part: Part::Free,
            slot: &[],
            register: &[],
            name: &[],
            key: 0,
        })
    } else {
        None
    }
}

/// The region of a line `F-L N PART S r`, `F-L N PART S +n` or `F-L N free`, without the blanks before it.
#[tactic(auto, unfolding(crate::specs::Lines::is_region_line, crate::specs::Slots::bus_of_line, crate::specs::Slots::is_io_line))]
pub fn region_of(line: &[u8], depth: usize) -> Option<Region<'_>>
    requires { IsTrue (is_one_line line.now) }
    ensures line { MatchOption result (line_if_region line.now ≡ [])
        (λ region. line_if_region line.now ≡ region.line.now ∷ []) }
    ensures depth { IfSome result (λ region. region.depth ≡ depth) }
{
    let range = extent_of(word(line, 0))?;
    let named = named_of(line)?;
    Some(Region {
        line,
        first: range.first,
        last: range.last,
        digits: range.digits,
        size: word(line, 1),
        part: named.part,
        slot: named.slot,
        register: named.register,
        name: named.name,
        key: named.key,
        depth,
    })
}
