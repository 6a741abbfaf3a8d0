//! The text of `faults --why`.
ghost use Rattle.std.specs.Prelude.{◌≤◌, ◌<◌, length, map};
ghost use Rattle.std.specs.List.{All};
ghost use Rattle.std.specs.List.Sorted.{IsNonDecreasingBy};
ghost use Rattle.pci_picture.specs.Marks.{AreNamings};
ghost use Rattle.pci_picture.specs.Ranks.{rank_of_badge};
ghost use Rattle.pci_picture.specs.declared.badge.Badge.{Badge};
ghost use Rattle.pci_picture.specs.declared.faults.Fault.{Fault};
ghost use Rattle.pci_picture.specs.declared.faults.Naming.{Naming};

use super::badge::{Badge, first_slot};
use super::memory::OutOfMemory;
use super::reading::{key_at, slot_number, slot_of, stripped, word, word_count};
use std::alloc::Allocator;

/// The regions that a fault is about.
#[derive(Clone, Copy)]
pub enum Keys {
    None,
    One(u64),
    Two(u64, u64),
}

impl Keys {
    ghost use Rattle.std.specs.Prelude.{◌≡◌};
    ghost use Rattle.pci_picture.specs.Tellings.{last_key};
    ghost use Rattle.pci_picture.specs.Lines.{words_in_line};
    ghost use Rattle.pci_picture.specs.Marks.{keys_of_fault, keys_told};

    /// Those that the first line of a fault names.
    #[tactic(auto, unfolding(crate::specs::Marks::keys_of_fault))]
    fn of(number: u8, line: &[u8]) -> Keys
        ensures { keys_told result ≡ keys_of_fault number (words_in_line line.now) }
    {
        let count = word_count(line);
        match number {
            60 | 63 => match key_at(line, 2) {
                Some(key) => Keys::One(key),
                None => Keys::None,
            },
            61 | 62 => match (
                key_at(line, count.saturating_sub(4)),
                key_at(line, count.saturating_sub(2)),
            ) {
                (Some(one), Some(other)) => Keys::Two(one, other),
                _ => Keys::None,
            },
            _ => Keys::None,
        }
    }

    /// The first of them.
    pub fn first(self) -> Option<u64> {
        match self {
            Keys::None => None,
            Keys::One(key) | Keys::Two(key, _) => Some(key),
        }
    }

    /// The last of them, which a line `fits` is about.
    pub fn last(self) -> Option<u64>
        ensures { result ≡ last_key (keys_told self) }
    {
        match self {
            Keys::None => None,
            Keys::One(key) | Keys::Two(_, key) => Some(key),
        }
    }
}

/// A fault: its number, and which lines of the text are its own.
#[derive(Clone, Copy)]
pub struct Fault {
    pub number: u8,
    pub keys: Keys,
    /// The index of its first line.
    pub begin: usize,
    /// The index behind its last line.
    pub end: usize,
}

impl Fault {
    ghost use Rattle.std.specs.Prelude.{◌≡◌, ◌-◌};
    ghost use Rattle.pci_picture.specs.Marks.{number_before_blank};

    /// The number with which the first line of a fault begins: two digits and a blank.
    #[tactic(auto, unfolding(crate::specs::Marks::number_before_blank))]
    fn number_of(line: &[u8]) -> Option<u8>
        ensures { result ≡ number_before_blank line.now }
    {
        match line {
            [tens @ b'0'..=b'9', ones @ b'0'..=b'9', b' ', ..] => {
                Some((*tens - b'0') * 10 + (*ones - b'0'))
            }
            _ => None,
        }
    }

    /// How many lines it has.
    pub fn lines(&self) -> usize
        ensures { result ≡ self.now.end - self.now.begin }
    {
        self.end.saturating_sub(self.begin)
    }
}

/// A region that a fault is about, and the index of the fault.
#[derive(Clone, Copy)]
pub struct Naming {
    pub key: u64,
    pub fault: usize,
}

/// All faults.
#[derive(Drop)]
pub struct Faults<'a, A: Allocator> {
    pub lines: Vec<&'a [u8], A>,
    pub faults: Vec<Fault, A>,
    /// By rising key, those of a key by rising fault.
    pub namings: Vec<Naming, A>,
    /// By rising slot, those of a slot by rising number.
    pub badges: Vec<Badge, A>,
    ghost small: { All (λ (badge : Badge). badge.number < 256) badges.items },
    ghost ranked: { IsNonDecreasingBy (λ (badge : Badge). rank_of_badge badge) badges.items },
    ghost sorted: { IsNonDecreasingBy (λ (naming : Naming). naming.key) namings.items },
    ghost within: { All (λ (fault : Fault). (fault.begin < fault.end) × (fault.end ≤ length lines.items)) faults.items },
    ghost named: { AreNamings (map (λ line. line.now) lines.items) faults.items namings.items },
}

/// The faults of the lines that were read. What they name and what the tree shows of them stands in their order.
#[derive(Drop)]
struct Reader<'a, A: Allocator> {
    lines: Vec<&'a [u8], A>,
    faults: Vec<Fault, A>,
    namings: Vec<Naming, A>,
    badges: Vec<Badge, A>,
}

impl<'a, A: Allocator + Copy> Reader<'a, A> {
    ghost use Rattle.std.specs.Prelude.{◌≡◌, ◌++◌, ◌∷◌, ◌-◌, [], true, false, length, map, Some, List, OnOk};
    ghost use Rattle.pci_picture.specs.Badges.{badge_of, badges_begun, badges_of_fault, badges_of_line, bridge_slots, slots_of_keys};
    ghost use Rattle.pci_picture.specs.Lines.{nth_word, words_in_line};
    ghost use Rattle.pci_picture.specs.Marks.{AddsFault, HasNamings, fault_numbers, keys_told, namings_of, number_before_blank};
    ghost use Rattle.pci_picture.specs.Said.{AreLinesOf, FaultSaid, with_fault_line, with_reason};

    /// Adds a fault, by its first line.
    fn begin(&mut self, number: u8, line: &'a [u8]) -> Result<(), OutOfMemory>
        ensures adds { OnOk result (AddsFault (Some number) line.entry.now self.old self.new) }
        ensures shows { OnOk result
            (self.new.badges.items ≡ self.old.badges.items ++ badges_begun (Some number) line.entry.now) }
        ensures said { OnOk result ((said : List FaultSaid) → AreLinesOf said self.old
            → AreLinesOf (with_fault_line said line.entry.now (Some number)) self.new) }
        ensures named { OnOk result (HasNamings self.old → HasNamings self.new) }
    {
        let keys = Keys::of(number, line);
        let fault = self.faults.len();
        let begin = self.lines.len();
        self.lines.push(line)?;
        self.faults.push(Fault {
            number,
            keys,
            begin,
            end: self.lines.len(),
        })?;
        self.name(keys, fault)?;
        self.mark(number, keys, line)
    }

    /// Adds the regions that a fault is about.
    fn name(&mut self, keys: Keys, fault: usize) -> Result<(), OutOfMemory>
        ensures named { OnOk result (self.new.namings.items ≡ self.old.namings.items ++ namings_of fault (keys_told keys)) }
        ensures same { self.new.faults ≡ self.old.faults }
        ensures lines { self.new.lines ≡ self.old.lines }
        ensures badges { self.new.badges ≡ self.old.badges }
    {
        match keys {
            Keys::None => {}
            Keys::One(key) => self.namings.push(Naming { key, fault })?,
            Keys::Two(one, other) => {
                self.namings.push(Naming { key: one, fault })?;
                self.namings.push(Naming { key: other, fault })?;
            }
        }
        Ok(())
    }

    /// Adds what the tree shows of a fault.
    fn mark(&mut self, number: u8, keys: Keys, line: &[u8]) -> Result<(), OutOfMemory>
        ensures faults { self.new.faults ≡ self.old.faults }
        ensures namings { self.new.namings ≡ self.old.namings }
        ensures lines { self.new.lines ≡ self.old.lines }
        ensures shows { OnOk result (self.new.badges.items
            ≡ self.old.badges.items ++ badges_of_fault number (keys_told keys) (words_in_line line.now)) }
    {
        self.mark_bridge(number, line)?;
        self.mark_functions(number, keys, line)
    }

    /// Adds what the tree shows of a fault beside the bridge that it names.
    fn mark_bridge(&mut self, number: u8, line: &[u8]) -> Result<(), OutOfMemory>
        ensures faults { self.new.faults ≡ self.old.faults }
        ensures namings { self.new.namings ≡ self.old.namings }
        ensures lines { self.new.lines ≡ self.old.lines }
        ensures shows { OnOk result (self.new.badges.items ≡ self.old.badges.items
            ++ map (badge_of number true) (bridge_slots number
            (nth_word (words_in_line line.now) (length (words_in_line line.now) - 1)))) }
    {
        if number != 60 {
            return Ok(());
        }
        match slot_number(word(line, word_count(line).saturating_sub(1))) {
            Some(slot) => self.badge(slot, number, true),
            None => Ok(()),
        }
    }

    /// Adds what the tree shows of a fault beside the functions of its regions, or else beside the first one of its line.
    fn mark_functions(&mut self, number: u8, keys: Keys, line: &[u8]) -> Result<(), OutOfMemory>
        ensures faults { self.new.faults ≡ self.old.faults }
        ensures namings { self.new.namings ≡ self.old.namings }
        ensures lines { self.new.lines ≡ self.old.lines }
        ensures shows { OnOk result (self.new.badges.items ≡ self.old.badges.items
            ++ map (badge_of number false) (slots_of_keys (keys_told keys) (words_in_line line.now))) }
    {
        match keys {
            Keys::One(key) => self.badge(slot_of(key), number, false),
            Keys::Two(one, other) => {
                self.badge(slot_of(one), number, false)?;
                self.badge(slot_of(other), number, false)
            }
            Keys::None => match first_slot(line) {
                Some(slot) => self.badge(slot, number, false),
                None => Ok(()),
            },
        }
    }

    /// Adds one badge.
    fn badge(&mut self, slot: u32, number: u8, is_bridge: bool) -> Result<(), OutOfMemory>
        ensures faults { self.new.faults ≡ self.old.faults }
        ensures namings { self.new.namings ≡ self.old.namings }
        ensures lines { self.new.lines ≡ self.old.lines }
        ensures shows { OnOk result
            (self.new.badges.items ≡ self.old.badges.items ++ badge_of number is_bridge slot ∷ []) }
    {
        self.badges.push(Badge {
            slot,
            number,
            is_bridge,
        })?;
        Ok(())
    }

    /// Adds a further line of the last fault.
    fn reason(&mut self, line: &'a [u8]) -> Result<(), OutOfMemory>
        ensures faults { fault_numbers self.new.faults.items ≡ fault_numbers self.old.faults.items }
        ensures namings { self.new.namings ≡ self.old.namings }
        ensures badges { self.new.badges ≡ self.old.badges }
        ensures said { OnOk result ((said : List FaultSaid) → AreLinesOf said self.old
            → AreLinesOf (with_reason said line.entry.now) self.new) }
        ensures named { OnOk result (HasNamings self.old → HasNamings self.new) }
    {
        if let Some(fault) = self.faults.last_mut() {
            self.lines.push(line)?;
            fault.end = self.lines.len();
        }
        Ok(())
    }

    /// Reads a line: the first one of a fault, a further one, or none of a fault.
    fn take(&mut self, line: &'a [u8]) -> Result<(), OutOfMemory>
        ensures adds { OnOk result (AddsFault (number_before_blank line.entry.now) line.entry.now self.old self.new) }
        ensures shows { OnOk result
            (self.new.badges.items ≡ self.old.badges.items ++ badges_of_line line.entry.now) }
        ensures said { OnOk result ((said : List FaultSaid) → AreLinesOf said self.old
            → AreLinesOf (with_fault_line said line.entry.now (number_before_blank line.entry.now)) self.new) }
        ensures named { OnOk result (HasNamings self.old → HasNamings self.new) }
    {
        if let Some(number) = Fault::number_of(line) {
            self.begin(number, line)
        } else if line.starts_with(b"  ") {
            self.reason(stripped(line))
        } else {
            Ok(())
        }
    }
}

impl<'a, A: Allocator + Copy> Faults<'a, A> {
    ghost use Rattle.std.specs.Prelude.{◌≡◌, ◌==◌, [], map, slice_index_or, IfOk};
    ghost use Rattle.std.specs.List.{filter, slice_get};
    ghost use Rattle.pci_picture.specs.Badges.{AreBadgesOf, badges_beside};
    ghost use Rattle.pci_picture.specs.Marks.{has_naming, has_one_of};
    ghost use Rattle.pci_picture.specs.Said.{AreFaultsOf, AreSaidOf, faults_said};
    ghost use Rattle.pci_picture.specs.FaultLines.{faults_read};

    /// Reads the faults from what `faults --why` prints.
    pub fn read(alloc: A, text: &'a str) -> Result<Faults<'a, A>, OutOfMemory>
        ensures named { IfOk result (λ faults. AreFaultsOf text.entry.now faults) }
        ensures said { IfOk result (λ faults. AreSaidOf text.entry.now faults) }
        ensures shown { IfOk result (λ faults. AreBadgesOf text.entry.now faults) }
        ensures lines { IfOk result (λ faults. faults_read faults ≡ faults_said text.entry.now) }
    {
        let mut reader = Reader {
            lines: Vec::new(alloc),
            faults: Vec::new(alloc),
            namings: Vec::new(alloc),
            badges: Vec::new(alloc),
        };
        for line in text.split('\n') {
            reader.take(line.as_bytes())?;
        }
        // they were added by rising fault, and the sort is stable
        reader.namings.sort_by_key(|naming| naming.key)?;
        reader.badges.sort_by_key(|badge| badge.rank())?;
        Ok(Faults {
            lines: reader.lines,
            faults: reader.faults,
            namings: reader.namings,
            badges: reader.badges,
        })
    }

    /// The line with an index, or nothing behind the last one.
    pub fn line(&self, index: usize) -> &'a [u8]
        ensures { result.now ≡ slice_index_or (map (λ line. line.now) self.entry.now.lines.items) index [] }
    {
        match self.lines.get(index) {
            Some(line) => line,
            None => &[],
        }
    }

    /// The faults that are about a region.
    pub fn of(&self, key: u64) -> &[Naming]
        ensures { result.now ≡ filter (λ naming. naming.key == key) self.now.namings.items }
    {
        let begin = self.namings.partition_point(|naming| naming.key < key);
        let end = self.namings.partition_point(|naming| naming.key <= key);
        self.namings.as_slice().get(begin..end).unwrap_or(&[])
    }

    /// What the tree shows beside a function.
    pub fn beside(&self, slot: u32) -> &[Badge]
        ensures { result.now ≡ badges_beside self.now slot }
    {
        let begin = self.badges.partition_point(|badge| badge.slot < slot);
        let end = self.badges.partition_point(|badge| badge.slot <= slot);
        self.badges.as_slice().get(begin..end).unwrap_or(&[])
    }

    /// Whether the fault with an index has one of two numbers.
    fn is_numbered(&self, index: usize, one: u8, other: u8) -> bool
        ensures { result ≡ has_one_of one other (slice_get self.now.faults.items index) }
    {
        match self.faults.get(index) {
            Some(fault) => fault.number == one || fault.number == other,
            None => false,
        }
    }

    /// Whether a fault about a region has one of two numbers.
    pub fn has(&self, key: u64, one: u8, other: u8) -> bool
        ensures { result ≡ has_naming self.now.faults.items self.now.namings.items one other key }
    {
        self.of(key)
            .iter()
            .any(|naming| self.is_numbered(naming.fault, one, other))
    }
}
