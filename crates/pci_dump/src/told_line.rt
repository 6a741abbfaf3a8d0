//! A line that is begun, and what its next byte makes of it.
ghost use Rattle.std.specs.Prelude.{◌≡◌, ◌<◌, Some, IsTrue, false};
ghost use Rattle.judge_spec.specs.ToldForm.{no_line, with_number, digit_step, step, is_of_slot, IsFit, IsBegun, Digits, goes_at, Bus, space_begins, space_step, mark_begins, mark_step, name_step};
ghost use Rattle.pci_dump.specs.ToldPlaces.{field_of, place_of};
ghost use Rattle.pci_dump.specs.ToldSteps.{IsStep, IsOfField, IsAddressField, AreTakenWithin, BeginWithDigits};

use super::told_field::{Field, Place, behind, digits_of, greatest_digit, is_of_slot, separator};
use super::told_range::{Mark, ToldRange};
use super::told_words::{is_name_byte, mark_word, space_word};
use pci_base::digit::digit_value;
use pci_base::slot::Slot;
use pci_base::space::Space;
use std::marker::Model;

/// What a byte makes of a line.
#[derive(Clone, Copy, Debug, PartialEq, Eq)]
pub(crate) enum Next {
    /// No line goes on so. What was read stays as it was.
    Wrong,
    /// The line goes on.
    Goes,
    /// The line has ended.
    Ends,
}

/// A line that is begun.
#[derive(Drop)]
pub(crate) struct Line {
    pub(crate) place: Place,
    /// The number that the digits so far spell.
    number: u64,
    /// What is read of the range.
    pub(crate) range: ToldRange,
}

impl Model for Line {
    ghost use Rattle.judge_spec.specs.ToldForm.{Begun};
    ghost use Rattle.pci_dump.specs.ToldPlaces.{place_of};

    ghost Value = { Begun };

    ghost view = { λ l. record { place = place_of l.place; number = l.number; range = l.range } };
}

/// The slot of these numbers.
fn slot_of(bus: u8, dev: u8, fun: u8) -> Slot
    requires dev { dev < 32 }
    requires fun { fun < 8 }
    ensures { result ≡ record { bus = bus; device = dev; function = fun } }
{
    Slot::new(bus, dev, fun).unwrap()
}

impl Line {
    /// A line of which no byte is read.
    pub(crate) fn new() -> Line
        ensures { result ≡ no_line }
    {
        Line {
            place: Place::Digits(Field::Bus, 0),
            number: 0,
            range: ToldRange::blank(),
        }
    }

    /// Whether the next byte is one of the first eight.
    pub(crate) fn is_of_slot(&self) -> bool
        ensures { result ≡ is_of_slot self.now.place }
    {
        is_of_slot(self.place)
    }

    /// Whether no byte is read.
    pub(crate) fn is_new(&self) -> bool
        ensures yes { IsTrue result → self.now.place ≡ Digits Bus 0 }
        ensures no { result ≡ false → self.now.place ≡ Digits Bus 0 → ⊥ }
    {
        self.place == Place::Digits(Field::Bus, 0)
    }

    /// Goes on to this place.
    fn go(&mut self, place: Place) -> Next
        ensures { IsStep self.old (goes_at (place_of place) self.old.range) result self.new }
    {
        self.place = place;
        self.number = 0;
        Next::Goes
    }

    /// Takes a number that is read.
    fn set(&mut self, field: Field, number: u64)
        requires { IsOfField (field_of field) number }
        ensures { self.new ≡ record self.old { range = with_number (field_of field) number self.old.range } }
    {
        let slot = self.range.slot;
        let _number = slot.number();
        match field {
            Field::Bus => self.range.slot = slot_of(number as u8, slot.dev(), slot.fun()),
            Field::Device => self.range.slot = slot_of(slot.bus(), number as u8, slot.fun()),
            Field::Function => self.range.slot = slot_of(slot.bus(), slot.dev(), number as u8),
            Field::First => self.range.first = number,
            Field::Last => self.range.last = number,
        }
    }

    /// Takes a digit behind so many of a number.
    fn digit(&mut self, field: Field, read: u8, digit: u8) -> Next
        requires digit { digit < 16 }
        requires fits { IsFit (Digits (field_of field) read) self.old.number self.old.range }
        ensures { IsStep self.old (digit_step (field_of field) read self.old.number self.old.range (Some digit)) result self.new }
    {
        if greatest_digit(field, read) < digit {
            return Next::Wrong;
        }
        let number = 16 * self.number + u64::from(digit);
        if read + 1 == digits_of(field, self.range.space) {
            self.set(field, number);
            return self.go(Place::After(field));
        }
        self.place = Place::Digits(field, read + 1);
        self.number = number;
        Next::Goes
    }

    /// Takes the digits of an address that `bytes` begins with, but its last one, and answers how many these are. Most bytes of a
    /// text are such digits.
    pub(crate) fn take_digits(&mut self, bytes: &[u8]) -> usize
        requires { IsBegun self.old }
        ensures count { BeginWithDigits self.old bytes.now result }
        ensures taken { AreTakenWithin self.old bytes.now result self.new }
    {
        match self.place {
            Place::Digits(Field::First, read) => self.take_more_digits(Field::First, read, bytes),
            Place::Digits(Field::Last, read) => self.take_more_digits(Field::Last, read, bytes),
            _ => 0,
        }
    }

    /// The same behind so many digits of an address.
    fn take_more_digits(&mut self, field: Field, read: u8, bytes: &[u8]) -> usize
        requires place { self.old.place ≡ Digits (field_of field) read }
        requires address { IsAddressField (field_of field) }
        requires begun { IsBegun self.old }
        ensures count { BeginWithDigits self.old bytes.now result }
        ensures taken { AreTakenWithin self.old bytes.now result self.new }
    {
        let most = digits_of(field, self.range.space) - 1;
        let mut number = self.number;
        let mut read = read;
        let mut count = 0;
        while read < most && count < bytes.len() {
            let Some(digit) = digit_value(bytes[count]) else {
                break;
            };
            number = 16 * number + u64::from(digit);
            read += 1;
            count += 1;
        }
        self.place = Place::Digits(field, read);
        self.number = number;
        count
    }

    /// Takes a byte at the first letter of the space.
    fn begin_space(&mut self, byte: u8) -> Next
        ensures { IsStep self.old (space_begins self.old.range byte) result self.new }
    {
        let (space, prefetchable) = match byte {
            b'i' => (Space::Io, false),
            b'm' => (Space::Mem, false),
            b'p' => (Space::Mem, true),
            _ => return Next::Wrong,
        };
        self.range.space = space;
        self.range.prefetchable = prefetchable;
        self.go(Place::InSpace(1))
    }

    /// Takes a byte behind so many letters of the space.
    fn space(&mut self, read: u8, byte: u8) -> Next
        ensures { IsStep self.old (space_step read self.old.range byte) result self.new }
    {
        let word = space_word(self.range.space, self.range.prefetchable);
        if usize::from(read) < word.len() {
            if word[usize::from(read)] != byte {
                return Next::Wrong;
            }
            return self.go(Place::InSpace(read + 1));
        }
        if byte == b' ' {
            self.go(Place::Digits(Field::First, 0))
        } else {
            Next::Wrong
        }
    }

    /// Takes a byte at the first letter of the mark.
    fn begin_mark(&mut self, byte: u8) -> Next
        ensures { IsStep self.old (mark_begins self.old.range byte) result self.new }
    {
        let mark = match byte {
            b'c' => Mark::Command,
            b'a' => Mark::Always,
            b'h' => Mark::Held,
            _ => return Next::Wrong,
        };
        self.range.mark = mark;
        self.go(Place::InMark(1))
    }

    /// Takes a byte behind so many letters of the mark.
    fn mark(&mut self, read: u8, byte: u8) -> Next
        ensures { IsStep self.old (mark_step read self.old.range byte) result self.new }
    {
        let word = mark_word(self.range.mark);
        if usize::from(read) < word.len() {
            if word[usize::from(read)] != byte {
                return Next::Wrong;
            }
            return self.go(Place::InMark(read + 1));
        }
        match byte {
            b'\n' => Next::Ends,
            b' ' => self.go(Place::InName),
            _ => Next::Wrong,
        }
    }

    /// Takes a byte of the name, or the line's end.
    fn name(&mut self, byte: u8) -> Next
        ensures { IsStep self.old (name_step self.old.range byte) result self.new }
    {
        if byte == b'\n' {
            return if self.range.name.is_empty() {
                Next::Wrong
            } else {
                Next::Ends
            };
        }
        if !is_name_byte(byte) || self.range.name.is_full() {
            return Next::Wrong;
        }
        self.range.name.push(byte);
        self.go(Place::InName)
    }

    /// Takes the next byte of the line.
    #[tactic(auto, unfolding(judge_spec::specs::ToldForm::step_at))]
    pub(crate) fn step(&mut self, byte: u8) -> Next
        requires { IsBegun self.old }
        ensures { IsStep self.old (step self.old byte) result self.new }
    {
        match self.place {
            Place::Digits(field, read) => match digit_value(byte) {
                None => Next::Wrong,
                Some(digit) => self.digit(field, read, digit),
            },
            Place::After(field) => {
                if byte == separator(field) {
                    self.go(behind(field))
                } else {
                    Next::Wrong
                }
            }
            Place::InSpace(0) => self.begin_space(byte),
            Place::InSpace(read) => self.space(read, byte),
            Place::InMark(0) => self.begin_mark(byte),
            Place::InMark(read) => self.mark(read, byte),
            Place::InName => self.name(byte),
        }
    }
}
