//! Lines one after the other.
ghost use Rattle.std.specs.Prelude.{◌≡◌, ◌≢◌, ◌+◌, ◌≤◌, length, OnOk, IfOk, IfErr};
ghost use Rattle.judge_spec.specs.Told.{IsTold};
ghost use Rattle.judge_spec.specs.ToldForm.{Bus, Digits, nothing_read, IsBegun, is_in_order, slot_follows, Reading, take_byte, take_bytes};
ghost use Rattle.pci_dump.specs.ToldFaults.{StopsWith};
ghost use Rattle.pci_dump.specs.ToldSteps.{AreTaken, BeginWithDigits};

use super::told_field::{Field, Place};
use super::told_line::{Line, Next};
use super::told_list::ToldList;
use super::told_range::ToldRange;
use crate::read_fault::ReadFault;
use pci_base::slot::Slot;
use std::alloc::Allocator;
use std::marker::Model;
use std::mem;

/// The most lines of a text.
pub(crate) const LINES_MAX: usize = 4096;

/// What is read of a text: the ranges of whole lines, and a line that is begun.
#[derive(Drop)]
pub(crate) struct Lines<A: Allocator> {
    ranges: Vec<ToldRange, A>,
    line: Line,
}

impl<A: Allocator> Model for Lines<A> {
    ghost use Rattle.judge_spec.specs.ToldForm.{ToldSoFar};

    ghost Value = { ToldSoFar };

    ghost view = { λ s. record { ranges = s.ranges.items; line = s.line } };
}

/// Whether a slot may stand behind those of some ranges: it isn't below the last one.
fn slot_follows(ranges: &[ToldRange], slot: Slot) -> bool
    ensures { result ≡ slot_follows ranges.now slot }
{
    match ranges.last() {
        None => true,
        Some(last) => last.slot.number() <= slot.number(),
    }
}

impl<A: Allocator> Lines<A> {
    /// Nothing is read. The ranges grow by `alloc`.
    pub(crate) fn new(alloc: A) -> Lines<A>
        ensures { result ≡ nothing_read }
    {
        Lines {
            ranges: Vec::new(alloc),
            line: Line::new(),
        }
    }

    /// The line of the next byte, from 1.
    fn number(&self) -> u64
        ensures { result ≡ length self.now.ranges + 1 }
    {
        self.ranges.len() as u64 + 1
    }

    /// Whether what is just complete, a slot or a range, is in order.
    fn is_in_order(&self) -> bool
        ensures { result ≡ is_in_order self.now.ranges self.now.line.place self.now.line.range }
    {
        let range = &self.line.range;
        match self.line.place {
            Place::After(Field::Function) => slot_follows(&self.ranges, range.slot),
            Place::After(Field::Last) => range.first <= range.last,
            _ => true,
        }
    }

    /// Takes the next byte.
    ///
    /// Errors: 3, 5, 7 and 8 where the text has that fault at this byte, 2 `Memory` where a growth was refused.
    #[tactic(auto, unfolding(judge_spec::specs::ToldForm::take_byte))]
    pub(crate) fn take(&mut self, byte: u8) -> Result<(), ReadFault>
        requires { IsBegun self.old.line }
        ensures ok { OnOk result (take_byte self.old byte ≡ Reading self.new) }
        ensures fault { IfErr result (StopsWith (take_byte self.old byte)) }
    {
        if self.ranges.len() == LINES_MAX {
            return Err(ReadFault::TooMany(self.number()));
        }
        match self.line.step(byte) {
            Next::Wrong => {
                if self.line.is_of_slot() {
                    Err(ReadFault::BadSlot(self.number()))
                } else {
                    Err(ReadFault::BadLine(self.number()))
                }
            }
            Next::Goes => {
                if self.is_in_order() {
                    Ok(())
                } else {
                    Err(ReadFault::Order(self.number()))
                }
            }
            Next::Ends => {
                let line = mem::replace(&mut self.line, Line::new());
                match self.ranges.push(line.range) {
                    Ok(()) => Ok(()),
                    Err(_) => Err(ReadFault::Memory),
                }
            }
        }
    }

    /// Takes the digits of an address that `bytes` begins with, but its last one, and answers how many these are.
    fn take_digits(&mut self, bytes: &[u8]) -> usize
        requires { IsBegun self.old.line }
        ensures count { result ≤ length bytes.now }
        // behind 4,096 lines no byte is taken
        ensures over { length self.old.ranges ≡ 4096 → result ≡ 0 }
        ensures digits { length self.old.ranges ≢ 4096
            → BeginWithDigits self.old.line bytes.now result }
        ensures taken { AreTaken self.old bytes.now result self.new }
    {
        if self.ranges.len() == LINES_MAX {
            return 0;
        }
        self.line.take_digits(bytes)
    }

    /// Takes bytes one after the other.
    pub(crate) fn take_all(&mut self, bytes: &[u8]) -> Result<(), ReadFault>
        requires { IsBegun self.old.line }
        ensures ok { OnOk result (take_bytes self.old bytes.now ≡ Reading self.new) }
        ensures fault { IfErr result (StopsWith (take_bytes self.old bytes.now)) }
    {
        let mut at = 0;
        while at < bytes.len() {
            at += self.take_digits(&bytes[at..]);
            if at < bytes.len() {
                self.take(bytes[at])?;
                at += 1;
            }
        }
        Ok(())
    }

    /// The ranges of a text that has ended.
    ///
    /// Errors: 9 `Ended` where a line is begun.
    pub(crate) fn finish(self) -> Result<ToldList<A>, ReadFault>
        requires { IsTold self.ranges }
        ensures ok { IfOk result (λ list. (list ≡ self.ranges) × (self.line.place ≡ Digits Bus 0)) }
        ensures err { IfErr result (λ fault. (fault ≡ ReadFault.Ended (length self.ranges + 1)) × (self.line.place ≡ Digits Bus 0 → ⊥)) }
    {
        if self.line.is_new() {
            Ok(ToldList::of(self.ranges))
        } else {
            Err(ReadFault::Ended(self.number()))
        }
    }
}
