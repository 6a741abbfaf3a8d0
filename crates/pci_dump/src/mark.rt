//! Titles that name the registers of a function whose read backs are assumed, as `assumed 1c,30`.
//!
//! A derived probe has such a title where nothing told what a register reads back. A title of any other form names none.
ghost use Rattle.std.specs.Prelude.{◌≡◌, ◌≤◌, ◌<◌, ◌+◌, ◌++◌, ◌∷◌, ◌==◌, length, map, IfOk, IfSome, OnOk, None, Some};
ghost use Rattle.std.specs.List.{AllWithin, list_any};
ghost use Rattle.pci_spec.specs.Slot.{slot_number};
ghost use Rattle.arrayvec.specs.ArrayVec.{array_vec_len};
ghost use Rattle.pci_spec.specs.Text.{IsDump, hex_byte};
ghost use Rattle.pci_spec.specs.Mark.{all_named, assumed_at, digit, is_size_assumed, mark, marked, or_none_named, registers_in};
ghost use Rattle.pci_dump.specs.Marks.{register_at};

use super::block::{Block, Title};
use super::block_text::{BLOCK_MAX, Text, put_byte, put_bytes};
use arrayvec::ArrayVec;
use pci_base::digit::digit_value;
use pci_base::memory::OutOfMemory;
use pci_base::slot::Slot;
use std::alloc::Allocator;
use std::fmt;
use std::marker::Model;

/// The word that such a title begins with.
const WORD: [u8; 7] = *b"assumed";

/// The most registers that a title has room for.
pub const NAMED_MAX: usize = 64;

/// A function's register, by its byte offset, whose read back is assumed.
#[derive(Clone, Copy, Debug, PartialEq, Eq)]
pub struct AssumedRegister {
    pub slot: Slot,
    pub register: u8,
}

impl Model for AssumedRegister {
    ghost use Rattle.pci_spec.specs.Mark.{AssumedRegister as AssumedValue};

    ghost Value = { AssumedValue };

    ghost view = { λ a. record { slot = a.slot; register = a.register } };

    ghost inverse = { λ v. record { slot = v.slot; register = v.register } };
}

/// Its slot and offset, as in `assumed 00:02.0 30`.
impl fmt::Display for AssumedRegister {
    ghost use Rattle.pci_spec.specs.ProbeOf.{assumed_text};

    ghost output = { λ a. Some (assumed_text a) };

    fn fmt<W: fmt::Write>(&self, f: &mut fmt::Formatter<W>) -> fmt::Result {
        let AssumedRegister { slot, register } = *self;
        write!(f, "assumed {slot} {register:02x}")
    }
}

// ---- what a title names

/// What a byte stands for as a hex digit in lower case.
fn digit(byte: u8) -> Option<u8>
    ensures digit { result ≡ digit byte }
    ensures small { IfSome result (λ d. d ≤ 15) }
{
    digit_value(byte)
}

/// The register that the first three bytes of a text spell: this separator and two hex digits.
fn register_at(text: &[u8], separator: u8) -> Option<u8>
    ensures { result ≡ register_at separator text.now }
{
    if text.len() < 3 || text[0] != separator {
        return None;
    }
    let high = digit(text[1])?;
    let low = digit(text[2])?;
    Some(16 * high + low)
}

/// The registers that a text spells behind the word; none where it spells none.
fn registers_of(text: &[u8]) -> ArrayVec<u8, NAMED_MAX>
    requires { length text.now ≤ 193 }
    ensures { result.items ≡ or_none_named (registers_in 32 text.now) }
{
    let mut registers = ArrayVec::new();
    let mut separator = b' ';
    let mut rest = text;
    while !rest.is_empty() {
        let register = match register_at(rest, separator) {
            None => return ArrayVec::new(),
            Some(register) => register,
        };
        registers.push(register);
        rest = &rest[3..];
        separator = b',';
    }
    registers
}

/// The registers that a title names as assumed, in its order.
pub fn marked(title: &Option<Title>) -> ArrayVec<u8, NAMED_MAX>
    ensures { result.items ≡ marked title.now }
{
    let text = match title {
        None => return ArrayVec::new(),
        Some(title) => title.bytes(),
    };
    match text.strip_prefix(WORD.as_slice()) {
        None => ArrayVec::new(),
        Some(rest) => registers_of(rest),
    }
}

/// Whether a title names a register as assumed.
pub fn is_named(title: &Option<Title>, register: u8) -> bool
    ensures { result ≡ list_any (λ r. r == register) (marked title.now) }
{
    let named = marked(title);
    for one in named.as_slice() {
        if *one == register {
            return true;
        }
    }
    false
}

// ---- the title of a derived block

/// Appends a register behind a separator.
fn put_register(text: &mut Text, separator: u8, register: u8)
    requires { array_vec_len text.old + 3 ≤ BLOCK_MAX }
    ensures text { text.new.items ≡ text.old.items ++ (separator ∷ hex_byte register) }
    ensures len { array_vec_len text.new ≡ array_vec_len text.old + 3 }
{
    text.push(separator);
    put_byte(text, register);
}

/// The title that names registers as assumed; none where there are none.
pub fn mark(registers: &[u8]) -> Option<Title>
    // a title has 200 bytes at most
    requires { length registers.now ≤ 64 }
    ensures { result ≡ mark registers.now }
{
    if registers.is_empty() {
        return None;
    }
    let mut text = Text::new();
    put_bytes(&mut text, &WORD);
    let mut separator = b' ';
    for register in registers {
        put_register(&mut text, separator, *register);
        separator = b',';
    }
    Some(Title::of_title(text.as_slice()))
}

// ---- a whole probe

/// Puts registers of the function at a slot after all that are there.
pub fn add_registers<A: Allocator>(
    named: &mut Vec<AssumedRegister, A>,
    slot: Slot,
    registers: &[u8],
) -> Result<(), OutOfMemory>
    ensures { OnOk result
        (named.new.items ≡ named.old.items ++ map (assumed_at slot) registers.now) }
{
    for register in registers {
        named.push(AssumedRegister {
            slot,
            register: *register,
        })?;
    }
    Ok(())
}

/// The registers that the titles of a probe's blocks name, in the order of the blocks.
///
/// Errors: 2 `OutOfMemory` where a growth was refused.
pub fn all_named<A: Allocator>(
    alloc: A,
    blocks: &[Block],
) -> Result<Vec<AssumedRegister, A>, OutOfMemory>
    ensures { IfOk result (λ named. named.items ≡ all_named blocks.now) }
{
    let mut named = Vec::new(alloc);
    for block in blocks {
        let registers = marked(&block.title);
        add_registers(&mut named, block.slot, registers.as_slice())?;
    }
    Ok(named)
}

/// The index of the first block whose slot isn't below one, or the number of blocks.
fn first_not_below(blocks: &[Block], slot: Slot) -> usize
    requires { IsDump blocks.now }
    ensures bound { result ≤ length blocks.now }
    ensures before { AllWithin (λ b. slot_number b.slot < slot_number slot) blocks.now 0 result }
    ensures after { AllWithin (λ b. slot_number slot ≤ slot_number b.slot) blocks.now result
        (length blocks.now) }
{
    let number = slot.number();
    blocks.partition_point(|block| block.slot.number() < number)
}

/// Whether the title of the block at a slot names a register.
pub fn is_size_assumed(blocks: &[Block], slot: Slot, register: u8) -> bool
    // the block is found by halving
    requires { IsDump blocks.now }
    ensures { result ≡ is_size_assumed (all_named blocks.now) slot register }
{
    let index = first_not_below(blocks, slot);
    if index == blocks.len() {
        return false;
    }
    let block = &blocks[index];
    block.slot == slot && is_named(&block.title, register)
}
