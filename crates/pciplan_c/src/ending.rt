//! What planning or settling ends with.
ghost use Rattle.std.specs.Prelude.{◌≡◌, ◌≢◌, ◌≤◌, ℕ, length, IfOk, IfErr};
ghost use Rattle.pciplan_c.specs.Endings.{IsReasonTold, IsTooLongFor};
ghost use Rattle.pciplan_c.specs.NoWrites.{IsMade, no_writes_text};

use crate::no_writes::NoWrites;
use crate::put::{Withheld, put};
use std::alloc::Allocator;

/// How many writes were put, and from how many on a stop leaves a sound system.
#[derive(Clone, Copy)]
pub struct Steps {
    pub count: usize,
    pub safe_from: usize,
}

/// Why no writes are put.
#[derive(Clone, Copy)]
pub enum NotPut {
    /// There are none.
    NoWrites(NoWrites),
    /// A growth was refused.
    Memory,
    /// The array has room for fewer writes than these.
    Writes(usize),
}

/// What planning or settling ends with.
#[derive(Clone, Copy, Debug, PartialEq, Eq)]
pub enum Ending {
    /// So many writes were put, and a stop from so many on leaves a sound system.
    Writes { count: usize, safe_from: usize },
    /// There are none, and so many bytes of the line say why.
    NoWrites { why: NoWrites, used: usize },
}

/// Why nothing is put anywhere.
#[derive(Clone, Copy, Debug, PartialEq, Eq)]
pub enum HeldBack {
    /// A growth was refused.
    Memory,
    /// The array has room for fewer writes than these.
    Writes(usize),
    /// The line is shorter than this.
    Line(usize),
}

/// Puts the text of why there are no writes into a line.
fn put_text(why: NoWrites, text: &[u8], line: &mut [u8]) -> Result<Ending, HeldBack>
    requires text { text.now ≡ no_writes_text why }
    requires short { length text.now ≤ 96 }
    ensures told { IfOk result (IsReasonTold why line.old line.new) }
    ensures quiet { IfErr result (λ _. line.new ≡ line.old) }
    ensures room { IfErr result (IsTooLongFor why line.old) }
    ensures short { IfErr result
        (λ held. (needed : ℕ) → held ≡ HeldBack.Line needed → needed ≤ 96) }
    ensures memory { IfErr result (λ held. held ≢ HeldBack.Memory) }
{
    match put(text, line) {
        Ok(used) => Ok(Ending::NoWrites { why, used }),
        Err(Withheld::Memory) => Err(HeldBack::Memory),
        Err(Withheld::NoRoom(needed)) => Err(HeldBack::Line(needed)),
    }
}

/// Puts why there are no writes into a line.
#[tactic(auto, using(crate::proofs::Lengths::no_writes_short))]
pub fn tell<A: Allocator>(alloc: A, why: NoWrites, line: &mut [u8]) -> Result<Ending, HeldBack>
    ensures told { IfOk result (IsReasonTold why line.old line.new) }
    // part of a line must not be taken for one
    ensures quiet { IfErr result (λ _. line.new ≡ line.old) }
    ensures room { IfErr result (IsTooLongFor why line.old) }
    // so 96 bytes always have room
    ensures short { IfErr result
        (λ held. (needed : ℕ) → held ≡ HeldBack.Line needed → needed ≤ 96) }
    // a constant text takes no memory
    ensures memory { IfErr result (λ held. held ≡ HeldBack.Memory → IsMade why) }
{
    // Read for their ranges: a line number has at most 20 digits, a size at most 16.
    let (_first, _second) = why.numbers();
    if let Some(text) = why.constant_text() {
        return put_text(why, text.as_bytes(), line);
    }
    let text = match format!(in alloc; "{why}") {
        Ok(text) => text,
        Err(_) => return Err(HeldBack::Memory),
    };
    put_text(why, text.as_bytes(), line)
}
