//! What a plan starts from, register by register, as C compares it.
ghost use Rattle.std.specs.Prelude.{◌≡◌, map, IfOk, IfErr};
ghost use Rattle.pci_plan.specs.Steps.{all_shown};
ghost use Rattle.pciplan_c.specs.RegisterWrites.{write_value_of};
ghost use Rattle.pciplan_c.specs.Stepping.{IsStartPut, IsNoStart, IsNoDump, AreShown};

use crate::admitting::read;
use crate::put::{Withheld, put};
use crate::register_write::{RegisterWrite, writes_of};
use pci_base::memory::{OutOfMemory, Refused};
use pci_dump::block::Block;
use pci_dump::read_fault::ReadFault;
use pci_plan::start::start_of;
use std::alloc::Allocator;

/// Why no registers are put anywhere.
#[derive(Clone, Copy, Debug, PartialEq, Eq)]
pub enum NoStart {
    /// A growth was refused.
    Memory,
    /// The dump is no text: it has this fault.
    Dump(ReadFault),
    /// The array has room for fewer registers than these.
    Registers(usize),
}

/// The registers that are compared, with what they show in these blocks.
fn shown<A: Allocator + Copy>(
    alloc: A,
    blocks: &[Block],
) -> Result<Vec<RegisterWrite, A>, OutOfMemory>
    ensures { IfOk result (λ all. map write_value_of all.items ≡ all_shown blocks.now) }
{
    let all = start_of(alloc, blocks)?;
    writes_of(alloc, all.as_slice())
}

/// The registers of a dump's text.
fn shown_in<A: Allocator + Copy>(alloc: A, dump: &[u8]) -> Result<Vec<RegisterWrite, A>, NoStart>
    ensures shown { IfOk result (λ all. AreShown dump.now all.items) }
    ensures why { IfErr result (IsNoDump dump.now) }
{
    let dump = match read(alloc, dump) {
        Ok(dump) => dump,
        Err(Refused::Fault(fault)) => return Err(NoStart::Dump(fault)),
        Err(Refused::Memory) => return Err(NoStart::Memory),
    };
    match shown(alloc, dump.blocks()) {
        Ok(all) => Ok(all),
        Err(OutOfMemory) => Err(NoStart::Memory),
    }
}

/// Puts the registers that are compared before a plan's first write at the front of `registers`, with what they show in
/// the dump that is planned, and answers how many they are: of each function, the lowest slot first, Command and then
/// the address registers by rising offset.
///
/// # Errors
///
/// `Memory` where a growth was refused, `Dump` where the dump is no text, `Registers` where `registers` has no room. Then
/// they stay as they were.
pub fn start_into<A: Allocator + Copy>(
    alloc: A,
    dump: &[u8],
    registers: &mut [RegisterWrite],
) -> Result<usize, NoStart>
    ensures put { IfOk result (IsStartPut dump.now registers.old registers.new) }
    // half a start must not be taken for one
    ensures quiet { IfErr result (λ _. registers.new ≡ registers.old) }
    ensures why { IfErr result (IsNoStart dump.now registers.old) }
{
    let all = shown_in(alloc, dump)?;
    match put(all.as_slice(), registers) {
        Ok(count) => Ok(count),
        Err(Withheld::Memory) => Err(NoStart::Memory),
        Err(Withheld::NoRoom(needed)) => Err(NoStart::Registers(needed)),
    }
}
