//! Writes as C has them.
ghost use Rattle.std.specs.Prelude.{◌≡◌, ◌<◌, map, length, IfOk, IfErr};
ghost use Rattle.pci_plan.specs.Writes.{write_value};
ghost use Rattle.pciplan_c.specs.RegisterWrites.{AreWritesPut, write_value_of};

use pci_base::memory::OutOfMemory;
use pci_plan::write::Write;
use std::alloc::Allocator;

/// A write of `width` little-endian bytes, 2 or 4, to a byte offset of a function.
#[repr(C)]
#[derive(Clone, Copy, Debug, PartialEq, Eq)]
pub struct RegisterWrite {
    pub bus: u8,
    pub device: u8,
    pub function: u8,
    pub offset: u8,
    pub width: u8,
    pub value: u32,
}

impl RegisterWrite {
    /// A write of a plan.
    pub fn of(write: &Write) -> RegisterWrite
        ensures { write_value_of result ≡ write_value write.now }
    {
        RegisterWrite {
            bus: write.slot.bus(),
            device: write.slot.dev(),
            function: write.slot.fun(),
            offset: write.off,
            width: write.width,
            value: write.value,
        }
    }
}

/// The writes of a plan.
pub fn writes_of<A: Allocator>(
    alloc: A,
    writes: &[Write],
) -> Result<Vec<RegisterWrite, A>, OutOfMemory>
    ensures { IfOk result (λ all. map write_value_of all.items ≡ map write_value writes.now) }
{
    let Ok(mut all) = Vec::with_capacity(alloc, writes.len()) else {
        return Err(OutOfMemory);
    };
    for write in writes {
        all.push(RegisterWrite::of(write))?;
    }
    Ok(all)
}

/// Puts the writes of a plan at the front of an array, and answers how many they are.
///
/// # Errors
///
/// How many they are, where the array has room for fewer. It stays as it was.
pub fn put_writes(writes: &[Write], array: &mut [RegisterWrite]) -> Result<usize, usize>
    ensures put { IfOk result (AreWritesPut writes.now array.old array.new) }
    // some of the writes must not be taken for all
    ensures quiet { IfErr result (λ _. array.new ≡ array.old) }
    // so that a caller can make room and call again
    ensures needed { IfErr result
        (λ needed. (needed ≡ length writes.now) × (length array.old < needed)) }
{
    let count = writes.len();
    if array.len() < count {
        return Err(count);
    }
    for i in 0..count {
        array[i] = RegisterWrite::of(&writes[i]);
    }
    Ok(count)
}
