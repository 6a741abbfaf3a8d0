//! Texts of dumps, for the tests that read and write them.

use pci_dump::read_fault::ReadFault;
use pci_dump::reader::read_dump;
use std::alloc::AllocError;
use test_support::fakes::Pieces;

/// What follows the slot line of a block of zeros.
const ZEROS: &[u8] = b"00: 00 00 00 00 00 00 00 00 00 00 00 00 00 00 00 00\n\
10: 00 00 00 00 00 00 00 00 00 00 00 00 00 00 00 00\n\
20: 00 00 00 00 00 00 00 00 00 00 00 00 00 00 00 00\n\
30: 00 00 00 00 00 00 00 00 00 00 00 00 00 00 00 00\n\
40: 00 00 00 00 00 00 00 00 00 00 00 00 00 00 00 00\n\
50: 00 00 00 00 00 00 00 00 00 00 00 00 00 00 00 00\n\
60: 00 00 00 00 00 00 00 00 00 00 00 00 00 00 00 00\n\
70: 00 00 00 00 00 00 00 00 00 00 00 00 00 00 00 00\n\
80: 00 00 00 00 00 00 00 00 00 00 00 00 00 00 00 00\n\
90: 00 00 00 00 00 00 00 00 00 00 00 00 00 00 00 00\n\
a0: 00 00 00 00 00 00 00 00 00 00 00 00 00 00 00 00\n\
b0: 00 00 00 00 00 00 00 00 00 00 00 00 00 00 00 00\n\
c0: 00 00 00 00 00 00 00 00 00 00 00 00 00 00 00 00\n\
d0: 00 00 00 00 00 00 00 00 00 00 00 00 00 00 00 00\n\
e0: 00 00 00 00 00 00 00 00 00 00 00 00 00 00 00 00\n\
f0: 00 00 00 00 00 00 00 00 00 00 00 00 00 00 00 00\n\
\n";

/// The steps of the readers that the texts are tried with.
pub const STEPS: [usize; 4] = [1, 7, 841, 4096];

/// Texts one after the other.
pub fn joined(rt: &HostRuntime, parts: &[&[u8]]) -> Result<Vec<u8>, AllocError> {
    let mut text = Vec::new(rt.alloc());
    for part in parts {
        text.extend_from_slice(part)?;
    }
    Ok(text)
}

/// A block of zeros, whose slot line is this.
pub fn block(rt: &HostRuntime, line: &[u8]) -> Result<Vec<u8>, AllocError> {
    joined(rt, &[line, ZEROS])
}

/// How many blocks a text has, or its fault.
pub fn outcome(rt: &HostRuntime, text: &[u8], step: usize) -> Result<usize, ReadFault> {
    let dump = read_dump(rt.alloc(), &mut Pieces::new(text, step, 0))?;
    Ok(dump.blocks().len())
}

/// Whether a text is read so, in each cutting.
fn is_read_as(rt: &HostRuntime, text: &[u8], wanted: Result<usize, ReadFault>) -> bool {
    for step in STEPS {
        if outcome(rt, text, step) != wanted {
            return false;
        }
    }
    true
}

/// Whether two parts together are.
pub fn reads_as(
    rt: &HostRuntime,
    front: &[u8],
    end: &[u8],
    wanted: Result<usize, ReadFault>,
) -> bool {
    match joined(rt, &[front, end]) {
        Ok(text) => is_read_as(rt, &text, wanted),
        Err(_) => false,
    }
}
