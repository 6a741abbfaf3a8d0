//! Texts of PCI configuration dumps, and the readers and writers that they go through.
//!
//! A text lists functions by rising slots, at most 4,096 of them. Each is a block of eighteen lines:
//! `bb:dd.f`, with a space and a title where it has one; sixteen lines of an offset and sixteen
//! bytes, as `10: 08 00 00 fe ..`; and an empty line. It is what `lspci -xxx` prints, in lower case.
//!
//! ```text
//! let mut source = Incoming::new(file);
//! let dump = read_dump(rt.alloc(), &mut source)?;
//! let first = dump.blocks().first();
//! write_dump(&mut Outgoing::new(rt.stdout()), &dump)?;
//! ```
//!
//! From bytes to blocks: a `Source` gives bytes, `ahead` holds them and hands out blocks, `parse`
//! finds a block at the front of some bytes, `rows`, `tail`, `row` and `lanes` its lines. Back:
//! `block_text` spells a block, `write` hands it to a `Sink`.
//!
//! # Told ranges
//!
//! Another text tells what functions answer beside their BARs and ROMs.
//!
//! A row of lines, at most 4,096, tells of ranges of addresses: those of virtual functions, of Enhanced Allocation, of an
//! IDE channel, of registers that only a chipset's datasheet tells of. A line has a slot, a space, the first and the last
//! address, a mark, and a name where it has one:
//!
//! ```text
//! 00:1f.1 io 000001f0-000001f7 command
//! 00:1f.3 io 00000400-0000041f always smbus
//! ```
//!
//! [`read_told`] reads it byte by byte: `told_line` takes the bytes of a line, `told_lines` those of all lines.
#![tactic(auto)]

pub mod ahead;
pub mod block;
mod block_text;
pub mod dump;
mod lanes;
pub mod mark;
mod parse;
pub mod read_fault;
pub mod reader;
mod row;
mod rows;
pub mod slot_text;
pub mod std_streams;
pub mod streams;
mod tail;
mod told_field;
mod told_line;
mod told_lines;
pub mod told_list;
pub mod told_range;
pub mod told_reader;
mod told_words;
pub mod write;

pub use block::{Block, Title};
pub use dump::{Dump, PushFault};
pub use pci_base::memory::{OutOfMemory, Refused};
pub use read_fault::{ReadFault, WriteFault};
pub use reader::{Reader, read_dump};
pub use std_streams::{Incoming, Outgoing};
pub use streams::{Failed, Sink, Source};
pub use told_list::{ToldList, first_of_slot};
pub use told_range::{Mark, NAME_MAX, ToldRange};
pub use told_reader::read_told;
pub use write::write_dump;
