//! What tests stand on: functions and boards that are built register by register, their texts, streams that give
//! little at a time or fail, and an allocator that refuses a growth.
//!
//! ```text
//! let bar = [(0x10, 0xe000_0000, 0xfff0_0000)]; // offset, value, what it reads back
//! let board = [bridge("00:01.0", 2, (0, 1, 1), &[]), device("01:00.0", 2, &bar)];
//! let texts = texts_of(rt.alloc(), &board)?; // a dump and its probe
//! ```
#![tactic(auto)]

pub mod board;
pub mod example;
pub mod fakes;
pub mod planned;
pub mod refusing;
pub mod registers;
pub mod row;
pub mod samples;
