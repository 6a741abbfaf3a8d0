//! The settled dump, and the writes that lead to it.
//!
//! The large steps of settling are `#[inline(never)]`: each lets its frame go before the next one begins, so the stack holds one at
//! a time.
#![tactic(auto)]

pub mod alike;
pub mod assumed;
pub mod bounds;
pub mod closed;
pub mod dump;
pub mod ended;
pub mod fixed;
pub mod growth;
pub mod io;
pub mod lack;
pub mod settle;
pub mod shut;
pub mod sparing;
pub mod standing;
pub mod tables;
pub mod told;
pub mod way;
pub mod wished;
pub mod wishes;
pub mod wishes_asked;
pub mod wishes_before;
pub mod writes;
