//! The listing of a dump and its probe: each function's identity, windows, BARs, ROM and capabilities, a line each.
//!
//! ```text
//! let text = show(rt.alloc(), &dump, &probe)?; // the lines of every function, by rising slots
//! ```
#![tactic(auto)]

pub mod amount;
pub mod hex_text;
pub mod listing;
pub mod show;
