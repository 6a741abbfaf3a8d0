//! Bus numbers for a board that has none: `number::number` gives them over any port to the board's
//! configuration space (`port::BoardPort`), depth first in the order of devices and functions
//! (Bridge 1.2, 3.2.5.2 to 3.2.5.4).
//!
//! Definitions: where an access to configuration space goes on a board whose bridges may have any bus numbers, and which
//! numbers the bridges of a board get. `numbering_laws` has laws of them.
#![tactic(auto)]

pub mod access;
pub mod board_laws;
pub mod hot_plug;
mod hush;
mod lead;
mod look;
pub mod number;
pub mod numbering_laws;
mod open;
pub mod port;
mod put;
pub mod replay;
mod spare;
pub mod stop;
mod walk;

pub use port::{AccessFailed, BoardPort};
pub use stop::{NotTaken, Stop};
