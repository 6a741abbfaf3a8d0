//! The address map of an outline, with what is given and told: which enabled region and which told range stands where, what
//! of each window and of each root bus is free, which regions are out of place, which no way leads to, and what is off.
//!
//! ```text
//! let text = map_text(alloc, &outline, &given, &told)?; // `bus 00 mem`, and below it a line for each region and each free run
//! ```
#![tactic(auto)]

pub mod above;
pub mod addresses;
pub mod asides;
pub mod bus_seats;
pub mod buses;
pub mod cells;
pub mod gaps;
pub mod inside;
pub mod left;
pub mod line;
pub mod mapped;
pub mod off;
pub mod seat;
pub mod takers;
pub mod takings;
pub mod text;
pub mod walk;
pub mod ways;
