//! How functions are taken by a user's words ([`words::Words`]): a dump and its probe in which the images of some functions
//! are others ([`take::taken_by`]), so that all that lists, judges or explains them does so by these words.
//!
//! ```text
//! let taken = taken_by(alloc, &dump, &probe, words)?;
//! let found = all_faults(alloc, &taken.dump, &taken.probe, roots)?;
//! ```
#![tactic(auto)]

pub mod aside;
pub mod asleep;
pub mod bytes;
pub mod fixed_parts;
pub mod listed_behind;
pub mod power;
pub mod socket;
pub mod subtractive;
pub mod take;
pub mod taking;
pub mod windows;
pub mod words;
