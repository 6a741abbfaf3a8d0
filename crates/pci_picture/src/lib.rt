//! A picture of a board as SVG: its functions as a tree, and each section of its map as boxes on an axis of addresses.
//!
//! ```text
//! let text = picture_of(alloc, &texts)?; // `<svg ..>`, of what `show`, `map` and `faults --why` print
//! ```
#![tactic(auto)]

pub mod badge;
pub mod board;
pub mod canvas;
pub mod elements;
pub mod fault_list;
pub mod faults;
pub mod function;
pub mod heights;
pub mod lanes;
pub mod laws;
pub mod legend;
pub mod listing;
pub mod look;
pub mod map;
pub mod memory;
pub mod picture;
pub mod plan;
pub mod reading;
pub mod region;
pub mod section;
pub mod style;
pub mod tellings;
pub mod tree;
pub mod words;
