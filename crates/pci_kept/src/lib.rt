//! Which parts of functions stand where they are: BARs, ROMs and windows that lie in the ranges of their root or in
//! the window over them, and share no address with what comes before them. And which told ranges do.
//!
//! Which of these parts stay: what stands, with room in each window for what is behind it, and below windows that stay
//! ([`staying`]).
//!
//! In the comments "Bridge 1.2" is the PCI-to-PCI Bridge Architecture Specification 1.2.
#![tactic(auto)]

pub mod apart;
pub mod behind;
pub mod bridges;
pub mod collect;
pub mod fixed;
pub mod held;
pub mod holding;
pub mod leads;
pub mod off;
pub mod open_windows;
pub mod order;
pub mod pass;
pub mod place;
pub mod ranges;
pub mod region;
pub mod room;
pub mod rows;
pub mod rules;
pub mod standing_ranges;
pub mod staying;
pub mod taken;
pub mod taken_on;
pub mod told_line;
pub mod windows;
