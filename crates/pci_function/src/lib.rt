//! One function examined, and what can be wrong: with a function by itself, with a dump and its probe, with a system.
//!
//! `examine` looks at a function in the order in which its faults are named: `profile` at its identity and its probe,
//! `decode` at its registers, then at the places of its capabilities, and `profile` at what it may not do. What is kept
//! of it is a `Record`. `fault` has each fault with its number, its phase and its text.
//!
//! ```text
//! let record = examine(block.slot, &block.image, &probe.image)?;
//! let bars = record.bars.len();
//! let fault = Fault::NoVendor(block.slot);
//! let text = format!("{fault}");
//! ```
#![tactic(auto)]

pub mod decode;
pub mod examine;
pub mod fault;
pub mod profile;
pub mod record;
mod stray;

pub use fault::{Fault, PairFault};
pub use pci_base::space::{Address, Space};
pub use record::{Bridge, Record};
