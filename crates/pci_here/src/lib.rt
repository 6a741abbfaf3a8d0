//! What Linux tells of the PCI functions of a machine: their registers, the sizes of these, the root
//! buses, and which addresses the host sends to them.
//!
//! [`domain::domain_of`] reads a domain from a [`Machine`]: each function's 256 bytes and the first
//! seven lines of its file `resource` from `sys/bus/pci/devices`, its root bus from the link there, and
//! the host's ranges from `proc/ioports` and `proc/iomem`. A BAR that Linux couldn't place has a line of
//! zeros in `resource`: a [`Log`] tells its size. Nothing is written. A [`FileMachine`] is a machine whose
//! `sys` and `proc` are folders.
//!
//! ```text
//! let machine = FileMachine::under(&rt, "");
//! for domain in &domains_of(rt.alloc(), &machine)? {
//!     let found = domain_of(rt.alloc(), &machine, *domain)?;
//!     print!(rt; "{}", words_text(rt.alloc(), &found)?)?;
//! }
//! ```
#![tactic(auto)]

pub mod bus;
pub mod bus_line;
pub mod domain;
pub mod files;
pub mod function;
pub mod functions;
pub mod host_ranges;
pub mod link;
pub mod log;
pub mod log_line;
pub mod machine;
mod part;
pub mod place;
pub mod places;
pub mod resource;
pub mod trouble;
pub mod words;

pub use domain::{Domain, domain_of, domains_of};
pub use files::FileMachine;
pub use log::Log;
pub use machine::Machine;
pub use place::Place;
pub use trouble::{Trouble, TroubleAt};
pub use words::words_text;
