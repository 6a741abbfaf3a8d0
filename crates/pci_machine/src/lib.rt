//! Ports to configuration space, a machine in memory, and sizing.
//!
//! A port (`port::ConfigPort`) reads and writes registers of functions (PCI 3.0, 6.1). A machine
//! (`machine::Machine`) is one in memory, made of a dump and its probe; its registers are written as
//! the tables in `pci_image::register` have it. Sizing (`size::size`) finds, over any port, what the address
//! registers of a function read back after ones were written to them, and leaves all as it was.
//!
//! ```text
//! let mut machine = Machine::of(alloc, &dump, &probe)?;
//! let slot = Slot::new(0, 2, 0).ok_or("no slot")?;
//! let read_backs = size(&mut machine, slot)?; // the probe's image of 00:02.0
//! ```
//!
//! # Derived probes
//!
//! A probe without touching hardware: what address registers read back, derived from what they show
//! and from what Linux tells of them.
//!
//! Linux sizes every register as it boots, and shows what it found in sysfs: a file `resource` with a
//! line for each BAR register and for the ROM. [`probe::probe_of`] makes the probe of a dump by the
//! lines of its functions, one function after another ([`derive::derive`]) and register by register
//! ([`derive_register::register`]); nothing is written to a device. Where no size is told of a ROM that is off,
//! the least is assumed; a window that shows 0 is taken as absent. The titles of the probe name these
//! registers. Where no size is told of a BAR, or of a ROM that is on, there is no probe, unless the
//! least may be assumed of these too ([`Assuming`]).
//!
//! ```text
//! let dump = read_dump(rt.alloc(), &mut Incoming::new(dump_file))?;
//! let sizes = read_sizes(rt.alloc(), &mut Incoming::new(sizes_file))?;
//! match probe_of(rt.alloc(), &dump, &sizes, Assuming::Disabled) {
//!     Ok(derivation) => {
//!         write_dump(&mut output, &derivation.probe)?;
//!         for register in &derivation.assumed { eprintln!(rt; "{register}")?; }
//!     }
//!     Err(Refused::Fault(fault)) => eprintln!(rt; "{fault}")?,
//!     Err(Refused::Memory) => { /* a growth was refused */ }
//! }
//! ```
#![tactic(auto)]

pub mod access;
mod access_at;
pub mod assuming;
pub mod derive;
mod derive_bar;
pub mod derive_fault;
pub mod derive_register;
mod derive_rom;
mod derive_window;
pub mod derived;
pub mod fail_at;
mod function;
mod lone_slot;
pub mod machine;
mod mask;
pub mod port;
pub mod probe;
pub mod probe_fault;
mod quiet;
mod read_back;
mod read_backs;
mod registers;
pub mod resource_line;
pub mod size;
pub mod size_fault;
pub mod sizes;
mod sizes_block;
mod sizes_fault;
pub mod sizes_line;
pub mod sizes_reader;

pub use assuming::Assuming;
pub use derive_fault::DeriveFault;
pub use derived::Derived;
pub use fail_at::FailAt;
pub use machine::Machine;
pub use port::{ConfigPort, PortError};
pub use probe::{Derivation, probe_of};
pub use probe_fault::ProbeFault;
pub use resource_line::ResourceLine;
pub use size_fault::SizeFault;
pub use sizes::{Sizes, SizesBlock};
pub use sizes_reader::read_sizes;
