//! One function of PCI configuration space, decoded from its 256 bytes and its read backs.
//!
//! A function is told by two images (`pci_base::image`): what its registers hold, and its probe, which has what the
//! address registers read back after all ones were written to them. [`header::Header::of`] tells a
//! device from a bridge. [`bar::bars`], [`rom::register::rom`] and [`window::Windows::of`] give the
//! addresses that the function's comparators answer, as inclusive ranges, and
//! [`capability::chain`] gives its capabilities, which borrow the image. Nothing here takes memory.
//!
//! ```text
//! let slot = Slot::new(0, 2, 0).ok_or("no slot")?; // 00:02.0
//! for bar in &bars(&image, &probe)? {
//!     println!(rt; "{slot} {:02x}: {:x} to {:x}", bar.reg, bar.first, bar.last)?;
//! }
//! ```
//!
//! In the comments "PCI 3.0" is the PCI Local Bus Specification 3.0, "Bridge 1.2" the PCI-to-PCI
//! Bridge Architecture Specification 1.2 and "Power Management 1.2" the PCI Bus Power Management
//! Interface Specification 1.2. Places and registers are byte offsets.
#![tactic(auto)]

pub mod bar;
pub mod capability;
mod comparator;
pub mod fault;
pub mod header;
pub mod layout;
mod place_set;
pub mod register;
pub mod rom;
pub mod window;

pub use bar::{Bar, BarKind, bars};
pub use capability::{Cap, chain};
pub use fault::ImageFault;
pub use header::{Header, Header0, Header1};
pub use layout::Layout;
pub use pci_base::image::Image;
pub use pci_base::range::Range;
pub use pci_base::slot::Slot;
pub use pci_base::window_kind::{ByKind, WindowKind};
pub use rom::Rom;
pub use window::{Window, Windows};
