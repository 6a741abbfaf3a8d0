//! What every crate shares: the slot and the image of a function, ranges of addresses and the kinds of
//! windows with their registers, the two spaces, register offsets, hex digits, want of memory, and a
//! count that only contracts see. Nothing here reads a text, and nothing takes memory.
//!
//! In the comments "PCI 3.0" is the PCI Local Bus Specification 3.0, and "Bridge 1.2" the PCI-to-PCI
//! Bridge Architecture Specification 1.2. Places and registers are byte offsets.
#![tactic(auto)]

pub mod bounds;
pub mod digit;
pub mod failures;
pub mod image;
pub mod memory;
pub mod offset;
pub mod range;
pub mod slot;
pub mod space;
pub mod window_kind;

pub use failures::Failures;
pub use image::Image;
pub use memory::{OutOfMemory, Refused};
pub use range::{Range, RootRange};
pub use slot::Slot;
pub use space::{Address, Space};
pub use window_kind::{ByKind, WindowKind};
