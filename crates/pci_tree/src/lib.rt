//! Records of functions and the tree of buses that their bridges make: who claims which addresses, and how an access
//! gets to a bus.
//! [`pair`] says whether a dump and its probe list the same functions, each of a known kind, with read backs in address
//! registers alone.
//!
//! ```text
//! pair(&dump, &probe)?; // 30, 20, 21 or 31: the first of them that is there
//! let admitted = admit::admit(rt.alloc(), dump, probe)?; // or the first fault, 20 to 58
//! for region in &admitted.sorted(0, Space::Mem)? {
//!     println!(rt; "{} {:02x}: {:x} to {:x}", region.slot, region.reg, region.first, region.last)?;
//! }
//! ```
#![tactic(auto)]

pub mod admit;
pub mod admitted;
pub mod bus;
pub mod buses;
mod forwarded;
pub mod outline;
pub mod pair;
pub mod path;
pub mod ranges;
pub mod reach;
pub mod region;
pub mod roots;
pub mod survey;
mod window;

pub use admit::admit_with;
pub use admitted::Admitted;
pub use outline::Outline;
pub use pci_base::space;
pub use pci_function::{decode, fault, record};
pub use reach::Reach;
pub use region::{Part, Region};
pub use roots::Roots;
pub use survey::Survey;
