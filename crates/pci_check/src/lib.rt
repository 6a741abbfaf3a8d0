//! The verdict on a tree of PCI functions: yes exactly where it is sound, else the first fault.
//!
//! [`audit::audit`] reads a dump and its probe side by side and writes the line of their verdict; [`check::check`]
//! judges what was admitted before, and hands out the evidence of a yes. Both ask [`judge::judge`], which looks for a
//! region that isn't reached, then for two that clash on a bus, then for two that are split over the roots.
//!
//! ```text
//! match audit::audit(rt.alloc(), &mut dump, &mut probe, &mut output)? {
//!     Outcome::Yes => {}          // "yes" was written: the system is sound
//!     Outcome::No(fault) => {}    // "no" with this fault was written: it is there
//! }
//! ```
#![tactic(auto)]

pub mod audit;
pub mod check;
mod clash;
pub mod judge;
pub mod line;
pub mod outcome;
pub mod reached;
mod side_by_side;
pub mod split;
mod sweep;
pub mod unreached;
pub mod verdict;

pub use audit::audit_with;
pub use outcome::{AuditFault, Outcome};
pub use verdict::{Sound, Verdict};
