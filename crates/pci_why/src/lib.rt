//! What stands behind a fault of judging with what is given and told beside a system, which BARs and told ranges are off, and
//! the text of a list of all faults with reasons.
//!
//! ```text
//! push_why(alloc, &mut text, &mut rooms, &judged, &fault)?; // `needs`, `bridge`, `missed`, `host`; `first`, `second`, `shared`; `fits`
//! push_off(alloc, &mut text, &outline, &told, &on)?; // a line for each BAR and each told range that is off
//! reasoned_text(alloc, &judged, &faults)?; // all faults of judging, each with its lines, and what is off
//! ```
#![tactic(auto)]

pub mod bridge;
pub mod bridge_line;
pub mod fits;
pub mod free;
pub mod host;
pub mod isa;
pub mod judged;
pub mod legacy;
pub mod list;
pub mod missed;
pub mod named;
pub mod off;
pub mod place;
pub mod region_line;
pub mod room;
mod told_at;
mod told_line;
pub mod two;
pub mod unclaimed;
pub mod why;
pub mod wide;
