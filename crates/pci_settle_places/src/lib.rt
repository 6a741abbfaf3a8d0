//! The places of all items: on the roots in their lists of ranges, and behind a bridge in its window. They are off what stays
//! there and off what told ranges hold.
//!
//! A bridge stands on a lower bus than what is behind it, so buses are gone over as they rise: what is on a bus tells the
//! places of the windows in which other buses have theirs.
//!
//! The registers of functions once everything has its place are told by [`settled`], [`image`] and [`write`].
#![tactic(auto)]

pub mod anew;
pub mod answering;
mod behind;
pub mod bus;
pub mod candidate;
pub mod claim;
pub mod column;
pub mod image;
mod lines;
pub mod live;
pub mod place;
pub mod places;
pub mod setting;
pub mod settled;
pub mod space;
pub mod staying;
pub mod stretch;
pub mod window;
pub mod write;
