//! Where settling places what doesn't keep its place: the first free place in lists of ranges.
//!
//! What is taken on a bus is a list of ranges by rising first addresses, and each item that is placed is put
//! into it, so that looking for the next place is one walk along the list.
//!
//! In the comments "Bridge 1.2" is the PCI-to-PCI Bridge Architecture Specification 1.2.
#![tactic(auto)]

pub mod bus;
pub mod extent;
pub mod item;
pub mod kept;
pub mod lines;
pub mod list;
pub mod listing;
pub mod near;
pub mod new_window;
pub mod over;
pub mod own;
pub mod place;
pub mod placing;
pub mod slots;
pub mod spot;
pub mod table;
pub mod told;
pub mod window;
