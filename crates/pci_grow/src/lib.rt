//! Windows that grow where they stand: those that take what has no room, and those that keep spare room by a wish.
//!
//! Which windows grow where they stand, and to what: each takes what it has no room for, as far as that is free beside it.
//!
//! # Spare room
//!
//! Wishes of settling: which windows end later, or open, so that a hot-plug slot has spare room behind it.
//!
//! What is there on a bus in a space is a list of ranges by rising first addresses. A wish puts one in, or moves the end
//! of one.
//!
//! In the comments "Bridge 1.2" is the PCI-to-PCI Bridge Architecture Specification 1.2.
#![tactic(auto)]

pub mod among;
pub mod around;
pub mod begin;
pub mod beside;
pub mod board;
pub mod coming;
pub mod ending;
pub mod fill;
pub mod finding;
pub mod granting;
pub mod ground;
pub mod growing;
pub mod half;
pub mod halves;
pub mod in_order;
pub mod last_place;
pub mod list;
pub mod marks;
pub mod put_all;
pub mod reach;
pub mod reaching;
pub mod room;
pub mod row;
pub mod spare_room;
pub mod sparing;
pub mod there;
