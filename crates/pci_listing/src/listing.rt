//! The listing of functions: a line for the header, and for each BAR, ROM, window and capability.

pub mod bridge;
pub mod capability;
pub mod function;
pub mod header;
pub mod region;
pub mod span;
