//! What regions claim of what gets to their bus, with what is given: the addresses that the host sends to its root buses,
//! the legacy parts and palette parts of bridges, the bridges with ISA Enable, and those that take what nobody claims.
#![tactic(auto)]

pub mod all_claims;
pub mod board;
pub mod bus_claims;
pub mod claim;
pub mod find;
pub mod gaps;
pub mod gather;
pub mod given;
pub mod isa;
pub mod legacy;
pub mod off;
pub mod outside;
pub mod passed;
pub mod reach;
pub mod root_claims;
pub mod sent;
pub mod taking;
pub mod told;
pub mod vga;
