//! All faults of a dump and its probe: those of the earliest phase that has any, or those of judging, with what is given and
//! told beside them, each of which may be nothing.
//!
//! Whoever was refused an outline by a fault ([`pci_tree::admit::outline_of`]) knows the first fault that is there, and
//! so that no earlier phase has one. [`early::faults_from`] goes over the phase of that fault once more, and tells each
//! slot, function, register or capabilities list at fault, in the order in which they are looked for: [`slots`] of two
//! texts that list different functions, [`functions`] what is wrong with one function by itself ([`identity`],
//! [`registers`], [`profile`]), and [`place`] what is wrong with functions' places in the tree of buses.
//!
//! ```text
//! match outline_of(alloc, &dump, &probe, roots) {
//!     Err(Refused::Fault(first)) => faults_from(alloc, &dump, &probe, &roots, first), // begins with `first`
//!     ..
//! }
//! ```
//!
//! [`judging::all_of_judging`] lists of an outline each BAR or ROM that isn't home ([`unreached`]), each region that
//! claims an address with one before it on its bus or on another root bus ([`clashes`]), in the order in which judging
//! looks for them ([`order`]).
//!
//! What regions share comes from [`shares`]: of each region of a list the least address that it shares with one before
//! it, by slot and register, and the least that claims this address. Regions are added one by one to a map of ranges
//! ([`owners`]), in which each address keeps the first region that claimed it, so a region looks up once what it shares.
//!
//! ```text
//! let faults = all_of_judging(alloc, admitted.outline())?; // empty exactly where `judge` answers none
//! ```
//!
//! # What is given and told
//!
//! [`every`] lists all faults with what is given and told: the addresses that the host sends to its root buses, the legacy
//! parts and palette parts of bridges, what bridges take as nobody claims it, and ranges that functions answer though no BAR
//! shows them.
#![tactic(auto)]

pub mod all_lines;
pub mod any_fault;
mod bars_and_roms;
mod before;
pub mod board;
pub mod clash_lines;
pub mod clashes;
pub mod early;
pub mod every;
pub mod first_unreached;
mod found;
mod functions;
mod identity;
pub mod judging;
mod meetings;
pub mod missed;
pub mod named;
pub mod needed;
pub mod order;
pub mod outside_lines;
pub mod owners;
mod pairs;
mod place;
mod profile;
mod quiet;
mod region_order;
mod registers;
pub mod said;
pub mod shares;
mod slots;
mod spans;
pub mod split_lines;
pub mod taken;
pub mod text;
pub mod told;
mod told_needed;
pub mod unreached;
pub mod unreached_lines;
