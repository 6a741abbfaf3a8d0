//! Where a plan places everything: what each bus needs, and where its BARs, ROMs and windows then stand.
//!
//! From the highest bus to the lowest it is added up what each bus needs: a bridge asks on its own bus for a window
//! around what the bus behind it needs (`need`). Then, from the roots outwards, what stands on a bus (`item`) is placed
//! largest first, from the pool's or the window's first address on (`place`). As sizes are powers of two this leaves no
//! gap, and each region stands at a multiple of its size. This takes a tree of buses and no verdict.
//!
//! ```text
//! needs_of(&admitted, &pools, class, &aboves, &mut needs); // of each of the 256 buses
//! if has_room(&admitted, &pools, class, &needs) { /* each item of the class has its place */ }
//! ```
#![tactic(auto)]

pub mod above;
pub mod class;
pub mod item;
pub mod lacking;
pub mod need;
pub mod place;
pub mod pools;
pub mod room;
