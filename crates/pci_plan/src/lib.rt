//! A plan: everything at its place, and register writes that lead there and may stop anywhere.
//!
//! Where BARs, ROMs and windows stand is found by `pci_place`. What each function's registers hold then (`numbers`) is
//! kept as its header (`numbered`). That what was planned is sound is a law, so it isn't judged again. The planned dump is
//! the start with these headers (`planned`), and the writes are read off the two: everything
//! that is on is closed from the highest slot down, then registers are written, then functions are opened from the lowest
//! slot up (`writes`). So each beginning of the writes leaves a sound system, if the start is one; from another start each
//! does that holds all closing writes.
//!
//! ```text
//! let plan = planning::plan(rt.alloc(), &admitted, &pools)?; // the places, the planned dump and its writes
//! for write in plan.writes() {
//!     println!(rt; "{write}")?;
//! }
//! apply::apply(&mut port, &plan.as_move())?; // compares, then writes; stops at the first failure
//! ```
//!
//! A plan or a settling can also be put onto a machine one access at a time. `start::start_of` lists the registers that are
//! compared, with what a plan starts from. `step::step_at` says what the n-th access is: each register is read and compared,
//! then each write is made and read back. `judge::judge` says what follows from what an access showed: the next one, or the
//! answer. Whoever makes accesses by other means than a port calls these three in a loop. `run::run` is that loop over a
//! port, and `by_steps::apply_by_steps` is it for a plan, with all that `apply` promises.
#![tactic(auto)]

pub mod apply;
pub mod apply_fault;
pub mod by_steps;
mod compare;
pub mod judge;
mod make;
pub mod moving;
pub mod numbered;
pub mod numbers;
pub mod plan;
pub mod plan_fault;
pub mod planned;
pub mod planning;
pub mod run;
pub mod start;
pub mod step;
pub mod write;
pub mod writes;

pub use apply_fault::ApplyFault;
pub use moving::Move;
pub use pci_place::pools::{Class, Pools};
pub use plan::Plan;
pub use plan_fault::PlanFault;
pub use write::Write;
