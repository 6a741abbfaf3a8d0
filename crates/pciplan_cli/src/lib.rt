//! The command line of `pciplan`: the task that its words ask for, and the program.
//!
//! [`program::program`] carries a task of `pciplan_tasks` out over texts that it opens by their paths: it is all that
//! `main` calls.
//!
//! ```text
//! let words = program::words_of(&rt); // as in `check DUMP PROBE`
//! let status = program::program(rt.alloc(), words, &mut outside);
//! // 0 done or yes, 1 no, 2 refused, 3 out of memory, 4 an opening, a read or a write failed
//! ```
#![tactic(auto)]

mod also;
pub mod asked;
mod beside;
pub mod faults_asked;
pub mod invocation;
mod map_asked;
pub mod opened;
pub mod option_words;
pub mod outside;
pub mod program;
pub mod root_list;
mod settle_asked;

pub use invocation::Invocation;
