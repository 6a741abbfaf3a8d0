//! The tasks of `pciplan`: what each answers to two texts, how an answer is written, its messages and its statuses.
//!
//! [`run::run`] carries a task out over two texts that are handed in.
//!
//! ```text
//! let status = run::run(rt.alloc(), &task::Task::Show, &mut dump, &mut probe, &mut output, &mut errors);
//! // 0 done or yes, 1 no, 2 refused, 3 out of memory, 4 a read or a write failed
//! ```
#![tactic(auto)]

pub mod failure;
pub mod faulting;
pub mod faults_laws;
pub mod mapping;
pub mod planning;
pub mod probing;
pub mod reply;
pub mod run;
pub mod said;
pub mod settling;
pub mod settling_by_words;
pub mod shortage_line;
pub mod sizing;
pub mod slots;
pub mod taking;
pub mod task;
