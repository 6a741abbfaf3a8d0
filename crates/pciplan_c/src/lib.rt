//! Verdicts, lists of faults, plans and settlings for callers in C: two texts and a list of root buses in, a status and a
//! text out, or register writes; and the accesses by which these are put onto a machine.
//!
//! `calls` has what C calls; what C has to uphold is said in c/include/pciplan.h. `verdict`, `listing`, `planning` and
//! `settling` do the work over slices: they read the texts where they lie, and put what is answered into the caller's memory
//! only once it is whole, by `pciplan_held`. `faults_words` reads what is given beside texts whose faults are listed, and
//! `no_list` has why there is no list. `settle_words` reads what is asked of settling, and `told` the ranges that are told
//! beside it; `unready` has what stands in the way of judging with these. `ending` has what planning and settling end with, and
//! `no_writes` why there are no writes. As no hook of C can be called from here, a plan is put onto a machine by
//! accesses that C makes one after another: `starting` and `stepping` say which, and what follows from each. So are the buses of
//! a board numbered: `numbering` has the answers.
//!
//! # Texts in the caller's memory
//!
//! `held` reads a text where it lies, and `admitting` admits two of them. `refusal` and `unread` say why they aren't, each
//! with its line of text. `put` and `register_write` put a line, or the writes of a plan, at the front of an array only
//! where all of it has room.
#![tactic(auto)]

pub mod admitting;
pub mod answer;
pub mod calls;
pub mod denied_spare;
pub mod ending;
pub mod faults_words;
pub mod held;
pub mod inputs;
pub mod listing;
pub mod no_list;
pub mod no_writes;
pub mod numbering;
pub mod planning;
pub mod pools;
pub mod put;
pub mod refusal;
pub mod register_write;
pub mod settle_words;
pub mod settling;
pub mod starting;
pub mod stepping;
pub mod told;
pub mod unread;
pub mod unready;
pub mod verdict;
