//! The words of `pciplan`: the commands of two texts, and `here`, `explain`, `version`, `json` and `picture` beside them.
//!
//! [`front::front`] looks at the first word and does what is asked for: it is all that `main` calls.
//!
//! ```text
//! let words = words_of(&rt); // as in `here map`
//! let status = front(rt.alloc(), words, &mut outside);
//! // 0 done or yes, 1 no, 2 refused, 3 out of memory, 4 an opening, a read or a write failed
//! ```
//!
//! What `explain` and `version` print is a text for each fault and for each command ([`explain`]).
//!
//! ```text
//! let text = explanation("57");        // Some text, which begins with "57 BusRange"
//! let same = explanation("busrange");  // the same one
//! let none = explanation("59");        // None
//! ```
#![tactic(auto)]

pub mod command;
mod command_texts;
pub mod documents;
pub mod domain_reply;
pub mod drawn;
pub mod explain;
pub mod fault;
mod fault_texts;
pub mod first;
pub mod folder;
pub mod front;
pub mod here;
pub mod here_asked;
pub mod laws;
mod messages;
mod names;
pub mod told;
