//! Words of the command line that are lists: a pool `A-B`, lists of ranges, each of all root buses or of one, lists of
//! slots, the room that is wanted behind hot-plug slots, and lists of the words by which functions are taken.
//!
//! ```text
//! let pool = pool_of_word("1000-1fff");
//! let list = list_of_word(rt.alloc(), "00:1000-1fff,2000-2fff")?;
//! let slots = slots_of_word(rt.alloc(), "00:02.0,01:00.0")?;
//! let spares = spares_of_word("io:1000,mem:200000");
//! let words = words_of_list("power,reset");
//! // None of any other word
//! ```
#![tactic(auto)]

pub mod host_list;
pub mod list_word;
pub mod model_words;
pub mod part;
pub mod pool_word;
pub mod range_word;
pub mod slot_list;
pub mod spare_word;
