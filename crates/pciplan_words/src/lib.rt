//! The words of `pciplan`'s command line: which task they ask for, with the words of its options, and the paths of the
//! two texts; and the commands that take no texts. Which word is whose is told by `clap`, on which no other crate stands;
//! what an option's word means is told by `pciplan_cli`.
#![tactic(auto)]

pub mod asked;
mod commands;
pub mod forms;
pub mod further;
