//! The answer of a command as one JSON document, made of the text that the command prints; and laws of these documents.
#![tactic(auto)]

pub mod document;
pub mod fault_laws;
pub mod faults;
pub mod group;
pub mod lines;
pub mod listing;
pub mod map;
pub mod members;
pub mod output;
pub mod reasons;
pub mod text_laws;
