//! Register writes as a script: of a shell over `setpci` of pciutils, or of GRUB over its own `setpci`.
//!
//! A script compares registers with what a dump shows, and then makes the writes in their order, each in one access, and
//! reads each back. `compared::compared_of` lists what is compared: Command and the address registers of each function that
//! is written. `script::script` makes the text.
#![tactic(auto)]

pub mod compared;
pub mod form;
mod lines;
pub mod script;
mod texts;
