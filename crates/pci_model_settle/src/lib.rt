//! What settling by the words of `--model` needs beside settling: which functions stay as they are ([`unmoved::unmoved`]),
//! which devices among them are left out ([`off_devices`]), the writes for the functions as a dump has them ([`listed`]), and
//! the ranges on which nothing is placed ([`claim_lines`]).
#![tactic(auto)]

pub mod claim_lines;
pub mod listed;
pub mod off_devices;
pub mod unmoved;
