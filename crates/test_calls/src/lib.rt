//! Tests of single calls: what one function's registers decode to, texts that are read and written, a machine in
//! memory, admission and what it keeps, what an outline lists, derived probes, the domains that are read of a machine, and
//! the words of options.
#![tactic(auto)]

#[cfg(test)]
mod admissions;
#[cfg(test)]
mod bars;
#[cfg(test)]
mod chains;
#[cfg(test)]
mod domains;
#[cfg(test)]
mod faults;
#[cfg(test)]
mod headers;
#[cfg(test)]
mod lines;
#[cfg(test)]
mod machines;
#[cfg(test)]
mod option_words;
#[cfg(test)]
mod outlines;
#[cfg(test)]
mod pairs;
#[cfg(test)]
mod probes;
#[cfg(test)]
mod reading;
#[cfg(test)]
mod records;
#[cfg(test)]
mod regions;
#[cfg(test)]
mod roms;
#[cfg(test)]
mod roots;
#[cfg(test)]
mod rows;
#[cfg(test)]
mod setting;
#[cfg(test)]
mod sizes_texts;
#[cfg(test)]
mod slots;
#[cfg(test)]
mod systems;
#[cfg(test)]
mod texts;
#[cfg(test)]
mod told_texts;
#[cfg(test)]
mod windows;
#[cfg(test)]
mod writing;
