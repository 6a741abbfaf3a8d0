//! Tests of what leads a machine to a plan or a settling: the places that all parts get where nothing stands, what stays,
//! spare room behind slots, boards beside which ranges are told, and the writes. How both are put onto machines: how many
//! accesses it takes and in which order, and what stands where one of them fails, where a bit doesn't stay, and where a
//! register has changed. How a firmware does it over accesses of its own. And from how many writes on a stop is sound, with
//! boards that are constants.
#![tactic(auto)]

#[cfg(test)]
mod applied;
#[cfg(test)]
mod boards;
#[cfg(test)]
mod by_rule;
#[cfg(test)]
mod changes;
#[cfg(test)]
mod counting;
#[cfg(test)]
mod firmware;
#[cfg(test)]
mod safe_from;
#[cfg(test)]
mod samples;
#[cfg(test)]
mod setting;
#[cfg(test)]
mod settles;
#[cfg(test)]
mod spares;
#[cfg(test)]
mod stays;
#[cfg(test)]
mod stops;
#[cfg(test)]
mod told;
#[cfg(test)]
mod trial;
#[cfg(test)]
mod worked;
