//! Tests of lists of all faults: of the phases before judging, of judging, and of the reasons behind each fault. Tests of
//! judging with what is given beside a board: the ranges that the host sends to its root buses, and the legacy parts of
//! bridges.
#![tactic(auto)]

#[cfg(test)]
mod boards;
#[cfg(test)]
mod early;
#[cfg(test)]
mod fits;
#[cfg(test)]
mod host_ranges;
#[cfg(test)]
mod judged;
#[cfg(test)]
mod judging;
#[cfg(test)]
mod legacy_parts;
#[cfg(test)]
mod maps;
#[cfg(test)]
mod reasons;
