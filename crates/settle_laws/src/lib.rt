//! Laws of settling: which parts stand where they are and which stay; its writes lead to the settled system, change no
//! more than they have to, and can stop anywhere. Laws of planning and settling together, and of functions that are
//! switched on and off. What they speak of is in `settle_spec`.
//!
//! In their comments "PCI 3.0" is the PCI Local Bus Specification 3.0, and "Bridge 1.2" the PCI-to-PCI
//! Bridge Architecture Specification 1.2.
#![tactic(auto)]

pub mod again_laws;
pub mod growing_laws;
pub mod holding_laws;
pub mod host_laws;
pub mod keeping_laws;
pub mod kept_laws;
pub mod line_laws;
pub mod list_laws;
pub mod places_laws;
pub mod plan_laws;
pub mod reach_laws;
pub mod rest_laws;
pub mod settled_plan_laws;
pub mod sparing_laws;
pub mod standing_kept_laws;
pub mod standing_laws;
pub mod standing_told_laws;
pub mod start_laws;
pub mod switching_laws;
pub mod told_again_laws;
pub mod told_laws;
pub mod write_laws;
