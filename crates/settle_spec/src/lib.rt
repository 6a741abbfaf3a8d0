//! Moving only what is at fault: where parts stand, which of them keep their places, the places that the
//! others get in lists of ranges, and the writes that lead there. Definitions that the contracts of settling
//! cite, and their laws. What they stand on is in `pci_spec`, `plan_spec` and `judge_spec`.
//!
//! In their comments "PCI 3.0" is the PCI Local Bus Specification 3.0, and "Bridge 1.2" the PCI-to-PCI
//! Bridge Architecture Specification 1.2.
#![tactic(auto)]

pub mod class_laws;
pub mod growth_laws;
pub mod live_laws;
pub mod placing_laws;
pub mod told_laws;
pub mod window_laws;
