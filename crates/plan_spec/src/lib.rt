//! What a plan is, where it places everything, which writes it makes, and what it promises: definitions
//! that the contracts of planning cite, and their laws. What they stand on is in `pci_spec`.
//!
//! In their comments "PCI 3.0" is the PCI Local Bus Specification 3.0, and "Bridge 1.2" the PCI-to-PCI
//! Bridge Architecture Specification 1.2.
#![tactic(auto)]

pub mod planning_laws;
