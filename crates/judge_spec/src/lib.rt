//! Judging with what is given beside a system: the addresses that the host sends to its root buses, the bridges that
//! answer for a VGA adapter behind them, that listen to its palette or that take what nobody claims, and a text that tells
//! what functions answer beside their BARs. How the words of `--model` change functions before they are judged, and the map
//! of what is judged. Definitions that contracts cite, and their laws; what they stand on is in `pci_spec`.
//!
//! In their comments "PCI 3.0" is the PCI Local Bus Specification 3.0, "Bridge 1.2" the PCI-to-PCI Bridge Architecture
//! Specification 1.2, and "Power Management 1.2" the PCI Bus Power Management Interface Specification 1.2.
#![tactic(auto)]

pub mod determined_laws;
pub mod given_laws;
pub mod list_laws;
pub mod map_determined_laws;
pub mod map_laws;
pub mod moved_laws;
pub mod snoop_laws;
pub mod told_judging_laws;
pub mod told_laws;
pub mod told_region_laws;
pub mod unclaimed_laws;
pub mod words_laws;
