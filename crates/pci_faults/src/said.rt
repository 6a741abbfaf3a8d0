//! What is said beside a dump and its probe.
use pci_base::slot::Slot;
use pci_claims::given::Given;
use pci_claims::told::Told;
use pci_tree::roots::Roots;

/// What is said beside a dump and its probe, and which bridges take what no region of their bus claims.
#[derive(Clone, Copy)]
pub struct Said<'a> {
    pub roots: Roots,
    /// What is given. Its `unclaimed` isn't read: what those bridges take is found by judging.
    pub given: Given<'a>,
    pub told: Told<'a>,
    /// The bridges that take what no region of their bus claims (PCI 3.0, 3.6.1).
    pub taking: &'a [Slot],
}
