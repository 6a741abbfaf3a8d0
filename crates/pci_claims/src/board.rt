//! What claims are looked for in.
use super::given::Given;
use super::told::Told;
use pci_base::slot::Slot;
use pci_tree::outline::Outline;
use std::alloc::Allocator;

/// The functions of a board with what is given and told, and the slots of all its bridges.
#[derive(Drop)]
pub struct Board<'a, 'g, A: Allocator> {
    pub outline: &'a Outline<A>,
    pub given: Given<'g>,
    pub told: Told<'g>,
    /// Of each told range whether it is on.
    pub on: &'a [bool],
    pub bridges: &'a [Slot],
}
