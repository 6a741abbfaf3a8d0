//! What faults of judging are looked for in.
use pci_check::reached::Reached;
use pci_tree::outline::Outline;
use std::alloc::Allocator;

/// The functions of a board, and what gets to each bus by the windows on the way.
#[derive(Drop)]
pub struct Board<'a, A: Allocator> {
    pub outline: &'a Outline<A>,
    pub reached: &'a Reached<A>,
}
