//! What is mapped.
use super::addresses::Addresses;
use super::left::Windows;
use super::takers::Taker;
use pci_claims::given::Given;
use pci_claims::told::Told;
use pci_tree::outline::Outline;
use std::alloc::Allocator;

/// What is mapped: an outline, with what is given and told.
#[derive(Drop)]
pub struct Mapped<'a, 'g, A: Allocator> {
    pub outline: &'a Outline<A>,
    pub given: Given<'g>,
    pub told: Told<'g>,
    /// Of each told range whether it is on.
    pub on: &'a [bool],
    /// At each bus what is sent to the root above it.
    pub above: &'a [Addresses<A>],
    /// At each bus that is no root the windows of the bridge that leads there, and what it takes.
    pub ways: &'a [Option<Windows<A>>],
    /// The bridges that may take what no region of their bus claims, by slot.
    pub takers: &'a [Taker],
}
