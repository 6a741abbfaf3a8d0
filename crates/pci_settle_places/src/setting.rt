//! What places are found by.
use crate::candidate::SpaceWindows;
use crate::staying::Staying;
use pci_base::slot::BUSES;
use pci_base::space::Space;
use pci_first_fit::own::Terms;
use pci_place::above::Above;
use pci_tree::admitted::Admitted;
use std::alloc::Allocator;

/// What the places of all spaces are found by.
#[derive(Drop)]
pub struct Setting<'a, 's, B: Allocator> {
    pub admitted: &'a Admitted<B>,
    /// Which windows lead to each bus: they decide the class of a BAR.
    pub aboves: &'s [Above; BUSES],
    /// What is told of the lists of ranges, and of room behind slots.
    pub terms: Terms<'s>,
    pub staying: Staying<'s>,
}

/// What the places of a space are found by.
#[derive(Drop)]
pub struct Pass<'a, 's, 'p, B: Allocator> {
    pub setting: &'p Setting<'a, 's, B>,
    pub space: Space,
    /// The new windows of its classes.
    pub windows: &'p SpaceWindows,
}
