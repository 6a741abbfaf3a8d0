//! What classes and new windows are told by, and what items are listed by.
use crate::extent::Extent;
use crate::kept::Kept;
use crate::over::OpenWindows;
use crate::own::Terms;
use pci_base::slot::BUSES;
use pci_base::window_kind::WindowKind;
use pci_place::above::Above;
use pci_tree::admitted::Admitted;
use std::alloc::Allocator;

/// What the classes of BARs and the new windows of bridges are told by.
#[derive(Drop)]
pub struct Classing<'a, 's, B: Allocator> {
    pub admitted: &'a Admitted<B>,
    /// Which windows lead to each bus.
    pub aboves: &'s [Above; BUSES],
    /// What is told of the lists of ranges, and of room behind slots.
    pub terms: Terms<'s>,
    /// The open windows over each bus; empty where all is placed anew.
    pub overs: &'s [OpenWindows],
}

/// What the items of a bus in a class are listed by.
#[derive(Drop)]
pub struct Listing<'a, 's, 'l, B: Allocator> {
    pub classing: &'l Classing<'a, 's, B>,
    pub class: WindowKind,
    /// The new window over each bus behind a bridge; None where nothing of the class is behind.
    pub windows: &'l [Option<Extent>; BUSES],
    /// The parts of each function that keep their places, in slot order; empty where none does.
    pub kept: &'l [Kept],
}
