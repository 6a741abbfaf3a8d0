//! What settling comes to before any wish, with the tables that led there.
ghost use Rattle.std.specs.Prelude.{◌≡◌};

use crate::settle::Settled;
use crate::tables::Tables;
use pci_first_fit::kept::Kept;
use pci_first_fit::table::WindowRanges;
use pci_settle_places::places::Places;
use std::alloc::Allocator;

/// What is settled, and where all parts are placed.
#[derive(Drop)]
pub struct Held<A: Allocator> {
    pub settled: Settled<A>,
    /// The places that parts get, by function in slot order; None for what stays.
    pub places: Vec<Places, A>,
}

/// What settling comes to where nothing is wished, with tables by function in slot order.
#[derive(Drop)]
pub struct Ended<A: Allocator> {
    pub settled: Settled<A>,
    /// The places that parts get; None for what stays.
    pub places: Vec<Places, A>,
    /// What stays.
    pub staying: Vec<Kept, A>,
    /// What windows that grow come to; empty where none does.
    pub grown: Vec<WindowRanges, A>,
    /// Of each told range whether it stands, by its index in the text.
    pub standing: Vec<bool, A>,
}

impl<A: Allocator> Ended<A> {
    /// The tables.
    pub fn tables(&self) -> Tables<'_>
        ensures places { result.places.now ≡ self.now.places.items }
        ensures staying { result.staying.now ≡ self.now.staying.items }
        ensures grown { result.grown.now ≡ self.now.grown.items }
        ensures standing { result.standing.now ≡ self.now.standing.items }
    {
        Tables {
            places: self.places.as_slice(),
            staying: self.staying.as_slice(),
            grown: self.grown.as_slice(),
            standing: self.standing.as_slice(),
        }
    }
}
