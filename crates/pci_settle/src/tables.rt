//! What is known of each function before any wish, as tables in slot order.
use pci_first_fit::kept::Kept;
use pci_first_fit::table::WindowRanges;
use pci_settle_places::places::Places;

/// What settling comes to before any wish, by function in slot order.
#[derive(Clone, Copy)]
pub struct Tables<'a> {
    /// The places that parts get; None for what stays.
    pub places: &'a [Places],
    /// What stays.
    pub staying: &'a [Kept],
    /// What windows that grow come to; empty where none does.
    pub grown: &'a [WindowRanges],
    /// Of each told range whether it stands, by its index in the text.
    pub standing: &'a [bool],
}
