//! What may move of what stands.
use pci_base::slot::Slot;

/// What may move of what stands.
#[derive(Clone, Copy, Debug)]
pub struct Rules<'f> {
    /// The slots of functions whose registers may not be written.
    pub fixed: &'f [Slot],
    /// Whether all is placed anew: then only told ranges stand, and what leads to one.
    pub anew: bool,
}
