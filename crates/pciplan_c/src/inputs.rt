//! What a call judges, plans or settles.

/// The texts of a dump and of its probe, and the list of root buses.
#[derive(Clone, Copy)]
pub struct Inputs<'a> {
    pub dump: &'a [u8],
    pub probe: &'a [u8],
    pub roots: &'a [u8],
}
