//! Inclusive ranges of addresses.

/// The addresses from `first` to `last`, both of them too.
///
/// A range is not told by its size, so one that ends at the highest address is like any other.
#[derive(Clone, Copy, Debug, PartialEq, Eq)]
pub struct Range {
    pub first: u64,
    pub last: u64,
}

/// A range, and the root bus that alone has it: None where all have it.
#[derive(Clone, Copy, Debug, PartialEq, Eq)]
pub struct RootRange {
    pub root: Option<u8>,
    pub range: Range,
}
