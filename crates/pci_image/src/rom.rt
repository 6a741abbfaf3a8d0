//! The expansion ROM of a function.

pub mod register;

/// An implemented expansion ROM: the addresses from `first` to `last`, both of them too, are those
/// that it answers.
#[derive(Clone, Copy, Debug, PartialEq, Eq)]
pub struct Rom {
    /// The byte offset of its register.
    pub reg: u8,
    /// Its own enable bit.
    pub on: bool,
    pub first: u64,
    pub last: u64,
}
