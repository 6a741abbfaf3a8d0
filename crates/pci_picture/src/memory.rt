//! The error of a refused allocation.

use std::alloc::{AllocError, AllocFailed};

/// 2: a growth was refused.
#[derive(Clone, Copy)]
pub struct OutOfMemory;

impl<T: Drop> From<AllocFailed<T>> for OutOfMemory {
    fn from(_failed: AllocFailed<T>) -> OutOfMemory {
        OutOfMemory
    }
}

impl From<AllocError> for OutOfMemory {
    fn from(_error: AllocError) -> OutOfMemory {
        OutOfMemory
    }
}
