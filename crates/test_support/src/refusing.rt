//! An allocator that refuses one growth.
use std::alloc::{AllocError, Allocator};
use std::cell::Cell;

/// More growths than any call asks for whose growths are refused in turn.
pub const MANY: u64 = 1000;

/// Passes each call on to another allocator, and refuses one growth of those to come. Collections hold a `&` to it.
pub struct Refusing<B: Allocator> {
    inner: B,
    /// Which of the growths to come is refused, counted from 1; 0 where none is.
    due: Cell<u64>,
}

impl<B: Allocator> Refusing<B> {
    /// Refuses no growth until `refuse` is called.
    pub fn new(inner: B) -> Refusing<B> {
        Refusing {
            inner,
            due: Cell::new(0),
        }
    }

    /// From now on refuses the n-th growth alone, counted from 1; with 0 none.
    pub fn refuse(&self, n: u64) {
        self.due.set(n);
    }

    /// Whether a growth is still to be refused.
    pub fn is_due(&self) -> bool {
        0 < self.due.get()
    }
}

impl<B: Allocator> Drop for Refusing<B> {
    fn drop(self) {
        let Self { inner: _, due: _ } = self;
    }
}

/// Counts a growth. Whether it is the one that is refused.
fn is_refused(due: &Cell<u64>) -> bool {
    let n = due.get();
    due.set(n.saturating_sub(1));
    n == 1
}

// `grow` and `shrink` are the trait's, which allocate a new block: each is one growth.
unsafe impl<B: Allocator> Allocator for Refusing<B> {
    ghost dealloc_token = { λ heap ty ptr. B.dealloc_token heap.inner ty ptr };

    fn allocate(&self, size: usize, align: usize) -> Result<*mut u8, AllocError> {
        if is_refused(&self.due) {
            return Err(AllocError);
        }
        self.inner.allocate(size, align)
    }

    unsafe fn deallocate(&self, ptr: *mut u8, size: usize, align: usize) {
        self.inner.deallocate(ptr, size, align);
    }
}
