//! An allocator that counts the requests for memory and refuses one of them.

use std::alloc::{AllocError, Allocator};
use std::cell::Cell;

/// An allocator that passes each request on to another one, but for the request of a given number,
/// which it refuses.
///
/// A container takes a `&` to it, so that a test can ask it afterwards whether it has refused.
pub struct Refusing<B: Allocator> {
    inner: B,
    // The requests up to the refused one that are still to come.
    left: Cell<u64>,
}

impl<B: Allocator> Refusing<B> {
    /// Refuses the request with this number, counted from 1, and none for 0.
    pub fn new(inner: B, number: u64) -> Refusing<B> {
        Refusing {
            inner,
            left: Cell::new(number),
        }
    }

    /// How many requests are still to come, up to the one that is refused: 0 once it was.
    pub fn left(&self) -> u64 {
        self.left.get()
    }
}

impl<B: Allocator> Drop for Refusing<B> {
    fn drop(self) {
        let Self { inner: _, left: _ } = self;
    }
}

/// Counts a request, and returns whether it is granted.
fn grants(left: &Cell<u64>) -> bool {
    let number = left.get();
    left.set(number.saturating_sub(1));
    number != 1
}

unsafe impl<B: Allocator> Allocator for Refusing<B> {
    ghost dealloc_token = { λ heap ty ptr. B.dealloc_token heap.inner ty ptr };

    fn allocate(&self, size: usize, align: usize) -> Result<*mut u8, AllocError> {
        if !grants(&self.left) {
            return Err(AllocError);
        }
        self.inner.allocate(size, align)
    }

    unsafe fn deallocate(&self, ptr: *mut u8, size: usize, align: usize) {
        self.inner.deallocate(ptr, size, align);
    }
}
