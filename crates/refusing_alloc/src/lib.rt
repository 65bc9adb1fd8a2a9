//! An allocator for tests: it counts growths, and refuses the one that a test chooses.
//!
//! Lend it: `&Refusing<B>` is an allocator too, and `Copy`, so that whatever a test hands it to shares one count.
//! `growths` says how many a call asked for; `refuse_after` chooses the one to refuse, and that one alone. A test
//! of a call refuses each growth in turn, and then calls it once more.
//!
//! ```text
//! let heap = Refusing::new(rt.alloc());
//! assert!(rt; Vec::from_slice(&heap, b"www").is_ok());
//! for n in 0..heap.growths() {
//!     heap.refuse_after(n);
//!     assert!(rt; Vec::from_slice(&heap, b"www").is_err());
//! }
//! ```
#![tactic(auto)]

use std::alloc::{AllocError, Allocator};
use std::cell::Cell;

/// Passes each call on to `B`, but for the growth that is to be refused.
pub struct Refusing<B: Allocator> {
    inner: B,
    // Growths until the refused one. It counts down and wraps, so from `u64::MAX` on none is refused.
    left: Cell<u64>,
}

impl<B: Allocator> Refusing<B> {
    /// Refuses no growth until `refuse_after` says so.
    pub fn new(inner: B) -> Refusing<B> {
        Refusing {
            inner,
            left: Cell::new(u64::MAX),
        }
    }

    /// How many growths were asked for since `new`, where `refuse_after` was not called since.
    pub fn growths(&self) -> u64 {
        u64::MAX - self.left.get()
    }

    /// Refuses the growth that comes after `n` more, and that one alone.
    pub fn refuse_after(&self, n: u64) {
        self.left.set(n);
    }
}

impl<B: Allocator> Drop for Refusing<B> {
    fn drop(self) {
        let Self { inner: _, left: _ } = self;
    }
}

// Counts one growth; true where it is the one to refuse.
fn refuses(left: &Cell<u64>) -> bool {
    let n = left.get();
    left.set(n.wrapping_sub(1));
    n == 0
}

unsafe impl<B: Allocator> Allocator for Refusing<B> {
    ghost dealloc_token = { λ heap ty ptr. B.dealloc_token heap.inner ty ptr };

    fn allocate(&self, size: usize, align: usize) -> Result<*mut u8, AllocError> {
        if refuses(&self.left) {
            return Err(AllocError);
        }
        self.inner.allocate(size, align)
    }

    unsafe fn deallocate(&self, ptr: *mut u8, size: usize, align: usize) {
        self.inner.deallocate(ptr, size, align);
    }
}
