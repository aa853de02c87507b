//! An allocator that counts the bytes in use.
ghost use Rattle.std.specs.Prelude.{◌≡◌};

use std::alloc::{AllocError, Allocator, Global};
use std::cell::Cell;

/// The number of bytes in use: those that were asked for and not given back. Bytes that `heap` refused count as well.
#[derive(Clone, Copy, Debug, PartialEq, Eq)]
pub struct Usage {
    /// Bytes in use now.
    pub now: usize,
    /// The maximum so far.
    pub most: usize,
}

/// An allocator that counts the bytes in use, and passes every call on. A `&` to it is an allocator too.
#[derive(Drop)]
pub struct Measured<H: Allocator = Global> {
    /// The bytes in use. No contract can speak of what a `Cell` holds, so only tests read this.
    pub usage: Cell<Usage>,
    /// The allocator that the calls are passed on to.
    pub heap: H,
}

impl<H: Allocator> Measured<H> {
    /// Passes calls on to `heap`. No byte is in use yet.
    pub fn new(heap: H) -> Measured<H>
        ensures { result.heap ≡ heap }
    {
        Measured {
            usage: Cell::new(Usage { now: 0, most: 0 }),
            heap,
        }
    }
}

/// Counts bytes that are asked for and bytes that are given back.
fn count(usage: &Cell<Usage>, asked: usize, given: usize) {
    let before = usage.get();
    let now = before.now.saturating_add(asked).saturating_sub(given);
    let most = before.most.max(now);
    usage.set(Usage { now, most });
}

unsafe impl<H: Allocator> Allocator for Measured<H> {
    ghost dealloc_token = { λ handle ty ptr. H.dealloc_token handle.heap ty ptr };

    fn allocate(&self, size: usize, align: usize) -> Result<*mut u8, AllocError> {
        count(&self.usage, size, 0);
        self.heap.allocate(size, align)
    }

    unsafe fn deallocate(&self, ptr: *mut u8, size: usize, align: usize) {
        count(&self.usage, 0, size);
        self.heap.deallocate(ptr, size, align);
    }
}
