//! An allocator that refuses one growth.
ghost use Rattle.std.specs.Prelude.{◌≡◌, ◌≤◌};

use std::alloc::{AllocError, Allocator, Global};
use std::cell::Cell;

/// An allocator that refuses one growth and passes every other call on. A `&` to it is an allocator too.
#[derive(Drop)]
pub struct Refusing<H: Allocator = Global> {
    /// The number of growths up to the one that is refused, and 0 after it. No contract can speak of what a `Cell`
    /// holds, so only tests check this count.
    pub left: Cell<u64>,
    /// The allocator that the other calls are passed on to.
    pub heap: H,
}

impl<H: Allocator> Refusing<H> {
    /// Refuses the growth with the number `refused`, counted from 1. Other calls go to `heap`.
    pub fn new(heap: H, refused: u64) -> Refusing<H>
        requires { 1 ≤ refused }
        ensures { result.heap ≡ heap }
    {
        Refusing {
            left: Cell::new(refused),
            heap,
        }
    }
}

/// Counts a growth. Returns whether it is the one to refuse.
fn is_due(left: &Cell<u64>) -> bool {
    let n = left.get();
    left.set(n.saturating_sub(1));
    n == 1
}

unsafe impl<H: Allocator> Allocator for Refusing<H> {
    ghost dealloc_token = { λ handle ty ptr. H.dealloc_token handle.heap ty ptr };

    fn allocate(&self, size: usize, align: usize) -> Result<*mut u8, AllocError> {
        if is_due(&self.left) {
            return Err(AllocError);
        }
        self.heap.allocate(size, align)
    }

    unsafe fn deallocate(&self, ptr: *mut u8, size: usize, align: usize) {
        self.heap.deallocate(ptr, size, align);
    }
}
