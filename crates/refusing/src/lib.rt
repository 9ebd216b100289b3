//! An allocator for tests, which refuses one request for memory and passes every other one on.
//!
//! A test lends it to the code under test as `&Refusing<Global>`, and counts `nth` up from 1 until a run ends
//! with nothing refused. By then each of the code's requests has been the one that failed.
//!
//! No clause can say what a cell holds. So the clauses here are about what does not depend on the count, and the tests
//! show which request is refused.
#![tactic(auto)]

ghost use Rattle.std.specs.Prelude.{◌≡◌, ◌↔◌, ◌+◌, ◌≤◌, IsTrue};

use std::alloc::{AllocError, Allocator};
use std::cell::Cell;

mod each_request;

pub use each_request::{Complaint, Outcome, refuse_each};

#[cfg(test)]
mod tests;

/// Passes each call on to the allocator `inner`, except for request number `nth`, for which it returns an error.
///
/// Each call for a block counts as a request, including one that makes a block larger or smaller.
pub struct Refusing<B: Allocator> {
    /// The allocator that owns the memory.
    pub inner: B,

    /// The number of the request to refuse, counted from 1. At 0 none is refused.
    ///
    /// It may be set again, to a request that is still to come.
    pub nth: u64,

    requests: Cell<u64>,
}

impl<B: Allocator> Refusing<B> {
    /// An allocator that has had no request yet, and refuses request number `nth`.
    pub fn new(inner: B, nth: u64) -> Refusing<B>
        ensures inner { result.inner ≡ inner }
        ensures nth { result.nth ≡ nth }
    {
        Refusing {
            inner,
            nth,
            requests: Cell::new(0),
        }
    }

    /// The number of requests so far, including the refused one. The count stops at `u64::MAX`.
    // It has no clause, since it returns what the cell holds.
    pub fn requests(&self) -> u64 {
        self.requests.get()
    }

    /// Whether request number `nth` was made, and so was refused.
    // No clause can say that it is true once that request was made.
    pub fn has_refused(&self) -> bool
        ensures { IsTrue result → 1 ≤ self.now.nth }
    {
        self.nth != 0 && self.nth <= self.requests()
    }
}

impl<B: Allocator> Drop for Refusing<B> {
    fn drop(self) {
        let Self {
            inner: _,
            nth: _,
            requests: _,
        } = self;
    }
}

// Whether the request after `earlier` others is the one to refuse.
fn is_nth(earlier: u64, nth: u64) -> bool
    ensures { IsTrue result ↔ (earlier + 1 ≡ nth) }
{
    nth != 0 && earlier == nth - 1
}

// Counts a request, and returns whether to refuse it.
fn is_refused(requests: &Cell<u64>, nth: u64) -> bool
    ensures { IsTrue result → 1 ≤ nth }
{
    let earlier = requests.get();
    requests.set(earlier.saturating_add(1));
    is_nth(earlier, nth)
}

unsafe impl<B: Allocator> Allocator for Refusing<B> {
    ghost dealloc_token = { λ heap ty ptr. B.dealloc_token heap.inner ty ptr };

    fn allocate(&self, size: usize, align: usize) -> Result<*mut u8, AllocError> {
        if is_refused(&self.requests, self.nth) {
            return Err(AllocError);
        }
        self.inner.allocate(size, align)
    }

    unsafe fn deallocate(&self, ptr: *mut u8, size: usize, align: usize) {
        self.inner.deallocate(ptr, size, align);
    }
}
