//! The allocator.

ghost use Rattle.std.specs.Prelude.{◌≡◌, ◌%◌, ◌^◌, ◌<◌, ◌≤◌, IfSome};
ghost use base.Fml.{ftrue};

use crate::ground::Ground;
use crate::region::Region;
use std::alloc::{AllocError, Allocator};
use std::cell::Cell;

/// Cuts each block from the front of what is left of a region. What is given back is not used again.
#[derive(Drop)]
pub struct Arena {
    left: Cell<Option<Region>>,
}

// Blocks are whole units, at multiples of a unit.
const UNIT: usize = 16;

// No block is longer.
const MAX_BLOCK: usize = 1 << 40;

impl Arena {
    /// An arena over all of the region.
    pub fn new(region: Region) -> Arena {
        Arena {
            left: Cell::new(Some(region)),
        }
    }

    // The first units of what is left that have as many bytes, if there are so many.
    fn take(&self, size: usize, align: usize) -> Option<Ground>
        ensures { IfSome result (λ ground. (size ≤ ground.size) × (ground.size % 16 ≡ 0) × (size < 2 ^ 63) × (align ≤ 16)) }
    {
        if align > UNIT || size > MAX_BLOCK {
            return None;
        }
        let count = size.next_multiple_of(UNIT);
        let Region { ground, size: left } = self.left.replace(None)?;
        if left < count {
            self.left.set(Some(Region { ground, size: left }));
            return None;
        }
        let (front, rest) = ground.cut(count);
        self.left.set(Some(Region {
            ground: rest,
            size: left - count,
        }));
        Some(front)
    }
}

unsafe impl Allocator for Arena {
    ghost dealloc_token = { λ _ _ _. ftrue };

    fn allocate(&self, size: usize, align: usize) -> Result<*mut u8, AllocError> {
        match self.take(size, align) {
            Some(Ground { at }) => Ok(at),
            None => Err(AllocError),
        }
    }

    unsafe fn deallocate(&self, _at: *mut u8, _size: usize, _align: usize) {}
}
