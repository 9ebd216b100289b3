//! Memory in which nothing lies.

ghost use Rattle.std.specs.Prelude.{◌≡◌, ◌-◌, ◌%◌, ◌≤◌, ℕ};
ghost use Rattle.web_arena.specs.Ground.{empty_at};

use std::marker::Model;

/// Memory that begins at a multiple of 16, in which nothing lies, and which nothing else uses.
#[repr(C)]
#[derive(Drop)]
pub struct Ground {
    pub(crate) at: *mut u8,
    /// Its size in bytes, of which only whole units of 16 are owned.
    ghost size: { ℕ },
}

impl Model for Ground {
    ghost also_owns = { λ ground. empty_at ground.at ground.size };
}

impl Ground {
    // The first `count` bytes, and the rest.
    pub(crate) fn cut(self, count: usize) -> (Ground, Ground)
        requires { (count ≤ self.size) × (count % 16 ≡ 0) }
        ensures { (result.0.size ≡ count) × (result.1.size ≡ self.size - count) }
    {
        let Ground { at } = self;
        let rest = unsafe { at.add(count) };
        (Ground { at }, Ground { at: rest })
    }
}
