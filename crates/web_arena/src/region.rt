//! Memory with its size.

ghost use Rattle.std.specs.Prelude.{◌≡◌};

use crate::ground::Ground;

/// Memory in which nothing lies, and its size in bytes.
#[repr(C)]
#[derive(Drop)]
pub struct Region {
    pub(crate) ground: Ground,
    pub(crate) size: usize,
    ghost sized: { ground.size ≡ size },
}
