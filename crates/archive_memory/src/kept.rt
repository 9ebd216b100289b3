//! A collection that a keeper in memory was given.

use std::alloc::{Allocator, Global};
use std::marker::Model;
use tws_file::Ruleset;

/// A collection that a keeper was given.
#[derive(Drop)]
#[derive_where(Debug)]
pub struct Kept<A: Allocator = Global> {
    /// Its ruleset.
    pub ruleset: Ruleset,
    /// Its text.
    pub text: Vec<u8, A>,
    /// Whether it was kept.
    pub ok: bool,
}

impl<A: Allocator> Model for Kept<A> {
    ghost use Rattle.archive_table.specs.Keeper.{Keeping};

    ghost Value = { Keeping };

    ghost use Rattle.archive_memory.specs.Kept.{keeping_of};

    ghost view = { keeping_of };
}
