//! An operation that has begun.

use crate::op_kind::OpKind;
use std::alloc::{Allocator, Global};
use std::marker::Model;
use tftp_packet::Endpoint;

/// An operation that has begun.
#[derive(Drop)]
pub(crate) struct Begun<A: Allocator = Global> {
    pub(crate) client: Endpoint,
    pub(crate) kind: OpKind<A>,
    /// How many files the server had taken by then.
    pub(crate) taken: usize,
}

impl<A: Allocator> Model for Begun<A> {
    ghost use Rattle.archive_model.specs.World.{Begun as Began};

    ghost Value = { Began };

    ghost use Rattle.archive_world.specs.Inside.{begun_of};

    ghost view = { begun_of };
}
