//! A file that a client has fetched.

use std::alloc::{Allocator, Global};
use std::marker::Model;
use tftp_packet::Endpoint;
use tws_file::Bytes;

/// A file that a client has fetched whole.
#[derive(Drop)]
#[derive_where(Debug)]
pub struct GotFile<A: Allocator = Global> {
    /// The client's endpoint.
    pub client: Endpoint,
    /// The bytes of the file.
    pub file: Bytes<A>,
}

impl<A: Allocator> Model for GotFile<A> {
    ghost use Rattle.archive_model.specs.World.{Got};

    ghost Value = { Got };

    ghost use Rattle.archive_world.specs.View.{got_of};

    ghost view = { got_of };
}
