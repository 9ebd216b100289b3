//! A file that the server has taken.

use std::alloc::{Allocator, Global};
use std::marker::Model;
use tftp_packet::Endpoint;
use tws_file::Bytes;

/// A file that the server has taken.
#[derive(Drop)]
#[derive_where(Debug)]
pub struct TakenFile<A: Allocator = Global> {
    /// The endpoint that it came from.
    pub peer: Endpoint,
    /// Its bytes.
    pub file: Bytes<A>,
}

impl<A: Allocator> Model for TakenFile<A> {
    ghost use Rattle.archive_table.specs.Table.{Taken};

    ghost Value = { Taken };

    ghost use Rattle.archive_world.specs.View.{taken_file_of};

    ghost view = { taken_file_of };
}
