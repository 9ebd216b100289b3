//! A datagram with its source and target.

ghost use Rattle.std.specs.Prelude.{◌≡◌, IfOk};

use std::alloc::{AllocError, Allocator, Global};
use std::marker::Model;
use tftp_packet::Endpoint;
use tws_file::Bytes;

/// A datagram with its source and target.
#[derive(Drop)]
#[derive_where(Debug)]
pub struct Datagram<A: Allocator = Global> {
    /// Where it comes from.
    pub from: Endpoint,
    /// Where it goes to.
    pub to: Endpoint,
    /// Its bytes.
    pub bytes: Bytes<A>,
}

impl<A: Allocator> Model for Datagram<A> {
    ghost use Rattle.archive_model.specs.World.{Datagram as Sent};

    ghost Value = { Sent };

    ghost use Rattle.archive_world.specs.View.{datagram_of};

    ghost view = { datagram_of };
}

impl<A: Allocator> Datagram<A> {
    /// A copy of the datagram.
    ///
    /// # Errors
    ///
    /// Out of memory.
    pub(crate) fn copy<B: Allocator>(&self, alloc: B) -> Result<Datagram<B>, AllocError>
        ensures { IfOk result (λ d. d ≡ self.now) }
    {
        Ok(Datagram {
            from: self.from,
            to: self.to,
            bytes: Bytes::of(Vec::from_slice(alloc, self.bytes.as_slice())?),
        })
    }
}
