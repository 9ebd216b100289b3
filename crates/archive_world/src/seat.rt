//! A client and its endpoint.

use crate::running::Running;
use std::alloc::{Allocator, Global};
use std::marker::Model;
use tftp_packet::Endpoint;

/// A client, and its endpoint.
#[derive(Drop)]
pub(crate) struct Seat<A: Allocator + Copy = Global> {
    pub(crate) client: Endpoint,
    pub(crate) running: Running<A>,
}

impl<A: Allocator + Copy> Model for Seat<A> {
    ghost use Rattle.tftp_packet.specs.declared.endpoint.Endpoint.{Endpoint as Place};
    ghost use Rattle.archive_client.specs.Client.{Client};

    ghost Value = { Place × Client };

    ghost use Rattle.archive_world.specs.Inside.{seat_of};

    ghost view = { seat_of };
}
