//! What runs at a client's endpoint.

ghost use Rattle.std.specs.Prelude.{◌≡◌, IfOk, false};
ghost use Rattle.archive_world.specs.View.{operation_of};
ghost use Rattle.archive_model.specs.World.{server_endpoint};
ghost use Rattle.archive_client.specs.Client.{client_datagram, client_timeout, client_start, request_out, state_of, phase_file, is_too_long};
ghost use Rattle.archive_world.specs.Inside.{running_of, running_file, verdict_in};

use crate::op_kind::OpKind;
use crate::server_endpoint::SERVER;
use archive_client::{Get, Put, State};
use std::alloc::{AllocError, Allocator, Global};
use tftp_packet::{Endpoint, Out};
use tws_file::Bytes;

/// What runs at a client's endpoint.
#[derive(Drop)]
pub(crate) enum Running<A: Allocator + Copy = Global> {
    /// A client that sends a file.
    Put(Put<A>),
    /// A client that fetches a collection.
    Get(Get<A>),
}

impl<A: Allocator + Copy> Running<A> {
    /// Returns a client at this port that begins, and its request.
    ///
    /// # Errors
    ///
    /// Out of memory.
    pub(crate) fn start(alloc: A, port: u16, kind: &OpKind<A>) -> Result<(Self, Out), AllocError>
        requires short { is_too_long (operation_of kind.now) ≡ false }
        ensures client { IfOk result (λ r. running_of r.0 ≡ client_start port server_endpoint (operation_of kind.now)) }
        ensures sent { IfOk result (λ r. r.1 ≡ request_out (operation_of kind.now) (client_start port server_endpoint (operation_of kind.now))) }
    {
        match kind {
            OpKind::Put(file) => {
                let file = Vec::from_slice(alloc, file.as_slice())?;
                match Put::start(port, SERVER, file) {
                    Ok((put, out)) => Ok((Running::Put(put), out)),
                    Err(_) => unreachable!(),
                }
            }
            OpKind::Get(ruleset) => {
                let (get, out) = Get::start(alloc, port, SERVER, *ruleset);
                Ok((Running::Get(get), out))
            }
        }
    }

    /// Handles a datagram of these bytes, received from `from`.
    pub(crate) fn receive(&mut self, from: Endpoint, bytes: &[u8]) -> Option<Out>
        ensures client { running_of self.new ≡ (client_datagram (verdict_in self.new) from bytes.now (running_of self.old)).client }
        ensures sent { result ≡ (client_datagram (verdict_in self.new) from bytes.now (running_of self.old)).out }
    {
        match self {
            Running::Put(put) => put.on_datagram(from, bytes),
            Running::Get(get) => get.on_datagram(from, bytes),
        }
    }

    /// Handles a time-out.
    pub(crate) fn wait(&mut self) -> Option<Out>
        ensures client { running_of self.new ≡ (client_timeout (running_of self.old)).client }
        ensures sent { result ≡ (client_timeout (running_of self.old)).out }
    {
        match self {
            Running::Put(put) => put.on_timeout(),
            Running::Get(get) => get.on_timeout(),
        }
    }

    /// The client's state. Only a get is ever `Got`.
    pub(crate) fn state(&self) -> State
        ensures is { result ≡ state_of (running_of self.now) }
        ensures got { result ≡ State.Got → running_file self.now ≡ phase_file (running_of self.now).phase }
    {
        match self {
            Running::Put(put) => put.state(),
            Running::Get(get) => get.state(),
        }
    }

    /// A copy of the file that it has fetched whole; `None` if it has not.
    ///
    /// # Errors
    ///
    /// Out of memory.
    pub(crate) fn file<B: Allocator>(&self, alloc: B) -> Result<Option<Bytes<B>>, AllocError>
        ensures { IfOk result (λ file. file ≡ running_file self.now) }
    {
        let file = match self {
            Running::Put(_) => None,
            Running::Get(get) => get.file(),
        };
        match file {
            Some(file) => Ok(Some(Bytes::of(file.to_vec(alloc)?))),
            None => Ok(None),
        }
    }
}
