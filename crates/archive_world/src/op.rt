//! An operation of a client.

use crate::op_kind::OpKind;
use std::alloc::{Allocator, Global};
use tftp_packet::Endpoint;

/// An operation of a client.
#[derive(Drop)]
#[derive_where(Debug)]
pub struct Op<A: Allocator = Global> {
    /// The client's endpoint.
    pub client: Endpoint,
    /// What it is to do.
    pub kind: OpKind<A>,
}
