//! What a client's step returned.

use std::alloc::{Allocator, Global};
use tftp_packet::Out;
use tws_file::Bytes;

/// What a client's step returned: whether the client has just counted its file as sent, a copy of the file that it has
/// just fetched, and what it sends.
#[derive(Drop)]
pub(crate) struct Answered<A: Allocator = Global> {
    pub(crate) sent: bool,
    pub(crate) file: Option<Bytes<A>>,
    pub(crate) out: Option<Out>,
}
