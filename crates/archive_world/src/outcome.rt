//! The outcome of a run.

use crate::datagram::Datagram;
use crate::got_file::GotFile;
use crate::opening::Opening;
use crate::taken_file::TakenFile;
use std::alloc::{Allocator, Global};
use std::marker::Model;
use tftp_packet::Endpoint;
use tws_file::Bytes;

/// The outcome of a run. Each list is in the order in which things happened.
#[derive(Drop)]
#[derive_where(Debug)]
pub struct Outcome<A: Allocator = Global> {
    /// The files that the server has taken. The first are the texts that its keeper had, from the server's own endpoint.
    pub taken: Vec<TakenFile<A>, A>,
    /// Those of them whose peers were told that they were not kept.
    pub recovered: Vec<TakenFile<A>, A>,
    /// The clients that count their files as sent.
    pub sent: Vec<Endpoint, A>,
    /// The collections that clients have fetched whole.
    pub got: Vec<GotFile<A>, A>,
    /// The transfers that were opened.
    pub opened: Vec<Opening, A>,
    /// The text of the server's Lynx collection at the end.
    pub lynx: Bytes<A>,
    /// The text of its MS collection.
    pub ms: Bytes<A>,
    /// All datagrams that were ever sent, those of strangers too.
    pub datagrams: Vec<Datagram<A>, A>,
}

impl<A: Allocator> Model for Outcome<A> {
    ghost use Rattle.archive_world.specs.Outcomes.{Outcome as Left};

    ghost Value = { Left };

    ghost use Rattle.archive_world.specs.View.{outcome_as};

    ghost view = { outcome_as };
}
