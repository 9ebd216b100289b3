//! A file that a server has received whole.

ghost use Rattle.std.specs.Prelude.{◌≡◌};
ghost use Rattle.tws_file.specs.Fields.{ruleset_in};

use crate::file_merge::ruleset_of;
use std::alloc::{Allocator, Global};
use std::marker::Model;
use tftp_ends::Received;
use tftp_packet::Endpoint;
use tws_file::Ruleset;

/// A file that a server has received whole.
#[derive(Drop)]
#[derive_where(Debug)]
pub struct Taken<A: Allocator = Global> {
    /// The endpoint that it came from.
    pub peer: Endpoint,
    /// Its bytes.
    pub file: Received<A>,
}

impl<A: Allocator> Model for Taken<A> {
    ghost use Rattle.archive_table.specs.Table.{Taken as Took};

    ghost Value = { Took };

    ghost use Rattle.archive_table.specs.View.{taken_of};

    ghost view = { taken_of };
}

impl<A: Allocator> Taken<A> {
    /// The ruleset that its fifth byte says, if it is the code of one.
    pub fn ruleset(&self) -> Option<Ruleset>
        ensures { result ≡ ruleset_in self.now.file }
    {
        ruleset_of(&self.file)
    }
}
