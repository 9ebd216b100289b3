//! A transfer that the server has opened.

use crate::asked::Asked;
use std::marker::Model;
use tftp_packet::Endpoint;

/// A transfer that the server has opened.
#[derive(Debug, Drop)]
pub struct Opening {
    /// The peer's endpoint.
    pub peer: Endpoint,
    /// The server's port.
    pub port: u16,
    /// What was asked for.
    pub asked: Asked,
    /// How many files the server had taken by then.
    pub taken: usize,
}

impl Model for Opening {
    ghost use Rattle.archive_model.specs.World.{Opening as Opened};

    ghost Value = { Opened };

    ghost use Rattle.archive_world.specs.View.{opening_of};

    ghost view = { opening_of };
}
