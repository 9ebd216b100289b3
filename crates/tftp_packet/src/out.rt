//! A datagram to be sent.

ghost use Rattle.std.specs.Prelude.{◌≡◌, ⊤};

use crate::dgram::Dgram;
use crate::endpoint::Endpoint;
use std::alloc::AllocError;

/// A datagram to be sent.
#[derive(Debug, Drop)]
pub struct Out {
    /// The port of this host that it is sent from.
    pub from_port: u16,
    /// The endpoint that it is sent to.
    pub to: Endpoint,
    /// Its bytes.
    pub dgram: Dgram,
}

// A copy does not allocate, so it never fails.
impl Clone for Out {
    ghost is_clone = { λ x y. y ≡ x };

    ghost is_infallible = { λ _. ⊤ };

    fn clone(&self) -> Result<Self, AllocError> {
        Ok(Out {
            from_port: self.from_port,
            to: self.to,
            dgram: self.dgram.clone()?,
        })
    }
}
