//! The phases of a client, from its request to its end.

ghost use Rattle.std.specs.Prelude.{◌≡◌};
ghost use Rattle.archive_client.specs.View.{bound_peer};

use tftp_packet::Cause;

/// The phase of a client. `W` is what it asks for, and `E` its end of the transfer.
#[derive(Debug, Drop)]
pub(crate) enum Phase<W, E> {
    Asking { wanted: W, misses: u8 },
    Bound { peer: u16, end: E },
    Failed(Cause),
}

impl<W, E> Phase<W, E> {
    /// The port that the client is bound to, if any.
    pub(crate) fn peer(&self) -> Option<u16>
        ensures { result ≡ bound_peer self.now }
    {
        match self {
            Phase::Bound { peer, .. } => Some(*peer),
            Phase::Asking { .. } | Phase::Failed(_) => None,
        }
    }
}
