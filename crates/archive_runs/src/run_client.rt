//! What a run needs of its client: a put or a get.

ghost use Rattle.std.specs.Prelude.{◌≡◌};
ghost use Rattle.archive_client.specs.Client.{Client, client_datagram, client_timeout, is_over as over_client};
ghost use Rattle.archive_runs.specs.Rounds.{has_ended, is_ended};
ghost use Rattle.archive_runs.specs.Run.{ClientSteps};

use archive_client::{Get, Put, State};
use std::alloc::Allocator;
use tftp_packet::{Endpoint, Out};

/// A put or a get, whose steps a run makes.
pub trait RunClient {
    /// The client as a plain value.
    ghost client: { Self → Client };

    /// Handles a datagram of these bytes, received from `from`. Returns the datagram to send, if any.
    fn take_datagram(&mut self, from: Endpoint, bytes: &[u8]) -> Option<Out>
        ensures { ClientSteps (λ verdict. client_datagram verdict from bytes.now (client self.old)) (client self.new) result };

    /// Handles a time-out. Returns the datagram to send, if any.
    fn take_timeout(&mut self) -> Option<Out>
        ensures { ClientSteps (λ verdict. client_timeout (client self.old)) (client self.new) result };

    /// Whether the client is over: it sends nothing more.
    fn is_over(&self) -> bool
        ensures { result ≡ over_client (client self.now) };

    /// Whether its transfer has ended: it has failed, or has sent or received the whole file. A get may still dally.
    fn has_ended(&self) -> bool
        ensures { result ≡ has_ended (client self.now) };
}

// Whether a transfer in this state has ended.
fn is_ended(state: State) -> bool
    ensures { result ≡ is_ended state }
{
    match state {
        State::Running => false,
        State::Sent => true,
        State::Got => true,
        State::Failed(_) => true,
    }
}

impl<A: Allocator + Copy> RunClient for Put<A> {
    ghost client = { λ c. c };

    fn take_datagram(&mut self, from: Endpoint, bytes: &[u8]) -> Option<Out> {
        self.on_datagram(from, bytes)
    }

    fn take_timeout(&mut self) -> Option<Out> {
        self.on_timeout()
    }

    fn is_over(&self) -> bool {
        self.over()
    }

    fn has_ended(&self) -> bool {
        is_ended(self.state())
    }
}

impl<A: Allocator + Copy> RunClient for Get<A> {
    ghost client = { λ c. c };

    fn take_datagram(&mut self, from: Endpoint, bytes: &[u8]) -> Option<Out> {
        self.on_datagram(from, bytes)
    }

    fn take_timeout(&mut self) -> Option<Out> {
        self.on_timeout()
    }

    fn is_over(&self) -> bool {
        self.over()
    }

    fn has_ended(&self) -> bool {
        is_ended(self.state())
    }
}
