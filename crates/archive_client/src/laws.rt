//! What holds for every client, whatever it receives. These functions do nothing: each contract is a theorem.

ghost use Rattle.std.specs.Prelude.{◌≡◌, ◌≢◌, ◌+◌, ◌*◌, ◌≤◌, ℕ, List, true};
ghost use Rattle.tftp_packet.specs.declared.endpoint.Endpoint.{Endpoint};
ghost use Rattle.tftp_ends.specs.Ends.{Verdict};
ghost use Rattle.tftp_ends.specs.declared.limits.TheConstants.{MISSES};
ghost use Rattle.byte_output.specs.Bytes.{IsBytes};
ghost use Rattle.archive_client.specs.declared.state.State.TheVariants.{Sent};
ghost use Rattle.archive_client.specs.Patience.{ClientEvent, client_run, AreBytes, time_outs, most_blocks, IsPatient};
ghost use Rattle.archive_client.specs.Client.{Operation, Client, IsOperation, IsClient, client_start, IsBoundTo, IsBoundToStill, IsLastAck, state_of, is_over, client_stays, client_datagram, client_timeout};

/// Once a client is over, and so once it has failed, no datagram and no time-out changes it or makes it send.
pub fn over_client()
    ensures datagram { (verdict : Verdict) (from : Endpoint) (bytes : List ℕ) (c : Client) →
        is_over c ≡ true → client_datagram verdict from bytes c ≡ client_stays c }
    ensures timeout { (c : Client) → IsClient c → is_over c ≡ true → client_timeout c ≡ client_stays c }
{}

/// A datagram from a host other than the server's changes nothing and is not answered.
pub fn other_host()
    ensures { (verdict : Verdict) (from : Endpoint) (bytes : List ℕ) (c : Client) →
        from.host ≢ c.server.host → client_datagram verdict from bytes c ≡ client_stays c }
{}

/// A client binds to only one port: once it is bound, it stays bound to that port until it fails.
pub fn one_port()
    ensures datagram { (verdict : Verdict) (from : Endpoint) (bytes : List ℕ) (c : Client) (port : ℕ) →
        IsBoundTo port c.phase → IsBoundToStill port (client_datagram verdict from bytes c).client.phase }
    ensures timeout { (c : Client) (port : ℕ) →
        IsBoundTo port c.phase → IsBoundToStill port (client_timeout c).client.phase }
{}

/// The invariant of a client, which has the bounds of its end, holds at its start, and every step keeps it.
pub fn client_bounds()
    ensures start { (port : ℕ) (server : Endpoint) (operation : Operation) →
        IsOperation operation → IsClient (client_start port server operation) }
    ensures datagram { (verdict : Verdict) (from : Endpoint) (bytes : List ℕ) (c : Client) →
        IsBytes bytes → IsClient c → IsClient (client_datagram verdict from bytes c).client }
    ensures timeout { (c : Client) → IsClient c → IsClient (client_timeout c).client }
{}

/// Only the ACK of the last block, from the port that a put is bound to, makes the put count its file as sent.
pub fn last_ack()
    ensures datagram { (verdict : Verdict) (from : Endpoint) (bytes : List ℕ) (c : Client) →
        state_of c ≢ Sent → state_of (client_datagram verdict from bytes c).client ≡ Sent → IsLastAck c.phase from bytes }
    ensures timeout { (c : Client) → state_of c ≢ Sent → state_of (client_timeout c).client ≢ Sent }
{}

/// Every client ends by itself. Whatever arrives, a client that is not over has had fewer than `MISSES` time-outs, and `MISSES`
/// for each block that it has sent or received meanwhile; so after `MISSES` for each block, and `MISSES` for its request, it is over.
pub fn client_patience()
    ensures waits { (c : Client) (events : List ClientEvent) → IsClient c → AreBytes events → IsPatient c events }
    ensures ends { (port : ℕ) (server : Endpoint) (operation : Operation) (events : List ClientEvent) → IsOperation operation → AreBytes events →
        MISSES * (most_blocks operation + 1) ≤ time_outs events → is_over (client_run events (client_start port server operation)) ≡ true }
{}
