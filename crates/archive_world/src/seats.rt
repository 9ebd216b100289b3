//! The clients by their endpoints.

ghost use Rattle.std.specs.Prelude.{◌≡◌, ◌<◌, length, true, None, IfSome, IfOk};
ghost use Rattle.std.specs.Map.{lookup};
ghost use Rattle.archive_table.specs.Table.{is_same};
ghost use Rattle.archive_model.specs.World.{newly_sent, newly_got};
ghost use Rattle.archive_world.specs.Inside.{IsFirst, StepsClient, running_of, newly_fetched};
ghost use Rattle.archive_client.specs.Client.{client_timeout, client_datagram, phase_file, state_of};
ghost use Rattle.tftp_ends.specs.Ends.{Verdict};

use crate::answered::Answered;
use crate::datagram::Datagram;
use crate::running::Running;
use crate::seat::Seat;
use archive_client::State;
use std::alloc::{AllocError, Allocator};
use tftp_packet::{Endpoint, Out};

// Whether two endpoints are the same.
pub(crate) fn is_one(a: Endpoint, b: Endpoint) -> bool
    ensures { result ≡ is_same a b }
{
    a.host == b.host && a.port == b.port
}

// Whether this client is at an endpoint.
fn is_at<A: Allocator + Copy>(seat: &Seat<A>, e: Endpoint) -> bool
    ensures { result ≡ is_same e seat.now.0 }
{
    is_one(e, seat.client)
}

// The place of the first client at an endpoint.
#[tactic(auto, using(crate::proofs::Firsts::none_more, crate::proofs::Firsts::first_here, crate::proofs::Firsts::first_within, crate::proofs::Firsts::none_all))]
pub(crate) fn find<A: Allocator + Copy>(clients: &[Seat<A>], e: Endpoint) -> Option<usize>
    ensures none { result ≡ None → lookup (is_same e) clients.now ≡ None }
    ensures first { IfSome result (λ i. IsFirst (is_same e) i clients.now) }
    ensures within { IfSome result (λ i. i < length clients.now) }
{
    let mut i = 0;
    while i < clients.len() {
        let seat = &clients[i];
        if is_at(seat, e) {
            return Some(i);
        }
        i += 1;
    }
    None
}

// Whether a client counts its file as sent now, and did not before.
fn is_newly_sent(was: State, now: State) -> bool
    ensures { result ≡ newly_sent was now }
{
    match (was, now) {
        (State::Running, State::Sent) => true,
        _ => false,
    }
}

// Whether a client has fetched its file now, and had not before.
fn is_newly_got(was: State, now: State) -> bool
    ensures is { result ≡ newly_got was now }
    ensures got { result ≡ true → now ≡ State.Got }
{
    match (was, now) {
        (State::Running, State::Got) => true,
        _ => false,
    }
}

// What a client's step returned, given the client's state before it.
fn answered<A: Allocator + Copy>(
    alloc: A,
    client: &Running<A>,
    was: State,
    out: Option<Out>,
) -> Result<Answered<A>, AllocError>
    ensures sent { IfOk result (λ answered. answered.sent ≡ newly_sent was (state_of (running_of client.now))) }
    ensures file { IfOk result (λ answered. answered.file ≡ newly_fetched (newly_got was (state_of (running_of client.now))) (phase_file (running_of client.now).phase)) }
    ensures out { IfOk result (λ answered. answered.out ≡ out) }
{
    let now = client.state();
    let sent = is_newly_sent(was, now);
    if !is_newly_got(was, now) {
        return Ok(Answered {
            sent,
            file: None,
            out,
        });
    }
    let file = client.file(alloc)?;
    Ok(Answered { sent, file, out })
}

/// Handles a time-out of the client at this place, which is the one at endpoint `e`.
///
/// # Errors
///
/// Out of memory for a copy of a file.
pub(crate) fn wait_at<A: Allocator + Copy>(
    alloc: A,
    clients: &mut Vec<Seat<A>, A>,
    i: usize,
    e: Endpoint,
) -> Result<Answered<A>, AllocError>
    requires first { IsFirst (is_same e) i clients.old.items }
    requires within { i < length clients.old.items }
    ensures { IfOk result (λ answered. StepsClient client_timeout e clients.old.items clients.new.items answered.sent answered.file answered.out) }
{
    let seat = &mut clients[i];
    let was = seat.running.state();
    let out = seat.running.wait();
    answered(alloc, &seat.running, was, out)
}

/// Delivers a datagram to the client at this place, which is the one at its target. What the step was granted appears
/// in the clause only.
///
/// # Errors
///
/// Out of memory for a copy of a file.
pub(crate) fn receive_at<A: Allocator + Copy>(
    alloc: A,
    clients: &mut Vec<Seat<A>, A>,
    i: usize,
    d: &Datagram<A>,
) -> Result<Answered<A>, AllocError>
    requires first { IsFirst (is_same d.now.target) i clients.old.items }
    requires within { i < length clients.old.items }
    ensures { IfOk result (λ answered. (verdict : Verdict) × StepsClient (client_datagram verdict d.now.source d.now.bytes) d.now.target clients.old.items clients.new.items answered.sent answered.file answered.out) }
{
    let seat = &mut clients[i];
    let was = seat.running.state();
    let out = seat.running.receive(d.from, d.bytes.as_slice());
    answered(alloc, &seat.running, was, out)
}
