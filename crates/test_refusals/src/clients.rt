//! Clients whose requests for memory are refused.

// Fetching a collection and sending a file, with each allocation refused in turn.
use crate::answers::{goes, has_bytes, is_out};
use archive_client::{Cause, Get, Put, State};
use refusing::{Complaint, Outcome, Refusing, refuse_each};
use std::alloc::{Allocator, Global};
use test_samples::{ACK_0, ACK_1, DATA_HUNDRED, HUNDRED, OUT_OF_MEMORY, PEER, SERVER, WRQ};
use tftp_packet::{Endpoint, Out};
use tws_file::Ruleset;

// ---- a get

fn has_failed<A: Allocator + Copy>(client: &Get<A>) -> bool {
    let is_over = client.over();
    is_over && client.state() == State::Failed(Cause::Memory)
}

// Whether nothing is sent for a block and at a time-out.
fn is_silent<A: Allocator + Copy>(client: &mut Get<A>) -> bool {
    let answer = client.on_datagram(PEER, DATA_HUNDRED);
    let repeat = client.on_timeout();
    answer.is_none() && repeat.is_none()
}

// Whether the client failed because it was out of memory, sent the ERROR for that, and is silent from now on.
fn gives_up<A: Allocator + Copy>(client: &mut Get<A>, out: &Option<Out>) -> bool {
    goes(out, 5000, PEER, OUT_OF_MEMORY)
        && has_failed(client)
        && is_silent(client)
        && has_failed(client)
}

// What the only block of the file comes to, to which this is the answer.
fn judge<A: Allocator + Copy>(client: &mut Get<A>, out: &Option<Out>) -> Outcome {
    if goes(out, 5000, PEER, ACK_1) {
        return Outcome::of(client.state() == State::Got);
    }
    Outcome::refused(gives_up(client, out))
}

// Passes that block to the client.
fn give<A: Allocator + Copy>(client: &mut Get<A>) -> Outcome {
    let out = client.on_datagram(PEER, DATA_HUNDRED);
    judge(client, &out)
}

// Whether what the client fetched is the file; `None` if it fetched nothing.
fn has_got<A: Allocator + Copy>(global: Global, client: Get<A>) -> Option<bool> {
    match client.into_file() {
        Ok(file) => Some(has_bytes(global, &file, HUNDRED)),
        Err(_) => None,
    }
}

fn fetch<A: Allocator + Copy>(global: Global, mut client: Get<A>) -> Outcome {
    let outcome = give(&mut client);
    let got = has_got(global, client);
    match outcome {
        Outcome::Right => Outcome::of(got == Some(true)),
        Outcome::OutOfMemory => Outcome::refused(got.is_none()),
        Outcome::Wrong => Outcome::Wrong,
    }
}

// Its start makes no request for memory.
fn fetch_one(refusing: &Refusing<Global>) -> Outcome {
    let (client, _first) = Get::start(refusing, 5000, SERVER, Ruleset::Lynx);
    let requests = refusing.requests();
    let outcome = fetch(refusing.inner, client);
    if requests == 0 {
        outcome
    } else {
        Outcome::Wrong
    }
}

// The first block is refused, so the client is never bound.
#[test]
fn fetching_one_block(rt: HostRuntime) -> Result<(), Complaint> {
    refuse_each(rt.alloc(), 1, &fetch_one)
}

// ---- a put

// Whether a time-out makes the client send this again.
fn repeats<A: Allocator + Copy>(client: &mut Put<A>, to: Endpoint, bytes: &[u8]) -> bool {
    let out = client.on_timeout();
    goes(&out, 5000, to, bytes)
}

// Whether ACK 0 makes it send the block.
fn sends_block<A: Allocator + Copy>(client: &mut Put<A>) -> bool {
    let out = client.on_datagram(PEER, ACK_0);
    goes(&out, 5000, PEER, DATA_HUNDRED)
}

// Whether ACK 1 ends the put.
fn ends<A: Allocator + Copy>(client: &mut Put<A>) -> bool {
    let out = client.on_datagram(PEER, ACK_1);
    out.is_none() && client.state() == State::Sent
}

// Whether the request, the data and the end of a put are right, and request and data are sent again at a time-out.
fn sends_file<A: Allocator + Copy>(client: &mut Put<A>, first: &Out) -> bool {
    let is_request = is_out(first, 5000, SERVER, WRQ);
    let is_repeated = repeats(client, SERVER, WRQ);
    let is_sent = sends_block(client);
    let is_sent_again = repeats(client, PEER, DATA_HUNDRED);
    let has_ended = ends(client);
    is_request && is_repeated && is_sent && is_sent_again && has_ended
}

// Whether a put of a file is right.
fn puts<A: Allocator + Copy>(file: Vec<u8, A>) -> bool {
    match Put::start(5000, SERVER, file) {
        Ok((mut client, first)) => sends_file(&mut client, &first),
        Err(_fault) => false,
    }
}

// Whether a put sends a file, and makes no request for memory.
fn sends(refusing: &Refusing<Global>) -> bool {
    let Ok(file) = Vec::from_slice(refusing, HUNDRED) else {
        return false;
    };
    let before = refusing.requests();
    puts(file) && refusing.requests() == before
}

// The same with an allocator that refuses nothing.
fn sends_with_memory(global: Global) -> bool {
    sends(&Refusing::new(global, 0))
}

// A put does not allocate.
#[test]
fn sending(rt: HostRuntime) {
    assert!(rt; sends_with_memory(rt.alloc()));
}
