//! The steps of a table that the tests ask for.

// Steps of the server's table, and what they do.
use crate::answers::goes;
use archive_keepers::NoKeeper;
use archive_table::{Step, Table};
use refusing::Outcome;
use std::alloc::Allocator;
use test_samples::{ACK_0, ALICE, OUT_OF_MEMORY, WRQ};
use tftp_packet::Endpoint;
use tws_file::Ruleset;

pub(crate) const REQUEST: u16 = 6969;

// What a request does.
#[derive(Clone, Copy)]
pub(crate) enum Asked {
    // It opens a transfer, which sends the expected answer or another one.
    Opened(bool),
    // It is refused as out of memory.
    Refused,
    Other,
}

fn asked_by<A: Allocator + Copy>(
    step: &Step<A>,
    spare: u16,
    from: Endpoint,
    answer: &[u8],
) -> Asked {
    if step.opened {
        return Asked::Opened(goes(&step.out, spare, from, answer));
    }
    if goes(&step.out, REQUEST, from, OUT_OF_MEMORY) {
        Asked::Refused
    } else {
        Asked::Other
    }
}

// Passes a request to a table, if the spare port is free.
pub(crate) fn ask<A: Allocator + Copy>(
    table: &mut Table<A>,
    spare: u16,
    from: Endpoint,
    bytes: &[u8],
    answer: &[u8],
) -> Asked {
    if spare == table.request() || table.is_live(spare) {
        return Asked::Other;
    }
    let step = table.on_request(spare, from, bytes);
    asked_by(&step, spare, from, answer)
}

// Opens a transfer of the client at port 4000, to write. One that is refused opens none.
pub(crate) fn open<A: Allocator + Copy>(table: &mut Table<A>) -> Outcome {
    let live = table.live();
    match ask(table, 4000, ALICE, WRQ, ACK_0) {
        Asked::Opened(is_acked) => Outcome::of(is_acked),
        Asked::Refused => Outcome::refused(table.live() == live),
        Asked::Other => Outcome::Wrong,
    }
}

// What a step of a transfer does.
#[derive(Clone, Copy)]
pub(crate) struct Done {
    // Whether it sends the expected bytes, and whether nothing.
    sends: bool,
    pub(crate) is_silent: bool,
    takes: bool,
    pub(crate) closes: bool,
}

fn done_by<A: Allocator + Copy>(step: &Step<A>, port: u16, to: Endpoint, bytes: &[u8]) -> Done {
    Done {
        sends: goes(&step.out, port, to, bytes),
        is_silent: step.out.is_none(),
        takes: step.taken.is_some(),
        closes: step.closed,
    }
}

// Passes a datagram to a table whose keeper keeps nothing.
pub(crate) fn handle<A: Allocator + Copy>(
    table: &mut Table<A>,
    port: u16,
    from: Endpoint,
    bytes: &[u8],
    answer: &[u8],
) -> Done {
    let step = table.on_datagram(&mut NoKeeper, port, from, bytes);
    done_by(&step, port, from, answer)
}

// Lets a transfer time out.
pub(crate) fn wait<A: Allocator + Copy>(
    table: &mut Table<A>,
    port: u16,
    to: Endpoint,
    bytes: &[u8],
) -> Done {
    let step = table.on_timeout(port);
    done_by(&step, port, to, bytes)
}

// Whether a block to the transfer at port 4000 is acknowledged so, and completes a file or does not.
pub(crate) fn takes_block<A: Allocator + Copy>(
    table: &mut Table<A>,
    data: &[u8],
    ack: &[u8],
    is_last: bool,
) -> bool {
    let done = handle(table, 4000, ALICE, data, ack);
    done.takes == is_last && done.sends
}

// Whether a datagram to a transfer is answered so.
pub(crate) fn answers<A: Allocator + Copy>(
    table: &mut Table<A>,
    port: u16,
    from: Endpoint,
    bytes: &[u8],
    answer: &[u8],
) -> bool {
    handle(table, port, from, bytes, answer).sends
}

// Whether a transfer sends this at a time-out.
pub(crate) fn repeats<A: Allocator + Copy>(
    table: &mut Table<A>,
    port: u16,
    to: Endpoint,
    bytes: &[u8],
) -> bool {
    wait(table, port, to, bytes).sends
}

// Whether no transfer is live, and the Lynx collection is empty.
fn is_idle<A: Allocator + Copy>(table: &Table<A>) -> bool {
    let live = table.live();
    let is_empty = table.collection(Ruleset::Lynx).is_empty();
    live == 0 && is_empty
}

// Whether a refused block has closed its transfer and changed no collection.
pub(crate) fn is_let_go<A: Allocator + Copy>(table: &Table<A>, step: &Step<A>) -> bool {
    let is_idle = is_idle(table);
    let is_sent = goes(&step.out, 4000, ALICE, OUT_OF_MEMORY);
    is_idle && is_sent && step.closed && step.taken.is_none()
}
