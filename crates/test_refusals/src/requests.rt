//! Requests at a table whose requests for memory are refused.

// Requests to the server's table while other transfers are live, with each allocation refused in turn.
use crate::table_steps::{Asked, ask, repeats};
use crate::tables::{Deed, refuse_each_of};
use archive_table::Table;
use refusing::Outcome;
use std::alloc::Allocator;
use std::cell::Cell;
use test_samples::{ACK_0, BOB, DATA_EMPTY_LYNX, RRQ_LYNX, WRQ};

// Enough for each part of the table to grow more than once.
const TRANSFERS: u16 = 17;

fn port(i: u16) -> u16 {
    4000_u16.wrapping_add(i)
}

// A kind of request.
#[derive(Clone, Copy)]
pub(crate) enum Kind {
    Write,
    Read,
}

impl Kind {
    fn request(self) -> &'static [u8] {
        match self {
            Kind::Write => WRQ,
            Kind::Read => RRQ_LYNX,
        }
    }

    // What is sent first to one that is served.
    fn first(self) -> &'static [u8] {
        match self {
            Kind::Write => ACK_0,
            Kind::Read => DATA_EMPTY_LYNX,
        }
    }
}

// Whether `count` transfers are live, at the first ports.
fn are_live<A: Allocator + Copy>(table: &Table<A>, count: u16) -> bool {
    let mut after = 0;
    for i in 0..count {
        if table.next_port(after) != Some(port(i)) {
            return false;
        }
        after = port(i);
    }
    table.next_port(after).is_none() && table.live() == usize::from(count)
}

// Whether each of `count` transfers sends this again at a time-out.
fn go_on<A: Allocator + Copy>(table: &mut Table<A>, count: u16, first: &[u8]) -> bool {
    for i in 0..count {
        if !repeats(table, port(i), BOB, first) {
            return false;
        }
    }
    true
}

// Whether a request that is made again is served.
fn is_served_again<A: Allocator + Copy>(table: &mut Table<A>, count: u16, kind: Kind) -> bool {
    match ask(table, port(count), BOB, kind.request(), kind.first()) {
        Asked::Opened(is_sent) => is_sent && are_live(table, count.wrapping_add(1)),
        _ => false,
    }
}

// Whether a request that was refused has changed nothing: the others go on, and it is served when it is made again.
fn is_served_later<A: Allocator + Copy>(table: &mut Table<A>, count: u16, kind: Kind) -> bool {
    let are_live = are_live(table, count);
    let go_on = go_on(table, count, kind.first());
    let is_served = is_served_again(table, count, kind);
    are_live && go_on && is_served
}

// Makes a request to a table with `count` transfers. Notes the number of one that is refused.
fn open_next<A: Allocator + Copy>(
    table: &mut Table<A>,
    count: u16,
    kind: Kind,
    refused: &Cell<u64>,
) -> Outcome {
    match ask(table, port(count), BOB, kind.request(), kind.first()) {
        Asked::Opened(is_sent) => { Outcome::of(is_sent && are_live(table, count.wrapping_add(1))) }
        Asked::Refused => {
            refused.set(u64::from(count));
            Outcome::refused(is_served_later(table, count, kind))
        }
        Asked::Other => Outcome::Wrong,
    }
}

// Makes the requests up to one that is refused.
pub(crate) fn open_each<A: Allocator + Copy>(
    table: &mut Table<A>,
    kind: Kind,
    refused: &Cell<u64>,
) -> Outcome {
    for count in 0..TRANSFERS {
        let outcome = open_next(table, count, kind, refused);
        if outcome != Outcome::Right {
            return outcome;
        }
    }
    Outcome::of(are_live(table, TRANSFERS))
}

// The last request that was refused was made while others were live.
#[test]
fn requests_to_write(rt: HostRuntime) {
    let (done, refused) = refuse_each_of(rt.alloc(), 4, Deed::Open(Kind::Write));
    assert_eq!(rt; (done, refused > 1), (Ok(()), true));
}

#[test]
fn requests_to_read(rt: HostRuntime) {
    let (done, refused) = refuse_each_of(rt.alloc(), 4, Deed::Open(Kind::Read));
    assert_eq!(rt; (done, refused > 1), (Ok(()), true));
}
