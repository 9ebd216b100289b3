//! A table with as many transfers as it has places for.

// A put beside downloads: all places are taken, and the next requests are refused until one of them is free again.
use crate::archive::{Archive, Input, REQUEST, Row, Then, client, first_other, is_live, is_wanted};
use archive_memory::MemoryKeeper;
use std::alloc::Global;
use std::test::Fail;
use test_samples::{ACK_0, ACK_1, BUSY, DATA_EMPTY_LYNX, DATA_HUNDRED, HUNDRED, RRQ_LYNX, WRQ};

// Begins the transfer at this port, of the client on this host. Whether it is answered so, and as many are live then.
fn begins(
    alloc: Global,
    archive: &mut Archive,
    number: u16,
    request: &[u8],
    answer: &[u8],
) -> Result<bool, Fail> {
    let port = 4000_u16.wrapping_add(number);
    let host = u32::from(number).wrapping_add(2);
    let step = archive.ask(port, client(host), request)?;
    let is_answered = is_wanted(alloc, &step, Then::Opens(port, host, answer));
    let live = usize::from(number).wrapping_add(1);
    Ok(is_answered && is_live(archive, live, Some(4000)))
}

// Whether a put and then 63 downloads begin.
fn takes_all_places(alloc: Global, archive: &mut Archive) -> Result<bool, Fail> {
    let mut begin = begins(alloc, archive, 0, WRQ, ACK_0)?;
    for number in 1..64 {
        begin = begins(alloc, archive, number, RRQ_LYNX, DATA_EMPTY_LYNX)? && begin;
    }
    Ok(begin)
}

// Requests are refused, also once the put's file was taken, until a download ends.
const ROWS: &[Row] = &[
    (
        Input::Ask(4064, 66, RRQ_LYNX),
        Then::Sends(REQUEST, 66, BUSY),
    ),
    (Input::Ask(4064, 66, WRQ), Then::Sends(REQUEST, 66, BUSY)),
    (
        Input::Recv(4000, 2, DATA_HUNDRED),
        Then::Takes(4000, 2, ACK_1, HUNDRED),
    ),
    (
        Input::Ask(4064, 66, RRQ_LYNX),
        Then::Sends(REQUEST, 66, BUSY),
    ),
    (Input::Recv(4063, 65, ACK_1), Then::Ends),
    (
        Input::Ask(4064, 66, RRQ_LYNX),
        Then::Opens(4064, 66, DATA_HUNDRED),
    ),
];

// Whether all places are taken, the index of the first of these inputs whose step is another one, and whether all places
// are taken at the end.
fn goes_on(alloc: Global, archive: &mut Archive) -> Result<(bool, Option<usize>, bool), Fail> {
    let mut keeper = MemoryKeeper::new(alloc);
    let are_taken = takes_all_places(alloc, archive)?;
    let other = first_other(alloc, archive, &mut keeper, ROWS)?;
    Ok((are_taken, other, is_live(archive, 64, Some(4000))))
}

fn goes_on_at_new(alloc: Global) -> Result<(bool, Option<usize>, bool), Fail> {
    goes_on(alloc, &mut Archive::new(alloc))
}

#[test]
fn a_put_beside_63_downloads(rt: HostRuntime) -> Result<(), Fail> {
    assert_eq!(rt; goes_on_at_new(rt.alloc())?, (true, None, true));
    Ok(())
}
