//! Steps of clients by hand.

// Transfers by hand, from the client's side: RFC 1350 sections 2, 4 and 5.
use archive_client::{Cause, Get, Put, State, TooLong};
use std::alloc::Global;
use std::test::Fail;
use test_samples::{
    ACK_0, ACK_1, ACK_2, DATA_HUNDRED, FILE_TOO_LONG, HUNDRED, RRQ_LYNX, SERVER, UNKNOWN_TRANSFER,
    WRQ, at, whole_block,
};
use tftp_packet::Out;
use tws_file::Ruleset;

fn goes(out: &Option<Out>, port: u16, bytes: &[u8]) -> bool {
    match out {
        Some(out) => { out.from_port == 5000 && out.to == at(port) && out.dgram.bytes() == bytes }
        None => false,
    }
}

fn filled(alloc: Global, len: usize) -> Result<Vec<u8>, Fail> {
    Ok(vec![in alloc; 7; len]?)
}

// What a client is given: a datagram from this port, or a time-out.
#[derive(Clone, Copy)]
enum Input<'a> {
    From(u16, &'a [u8]),
    Nothing,
}

// An input, what the client sends then and to which port, and its state after that.
type Row<'a> = (Input<'a>, Option<(u16, &'a [u8])>, State);

fn is_sent(out: &Option<Out>, wanted: Option<(u16, &[u8])>) -> bool {
    match wanted {
        Some((port, bytes)) => goes(out, port, bytes),
        None => out.is_none(),
    }
}

// Whether a put follows this row.
fn is_put_row(put: &mut Put, row: Row<'_>) -> bool {
    let (input, wanted, state) = row;
    let out = match input {
        Input::From(port, bytes) => put.on_datagram(at(port), bytes),
        Input::Nothing => put.on_timeout(),
    };
    is_sent(&out, wanted) && put.state() == state
}

fn plays_put(put: &mut Put, rows: &[Row<'_>]) -> bool {
    for row in rows {
        if !is_put_row(put, *row) {
            return false;
        }
    }
    true
}

// Whether a put of this file sends its request, follows these rows, and is over.
fn puts(file: Vec<u8>, rows: &[Row<'_>]) -> bool {
    match Put::start(5000, SERVER, file) {
        Ok((mut put, request)) => {
            goes(&Some(request), 6969, WRQ) && plays_put(&mut put, rows) && put.over()
        }
        Err(_fault) => false,
    }
}

#[test]
fn a_put_of_one_whole_block(rt: HostRuntime) -> Result<(), Fail> {
    let block = whole_block(1, 7);
    let rows: [Row<'_>; 3] = [
        (
            Input::From(4000, ACK_0),
            Some((4000, &block)),
            State::Running,
        ),
        (
            Input::From(4000, ACK_1),
            Some((4000, b"\0\x03\0\x02")),
            State::Running,
        ),
        (Input::From(4000, ACK_2), None, State::Sent),
    ];
    assert!(rt; puts(filled(rt.alloc(), 512)?, &rows));
    Ok(())
}

// Two copies of the request opened two transfers: the client stays with the port that it bound to.
#[test]
fn a_put_that_two_ports_answer(rt: HostRuntime) -> Result<(), Fail> {
    let rows: [Row<'_>; 3] = [
        (
            Input::From(4000, ACK_0),
            Some((4000, DATA_HUNDRED)),
            State::Running,
        ),
        (
            Input::From(4001, ACK_0),
            Some((4001, UNKNOWN_TRANSFER)),
            State::Running,
        ),
        (Input::From(4000, ACK_1), None, State::Sent),
    ];
    assert!(rt; puts(Vec::from_slice(rt.alloc(), HUNDRED)?, &rows));
    Ok(())
}

#[test]
fn a_put_that_is_never_answered(rt: HostRuntime) -> Result<(), Fail> {
    let again: Row<'_> = (Input::Nothing, Some((6969, WRQ)), State::Running);
    let last: Row<'_> = (Input::Nothing, None, State::Failed(Cause::TimedOut));
    assert!(rt; puts(filled(rt.alloc(), 1)?, &[again, again, again, again, last]));
    Ok(())
}

// Whether a put of this file begins.
fn starts(file: Vec<u8>) -> bool {
    match Put::start(5000, SERVER, file) {
        Ok((put, request)) => put.state() == State::Running && goes(&Some(request), 6969, WRQ),
        Err(_fault) => false,
    }
}

// 8,191 whole blocks, which an empty one ends, and the greatest file.
#[test]
fn long_files(rt: HostRuntime) -> Result<(), Fail> {
    for len in [4193792, 33553919] {
        assert!(rt; starts(filled(rt.alloc(), len)?), "{len}");
    }
    Ok(())
}

// Whether this file is too long, and comes back.
fn comes_back(file: Vec<u8>) -> bool {
    match Put::start(5000, SERVER, file) {
        Ok(_begun) => false,
        Err(TooLong { file }) => file.len() == 33553920 && file.iter().all(|b| *b == 7),
    }
}

#[test]
fn a_file_that_is_too_long(rt: HostRuntime) -> Result<(), Fail> {
    assert!(rt; comes_back(filled(rt.alloc(), 33553920)?));
    Ok(())
}

// Whether a get gives this datagram the answer ACK 1.
fn acknowledges(get: &mut Get, data: &[u8]) -> bool {
    goes(&get.on_datagram(at(4001), data), 4001, ACK_1)
}

fn hands_out(alloc: Global, get: Get, bytes: &[u8]) -> bool {
    match get.into_file() {
        Ok(file) => match file.to_vec(alloc) {
            Ok(read) => read.as_slice() == bytes,
            Err(_fault) => false,
        },
        Err(_get) => false,
    }
}

// Whether a get takes its file, waits, and is not ended by an ERROR from then on.
fn takes_file(get: &mut Get) -> bool {
    get.state() == State::Running
        && acknowledges(get, DATA_HUNDRED)
        && get.state() == State::Got
        && !get.over()
        && get.on_datagram(at(4001), b"\0\x05\0\0\0").is_none()
}

// Whether a get that is asked for its file before any answer comes back, goes on, and hands the file out.
fn gets(alloc: Global, get: Get) -> bool {
    match get.into_file() {
        Ok(_file) => false,
        Err(mut get) => takes_file(&mut get) && hands_out(alloc, get, HUNDRED),
    }
}

#[test]
fn a_get(rt: HostRuntime) {
    let (get, request) = Get::start(rt.alloc(), 5000, SERVER, Ruleset::Lynx);
    let is_asked = goes(&Some(request), 6969, RRQ_LYNX);
    assert_eq!(rt; (is_asked, gets(rt.alloc(), get)), (true, true));
}

fn takes_whole_block(get: &mut Get, n: u16) -> bool {
    let [high, low] = n.to_be_bytes();
    let out = get.on_datagram(at(4001), &whole_block(n, 7));
    goes(&out, 4001, &[0, 4, high, low])
}

// Whether each of 65,534 whole blocks of sevens is acknowledged.
fn takes_whole_blocks(get: &mut Get) -> bool {
    for n in 1..65535_u16 {
        if !takes_whole_block(get, n) {
            return false;
        }
    }
    true
}

// The block after those is the last one that has a number. Whether a whole one is refused, and the client fails.
fn refuses_a_block(get: &mut Get) -> bool {
    let data = whole_block(65535, 7);
    takes_whole_blocks(get)
        && goes(&get.on_datagram(at(4001), &data), 4001, FILE_TOO_LONG)
        && get.on_datagram(at(4001), &data).is_none()
        && get.on_timeout().is_none()
        && get.state() == State::Failed(Cause::TooLong)
        && get.over()
}

#[test]
fn a_get_of_a_block_too_many(rt: HostRuntime) {
    let (mut get, _request) = Get::start(rt.alloc(), 5000, SERVER, Ruleset::Ms);
    assert!(rt; refuses_a_block(&mut get));
}

// Whether one that is not whole ends the file.
fn takes_the_last(get: &mut Get) -> bool {
    let mut data = [7; 515];
    data[..4].copy_from_slice(b"\0\x03\xFF\xFF");
    takes_whole_blocks(get) && goes(&get.on_datagram(at(4001), &data), 4001, b"\0\x04\xFF\xFF")
}

// Whether the greatest file is fetched.
fn fetches_the_greatest(alloc: Global, file: &[u8]) -> bool {
    let (mut get, _request) = Get::start(alloc, 5000, SERVER, Ruleset::Ms);
    takes_the_last(&mut get) && hands_out(alloc, get, file)
}

#[test]
fn a_get_of_the_greatest_file(rt: HostRuntime) -> Result<(), Fail> {
    assert!(rt; fetches_the_greatest(rt.alloc(), &filled(rt.alloc(), 33553919)?));
    Ok(())
}

fn has_name(alloc: Global, cause: Cause, name: &str) -> Result<bool, Fail> {
    Ok(format!(in alloc; "{cause}")?.as_str() == name)
}

#[test]
fn causes_by_name(rt: HostRuntime) -> Result<(), Fail> {
    for (cause, name) in [
        (Cause::Refused(1), "refused 1"),
        (Cause::TimedOut, "timed out"),
        (Cause::TooLong, "too long"),
        (Cause::Memory, "out of memory"),
    ] {
        assert!(rt; has_name(rt.alloc(), cause, name)?, "{name}");
    }
    Ok(())
}
