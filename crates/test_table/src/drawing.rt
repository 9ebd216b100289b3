//! Draws datagrams and files.

// The inputs of a server in a drawn run.
use crate::archive::REQUEST;
use crate::plain::{End, Plain};
use crate::plain_file::piece;
use std::alloc::{AllocError, Global};
use test_samples::{ACK_0, Draws, EMPTY_LYNX, EMPTY_MS, RRQ_LYNX, join, record, steps};
use tftp_packet::Endpoint;

// The sizes of the drawn files' moves: a block and less, a whole block, more than one, and two blocks.
const MOVES: [usize; 5] = [0, 2, 484, 700, 996];

// An input of a server: a datagram at the request port with a spare port, one at another port, or a time-out.
#[derive(Drop)]
pub(crate) enum Input {
    Ask {
        spare: u16,
        from: Endpoint,
        bytes: Vec<u8>,
    },
    Recv {
        port: u16,
        from: Endpoint,
        bytes: Vec<u8>,
    },
    Wait {
        port: u16,
    },
}

fn peer(draws: &mut Draws) -> Endpoint {
    Endpoint {
        host: 2 + u32::from(draws.below(2)),
        port: 5000_u16.wrapping_add(draws.below(2)),
    }
}

// The record of the file with this number, with `count` moves.
fn solution(alloc: Global, i: u16, count: usize) -> Result<Vec<u8>, AllocError> {
    let level = (i % 11) as u8;
    let password = [0, 0, level / 8, 0];
    let ticks = u32::from(1 + i / 6 % 4);
    let moves = steps(alloc, count)?;
    record(
        alloc,
        u16::from(level % 4),
        &password,
        u32::from(i % 5),
        ticks,
        &moves,
    )
}

// Cuts the last move of one of nine files with moves short, and adds a byte to one of seven files.
fn spoil(bytes: &mut Vec<u8>, i: u16, count: usize) -> Result<(), AllocError> {
    if count > 0 && i % 9 == 8 {
        bytes.pop();
        bytes.push(3)?;
    }
    if i % 7 == 6 {
        bytes.push(0)?;
    }
    Ok(())
}

// A file of one record, for one of a few levels of either ruleset, with different ticks and moves. In one of nine files
// with moves the last move is cut short, one of seven has a byte after its record, and the record of two of eleven is
// not a solution.
fn file(alloc: Global, i: u16) -> Result<Vec<u8>, AllocError> {
    let count = MOVES.get(usize::from(i / 3 % 5)).copied().unwrap_or(0);
    let header = if i % 2 == 0 { EMPTY_LYNX } else { EMPTY_MS };
    let mut bytes = join(alloc, header, &[&solution(alloc, i, count)?])?;
    spoil(&mut bytes, i, count)?;
    Ok(bytes)
}

fn packet(alloc: Global, opcode: u8, n: u16, body: &[u8]) -> Result<Vec<u8>, AllocError> {
    let number = n.to_be_bytes();
    let mut bytes = Vec::from_slice(alloc, &[0, opcode, number[0], number[1]])?;
    bytes.extend_from_slice(body)?;
    Ok(bytes)
}

fn request(alloc: Global, draws: &mut Draws) -> Result<Vec<u8>, AllocError> {
    let bytes = match draws.below(16) {
        0 => b"\0\x01lynx.tws\0mail\0".as_slice(),
        1 => b"\0\x02upload.tws\0netascii\0".as_slice(),
        2 => b"\0\x01LYNX.TWS\0octet\0".as_slice(),
        3 => b"\0\x01ms.tws\0octet".as_slice(),
        4 => ACK_0.as_slice(),
        12 => b"\0\x03\0\x01no request".as_slice(),
        13 => b"\0\x05\0\0no request\0".as_slice(),
        14 => b"\0\x02upload.tws\0octet".as_slice(),
        5 | 6 => b"\0\x01ms.tws\0Octet\0tsize\x000\0".as_slice(),
        7 | 8 => RRQ_LYNX.as_slice(),
        _ => b"\0\x02\0OCTET\0".as_slice(),
    };
    Vec::from_slice(alloc, bytes)
}

// DATA with block `n` of a file. Sometimes the block is cut short.
fn block(alloc: Global, draws: &mut Draws, file: &[u8], n: u16) -> Result<Vec<u8>, AllocError> {
    let start = usize::from(n.saturating_sub(1)).wrapping_mul(512);
    let len = if draws.once_in(12) {
        usize::from(draws.below(512))
    } else {
        512
    };
    packet(alloc, 3, n, piece(file, start, len))
}

// A datagram for a live transfer: mostly one that continues it.
fn fitting(
    alloc: Global,
    draws: &mut Draws,
    plain: &Plain,
    i: usize,
    run: u16,
) -> Result<Vec<u8>, AllocError> {
    let Some(transfer) = plain.live.get(i) else {
        return packet(alloc, 4, 1, b"");
    };
    let near = if draws.once_in(4) { draws.below(3) } else { 1 };
    match &transfer.end {
        End::Sending { block, .. } => {
            let n = (*block % 65536) as u16;
            packet(alloc, 4, n.wrapping_add(near).wrapping_sub(1), b"")
        }
        End::Receiving { count, .. } | End::Waiting { count, .. } => {
            let n = (*count % 65536) as u16;
            let number = transfer.port.wrapping_mul(7).wrapping_add(run) % 210;
            let file = file(alloc, number)?;
            block(alloc, draws, &file, n.wrapping_add(near))
        }
    }
}

fn datagram(
    alloc: Global,
    draws: &mut Draws,
    plain: &Plain,
    i: usize,
    run: u16,
) -> Result<Vec<u8>, AllocError> {
    match draws.below(24) {
        0 => packet(alloc, 5, draws.below(9), b"\0"),
        1 => packet(alloc, 5, 0, b"cut"),
        2 => packet(alloc, 4, 1, b"\0"),
        3 => packet(alloc, 3, 1, &[0; 513]),
        4 => request(alloc, draws),
        5 => packet(alloc, 4, 1, b""),
        6 => packet(alloc, 3, draws.below(4), b"no file"),
        _ => fitting(alloc, draws, plain, i, run),
    }
}

// A free port: the first from a drawn one on, of which at most `LIVE` are not free.
fn spare(draws: &mut Draws, plain: &Plain, crowded: bool) -> u16 {
    let drawn = if draws.once_in(50) {
        0
    } else {
        4000_u16.wrapping_add(draws.below(if crowded { 2000 } else { 6 }))
    };
    for i in 0..=64 {
        let port = drawn.wrapping_add(i);
        if plain.place(port).is_none() {
            return port;
        }
    }
    drawn
}

// The port of a datagram or a time-out: mostly this one, otherwise one that may not be live, or the request port.
fn port(draws: &mut Draws, live: u16) -> u16 {
    match draws.below(30) {
        0 => REQUEST,
        1 | 2 => 4000_u16.wrapping_add(draws.below(8)),
        _ => live,
    }
}

// The next input of a run, in a crowded one mostly a request.
pub(crate) fn draw(
    alloc: Global,
    draws: &mut Draws,
    plain: &Plain,
    run: u16,
    crowded: bool,
) -> Result<Input, AllocError> {
    let asks = if crowded { 18 } else { 4 };
    if draws.below(20) < asks {
        let bytes = request(alloc, draws)?;
        return Ok(Input::Ask {
            spare: spare(draws, plain, crowded),
            from: peer(draws),
            bytes,
        });
    }
    let many = (plain.live.len() % 65536) as u16;
    let i = usize::from(draws.below(many));
    let (port, from) = match plain.live.get(i) {
        Some(transfer) => (transfer.port, transfer.peer),
        None => (4000_u16.wrapping_add(draws.below(6)), peer(draws)),
    };
    let port = self::port(draws, port);
    if draws.once_in(5) {
        return Ok(Input::Wait { port });
    }
    let from = if draws.once_in(10) { peer(draws) } else { from };
    let bytes = datagram(alloc, draws, plain, i, run)?;
    Ok(Input::Recv { port, from, bytes })
}
