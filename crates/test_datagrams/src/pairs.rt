//! A sender and a receiver over a drawn network.

// A thousand runs of one sender and one receiver. Their packets arrive late, repeatedly and out of order, or never.
use std::alloc::Global;
use std::test::Fail;
use test_samples::Draws;
use tftp_ends::{Received, Receiver, RecvState, SendState, Sender};
use tftp_packet::{Dgram, Owned, Packet, decode};

const SIZES: [usize; 7] = [0, 1, 511, 512, 513, 1024, 1200];

#[derive(Drop)]
struct Pair {
    sender: Sender<Owned>,
    receiver: Receiver,
    // All that either end sent.
    sent: Vec<Dgram>,
    // How many time-outs made the sender send.
    resent: u64,
}

// Delivers a sent datagram to the end that it is for, and returns what that end sends then.
fn deliver(pair: &mut Pair, index: usize) -> Result<Option<Dgram>, Fail> {
    let Some(dgram) = pair.sent.get(index) else {
        return Err(Fail::new("nothing was sent"));
    };
    match decode(dgram.bytes()) {
        Ok(Packet::Data { block, body }) => { Ok(pair.receiver.on_data(block, body)?) }
        Ok(Packet::Ack { block }) => Ok(pair.sender.on_ack(block)),
        _ => Err(Fail::new("neither DATA nor ACK was sent")),
    }
}

fn step(pair: &mut Pair, draws: &mut Draws) -> Result<(), Fail> {
    let len = pair.sent.len();
    let out = match draws.below(8) {
        0 => {
            let out = pair.sender.on_timeout();
            if out.is_some() {
                pair.resent = pair.resent.wrapping_add(1);
            }
            out
        }
        1 => pair.receiver.on_timeout(),
        2 | 3 => {
            let index = draws.place(len);
            deliver(pair, index)?
        }
        // One of the newest, so that the transfer goes on.
        _ => {
            let index = len.saturating_sub(1).saturating_sub(draws.place(2));
            deliver(pair, index)?
        }
    };
    if let Some(dgram) = out {
        pair.sent.push(dgram)?;
    }
    Ok(())
}

// What was sent in a run so far.
#[derive(Clone, Copy)]
struct Sent {
    // The number of DATA.
    data: u64,
    // The greatest number of a DATA, which is the sender's current block.
    current: u16,
    // The greatest number of an ACK, which is how many blocks the receiver has.
    count: u16,
}

fn count_sent(dgrams: &[Dgram]) -> Option<Sent> {
    let mut sent = Sent {
        data: 0,
        current: 0,
        count: 0,
    };
    for dgram in dgrams {
        match decode(dgram.bytes()) {
            Ok(Packet::Data { block, .. }) => {
                sent.current = block.max(sent.current);
                sent.data = sent.data.wrapping_add(1);
            }
            Ok(Packet::Ack { block }) => sent.count = block.max(sent.count),
            _ => return None,
        }
    }
    Some(sent)
}

// Whether the received file is this one. No file here has more than one chunk.
fn is_file(received: &Received, file: &[u8]) -> bool {
    match received.chunk_count() {
        0 => file.is_empty(),
        1 => received.chunk(0) == file,
        _ => false,
    }
}

// Whether the receiver has the whole file once it has acknowledged the last block, and no file before. A sender has
// finished only after that.
fn has_file(pair: &Pair, sent: Sent, file: &[u8]) -> bool {
    let is_last = usize::from(sent.count) == file.len() / 512 + 1;
    match pair.receiver.file() {
        Some(received) => is_last && is_file(received, file),
        None => !is_last && pair.sender.state() != SendState::Finished,
    }
}

// Whether a run is right so far, by what the two ends sent (one DATA for each block up to the current one, and one for
// each time-out that made the sender send) and by the receiver's file. The law of one pair, `one_pair` of `tftp_ends`,
// covers the blocks of a file that is not whole yet.
fn holds(pair: &Pair, file: &[u8]) -> bool {
    match count_sent(&pair.sent) {
        Some(sent) => {
            sent.data == u64::from(sent.current).wrapping_add(pair.resent)
                && has_file(pair, sent, file)
        }
        None => false,
    }
}

// A sender of this file, and what it sends first.
fn start(alloc: Global, file: &[u8]) -> Result<(Sender<Owned>, Dgram), Fail> {
    let bytes = Vec::from_slice(alloc, file)?;
    if bytes.len() > 33_553_919 {
        return Err(Fail::new("too long"));
    }
    Ok(Sender::start(Owned::of(bytes)))
}

fn begin(alloc: Global, file: &[u8]) -> Result<Pair, Fail> {
    let (sender, first) = start(alloc, file)?;
    let mut pair = Pair {
        sender,
        receiver: Receiver::new(alloc),
        sent: Vec::new(alloc),
        resent: 0,
    };
    pair.sent.push(first)?;
    Ok(pair)
}

// Makes up to 200 steps, each of which must be right.
fn play(pair: &mut Pair, draws: &mut Draws, file: &[u8]) -> Result<(), Fail> {
    for _ in 0..draws.below(201) {
        step(pair, draws)?;
        if !holds(pair, file) {
            return Err(Fail::new("the law of one pair does not hold"));
        }
    }
    Ok(())
}

fn has_bytes(alloc: Global, received: &Received, file: &[u8]) -> bool {
    match received.to_vec(alloc) {
        Ok(bytes) => bytes.as_slice() == file,
        Err(_fault) => false,
    }
}

// Whether the receiver hands out its file once, if it has it.
fn gives_file(alloc: Global, receiver: &mut Receiver, file: &[u8]) -> bool {
    match receiver.take_file() {
        Some(received) => has_bytes(alloc, &received, file) && receiver.take_file().is_none(),
        None => true,
    }
}

// How many runs ended like this.
#[derive(Clone, Copy)]
struct Ended {
    // The sender has finished.
    finished: u64,
    // The receiver has given up.
    given_up: u64,
}

// Makes one run of this pair. Returns how it ended.
fn run(alloc: Global, draws: &mut Draws, pair: &mut Pair, file: &[u8]) -> Result<Ended, Fail> {
    play(pair, draws, file)?;
    let ended = Ended {
        finished: u64::from(pair.sender.state() == SendState::Finished),
        given_up: u64::from(pair.receiver.state() == RecvState::TimedOut),
    };
    if !gives_file(alloc, &mut pair.receiver, file) {
        return Err(Fail::new("another file was received"));
    }
    Ok(ended)
}

// Makes one run, of a file that is a prefix of these bytes. Returns how it ended.
fn run_one(alloc: Global, draws: &mut Draws, bytes: &[u8; 1200]) -> Result<Ended, Fail> {
    let size = SIZES.get(draws.place(7)).copied().unwrap_or(0).min(1200);
    let file = &bytes[..size];
    let mut pair = begin(alloc, file)?;
    run(alloc, draws, &mut pair, file)
}

fn run_all(alloc: Global, bytes: &[u8; 1200]) -> Result<Ended, Fail> {
    let mut draws = Draws::new(7);
    let mut all = Ended {
        finished: 0,
        given_up: 0,
    };
    for _ in 0..1000 {
        let ended = run_one(alloc, &mut draws, bytes)?;
        all.finished = all.finished.wrapping_add(ended.finished);
        all.given_up = all.given_up.wrapping_add(ended.given_up);
    }
    Ok(all)
}

#[test]
fn pairs(rt: HostRuntime) -> Result<(), Fail> {
    let mut bytes = [0; 1200];
    for (i, b) in bytes.iter_mut().enumerate() {
        *b = (i % 251) as u8;
    }
    let ended = run_all(rt.alloc(), &bytes)?;
    assert!(rt; ended.finished > 100, "{}", ended.finished);
    assert!(rt; ended.given_up > 10, "{}", ended.given_up);
    Ok(())
}
