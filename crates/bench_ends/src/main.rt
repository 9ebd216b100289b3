//! For the benchmark: one sender and one receiver of a file of the greatest length, in memory, many times.
#![tactic(auto)]

use std::alloc::{AllocError, Global};
use std::io;
use tftp_ends::{MAX_BLOCKS, MAX_FILE, Receiver, Sender};
use tftp_packet::{Dgram, Owned, Packet, decode};

/// The greatest length of a file.
const SIZE: usize = MAX_FILE as usize;

/// How many times it is sent.
const TIMES: usize = 6;

fn file(alloc: Global) -> Result<Vec<u8>, AllocError> {
    let mut bytes = vec![in alloc; 0; SIZE]?;
    for (i, byte) in bytes.iter_mut().enumerate() {
        *byte = (i % 251) as u8;
    }
    Ok(bytes)
}

// Passes a DATA to the receiver, and its ACK to the sender.
fn turn(sender: &mut Sender<Owned>, receiver: &mut Receiver, dgram: &Dgram) -> Option<Dgram> {
    let out = match decode(dgram.bytes()) {
        Ok(Packet::Data { block, body }) => receiver.on_data(block, body),
        _ => return None,
    };
    let Ok(Some(ack)) = out else {
        return None;
    };
    match decode(ack.bytes()) {
        Ok(Packet::Ack { block }) => sender.on_ack(block),
        _ => None,
    }
}

// Transfers a file, and returns how many bytes were received.
fn transfer(alloc: Global, bytes: Vec<u8>) -> u64 {
    if bytes.len() > SIZE {
        return 0;
    }
    let (mut sender, mut dgram) = Sender::start(Owned::of(bytes));
    let mut receiver = Receiver::new(alloc);
    for _ in 0..MAX_BLOCKS {
        match turn(&mut sender, &mut receiver, &dgram) {
            Some(next) => dgram = next,
            None => break,
        }
    }
    match receiver.take_file() {
        Some(received) => received.len(),
        None => 0,
    }
}

fn main(rt: HostRuntime) -> io::Result<()> {
    let bytes = file(rt.alloc())?;
    let mut total: u64 = 0;
    for _ in 0..TIMES {
        let copy = Vec::from_slice(rt.alloc(), &bytes)?;
        total = total.wrapping_add(transfer(rt.alloc(), copy));
    }
    println!(rt; "{total} bytes")
}
