//! Received files whose requests for memory are refused.

// Receiving a file and copying it, with each allocation refused in turn.
ghost use Rattle.std.specs.Prelude.{◌≤◌, length};

use refusing::{Complaint, Outcome, Refusing, refuse_each};
use std::alloc::{Allocator, Global};
use std::cell::Cell;
use tftp_ends::{CHUNK_SIZE, Received, Receiver, RecvFault, RecvState};
use tftp_packet::{BLOCK_SIZE, Dgram};

// The last block, of 100 bytes. The 32 blocks before block 33 fill a chunk, so block 33 begins a new one.
const LAST: u16 = 34;

const LAST_SIZE: usize = 100;

// How many bytes the second chunk has: a full block, and the last one.
const REST: usize = BLOCK_SIZE + LAST_SIZE;

// Each byte of block n is n.
fn block(n: u16) -> [u8; BLOCK_SIZE] {
    [n.to_be_bytes()[1]; BLOCK_SIZE]
}

fn size(n: u16) -> usize
    ensures { result ≤ BLOCK_SIZE }
{
    if n < LAST { BLOCK_SIZE } else { LAST_SIZE }
}

// Whether these are the bytes of the blocks from `first` on.
fn are_blocks(bytes: &[u8], first: usize) -> bool {
    for (i, byte) in bytes.iter().enumerate() {
        if usize::from(*byte) != (i / BLOCK_SIZE).wrapping_add(first) {
            return false;
        }
    }
    true
}

fn ack(n: u16) -> [u8; 4] {
    let [high, low] = n.to_be_bytes();
    [0, 4, high, low]
}

fn has_bytes(dgram: &Dgram, bytes: &[u8]) -> bool {
    dgram.bytes() == bytes
}

fn is_ack(out: &Option<Dgram>, n: u16) -> bool {
    match out {
        Some(dgram) => has_bytes(dgram, &ack(n)),
        None => false,
    }
}

// ---- receiving

// Whether this chunk is of this size, and has the blocks from `first` on.
fn is_chunk(chunk: &[u8], size: usize, first: usize) -> bool {
    chunk.len() == size && are_blocks(chunk, first)
}

fn has_chunks<A: Allocator>(received: &Received<A>) -> bool {
    received.chunk_count() == 2
        && is_chunk(received.chunk(0), CHUNK_SIZE, 1)
        && is_chunk(received.chunk(1), REST, 33)
}

fn takes<A: Allocator + Copy>(receiver: &mut Receiver<A>, n: u16, body: &[u8]) -> bool
    requires { length body.now ≤ BLOCK_SIZE }
{
    match receiver.on_data(n, body) {
        Ok(out) => is_ack(&out, n),
        Err(_) => false,
    }
}

// Whether a receiver is as it was before block n: it sends the last ACK at a time-out.
fn waits_for<A: Allocator + Copy>(receiver: &mut Receiver<A>, n: u16) -> bool {
    let out = receiver.on_timeout();
    receiver.state() == RecvState::Running && is_ack(&out, n.wrapping_sub(1))
}

// Whether a block is taken: at once, or the second time if the first was out of memory. The receiver is then unchanged.
// Notes a block that was refused.
fn takes_again<A: Allocator + Copy>(
    receiver: &mut Receiver<A>,
    n: u16,
    body: &[u8],
    refused: &Cell<u16>,
) -> bool
    requires { length body.now ≤ BLOCK_SIZE }
{
    match receiver.on_data(n, body) {
        Ok(out) => is_ack(&out, n),
        Err(RecvFault::Memory) => {
            refused.set(n);
            waits_for(receiver, n) && takes(receiver, n, body)
        }
        Err(_) => false,
    }
}

// Whether all blocks are taken, though one may have been refused once.
fn takes_all<A: Allocator + Copy>(receiver: &mut Receiver<A>, refused: &Cell<u16>) -> bool {
    for n in 1..=LAST {
        if !takes_again(receiver, n, &block(n)[..size(n)], refused) {
            return false;
        }
    }
    receiver.state() == RecvState::Complete
}

// Whether the file is whole.
fn has_whole<A: Allocator + Copy>(receiver: &mut Receiver<A>) -> bool {
    match receiver.take_file() {
        Some(received) => has_chunks(&received),
        None => false,
    }
}

// Whether the file is taken so, and is whole.
fn receives<A: Allocator + Copy>(receiver: &mut Receiver<A>, refused: &Cell<u16>) -> bool {
    let takes_all = takes_all(receiver, refused);
    let has_whole = has_whole(receiver);
    takes_all && has_whole
}

fn receive(refusing: &Refusing<Global>, refused: &Cell<u16>) -> Outcome {
    Outcome::of(receives(&mut Receiver::new(refusing), refused))
}

// The last request for memory is made as block 33 begins a chunk.
#[test]
fn receiving(rt: HostRuntime) {
    let refused = Cell::new(0);
    let done = refuse_each(
        rt.alloc(),
        2,
        &|refusing: &Refusing<Global>| receive(refusing, &refused),
    );
    assert_eq!(rt; (done, refused.get()), (Ok(()), 33));
}

// ---- copying

fn copy(refusing: &Refusing<Global>, received: &Received) -> Outcome {
    match received.to_vec(refusing) {
        Ok(bytes) => Outcome::of(is_chunk(&bytes, CHUNK_SIZE + REST, 1)),
        Err(_) => Outcome::OutOfMemory,
    }
}

fn copy_file(refusing: &Refusing<Global>, receiver: &mut Receiver) -> Outcome {
    match receiver.take_file() {
        Some(received) => copy(refusing, &received),
        None => Outcome::Wrong,
    }
}

fn receive_and_copy(refusing: &Refusing<Global>) -> Outcome {
    let mut receiver = Receiver::new(refusing.inner);
    if !takes_all(&mut receiver, &Cell::new(0)) {
        return Outcome::Wrong;
    }
    copy_file(refusing, &mut receiver)
}

#[test]
fn copying_what_was_received(rt: HostRuntime) -> Result<(), Complaint> {
    refuse_each(rt.alloc(), 1, &receive_and_copy)
}

// ---- calls that make no request for memory

// Whether a block that is not the first one sends nothing.
fn ignores_block_2<A: Allocator + Copy>(receiver: &mut Receiver<A>) -> bool {
    match receiver.on_data(2, &block(2)) {
        Ok(out) => out.is_none(),
        Err(_) => false,
    }
}

// Whether that is so, and a time-out before any block sends something.
fn waits_for_the_first_block<A: Allocator + Copy>(receiver: &mut Receiver<A>) -> bool {
    let out = receiver.on_timeout();
    out.is_some() && ignores_block_2(receiver)
}

// Whether the 32 blocks that fill a chunk are taken.
fn takes_a_chunk<A: Allocator + Copy>(receiver: &mut Receiver<A>) -> bool {
    for n in 1..33 {
        if !takes(receiver, n, &block(n)) {
            return false;
        }
    }
    true
}

// Whether a file of one full chunk is written whole.
fn is_written<A: Allocator>(global: Global, received: &Received<A>) -> bool {
    let mut out = Vec::new(global);
    received.len() == CHUNK_SIZE as u64
        && received.write_to(&mut out).is_ok()
        && is_chunk(&out, CHUNK_SIZE, 1)
}

// Whether an empty block ends the file, which is handed out and written.
fn ends_with_nothing<A: Allocator + Copy>(global: Global, receiver: &mut Receiver<A>) -> bool {
    if !takes(receiver, 33, b"") {
        return false;
    }
    match receiver.take_file() {
        Some(received) => is_written(global, &received),
        None => false,
    }
}

// Whether the calls on a receiver are right, and how many requests for memory were made before the first block, after
// those that fill a chunk, and at the end.
fn receive_a_chunk<A: Allocator + Copy>(
    refusing: &Refusing<Global>,
    receiver: &mut Receiver<A>,
) -> ([bool; 3], u64, u64, u64) {
    let waits = waits_for_the_first_block(receiver);
    let before = refusing.requests();
    let takes = takes_a_chunk(receiver);
    let after = refusing.requests();
    let ends = ends_with_nothing(refusing.inner, receiver);
    ([waits, takes, ends], before, after, refusing.requests())
}

// The same with a new receiver.
fn receive_at_new(refusing: &Refusing<Global>) -> ([bool; 3], u64, u64, u64) {
    receive_a_chunk(refusing, &mut Receiver::new(refusing))
}

// The same with an allocator that refuses nothing.
fn receive_with_memory(global: Global) -> ([bool; 3], u64, u64, u64) {
    receive_at_new(&Refusing::new(global, 0))
}

// No other call allocates, nor does an empty block after a full chunk.
#[test]
fn calls_without_memory(rt: HostRuntime) {
    let (are_right, before, after, ended) = receive_with_memory(rt.alloc());
    assert_eq!(rt; (are_right, before, ended), ([true; 3], 0, after));
}
