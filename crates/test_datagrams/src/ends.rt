//! Transfers worked out by hand: which datagrams are sent at which call, by RFC 1350 sections 2, 5 and 6 and RFC 1123
//! section 4.2.3.1.
ghost use Rattle.std.specs.Prelude.{◌≤◌, length};

use std::alloc::Global;
use std::test::Fail;
use test_samples::HUNDRED;
use tftp_ends::{Received, Receiver, RecvFault, RecvState, SendState, Sender};
use tftp_packet::{Dgram, Owned};

// The blocks of a file. Each byte of block n is n, and the last block has fewer than 512 bytes.
#[derive(Clone, Copy)]
struct Blocks {
    count: u16,
    last: usize,
}

// The bytes of a block, and how many of them it has.
fn block(blocks: Blocks, n: u16) -> ([u8; 512], usize)
    ensures { result.1 ≤ 512 }
{
    let size = if n < blocks.count {
        512
    } else {
        blocks.last.min(511)
    };
    ([n.to_be_bytes()[1]; 512], size)
}

fn file_of(alloc: Global, blocks: Blocks) -> Result<Vec<u8>, Fail> {
    let mut file = Vec::new(alloc);
    for n in 1..=blocks.count {
        let (bytes, size) = block(blocks, n);
        file.extend_from_slice(&bytes[..size])?;
    }
    Ok(file)
}

// A sender of these blocks, and what it sends first.
fn start(alloc: Global, blocks: Blocks) -> Result<(Sender<Owned>, Dgram), Fail> {
    let file = file_of(alloc, blocks)?;
    if file.len() > 33_553_919 {
        return Err(Fail::new("too long"));
    }
    Ok(Sender::start(Owned::of(file)))
}

fn is_data(dgram: &Dgram, n: u16, body: &[u8]) -> bool {
    let [high, low] = n.to_be_bytes();
    let bytes = dgram.bytes();
    bytes.len() == 4 + body.len() && bytes.starts_with(&[0, 3, high, low]) && bytes.ends_with(body)
}

fn sends_data(out: &Option<Dgram>, n: u16, body: &[u8]) -> bool {
    match out {
        Some(dgram) => is_data(dgram, n, body),
        None => false,
    }
}

fn sends_ack(out: &Option<Dgram>, n: u16) -> bool {
    let [high, low] = n.to_be_bytes();
    match out {
        Some(dgram) => dgram.bytes() == [0, 4, high, low].as_slice(),
        None => false,
    }
}

// What a sender is given: an ACK with this number, or a time-out.
#[derive(Clone, Copy)]
enum Input {
    Ack(u16),
    Nothing,
}

// What a receiver is given: a DATA with this number, or a time-out.
#[derive(Clone, Copy)]
enum Given {
    Data(u16),
    Nothing,
}

fn sends_block(out: &Option<Dgram>, blocks: Blocks, n: u16) -> bool {
    let (bytes, size) = block(blocks, n);
    sends_data(out, n, &bytes[..size])
}

// What a sender is given, the block that it sends then, and its state after that.
type SenderRow = (Input, Option<u16>, SendState);

fn is_sender_row(sender: &mut Sender<Owned>, blocks: Blocks, row: SenderRow) -> bool {
    let (input, answer, state) = row;
    let out = match input {
        Input::Ack(n) => sender.on_ack(n),
        Input::Nothing => sender.on_timeout(),
    };
    let is_right = match answer {
        Some(n) => sends_block(&out, blocks, n),
        None => out.is_none(),
    };
    is_right && sender.state() == state
}

fn plays_sender(sender: &mut Sender<Owned>, blocks: Blocks, rows: &[SenderRow]) -> bool {
    for row in rows {
        if !is_sender_row(sender, blocks, *row) {
            return false;
        }
    }
    true
}

// Whether a new sender of these blocks sends the first of them, and then follows these rows.
fn sends(alloc: Global, blocks: Blocks, rows: &[SenderRow]) -> Result<bool, Fail> {
    let (mut sender, first) = start(alloc, blocks)?;
    Ok(sends_block(&Some(first), blocks, 1) && plays_sender(&mut sender, blocks, rows))
}

// What a receiver is given, the ACK that it sends then, and its state after that.
type ReceiverRow = (Given, Option<u16>, RecvState);

fn is_receiver_row(receiver: &mut Receiver, body: &[u8], row: ReceiverRow) -> bool
    requires { length body.now ≤ 512 }
{
    let (given, answer, state) = row;
    let out = match given {
        Given::Data(n) => receiver.on_data(n, body),
        Given::Nothing => Ok(receiver.on_timeout()),
    };
    let is_right = match (out, answer) {
        (Ok(out), Some(n)) => sends_ack(&out, n),
        (Ok(out), None) => out.is_none(),
        (Err(_fault), _) => false,
    };
    is_right && receiver.state() == state
}

// Whether a receiver follows these rows. All DATA have this body.
fn plays_receiver(receiver: &mut Receiver, body: &[u8], rows: &[ReceiverRow]) -> bool
    requires { length body.now ≤ 512 }
{
    for row in rows {
        if !is_receiver_row(receiver, body, *row) {
            return false;
        }
    }
    true
}

#[test]
fn a_repeated_ack_sends_nothing(rt: HostRuntime) -> Result<(), Fail> {
    let blocks = Blocks {
        count: 4,
        last: 464,
    };
    let rows = [
        (Input::Ack(1), Some(2), SendState::Running),
        (Input::Ack(2), Some(3), SendState::Running),
        (Input::Ack(3), Some(4), SendState::Running),
        (Input::Ack(3), None, SendState::Running),
        (Input::Ack(3), None, SendState::Running),
        (Input::Ack(3), None, SendState::Running),
        (Input::Ack(3), None, SendState::Running),
        (Input::Nothing, Some(4), SendState::Running),
        (Input::Ack(4), None, SendState::Finished),
        (Input::Ack(4), None, SendState::Finished),
        (Input::Nothing, None, SendState::Finished),
    ];
    assert!(rt; sends(rt.alloc(), blocks, &rows)?);
    Ok(())
}

// The rows of a sender of two blocks that gives up.
fn rows_to_the_end() -> [SenderRow; 23] {
    let wait = (Input::Nothing, Some(1), SendState::Running);
    let again = (Input::Nothing, Some(2), SendState::Running);
    let before = (Input::Ack(0), None, SendState::Running);
    let last = (Input::Ack(1), None, SendState::Running);
    let after = (Input::Ack(3), None, SendState::Running);
    [
        wait,
        wait,
        wait,
        wait,
        (Input::Ack(1), Some(2), SendState::Running),
        again,
        before,
        last,
        after,
        again,
        before,
        last,
        after,
        again,
        before,
        last,
        after,
        again,
        before,
        last,
        after,
        (Input::Nothing, None, SendState::TimedOut),
        (Input::Ack(2), None, SendState::TimedOut),
    ]
}

// Only the ACK of the current block is progress.
#[test]
fn a_sender_gives_up(rt: HostRuntime) -> Result<(), Fail> {
    let blocks = Blocks { count: 2, last: 88 };
    assert!(rt; sends(rt.alloc(), blocks, &rows_to_the_end())?);
    Ok(())
}

// Whether a block of 512 bytes is sent, and its receiver waits for another.
fn passes_the_whole_block(first: &Dgram, receiver: &mut Receiver) -> bool {
    let rows = [(Given::Data(1), Some(1), RecvState::Running)];
    is_data(first, 1, &[1; 512])
        && plays_receiver(receiver, &[1; 512], &rows)
        && receiver.take_file().is_none()
}

// Whether an empty block follows, and both ends are done.
fn passes_the_empty_block(sender: &mut Sender<Owned>, receiver: &mut Receiver) -> bool {
    let rows = [(Given::Data(2), Some(2), RecvState::Complete)];
    sends_data(&sender.on_ack(1), 2, b"")
        && plays_receiver(receiver, b"", &rows)
        && sender.on_ack(2).is_none()
        && sender.state() == SendState::Finished
}

// Whether the file is taken out and sent on in the same two blocks.
fn sends_on(receiver: &mut Receiver) -> bool {
    let Some(received) = receiver.take_file() else {
        return false;
    };
    let (mut sender, first) = Sender::start(received);
    is_data(&first, 1, &[1; 512]) && sends_data(&sender.on_ack(1), 2, b"")
}

// Whether both blocks are passed, and the file sent on.
fn passes(alloc: Global, sender: &mut Sender<Owned>, first: &Dgram) -> (bool, bool, bool) {
    let mut receiver = Receiver::new(alloc);
    (
        passes_the_whole_block(first, &mut receiver),
        passes_the_empty_block(sender, &mut receiver),
        sends_on(&mut receiver),
    )
}

fn starts_and_passes(alloc: Global) -> Result<(bool, bool, bool), Fail> {
    let (mut sender, first) = start(alloc, Blocks { count: 2, last: 0 })?;
    Ok(passes(alloc, &mut sender, &first))
}

// A file of 512 bytes ends with an empty block, and what was received is sent on.
#[test]
fn a_whole_block_and_an_empty_one(rt: HostRuntime) -> Result<(), Fail> {
    assert_eq!(rt; starts_and_passes(rt.alloc())?, (true, true, true));
    Ok(())
}

fn is_written(alloc: Global, received: &Received, bytes: &[u8]) -> bool {
    let mut out = Vec::new(alloc);
    received.write_to(&mut out).is_ok() && out.as_slice() == bytes
}

// Whether a file has these bytes, in a vector and as they are written.
fn has_bytes(alloc: Global, received: &Received, wanted: &[u8]) -> bool {
    match received.to_vec(alloc) {
        Ok(bytes) => bytes.as_slice() == wanted && is_written(alloc, received, wanted),
        Err(_fault) => false,
    }
}

// Whether the received file is this one, in one chunk.
fn is_file(alloc: Global, received: &Received) -> bool {
    received.len() == 28 && received.chunk_count() == 1 && has_bytes(alloc, received, HUNDRED)
}

// Whether a receiver hands out the file, and only once.
fn gives_file(alloc: Global, receiver: &mut Receiver) -> bool {
    match receiver.take_file() {
        Some(received) => receiver.take_file().is_none() && is_file(alloc, &received),
        None => false,
    }
}

// Whether a new receiver that is given the file follows these rows, and then hands out the file once.
fn receives_file(alloc: Global, rows: &[ReceiverRow]) -> bool {
    let mut receiver = Receiver::new(alloc);
    plays_receiver(&mut receiver, HUNDRED, rows) && gives_file(alloc, &mut receiver)
}

// The file is given once, at once or later. The last block is acknowledged when it arrives again, but does not make the
// receiver wait longer.
#[test]
fn a_receiver_waits_after_the_last_block(rt: HostRuntime) {
    let first = [(Given::Data(1), Some(1), RecvState::Complete)];
    let rows = [
        (Given::Data(1), Some(1), RecvState::Complete),
        (Given::Nothing, None, RecvState::Complete),
        (Given::Data(1), Some(1), RecvState::Complete),
        (Given::Data(2), None, RecvState::Complete),
        (Given::Nothing, None, RecvState::Over),
        (Given::Data(1), None, RecvState::Over),
        (Given::Nothing, None, RecvState::Over),
    ];
    let are_given = (
        receives_file(rt.alloc(), &first),
        receives_file(rt.alloc(), &rows),
    );
    assert_eq!(rt; are_given, (true, true));
}

// The rows of a receiver of full blocks that waits after this one, and is given others in vain.
fn rows_of_a_wait(last: u16) -> [ReceiverRow; 12] {
    let wait = (Given::Nothing, Some(last), RecvState::Running);
    let again = (
        Given::Data(last),
        (last > 0).then_some(last),
        RecvState::Running,
    );
    let other = (
        Given::Data(last.saturating_add(2)),
        None,
        RecvState::Running,
    );
    [
        wait, again, other, wait, again, other, wait, again, other, wait, again, other,
    ]
}

// Only the next block is progress. There is no block 0.
fn gives_up(receiver: &mut Receiver) -> (bool, bool, bool, bool, bool) {
    let first = [(Given::Data(1), Some(1), RecvState::Running)];
    let end = [
        (Given::Nothing, None, RecvState::TimedOut),
        (Given::Data(2), None, RecvState::TimedOut),
    ];
    (
        plays_receiver(receiver, &[1; 512], &rows_of_a_wait(0)),
        plays_receiver(receiver, &[1; 512], &first),
        plays_receiver(receiver, &[1; 512], &rows_of_a_wait(1)),
        plays_receiver(receiver, &[1; 512], &end),
        receiver.take_file().is_none(),
    )
}

#[test]
fn a_receiver_gives_up(rt: HostRuntime) {
    let is_right = gives_up(&mut Receiver::new(rt.alloc()));
    assert_eq!(rt; is_right, (true, true, true, true, true));
}

// Gives a receiver the 65,534 full blocks of the longest file. Returns whether it goes on after each.
fn takes_full_blocks(receiver: &mut Receiver) -> bool {
    for n in 1..65_535 {
        let rows = [(Given::Data(n), Some(n), RecvState::Running)];
        let body = [n.to_be_bytes()[1]; 512];
        if !plays_receiver(receiver, &body, &rows) {
            return false;
        }
    }
    true
}

// Whether one byte too many is refused, and the file ends without it.
fn takes_the_last_block(receiver: &mut Receiver) -> bool {
    let rows = [(Given::Data(65_535), Some(65_535), RecvState::Complete)];
    receiver.on_data(65_535, &[255; 512]).err() == Some(RecvFault::TooLong)
        && receiver.state() == RecvState::Running
        && plays_receiver(receiver, &[255; 511], &rows)
}

// Whether no number follows that of the last block.
fn is_past_all_numbers(receiver: &mut Receiver) -> bool {
    let again = [(Given::Data(65_535), Some(65_535), RecvState::Complete)];
    let others = [
        (Given::Data(0), None, RecvState::Complete),
        (Given::Data(1), None, RecvState::Complete),
    ];
    plays_receiver(receiver, &[255; 511], &again) && plays_receiver(receiver, &[1; 512], &others)
}

// Whether the bytes of a file, from the offset `from` on, are the numbers of their blocks.
fn are_numbers(bytes: &[u8], from: usize) -> bool {
    bytes.iter().enumerate().all(|(i, b)| usize::from(*b) == (i.wrapping_add(from) / 512 + 1) % 256)
}

// Whether each byte of the longest file is the number of its block, in a vector and as they are written.
fn is_the_greatest(alloc: Global, received: &Received) -> bool {
    match received.to_vec(alloc) {
        Ok(bytes) => {
            received.len() == 33_553_919
                && bytes.len() == 33_553_919
                && are_numbers(&bytes, 0)
                && is_written(alloc, received, &bytes)
        }
        Err(_fault) => false,
    }
}

fn gives_the_greatest(alloc: Global, receiver: &mut Receiver) -> bool {
    match receiver.take_file() {
        Some(received) => is_the_greatest(alloc, &received),
        None => false,
    }
}

fn receives_the_greatest(alloc: Global) -> (bool, bool, bool, bool) {
    let mut receiver = Receiver::new(alloc);
    (
        takes_full_blocks(&mut receiver),
        takes_the_last_block(&mut receiver),
        is_past_all_numbers(&mut receiver),
        gives_the_greatest(alloc, &mut receiver),
    )
}

// 65,534 full blocks and one of 511 bytes; one more byte cannot be numbered.
#[test]
fn the_greatest_file(rt: HostRuntime) {
    assert_eq!(rt; receives_the_greatest(rt.alloc()), (true, true, true, true));
}

fn takes_block(receiver: &mut Receiver, blocks: Blocks, n: u16) -> bool {
    let (bytes, size) = block(blocks, n);
    receiver.on_data(n, &bytes[..size]).is_ok()
}

fn takes_blocks(receiver: &mut Receiver, blocks: Blocks) -> bool {
    for n in 1..=blocks.count {
        if !takes_block(receiver, blocks, n) {
            return false;
        }
    }
    true
}

// Whether a file has `count` chunks, the last one of size `last` and the others full, and each byte of them is the number
// of its block.
fn has_chunks(received: &Received, count: usize, last: usize) -> bool {
    for i in 0..received.chunk_count() {
        let chunk = received.chunk(i);
        let is_last = i.wrapping_add(1) == count;
        let size = if is_last { last } else { 16_384 };
        if !are_numbers(chunk, i.wrapping_mul(16_384)) || chunk.len() != size {
            return false;
        }
    }
    received.chunk_count() == count
}

// Whether a file has `length` bytes, each the number of its block.
fn has_numbers(alloc: Global, received: &Received, length: usize) -> bool {
    match received.to_vec(alloc) {
        Ok(bytes) => bytes.len() == length && are_numbers(&bytes, 0),
        Err(_fault) => false,
    }
}

// Whether the file that is received from these blocks has them all, in `count` chunks, the last one of size `last`.
fn is_in_chunks(alloc: Global, blocks: Blocks, count: usize, last: usize) -> bool {
    let mut receiver = Receiver::new(alloc);
    let length = (usize::from(blocks.count).wrapping_sub(1))
        .wrapping_mul(512)
        .wrapping_add(blocks.last);
    let are_taken = takes_blocks(&mut receiver, blocks);
    match receiver.take_file() {
        Some(received) => {
            are_taken && has_numbers(alloc, &received, length) && has_chunks(&received, count, last)
        }
        None => false,
    }
}

// A chunk has 16,384 bytes, and the last one at least 1.
#[test]
fn files_in_chunks(rt: HostRuntime) {
    let rows = [
        (1, 0, 0, 0),
        (1, 511, 1, 511),
        (2, 0, 1, 512),
        (2, 1, 1, 513),
        (33, 0, 1, 16_384),
        (33, 1, 2, 1),
    ];
    for (block_count, last, count, last_chunk) in rows {
        let blocks = Blocks {
            count: block_count,
            last,
        };
        assert!(rt;
            is_in_chunks(rt.alloc(), blocks, count, last_chunk),
            "{block_count}, {last}"
        );
    }
}
