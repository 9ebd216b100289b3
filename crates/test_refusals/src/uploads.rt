//! Puts at a table whose requests for memory are refused.

// An upload of two blocks to the server's table: repeated blocks and time-outs do not allocate.
use crate::blocks::Blocks;
use crate::table_steps::{open, repeats, takes_block, wait};
use crate::tables::{Deed, is_right};
use archive_table::Table;
use refusing::{Outcome, Refusing};
use std::alloc::{Allocator, Global};
use test_samples::{ACK_0, ACK_1, ACK_2, ALICE};

// Whether ACK 0 is sent again at a time-out after the open, without a request for memory.
fn waits<A: Allocator + Copy>(refusing: &Refusing<Global>, table: &mut Table<A>) -> bool {
    let before = refusing.requests();
    let is_repeated = repeats(table, 4000, ALICE, ACK_0);
    is_repeated && refusing.requests() == before
}

// The same for the first block when it comes again, and for a time-out after it.
fn repeats_ack<A: Allocator + Copy>(
    refusing: &Refusing<Global>,
    table: &mut Table<A>,
    file: &Blocks,
) -> bool {
    let before = refusing.requests();
    let is_acked = takes_block(table, &file.first, ACK_1, false);
    let is_repeated = repeats(table, 4000, ALICE, ACK_1);
    is_acked && is_repeated && refusing.requests() == before
}

// Whether nothing is sent at a time-out, and the next one ends the transfer.
fn ends<A: Allocator + Copy>(table: &mut Table<A>) -> bool {
    let first = wait(table, 4000, ALICE, b"");
    let second = wait(table, 4000, ALICE, b"");
    first.is_silent && second.closes
}

// Whether a taken file's last block is acknowledged again and the transfer then ends, without a request for memory.
fn dallies<A: Allocator + Copy>(
    refusing: &Refusing<Global>,
    table: &mut Table<A>,
    file: &Blocks,
) -> bool {
    let before = refusing.requests();
    let is_acked = takes_block(table, &file.second, ACK_2, false);
    let has_ended = ends(table);
    is_acked && has_ended && refusing.requests() == before
}

// Whether an upload with such repetitions takes the file.
pub(crate) fn uploads<A: Allocator + Copy>(
    refusing: &Refusing<Global>,
    table: &mut Table<A>,
    file: &Blocks,
) -> bool {
    let is_open = open(table) == Outcome::Right;
    let waits = waits(refusing, table);
    let is_first = takes_block(table, &file.first, ACK_1, false);
    let repeats_ack = repeats_ack(refusing, table, file);
    let is_second = takes_block(table, &file.second, ACK_2, true);
    let dallies = dallies(refusing, table, file);
    is_open && waits && is_first && repeats_ack && is_second && dallies
}

#[test]
fn repeated_blocks_and_timeouts(rt: HostRuntime) {
    assert!(rt; is_right(rt.alloc(), Deed::Upload));
}
