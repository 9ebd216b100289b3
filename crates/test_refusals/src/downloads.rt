//! Gets at a table whose requests for memory are refused.

// A download from the server's table does not allocate after its first block, nor to open if another one has its text.
use crate::answers::goes;
use crate::blocks::Blocks;
use crate::table_steps::{Asked, answers, ask, handle, open, repeats, takes_block};
use crate::tables::{Deed, is_right};
use archive_table::Table;
use refusing::{Outcome, Refusing};
use std::alloc::{Allocator, Global};
use test_samples::{ACK_0, ACK_1, ACK_2, ALICE, BOB, RRQ_LYNX, UNKNOWN_TRANSFER};

// Whether a file is taken.
fn takes<A: Allocator + Copy>(table: &mut Table<A>, file: &Blocks) -> bool {
    let is_open = open(table) == Outcome::Right;
    let is_first = takes_block(table, &file.first, ACK_1, false);
    let is_second = takes_block(table, &file.second, ACK_2, true);
    is_open && is_first && is_second
}

// Whether a download is opened at this port, with this as its first block.
fn opens<A: Allocator + Copy>(table: &mut Table<A>, port: u16, first: &[u8]) -> bool {
    match ask(table, port, BOB, RRQ_LYNX, first) {
        Asked::Opened(is_sent) => is_sent,
        _ => false,
    }
}

// Whether a block is sent again at a time-out, ACK 0 has no effect, and a stranger is sent its ERROR.
fn waits<A: Allocator + Copy>(table: &mut Table<A>, block: &[u8]) -> bool {
    let is_repeated = repeats(table, 4001, BOB, block);
    let is_ignored = handle(table, 4001, BOB, ACK_0, b"").is_silent;
    let is_refused = answers(table, 4001, ALICE, ACK_1, UNKNOWN_TRANSFER);
    is_repeated && is_ignored && is_refused
}

// Whether a datagram of its peer closes the transfer at this port.
fn closes<A: Allocator + Copy>(table: &mut Table<A>, port: u16, bytes: &[u8]) -> bool {
    handle(table, port, BOB, bytes, b"").closes
}

// Whether the rest of the download is right: each block is sent once more at a time-out, the second one at the ACK of
// the first, and the transfer ends at the ACK of the second.
fn goes_on<A: Allocator + Copy>(table: &mut Table<A>, file: &Blocks) -> bool {
    let first = waits(table, &file.first);
    let is_acked = answers(table, 4001, BOB, ACK_1, &file.second);
    let second = waits(table, &file.second);
    let is_closed = closes(table, 4001, ACK_2);
    first && is_acked && second && is_closed && table.live() == 1
}

// Whether a file is taken and downloaded, with no request for memory after the download has begun.
pub(crate) fn downloads<A: Allocator + Copy>(
    refusing: &Refusing<Global>,
    table: &mut Table<A>,
    file: &Blocks,
) -> bool {
    let is_taken = takes(table, file);
    let is_begun = opens(table, 4001, &file.first);
    let begun = refusing.requests();
    let goes_on = goes_on(table, file);
    is_taken && is_begun && goes_on && refusing.requests() == begun
}

#[test]
fn a_download_after_its_first_block(rt: HostRuntime) {
    assert!(rt; is_right(rt.alloc(), Deed::Download));
}

// Whether an ERROR of its peer closes the transfer at this port.
fn breaks_off<A: Allocator + Copy>(table: &mut Table<A>, port: u16) -> bool {
    closes(table, port, b"\0\x05\0\0\0")
}

// Whether a second download is opened, the first one ends and begins again, and both end and one begins again.
fn opens_others<A: Allocator + Copy>(table: &mut Table<A>, first: &[u8]) -> bool {
    let second = opens(table, 4002, first);
    let is_broken_off = breaks_off(table, 4001);
    let again = opens(table, 4001, first);
    let are_broken_off = (breaks_off(table, 4001), breaks_off(table, 4002));
    let last = opens(table, 4001, first);
    second && is_broken_off && again && are_broken_off == (true, true) && last
}

// Whether that is so after a first download has begun, and makes no request for memory.
pub(crate) fn shares<A: Allocator + Copy>(
    refusing: &Refusing<Global>,
    table: &mut Table<A>,
    file: &Blocks,
) -> bool {
    let is_taken = takes(table, file);
    let is_first = opens(table, 4001, &file.first);
    let first = refusing.requests();
    let opens_others = opens_others(table, &file.first);
    is_taken && is_first && opens_others && refusing.requests() == first
}

// The second download has the snapshot of the first, and so has one after both have ended.
#[test]
fn downloads_of_one_text(rt: HostRuntime) {
    assert!(rt; is_right(rt.alloc(), Deed::Share));
}
